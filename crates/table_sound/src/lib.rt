// Whether memories describe a table.
#![tactic(auto)]

ghost use Rattle.std.specs.Prelude.{◌≡◌, ◌+◌, ◌<◌, ◌≤◌, length, true};
ghost use Rattle.rows.specs.Rows.{rows_from};
ghost use Rattle.places.specs.Sizes.{slot_count, holder_count, most_places};
ghost use Rattle.places.specs.Counts.{each_below};
ghost use Rattle.places.specs.declared.Family.TheVariants.{Windows};
ghost use Rattle.slots.specs.Families.{capacity, index_length};
ghost use Rattle.slots.specs.Sound.{each_from, sound_index};
ghost use Rattle.body.specs.Bodies.{slot_of, body_ok};
ghost use Rattle.table.specs.Memory.{bodies_length, group_size, record_ok, holder_ok, marked_ok, unmarked, sound_table};

// The heads of places are tested by groups: where no place of a group has a mark, one test passes them.
const GROUP: usize = 8;

const GROUPS: usize = 8;

// Whether slot i of the bodies holds a body of rows low to high, with marks up to m.
fn body_ok(bodies: &[u8], i: usize, low: usize, high: usize, m: u8) -> bool
    requires { (bodies_length ≤ length bodies.now) × (i < 49) × (low ≤ high) × (high ≤ 31) }
    ensures { result ≡ body_ok (rows_from low high) m m (slot_of bodies.now i) }
{
    let base = body::start(i);
    let end = body::start(i + 1);
    body_rule::sound(&bodies[base..end], low, high, m, m)
}

// Whether slot i holds a window, for the slots that windows have: their length is known to the compiler.
fn window_ok(bodies: &[u8], i: usize) -> bool
    requires { (bodies_length ≤ length bodies.now) × (i < capacity Windows) }
    ensures { result ≡ body_ok (rows_from 1 22) 0 0 (slot_of bodies.now i) }
{
    let base = body::WINDOW * i;
    let end = base + body::WINDOW;
    body_rule::window_sound(&bodies[base..end])
}

// Whether slot i of the windows is free or holds one.
fn window_record_ok(index: &[u8], bodies: &[u8], i: usize) -> bool
    requires { (index_length ≤ length index.now) × (bodies_length ≤ length bodies.now) × (i < capacity Windows) }
    ensures { result ≡ record_ok (rows_from 1 22) index.now bodies.now i }
{
    if index[places::LENGTH + slots::SLOT * i] != 1 {
        return true;
    }
    window_ok(bodies, i)
}

// Each of the slots of windows is.
fn windows_ok(index: &[u8], bodies: &[u8]) -> bool
    requires { (index_length ≤ length index.now) × (bodies_length ≤ length bodies.now) }
    ensures { result ≡ each_from (capacity Windows) 0 (record_ok (rows_from 1 22) index.now bodies.now) }
{
    let mut i = 0;
    while i < slots::WINDOWS {
        if !window_record_ok(index, bodies, i) {
            return false;
        }
        i += 1;
    }
    true
}

// Whether slot i is free or holds a body of rows low to high.
fn record_ok(index: &[u8], bodies: &[u8], i: usize, low: usize, high: usize) -> bool
    requires { (index_length ≤ length index.now) × (bodies_length ≤ length bodies.now) × (i < slot_count) × (low ≤ high) × (high ≤ 31) }
    ensures { result ≡ record_ok (rows_from low high) index.now bodies.now i }
{
    if index[places::LENGTH + slots::SLOT * i] != 1 {
        return true;
    }
    body_ok(bodies, i, low, high, 0)
}

// Each of the slots of a family is.
fn records_ok(
    index: &[u8],
    bodies: &[u8],
    first: usize,
    count: usize,
    low: usize,
    high: usize,
) -> bool
    requires { (index_length ≤ length index.now) × (bodies_length ≤ length bodies.now) × (first + count ≤ slot_count) × (low ≤ high) × (high ≤ 31) }
    ensures { result ≡ each_from count first (record_ok (rows_from low high) index.now bodies.now) }
{
    let end = first + count;
    let mut i = first;
    while i < end {
        if !record_ok(index, bodies, i, low, high) {
            return false;
        }
        i += 1;
    }
    true
}

// Whether the head of place p is in its sets, where a holder points at it.
fn place_ok(marks: &[u8; places::POINTERS], bodies: &[u8], p: usize) -> bool
    requires { (bodies_length ≤ length bodies.now) × (p < most_places) }
    ensures { result ≡ marked_ok marks.now bodies.now p }
{
    if marks[p + 1] == 0 {
        return true;
    }
    picture::is_ok(&bodies[table::HEADS..], p)
}

// Whether no place of a group has a mark.
fn is_unmarked(group: &[u8]) -> bool
    ensures { result ≡ unmarked group.now }
{
    let a = wire::read_u32(group, 0);
    let b = wire::read_u32(group, 4);
    (a == 0) & (b == 0)
}

// So it is of every place up to a group's last, those before the group having passed.
fn group_ok(marks: &[u8; places::POINTERS], bodies: &[u8], from: usize) -> bool
    requires { (bodies_length ≤ length bodies.now) × (from + group_size ≤ most_places) × (each_below from (marked_ok marks.now bodies.now) ≡ true) }
    ensures { result ≡ each_below (from + group_size) (marked_ok marks.now bodies.now) }
{
    let first = from + 1;
    let last = first + GROUP;
    let all = &marks[..];
    if is_unmarked(&all[first..last]) {
        return true;
    }
    let end = from + GROUP;
    let mut p = from;
    while p < end {
        if !place_ok(marks, bodies, p) {
            return false;
        }
        p += 1;
    }
    true
}

// So it is of every place.
fn places_ok(marks: &[u8; places::POINTERS], bodies: &[u8]) -> bool
    requires { bodies_length ≤ length bodies.now }
    ensures { result ≡ each_below most_places (marked_ok marks.now bodies.now) }
{
    let mut g = 0;
    while g < GROUPS {
        if !group_ok(marks, bodies, GROUP * g) {
            return false;
        }
        g += 1;
    }
    true
}

// Whether the head of the place that a holder points at is in its sets, for every holder: each place is tested once, however many
// point at it.
fn holders_ok(index: &[u8], bodies: &[u8]) -> bool
    requires { (sound_index index.now ≡ true) × (bodies_length ≤ length bodies.now) }
    ensures { result ≡ each_below holder_count (holder_ok index.now bodies.now) }
{
    let marks = places_free::marks(index);
    places_ok(&marks, bodies)
}

// Whether the memories describe a table, with so many places lent.
pub fn is_sound(index: &[u8], bodies: &[u8], lent: usize) -> bool
    ensures { result ≡ sound_table index.now bodies.now lent }
{
    if bodies.len() < table::BODIES {
        return false;
    }
    if !slots::sound::is_sound(index) {
        return false;
    }
    if lent < (index[0] as usize) {
        return false;
    }
    if !windows_ok(index, bodies) {
        return false;
    }
    if !records_ok(index, bodies, slots::WINDOWS, slots::NOTIFICATIONS, 23, 29) {
        return false;
    }
    if !body_ok(bodies, 48, 29, 31, 1) {
        return false;
    }
    holders_ok(index, bodies)
}
