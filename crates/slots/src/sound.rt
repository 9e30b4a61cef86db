// Whether a memory describes an index: holders and places in order, used is 0 or 1, no ids stand twice, windows have no second
// id, and a slot without a record has no pointers.
ghost use Rattle.std.specs.Prelude.{◌≡◌, true, ◌+◌, ◌≤◌, ◌<◌, eqb, length};
ghost use Rattle.wire.specs.Tests.{both};
ghost use Rattle.places.specs.Sizes.{slot_count};
ghost use Rattle.slots.specs.Families.{index_length};
ghost use Rattle.slots.specs.Sound.{no_pointers, slot_ok, each_from, sound_index, mark_of, Seen};

// One of 256 marks of a pair of ids, their bytes mixed.
fn mark(a: u32, b: u32) -> usize
    ensures { (result ≡ mark_of a b) × (result < 256) }
{
    let mixed = a as u64 * 0x61C8_8647 + b as u64 * 0x045D_9F3B;
    (mixed / 16777216 % 256) as usize
}

// The icons of slot i point at nothing.
fn no_pointers(index: &[u8], i: usize) -> bool
    requires { (index_length ≤ length index.now) × (i < slot_count) }
    ensures { result ≡ no_pointers index.now i }
{
    let at = places::CELLS + places::ICONS_EACH * i + 1;
    (index[at] == 0) & ((index[at + 1] == 0) & (index[at + 2] == 0))
}

// Slot i, whose first byte is this, has no record and no pointers. Both are read before either is judged: a slot with a record is
// then told by one test.
fn is_free(index: &[u8], used: u8, i: usize) -> bool
    requires { (index_length ≤ length index.now) × (i < slot_count) }
    ensures { result ≡ both (eqb used 0) (no_pointers index.now i) }
{
    let none = no_pointers(index, i);
    (used == 0) & none
}

// Slot i has no record and no pointers, or is the first with its ids, of which the second is at most top. The ids of the slots
// before it have marks in seen: only slots from the first with the same mark on are compared.
fn slot_ok(
    index: &[u8],
    seen: &mut [u8; 256],
    first: usize,
    count: usize,
    top: u32,
    i: usize,
) -> bool
    requires count_bound { (first + count ≤ slot_count) × (first ≤ i) × (i < first + count) × (index_length ≤ length index.now) }
    requires seen { Seen seen.old index.now first i }
    ensures value { result ≡ slot_ok index.now first count top i }
    ensures seen_2 { result ≡ true → Seen seen.new index.now first (i + 1) }
{
    let base = places::LENGTH + crate::SLOT * i;
    let used = index[base];
    if used != 1 {
        return is_free(index, used, i);
    }
    let past = base + crate::SLOT;
    let a = wire::read_u32(&index[base..past], 1);
    let b = wire::read_u32(&index[base..past], 5);
    if top < b {
        return false;
    }
    let m = mark(a, b);
    if seen[m] == 0 {
        seen[m] = (i + 1) as u8;
        return true;
    }
    let from = seen[m] as usize - 1;
    crate::search(index, from, i - from, a, b).found.is_none()
}

// Each of the slots of a family is.
fn slots_ok(index: &[u8], first: usize, count: usize, top: u32) -> bool
    requires { (first + count ≤ slot_count) × (index_length ≤ length index.now) }
    ensures { result ≡ each_from count first (slot_ok index.now first count top) }
{
    let mut seen = [0u8; 256];
    for i in first..first + count {
        if !slot_ok(index, &mut seen, first, count, top, i) {
            return false;
        }
    }
    true
}

// The memory describes an index, for memory of any length.
pub fn is_sound(index: &[u8]) -> bool
    ensures { result ≡ sound_index index.now }
{
    if index.len() < crate::LENGTH {
        return false;
    }
    if !places_valid::is_valid(index) {
        return false;
    }
    if !slots_ok(index, 0, crate::WINDOWS, 0) {
        return false;
    }
    slots_ok(index, crate::WINDOWS, crate::NOTIFICATIONS, 0xFFFF_FFFF)
}
