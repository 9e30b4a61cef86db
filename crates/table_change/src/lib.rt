// An order delivered to a table, a table emptied, and what an order changes in the bodies and in the store. An order is judged whole
// before any byte changes.
#![tactic(auto)]

ghost use Rattle.std.specs.Prelude.{◌≡◌, true, false, ◌+◌, ◌≤◌, length};
ghost use Rattle.rows.specs.Rows.{rows_from};
ghost use Rattle.places.specs.Sizes.{fewest_places};
ghost use Rattle.slots.specs.Families.{index_length};
ghost use Rattle.body.specs.Bodies.{desktop_fields};
ghost use Rattle.body.specs.Stores.{room_all, store_of, prepared_of, EndsWell};
ghost use Rattle.store.specs.Store.{places_in, five};
ghost use Rattle.table.specs.Table.{field_rows};
ghost use Rattle.table.specs.Memory.{bodies_length, heads_start, fixed_by, sound_table};
ghost use Rattle.table.specs.Changes.{slot_after, slots_after, slots_by, brought_by, heads_by, store_by, desktop_slot, Able, Follows};
ghost use Rattle.table.specs.Outcome.{Emptied, Delivered};

use index::{Change, Plan};
use places::Family;
use table::Brought;

// A slot with the fields of rows low to high that an order carries from index at on.
fn store_fields(
    slot: &mut [u8],
    s: &[u8],
    flags: u32,
    fresh: bool,
    at: usize,
    low: usize,
    high: usize,
)
    requires le_at { (1 ≤ at) × (at ≤ length s.now) × (low ≤ high) × (high ≤ 31) × (2 + room_all (rows_from low high) ≤ length slot.old) }
    requires ends_well { EndsWell (rows_from low high) flags s.now at }
    ensures { slot.new ≡ store_of (rows_from low high) 2 flags s.now at (prepared_of fresh slot.old) }
{
    body::prepare(slot, fresh);
    body_store::store(slot, s, at, flags, low, high);
}

// Changes the slot of a record.
pub fn change_slot(slot: &mut [u8], s: &[u8], c: Change)
    requires { (2 + room_all (field_rows c.family) ≤ length slot.old) × Able s.now c }
    ensures { slot.new ≡ slot_after s.now c slot.old }
{
    let family = c.family;
    match family {
        Family::Windows => store_fields(slot, s, c.flags, c.fresh, 11, 1, 22),
        Family::Notifications => store_fields(slot, s, c.flags, c.fresh, 15, 23, 29),
    }
}

// Changes the slot of the desktop state.
pub fn desktop_slot(slot: &mut [u8], s: &[u8], flags: u32)
    requires slot_len { (length slot.old ≡ 916) × (7 ≤ length s.now) }
    requires ends_well { EndsWell desktop_fields flags s.now 7 }
    ensures { slot.new ≡ desktop_slot flags s.now slot.old }
{
    if flags & protocol::DESKTOP_NONE != 0 {
        body::prepare(slot, true);
        return;
    }
    body::hook(slot, flags);
    body::sync(slot, flags);
    body_store::store(slot, s, 7, flags, 29, 31);
}

// Changes the slot that a change names, unless it deletes the record there.
fn record_slot(bodies: &mut [u8], s: &[u8], c: Change)
    requires { (bodies_length ≤ length bodies.old) × Able s.now c }
    ensures { bodies.new ≡ slots_after s.now c bodies.old }
{
    if c.deleted {
        return;
    }
    let base = body::start(c.slot);
    let end = body::start(c.slot + 1);
    change_slot(&mut bodies[base..end], s, c);
}

// Changes the slots of the bodies.
fn change_bodies(bodies: &mut [u8], s: &[u8], p: Plan)
    requires { (bodies_length ≤ length bodies.old) × Follows s.now p }
    ensures { bodies.new ≡ slots_by s.now p bodies.old }
{
    match p {
        Plan::ChangeRecord(c) => record_slot(bodies, s, c),
        Plan::ChangeDesktop(flags) => {
            desktop_slot(&mut bodies[table::DESKTOP..table::HEADS], s, flags)
        }
        Plan::Refuse(_) => {}
    }
}

// Where the heads begin, as a number that the check does not take apart.
fn heads_start() -> usize
    ensures { result ≡ heads_start }
{
    table::HEADS
}

// The picture that a plan puts.
fn brought(p: Plan) -> Brought
    ensures { result ≡ brought_by p }
{
    let Plan::ChangeRecord(c) = p else {
        return Brought {
            there: false,
            place: 0,
            icon: 0,
        };
    };
    let there = !c.deleted & (c.flags & protocol::ICON != 0);
    Brought {
        there,
        place: c.place,
        icon: c.icon as usize,
    }
}

// Puts the picture that an order brings at its place.
fn put_picture(
    bodies: &mut [u8],
    a: &mut [u8],
    b: &mut [u8],
    c: &mut [u8],
    d: &mut [u8],
    e: &mut [u8],
    s: &[u8],
    p: Plan,
)
    requires { (bodies_length ≤ length bodies.old) × Follows s.now p }
    ensures bodies_after { bodies.new ≡ heads_by s.now p bodies.old }
    ensures e_after { five a.new b.new c.new d.new e.new ≡ store_by s.now p (five a.old b.old c.old d.old e.old) }
{
    let g = brought(p);
    if !g.there {
        return;
    }
    let at = heads_start();
    let end = bodies.len();
    picture::put(&mut bodies[at..end], a, b, c, d, e, g.place, s, g.icon);
}

// The number of places that emptying fixes: those lent, at most 64.
fn fixed(lent: usize) -> u8
    ensures { result ≡ fixed_by lent }
{
    if (places::MOST as usize) < lent {
        return places::MOST;
    }
    lent as u8
}

// Empties a table to which so many places are lent: no record, no picture, and a desktop state of zeros.
pub fn empty(index: &mut [u8], bodies: &mut [u8], lent: usize)
    requires { (index_length ≤ length index.old) × (bodies_length ≤ length bodies.old) × (fewest_places ≤ lent) }
    ensures { Emptied index.old bodies.old lent index.new bodies.new }
{
    let n = fixed(lent);
    index_change::empty(index, n);
    body::prepare(&mut bodies[table::DESKTOP..table::HEADS], true);
}

// Delivers an order: judges it whole, and changes the table where it is not refused.
pub fn deliver(
    index: &mut [u8],
    bodies: &mut [u8],
    a: &mut [u8],
    b: &mut [u8],
    c: &mut [u8],
    d: &mut [u8],
    e: &mut [u8],
    s: &[u8],
) -> u8
    requires { sound_table index.old bodies.old (places_in (five a.old b.old c.old d.old e.old)) ≡ true }
    ensures { Delivered index.old bodies.old (five a.old b.old c.old d.old e.old) s.now result index.new bodies.new (five a.new b.new c.new d.new e.new) }
{
    let p = index_plan::judge(index, s);
    change_bodies(bodies, s, p);
    put_picture(bodies, a, b, c, d, e, s, p);
    index_change::apply(index, p);
    index_plan::number(p)
}
