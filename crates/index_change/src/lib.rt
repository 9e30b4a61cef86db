// What a plan changes in the index of a table, carried out.
#![tactic(auto)]

ghost use Rattle.std.specs.Prelude.{◌≡◌, ◌<◌, ◌≤◌, length};
ghost use Rattle.places.specs.Sizes.{slot_count};
ghost use Rattle.slots.specs.Families.{index_length};
ghost use Rattle.index.specs.Changes.{listed_of, removed_of, pictured_of, changed_of, cleared_of, emptied_of, applied_of, Fits, FitsPlan};

use index::{Change, Plan};

// The bytes of the slots.
const SLOTS: usize = 432;

// Lists the ids a and b in slot i.
pub fn list(index: &mut [u8], i: usize, a: u32, b: u32)
    requires { (index_length ≤ length index.old) × (i < slot_count) }
    ensures { index.new ≡ listed_of index.old i a b }
{
    let at = places::LENGTH + slots::SLOT * i;
    wire::write_u8(index, at, 1);
    wire::write_u32(index, at + 1, a);
    wire::write_u32(index, at + 5, b);
}

// The record in slot i is deleted: its icons let go, its slot is free.
pub fn remove(index: &mut [u8], i: usize)
    requires { (index_length ≤ length index.old) × (i < slot_count) }
    ensures { index.new ≡ removed_of index.old i }
{
    let icon = places::CELLS + places::ICONS_EACH * i;
    places_change::release(index, icon);
    places_change::release(index, icon + 1);
    places_change::release(index, icon + 2);
    wire::write_u8(index, places::LENGTH + slots::SLOT * i, 0);
}

// An icon's holders at its place, a cached icon's pointer at its cell's, that of an overlay icon set to none at nothing.
fn picture(index: &mut [u8], c: Change)
    requires { (index_length ≤ length index.old) × Fits c }
    ensures { index.new ≡ pictured_of index.old c }
{
    let flags = c.flags;
    if flags & protocol::ICON != 0 {
        places_change::take_at(index, c.cell, c.pointer, c.place);
        return;
    }
    if flags & protocol::CACHED_ICON != 0 {
        places_change::share(index, c.pointer, c.cell);
        return;
    }
    if flags & protocol::OVERLAY_NONE != 0 {
        places_change::release(index, c.pointer);
    }
}

// The change of a record.
pub fn change(index: &mut [u8], c: Change)
    requires { (index_length ≤ length index.old) × Fits c }
    ensures { index.new ≡ changed_of index.old c }
{
    if c.deleted {
        remove(index, c.slot);
        return;
    }
    if c.fresh {
        list(index, c.slot, c.window.id, c.notify.id);
        picture(index, c);
        return;
    }
    picture(index, c);
}

// Desktop none: no record is listed, and no record's icon points at a place.
pub fn clear(index: &mut [u8])
    requires { index_length ≤ length index.old }
    ensures { index.new ≡ cleared_of index.old }
{
    places_change::release_records(index);
    wire::clear(index, places::LENGTH, SLOTS);
}

// Carries out a plan.
pub fn apply(index: &mut [u8], p: Plan)
    requires { (index_length ≤ length index.old) × FitsPlan p }
    ensures { index.new ≡ applied_of index.old p }
{
    match p {
        Plan::ChangeRecord(c) => change(index, c),
        Plan::ChangeDesktop(flags) => {
            if flags & protocol::DESKTOP_NONE != 0 {
                clear(index);
            }
        }
        Plan::Refuse(_) => {}
    }
}

// The index of an emptied table, with a number of places.
pub fn empty(index: &mut [u8], places: u8)
    requires { index_length ≤ length index.old }
    ensures { index.new ≡ emptied_of index.old places }
{
    wire::clear(index, 0, slots::LENGTH);
    wire::write_u8(index, 0, places);
}
