// The memory of an index, 589 bytes: those of `places`, then 48 slots, 9 bytes each (used 1, window id 4, notify-icon id 4): 32
// of windows, then 16 of notification icons.
#![tactic(auto)]

ghost use Rattle.std.specs.Prelude.{◌≡◌, ◌+◌, ◌<◌, ◌≤◌, length};
ghost use Rattle.wire.specs.Tests.{both};
ghost use Rattle.places.specs.Sizes.{slot_count};
ghost use Rattle.slots.specs.Families.{index_length, is_within};
ghost use Rattle.places.specs.Counts.{first_from};
ghost use Rattle.slots.specs.Slots.{is_free, is_at, slot_has, free_of, search_from, search_of};

use places::Family;
use protocol::{NotifyIconId, WindowId};

pub mod sound;

pub const WINDOWS: usize = 32;

pub const NOTIFICATIONS: usize = 16;

// All of them; as the number of a slot, none.
pub const COUNT: usize = WINDOWS + NOTIFICATIONS;

// Half of the slots of windows.
const HALF: usize = 16;

pub const SLOT: usize = 9;

// The bytes of an index.
pub const LENGTH: usize = 589;

// What a search for a record found, and how many slots it looked at.
#[derive(Clone, Copy)]
pub struct Searched {
    pub found: Option<usize>,
    pub looked: usize,
}

// The 9 bytes of a slot that has the record of the ids a and b.
fn has_ids(slot: &[u8], a: u32, b: u32) -> bool
    ensures { result ≡ slot_has slot.now a b }
{
    if wire::read_u32(slot, 1) != a {
        return false;
    }
    if wire::read_u8(slot, 0) != 1 {
        return false;
    }
    wire::read_u32(slot, 5) == b
}

// Slot i has the record of the ids a and b.
fn is_at(index: &[u8], i: usize, a: u32, b: u32) -> bool
    requires { (i < slot_count) × (index_length ≤ length index.now) }
    ensures { result ≡ is_at index.now a b i }
{
    let base = places::LENGTH + SLOT * i;
    let past = base + SLOT;
    has_ids(&index[base..past], a, b)
}

// The first of count slots that has the record of the ids a and b, and how many slots were looked at.
pub fn search(index: &[u8], first: usize, count: usize, a: u32, b: u32) -> Searched
    requires { (first + count ≤ slot_count) × (index_length ≤ length index.now) }
    ensures { result ≡ search_from count first (is_at index.now a b) }
{
    for i in first..first + count {
        if is_at(index, i, a, b) {
            return Searched {
                found: Some(i),
                looked: i - first + 1,
            };
        }
    }
    Searched {
        found: None,
        looked: count,
    }
}

// The first of count slots that has no record.
fn unused(index: &[u8], first: usize, count: usize) -> Option<usize>
    requires { (first + count ≤ slot_count) × (index_length ≤ length index.now) }
    ensures { result ≡ first_from count first (is_free index.now) }
{
    for i in first..first + count {
        if index[places::LENGTH + SLOT * i] != 1 {
            return Some(i);
        }
    }
    None
}

// The same of the slots of windows, in two halves: a search of 16 slots from one that is known takes two instructions a slot, as
// the compiler writes each out.
fn search_windows(index: &[u8], a: u32, b: u32) -> Searched
    requires { index_length ≤ length index.now }
    ensures { result ≡ search_from 32 0 (is_at index.now a b) }
{
    let f = search(index, 0, HALF, a, b);
    match f.found {
        Some(_) => f,
        None => {
            let g = search(index, HALF, HALF, a, b);
            Searched {
                found: g.found,
                looked: HALF + g.looked,
            }
        }
    }
}

// The slot of a record, and how many slots the search looked at.
pub fn find(index: &[u8], family: Family, window: WindowId, notify: NotifyIconId) -> Searched
    requires { index_length ≤ length index.now }
    ensures { result ≡ search_of index.now family window.id notify.id }
{
    match family {
        Family::Windows => search_windows(index, window.id, notify.id),
        Family::Notifications => search(index, WINDOWS, NOTIFICATIONS, window.id, notify.id),
    }
}

// Slot i is one of a family's and has the record of the ids.
pub fn has_record(
    index: &[u8],
    family: Family,
    window: WindowId,
    notify: NotifyIconId,
    i: usize,
) -> bool
    requires { index_length ≤ length index.now }
    ensures { result ≡ both (is_within family i) (is_at index.now window.id notify.id i) }
{
    match family {
        Family::Windows => {
            if WINDOWS <= i {
                return false;
            }
            is_at(index, i, window.id, notify.id)
        }
        Family::Notifications => {
            if !((WINDOWS <= i) & (i < COUNT)) {
                return false;
            }
            is_at(index, i, window.id, notify.id)
        }
    }
}

// The first slot of a family that has no record.
pub fn free(index: &[u8], family: Family) -> Option<usize>
    requires { index_length ≤ length index.now }
    ensures { result ≡ free_of index.now family }
{
    match family {
        Family::Windows => unused(index, 0, WINDOWS),
        Family::Notifications => unused(index, WINDOWS, NOTIFICATIONS),
    }
}
