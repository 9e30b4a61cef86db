// The state calls, what they are asked and what they answer: types, definitions and laws. The calls that change a state are
// those of `state_calls`, the lookups those of `lookups`. The state is a table at the last checkpoint and a journal of the orders since,
// in lent memory: index, bodies, a store of pictures in five parts, journal. A call that cannot change a memory takes it shared, and
// one that needs no picture is told how many places are lent; bytes past the needed lengths stay as they were.
#![tactic(auto)]

use protocol::{NotifyIconId, WindowId};

// The needed bytes of index with the figures behind it, bodies and journal.
pub const INDEX: usize = figure::LENGTH;

pub const BODIES: usize = table::BODIES;

pub const JOURNAL: usize = journal::LENGTH;

// The number of an answer and, where it is 0, how many orders stand after the mark and their bytes in all.
#[derive(Clone, Copy, Debug, PartialEq, Eq)]
pub struct Reply {
    pub number: u8,
    pub count: u32,
    pub bytes: u32,
}

// Who shows a picture: a cell by cache id and entry, a window's small, big or overlay icon, or a notification icon.
#[derive(Clone, Copy, Debug, PartialEq, Eq)]
pub enum PictureHolder {
    Cell(u8, u16),
    Small(WindowId),
    Big(WindowId),
    Overlay(WindowId),
    Notification(WindowId, NotifyIconId),
}

// What a lookup finds: a window by its id, a notification icon by its two ids, a cell by cache id and entry, the desktop state,
// the ids of the listed windows or notification icons, or whether two holders share a place.
#[derive(Clone, Copy, Debug, PartialEq, Eq)]
pub enum LookupTarget {
    Window(WindowId),
    Notification(WindowId, NotifyIconId),
    Cell(u8, u16),
    Desktop,
    Windows,
    Notifications,
    Shares(PictureHolder, PictureHolder),
}
