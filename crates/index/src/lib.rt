// The index of a table: which windows and notification icons are listed, and which cells and icons share a place of the picture
// store. The numbers 9, 10, 11 and 17 depend on nothing else of a table. The memory is that of `slots`. Definitions, laws and the
// types of an order, a plan and a step; the functions are in `index_plan`, `index_change` and `index_step`.
#![tactic(auto)]

use places::Family;
use protocol::{NotifyIconId, WindowId};

// An order for a record of either family; a window's notify-icon id is 0. Where its icon or cached icon begins is icon: the
// order's end where there is none.
#[derive(Clone, Copy)]
pub struct RecordOrder {
    pub family: Family,
    pub window: WindowId,
    pub notify: NotifyIconId,
    pub flags: u32,
    pub icon: u32,
}

// The slot of the record that an order changes, or the number of its refusal.
#[derive(Clone, Copy)]
pub enum Place {
    Slot(usize),
    Not(u8),
}

// What an order changes that is not refused: the record of the ids, in its slot; for a new record, in the first free slot.
// The cell and the pointer (numbers of holders) of an icon or cached icon, and the place that an icon takes; an icon that names
// no cell has its pointer for both.
#[derive(Clone, Copy)]
pub struct Change {
    pub family: Family,
    pub slot: usize,
    pub fresh: bool,
    pub deleted: bool,
    pub window: WindowId,
    pub notify: NotifyIconId,
    pub flags: u32,
    pub icon: u32,
    pub cell: usize,
    pub pointer: usize,
    pub place: usize,
}

// An order judged whole, on its bytes and on the index.
#[derive(Clone, Copy)]
pub enum Plan {
    ChangeRecord(Change),
    ChangeDesktop(u32),
    Refuse(u8),
}

// The number of an order; the slot of its record, past the last where it changes none; and how many places, from the first on, are
// then pointed at, as far as the order tells: an icon takes the first that is free.
#[derive(Clone, Copy)]
pub struct Stepped {
    pub number: u8,
    pub slot: usize,
    pub held: u8,
}
