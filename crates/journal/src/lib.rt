// The journal: the orders since the last checkpoint (document 01's history since the mark), and what a memory with it describes.
// Types, definitions and laws. `journal_replay` replays the orders on an index to validate the memory that is lent to a call;
// `journal_apply` applies them to the table at a checkpoint.
#![tactic(auto)]

// The history room: the most orders after a checkpoint, and the most bytes of theirs.
pub const MOST_ORDERS: usize = 128;

pub const MOST_BYTES: usize = 32768;

// The bytes of a journal: the count, 2, and from index START on the orders' bytes.
pub const START: usize = 2;

pub const LENGTH: usize = 32770;

// How many orders stand and where they end.
#[derive(Clone, Copy, Debug, PartialEq, Eq)]
pub struct JournalExtent {
    pub count: usize,
    pub end: usize,
}
