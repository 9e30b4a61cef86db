// A table of windows, notification icons, icon cache and desktop state in lent memory: its index, the bodies of its records with
// the heads of their pictures behind them, and the store of pictures in five parts. Definitions and laws; the functions are in
// `table_sound` and `table_change`.
#![tactic(auto)]

// Where the heads of the pictures begin, and the bytes of the bodies with them.
pub const HEADS: usize = 60116;

pub const BODIES: usize = 61012;

// Where the slot of the desktop state begins.
pub const DESKTOP: usize = 59200;

// The picture that an order brings: whether there is one, its place, and where in the order its icon begins.
#[derive(Clone, Copy)]
pub struct Brought {
    pub there: bool,
    pub place: usize,
    pub icon: usize,
}
