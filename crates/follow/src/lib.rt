// A record with the pictures, the pictures alone or the desktop state followed through the orders of a journal, in a memory of
// its own. Types, definitions and laws; the functions are in `follow_orders`.
#![tactic(auto)]

use protocol::{NotifyIconId, WindowId};

// What is followed: a window by its id, a notification icon by its two ids (each with all pictures), the pictures alone, or the
// desktop state.
#[derive(Clone, Copy, Debug, PartialEq, Eq)]
pub enum Want {
    Window(WindowId),
    Notification(WindowId, NotifyIconId),
    Pictures,
    Desktop,
}

// The bytes of the origins: for each of 64 places, 2 bytes, where in the journal its picture came.
pub const ORIGINS: usize = 128;

// The slot of a window and the origins, and so of a notification icon.
pub const WINDOW: usize = 1520;

pub const NOTIFICATION: usize = 1044;
