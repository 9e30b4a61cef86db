// The fields of a record as text: strings, rectangles, ids and pictures.
#![tactic(auto)]

pub mod fields;
pub mod pictures;

// The most bytes that a lookup hands out: those of a window.
pub const FOUND: usize = layout::WHOLE_WINDOW;
