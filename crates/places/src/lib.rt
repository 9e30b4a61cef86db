// Holders of pictures and the places they point at: 12 cells of the icon cache (holders 0 to 11) and 144 icons of records
// (holders 12 to 155). The memory: byte 0 the number of places, byte 1 + h the pointer of holder h, 0 for none, else place + 1.
// Sizes, definitions and proofs: the functions are those of `places_valid`, `places_free`, `places_held` and `places_change`.
#![tactic(auto)]

// Cells of the icon cache.
pub const CELLS: usize = 12;

// Icons of a record: small or its own, big, overlay.
pub const ICONS_EACH: usize = 3;

// Icons of the 48 records.
pub const ICONS: usize = 144;

// Cells and icons.
pub const HOLDERS: usize = 156;

// The bytes of the memory.
pub const LENGTH: usize = 157;

// The number of places.
pub const FEWEST: u8 = 12;

pub const MOST: u8 = 64;

// Pointers that there may be: none, or one of the places.
pub const POINTERS: usize = 65;

// The records that have icons.
#[derive(Clone, Copy)]
pub enum Family {
    Windows,
    Notifications,
}
