// The protocol's numbers that have no place of their own: ids, refusals, and the bits of an order's flags.
#![tactic(auto)]

ghost use Rattle.std.specs.Prelude.{◌≡◌, Some};
ghost use Rattle.protocol.specs.Refusals.{number_of, words_of, Decodes};

use std::error::Error;
use std::fmt;

// Ids that a server or an application gives. They are separate counts: one never serves for the other.

// A window's id, given by the server.
#[derive(Clone, Copy, Debug, PartialEq, Eq, PartialOrd, Ord, Hash)]
pub struct WindowId {
    pub id: u32,
}

// A notification icon's id, given by the application that owns its window.
#[derive(Clone, Copy, Debug, PartialEq, Eq, PartialOrd, Ord, Hash)]
pub struct NotifyIconId {
    pub id: u32,
}

// Why a call is refused: the first of these that applies. An answer of 0 where a number is asked is none of them.
#[derive(Clone, Copy, Debug, PartialEq, Eq, PartialOrd, Ord, Hash)]
pub enum Refusal {
    // 1: the lent state memory is shorter than needed, or not well formed.
    UnfitMemory = 1,
    // 2: fewer than 4 bytes of a message, or 7 of an order.
    TooShort,
    // 3: the declared length differs from the bytes given.
    LengthDiffers,
    // 4: a message of unknown type, or bytes that are no windowing order.
    UnknownType,
    // 5: an order has a flag bit outside its kind's closed list.
    UnknownFlag,
    // 6: the flags of an order clash.
    FlagsClash,
    // 7: the fields do not fill the declared length exactly.
    NotFilled,
    // 8: the number of a field is outside its allowed set.
    OutsideSet,
    // 9: an id is not in the table and must be, or is and must not be.
    WrongId,
    // 10: a new record is asked for and its table is full.
    TableFull,
    // 11: a cached icon naming an empty cell.
    NoCell,
    // 12: the room for orders after the mark would be passed.
    HistoryFull,
    // 13: more steps back than orders stand after the mark.
    TooManySteps,
    // 14: the output memory is too small.
    OutputTooSmall,
    // 15: a chunk of fewer than 8 bytes.
    ChunkTooShort,
    // 16: a chunk that is compressed, not first with nothing begun, or not what its total says.
    BadChunk,
    // 17: an icon comes, and every place of the store is pointed at.
    NoPlace,
    // 18: a session record without its whole count or table of contents, or with a body past its end.
    RecordCut,
    // 19: a session record over its limits, or not laid out as one.
    RecordDiffers,
    // 20: in the counter profile, a kind from the wrong end.
    WrongEnd,
    // 21: in the counter profile, a program that is not permitted.
    NotPermitted,
}

impl From<Refusal> for u8 {
    ghost from_gives = { λ r n. n ≡ number_of r };

    fn from(r: Refusal) -> u8 {
        r as u8
    }
}

impl From<Refusal> for u32 {
    ghost from_gives = { λ r n. n ≡ number_of r };

    fn from(r: Refusal) -> u32 {
        r as u32
    }
}

// A number that no refusal has.
#[derive(Clone, Copy, Debug, PartialEq, Eq, Hash)]
pub struct UnknownRefusal(pub u32);

impl TryFrom<u32> for Refusal {
    type Error = UnknownRefusal;

    ghost try_from_gives = { Decodes };

    fn try_from(n: u32) -> Result<Self, UnknownRefusal> {
        match n {
            1 => Ok(Refusal::UnfitMemory),
            2 => Ok(Refusal::TooShort),
            3 => Ok(Refusal::LengthDiffers),
            4 => Ok(Refusal::UnknownType),
            5 => Ok(Refusal::UnknownFlag),
            6 => Ok(Refusal::FlagsClash),
            7 => Ok(Refusal::NotFilled),
            8 => Ok(Refusal::OutsideSet),
            9 => Ok(Refusal::WrongId),
            10 => Ok(Refusal::TableFull),
            11 => Ok(Refusal::NoCell),
            12 => Ok(Refusal::HistoryFull),
            13 => Ok(Refusal::TooManySteps),
            14 => Ok(Refusal::OutputTooSmall),
            15 => Ok(Refusal::ChunkTooShort),
            16 => Ok(Refusal::BadChunk),
            17 => Ok(Refusal::NoPlace),
            18 => Ok(Refusal::RecordCut),
            19 => Ok(Refusal::RecordDiffers),
            20 => Ok(Refusal::WrongEnd),
            21 => Ok(Refusal::NotPermitted),
            _ => Err(UnknownRefusal(n)),
        }
    }
}

impl Refusal {
    // The words of its condition.
    pub fn words(self) -> &'static str
        ensures { result.now ≡ words_of self }
    {
        match self {
            Refusal::UnfitMemory => "lent state memory is shorter than needed, or not well formed",
            Refusal::TooShort => "fewer than 4 bytes (PDU) or 7 bytes (order)",
            Refusal::LengthDiffers => "declared length differs from the bytes given",
            Refusal::UnknownType =>
                "unknown PDU type; or first order byte isn't 2E; or not the case that exactly one of the three type bits is set",
            Refusal::UnknownFlag => "order has a flag bit outside its kind's closed list",
            Refusal::FlagsClash => "order flags clash",
            Refusal::NotFilled => "the fields don't fill the declared length exactly",
            Refusal::OutsideSet => "a field's number is outside its allowed set",
            Refusal::WrongId => "the id must be in the table and isn't, or must not be and is",
            Refusal::TableFull => "a new record is asked for and its table is full",
            Refusal::NoCell => "cached icon naming an empty cell",
            Refusal::HistoryFull => "history room would be passed",
            Refusal::TooManySteps => "more steps back than stand after the mark",
            Refusal::OutputTooSmall => "output memory too small",
            Refusal::ChunkTooShort => "chunk under 8 bytes",
            Refusal::BadChunk =>
                "chunk is compressed; not first with nothing begun; a total of 0 or over 17,052; a total differing from the first's; or data past the total or, in a last chunk, short of it",
            Refusal::NoPlace => "every place is pointed at",
            Refusal::RecordCut =>
                "fewer than 2 bytes, or than 2 plus 8 for each counted order, or an offset plus size past the end",
            Refusal::RecordDiffers =>
                "count over 128, sizes over 32,768 in all, offsets not those of the layout, or bytes left over",
            Refusal::WrongEnd => "a kind from the wrong end",
            Refusal::NotPermitted => "a program not permitted",
        }
    }
}

// Its words.
impl fmt::Display for Refusal {
    ghost output = { λ r. Some (words_of r) };

    fn fmt<W: fmt::Write>(&self, f: &mut fmt::Formatter<W>) -> fmt::Result {
        f.write_str(self.words())
    }
}

impl Error for Refusal {}

// The bits of an order's FieldsPresentFlags that no row of the fields' table has, and the closed list of each kind.

pub const WINDOW: u32 = 0x0100_0000; // WINDOW_ORDER_TYPE_WINDOW

pub const NOTIFICATION: u32 = 0x0200_0000; // WINDOW_ORDER_TYPE_NOTIFY

pub const DESKTOP: u32 = 0x0400_0000; // WINDOW_ORDER_TYPE_DESKTOP

pub const TYPES: u32 = 0x0700_0000; // the three

pub const NEW: u32 = 0x1000_0000; // WINDOW_ORDER_STATE_NEW

pub const DELETED: u32 = 0x2000_0000; // WINDOW_ORDER_STATE_DELETED

pub const ICON: u32 = 0x4000_0000; // WINDOW_ORDER_ICON

pub const CACHED_ICON: u32 = 0x8000_0000; // WINDOW_ORDER_CACHEDICON

pub const ANY_ICON: u32 = 0xC000_0000; // either

pub const BIG_ICON: u32 = 0x0000_2000; // WINDOW_ORDER_FIELD_ICON_BIG

pub const OVERLAY_ICON: u32 = 0x0010_0000; // WINDOW_ORDER_FIELD_ICON_OVERLAY

pub const OVERLAY_NONE: u32 = 0x0020_0000; // WINDOW_ORDER_FIELD_ICON_OVERLAY_NULL

pub const ANY_OVERLAY: u32 = 0x0030_0000; // either

pub const DESKTOP_NONE: u32 = 0x0000_0001; // WINDOW_ORDER_FIELD_DESKTOP_NONE

pub const DESKTOP_HOOKED: u32 = 0x0000_0002; // WINDOW_ORDER_FIELD_DESKTOP_HOOKED

pub const DESKTOP_ARC_COMPLETED: u32 = 0x0000_0004; // WINDOW_ORDER_FIELD_DESKTOP_ARC_COMPLETED

pub const DESKTOP_ARC_BEGAN: u32 = 0x0000_0008; // WINDOW_ORDER_FIELD_DESKTOP_ARC_BEGAN

pub const WINDOW_FLAGS: u32 = 0xF9FF_FFDF; // closed list of window orders

pub const NOTIFICATION_FLAGS: u32 = 0xF200_000F; // of notification orders

pub const DESKTOP_FLAGS: u32 = 0x0400_003F; // of desktop orders
