// The items of a script: each is a kind (1 byte), a length (2) and a payload.
use protocol::{NotifyIconId, WindowId};
use replies::holders::holder_of;
use script::Stop;
use session::{LookupTarget, PictureHolder};

// The most bytes that a part of the store may be lent with.
const MOST: u32 = 65536;

// The bytes of a holder: its kind, and two numbers of 4.
const HOLDER: usize = 9;

// The bytes of an update's limit, before its orders.
const LIMIT: usize = 4;

#[derive(Clone, Copy, Debug, PartialEq, Eq)]
pub(crate) enum Kind {
    Reset,
    Mark,
    Deliver,
    Undo,
    Update,
    Window,
    Notification,
    Cell,
    Desktop,
    Shares,
    Lists,
    WriteRecord,
    ReadRecord,
    Dump,
    Lend,
    Shorten,
    Change,
}

impl TryFrom<u8> for Kind {
    type Error = Stop;

    fn try_from(letter: u8) -> Result<Kind, Stop> {
        match letter {
            b'E' => Ok(Kind::Reset),
            b'M' => Ok(Kind::Mark),
            b'D' => Ok(Kind::Deliver),
            b'B' => Ok(Kind::Undo),
            b'U' => Ok(Kind::Update),
            b'W' => Ok(Kind::Window),
            b'N' => Ok(Kind::Notification),
            b'C' => Ok(Kind::Cell),
            b'S' => Ok(Kind::Desktop),
            b'H' => Ok(Kind::Shares),
            b'I' => Ok(Kind::Lists),
            b'O' => Ok(Kind::WriteRecord),
            b'V' => Ok(Kind::ReadRecord),
            b'Z' => Ok(Kind::Dump),
            b'L' => Ok(Kind::Lend),
            b'T' => Ok(Kind::Shorten),
            b'X' => Ok(Kind::Change),
            _ => Err(Stop::BadItem),
        }
    }
}

impl Kind {
    // Whether an item of this kind can have a payload of so many bytes.
    pub(crate) fn fits(self, len: u16) -> bool {
        match self {
            Kind::Reset | Kind::Mark | Kind::Desktop | Kind::Lists | Kind::Dump => len == 0,
            Kind::WriteRecord => len == 2,
            Kind::Cell | Kind::Shorten => len == 3,
            Kind::Undo | Kind::Window => len == 4,
            Kind::Change => len == 6,
            Kind::Notification => len == 8,
            Kind::Shares => len == 18,
            Kind::Lend => len == 20,
            Kind::Update => len >= 4,
            Kind::Deliver | Kind::ReadRecord => true,
        }
    }
}

#[derive(Clone, Copy)]
pub(crate) enum Item<'a> {
    // E, M, D, B: the calls that answer a reply alone.
    Reset,
    Mark,
    Deliver(&'a [u8]),
    Undo(u32),
    // U: a whole update, up to a limit of orders.
    Update { limit: u32, orders: &'a [u8] },
    // W, N, C, S, H
    Look(LookupTarget),
    // I: the two lists of ids.
    Lists,
    // O: the session record, written to memory of this size.
    WriteRecord(u16),
    // V: a session record, read.
    ReadRecord(&'a [u8]),
    // Z: the memory, printed.
    Dump,
    // L: the lengths that the parts of the store are lent with.
    Lend([u32; 5]),
    // T: the next call lacks so many bytes of a part.
    Shorten { part: u8, missing: u16 },
    // X: a byte of a part changes.
    Change { part: u8, at: u32, by: u8 },
}

fn window(s: &[u8]) -> WindowId {
    WindowId {
        id: wire::read_u32(s, 0),
    }
}

// The holder at the start of s. None where its kind is not listed, or the second number of a window is not 0.
fn holder(s: &[u8]) -> Option<PictureHolder> {
    let kind = wire::read_u8(s, 0);
    let second = wire::read_u32(s, 5);
    match (kind, second) {
        (0 | 3, _) | (1 | 2 | 4, 0) => Some(holder_of(kind, wire::read_u32(s, 1), second)),
        _ => None,
    }
}

// The lengths of the store's parts. None where one is more than a part has room for.
fn lengths(s: &[u8]) -> Option<[u32; 5]> {
    let lengths = [
        wire::read_u32(s, 0),
        wire::read_u32(s, 4),
        wire::read_u32(s, 8),
        wire::read_u32(s, 12),
        wire::read_u32(s, 16),
    ];
    if lengths.iter().all(|len| *len <= MOST) {
        Some(lengths)
    } else {
        None
    }
}

impl<'a> Item<'a> {
    // None where no script has it.
    pub(crate) fn parse(kind: Kind, s: &'a [u8]) -> Option<Item<'a>> {
        let item = match kind {
            Kind::Reset => Item::Reset,
            Kind::Mark => Item::Mark,
            Kind::Deliver => Item::Deliver(s),
            Kind::Undo => Item::Undo(wire::read_u32(s, 0)),
            Kind::Update => Item::Update {
                limit: wire::read_u32(s, 0),
                orders: s.get(LIMIT..)?,
            },
            Kind::Window => Item::Look(LookupTarget::Window(window(s))),
            Kind::Notification => {
                let icon = NotifyIconId {
                    id: wire::read_u32(s, 4),
                };
                Item::Look(LookupTarget::Notification(window(s), icon))
            }
            Kind::Cell => Item::Look(LookupTarget::Cell(wire::read_u8(s, 2), wire::read_u16(s, 0))),
            Kind::Desktop => Item::Look(LookupTarget::Desktop),
            Kind::Shares => Item::Look(LookupTarget::Shares(holder(s)?, holder(s.get(HOLDER..)?)?)),
            Kind::Lists => Item::Lists,
            Kind::WriteRecord => Item::WriteRecord(wire::read_u16(s, 0)),
            Kind::ReadRecord => Item::ReadRecord(s),
            Kind::Dump => Item::Dump,
            Kind::Lend => Item::Lend(lengths(s)?),
            Kind::Shorten => Item::Shorten {
                part: wire::read_u8(s, 0),
                missing: wire::read_u16(s, 1),
            },
            Kind::Change => Item::Change {
                part: wire::read_u8(s, 0),
                at: wire::read_u32(s, 1),
                by: wire::read_u8(s, 5),
            },
        };
        Some(item)
    }
}
