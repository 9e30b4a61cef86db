// Orders that say one thing are judged at a glance, with no walk over fields: a window's delete, its icon or cached icon,
// the desktop's stacking list with the active window. Where their fields end is told by the one table of rows. Any other order,
// and a bad one of these, is left to `order_judge::judge`.
#![tactic(auto)]

ghost use Rattle.std.specs.Prelude.{◌≡◌, true, ◌≤◌, length};
ghost use Rattle.wire.specs.Tests.{either};
ghost use Rattle.single.specs.Single.{delete_flags, cached_flags, cached_big_flags, icon_flags, icon_big_flags, list_flags, framed_to, good_with};

// Their flags, whole.
pub const DELETE: u32 = protocol::WINDOW | protocol::DELETED;

const CACHED: u32 = protocol::WINDOW | protocol::CACHED_ICON;

const CACHED_BIG: u32 = CACHED | protocol::BIG_ICON;

const ICON: u32 = protocol::WINDOW | protocol::ICON;

const ICON_BIG: u32 = ICON | protocol::BIG_ICON;

pub const LIST: u32 = protocol::DESKTOP | rows::FLAGS[ACTIVE] | rows::FLAGS[ACTIVE + 1];

// The row of the active window, behind it that of the stacking list.
const ACTIVE: usize = rows::NOTIFICATION_END;

// Type byte, OrderSize, flags, id.
const TYPE: u8 = 0x2E;

const SIZE_AT: usize = 1;

pub const FLAGS_AT: usize = 3;

pub const ID_AT: usize = row_ends::HEADER;

// Where an order for a window without a field ends, and its icon or cached icon begins; where a cached icon ends.
pub const ICON_AT: u32 = row_ends::FIELDS_AT as u32;

const CACHED_END: usize = row_ends::FIELDS_AT + order_icon::CACHED_LENGTH;

// The order begins with the type byte and its own size, and index end lies within it.
fn is_framed(s: &[u8], end: usize) -> bool
    ensures { (result ≡ framed_to s.now end) × (result ≡ true → length s.now ≤ 65535) }
{
    (wire::read_u8(s, 0) == TYPE)
        & (wire::read_u16(s, SIZE_AT) as usize == s.len())
        & (end <= s.len())
}

// The order is good and deletes a window.
pub fn is_delete(s: &[u8]) -> bool
    ensures { result ≡ good_with delete_flags s.now }
{
    if row_ends::FIELDS_AT != s.len() {
        return false;
    }
    is_framed(s, row_ends::FIELDS_AT) & (wire::read_u32(s, FLAGS_AT) == DELETE)
}

// The order is good and brings a window's cached icon, small or big, and nothing else.
pub fn is_cached(s: &[u8]) -> bool
    ensures { result ≡ either (good_with cached_flags s.now) (good_with cached_big_flags s.now) }
{
    if CACHED_END != s.len() {
        return false;
    }
    let flags = wire::read_u32(s, FLAGS_AT);
    if (flags != CACHED) & (flags != CACHED_BIG) {
        return false;
    }
    if !is_framed(s, row_ends::FIELDS_AT) {
        return false;
    }
    order_icon::is_whole_cached(s, row_ends::FIELDS_AT)
}

// The order is good and brings a window's icon, small or big, and nothing else.
pub fn is_icon(s: &[u8]) -> bool
    ensures { result ≡ either (good_with icon_flags s.now) (good_with icon_big_flags s.now) }
{
    let flags = wire::read_u32(s, FLAGS_AT);
    if (flags != ICON) & (flags != ICON_BIG) {
        return false;
    }
    if !is_framed(s, row_ends::FIELDS_AT) {
        return false;
    }
    order_icon::is_whole(s, row_ends::FIELDS_AT)
}

// The order is good and brings the desktop's stacking list and active window, and nothing else.
pub fn is_list(s: &[u8]) -> bool
    ensures { result ≡ good_with list_flags s.now }
{
    if wire::read_u32(s, FLAGS_AT) != LIST {
        return false;
    }
    let end = row_ends::desktop(s, LIST);
    if end != s.len() {
        return false;
    }
    is_framed(s, end)
}
