// The bytes of a list as typed ids.
ghost use Rattle.std.specs.Prelude.{◌≡◌};
ghost use Rattle.ids.specs.Typed.{count_in, window_at, notification_at};

use crate::NotificationIds;
use protocol::{NotifyIconId, WindowId};

// How many ids a list has.
pub fn count(bytes: &[u8]) -> u32
    ensures { result ≡ count_in bytes.now }
{
    wire::read_u32(bytes, 0)
}

// The id of window i of a list; a byte past the end counts 0.
pub fn window(bytes: &[u8], i: u8) -> WindowId
    ensures { result ≡ window_at bytes.now i }
{
    let at = 4 + 4 * (i as usize);
    let id = wire::read_u32(bytes, at);
    WindowId { id }
}

// The ids of notification icon i of a list; a byte past the end counts 0.
pub fn notification(bytes: &[u8], i: u8) -> NotificationIds
    ensures { result ≡ notification_at bytes.now i }
{
    let at = 8 * (i as usize);
    let a = wire::read_u32(bytes, 4 + at);
    let b = wire::read_u32(bytes, 8 + at);
    NotificationIds {
        window: WindowId { id: a },
        icon: NotifyIconId { id: b },
    }
}
