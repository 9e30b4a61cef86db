// A holder of a picture by numbers.
ghost use Rattle.std.specs.Prelude.{◌≡◌};
ghost use Rattle.session.specs.Holders.{holder_from};

use protocol::{NotifyIconId, WindowId};
use session::PictureHolder;

// 1 a window's small icon, 2 its big one, 3 a notification icon, 4 a window's overlay icon, any other a cell.
#[tactic(auto, unfolding(session::specs::Holders::holder_from))]
pub fn holder_of(kind: u8, a: u32, b: u32) -> PictureHolder
    ensures { result ≡ holder_from kind a b }
{
    match kind {
        1 => PictureHolder::Small(WindowId { id: a }),
        2 => PictureHolder::Big(WindowId { id: a }),
        3 => PictureHolder::Notification(WindowId { id: a }, NotifyIconId { id: b }),
        4 => PictureHolder::Overlay(WindowId { id: a }),
        _ => PictureHolder::Cell(
            u8::try_from(a).unwrap_or(255),
            u16::try_from(b).unwrap_or(65535),
        ),
    }
}
