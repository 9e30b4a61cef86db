// A notification icon: its fields and its picture.
ghost use Rattle.print.specs.Laid.{Laid};
ghost use Rattle.desktop_text.specs.Notifications.{ids_text, limits_text, tip_text, balloon_text, notification_text};

use field_text::FOUND;
use field_text::fields::words;
use field_text::pictures::icon;
use print::field;
use print::fill::numbers;
use protocol::{NotifyIconId, WindowId};
use view::NotificationRecord;

// Its picture stands after its record.
const PICTURE: usize = layout::NOTIFICATION;

// Its ids and its version.
fn ids(out: &mut [u8], at: usize, window: WindowId, icon: NotifyIconId, version: u32) -> usize
    ensures { Laid out.old at (ids_text window icon version) out.new result }
{
    let ns = [window.id as u64, icon.id as u64, version as u64];
    numbers(out, at, b" window=# icon=# version=#", &ns)
}

// The timeout and the flags of its balloon.
fn limits(out: &mut [u8], at: usize, timeout: u32, flags: u32) -> usize
    ensures { Laid out.old at (limits_text timeout flags) out.new result }
{
    let ns = [timeout as u64, flags as u64];
    numbers(out, at, b" timeout=# flags=#", &ns)
}

// Its tip, and what limits its balloon.
fn tip(out: &mut [u8], at: usize, r: NotificationRecord) -> usize
    ensures { Laid out.old at (tip_text r) out.new result }
{
    let n = words(out, at, b" tip=", r.tip);
    limits(out, n, r.timeout, r.flags)
}

// The text and the title of its balloon, and its state.
fn balloon(out: &mut [u8], at: usize, r: NotificationRecord) -> usize
    ensures { Laid out.old at (balloon_text r) out.new result }
{
    let n = words(out, at, b" text=", r.text);
    let n = words(out, n, b" title=", r.title);
    field(out, n, b" state=", r.state as u64)
}

// The notification icon that the bytes are.
pub fn line(
    out: &mut [u8],
    at: usize,
    window: WindowId,
    notify: NotifyIconId,
    bytes: &[u8; FOUND],
) -> usize
    ensures { Laid out.old at (notification_text window notify bytes.now) out.new result }
{
    let r = view::notification(bytes);
    let n = ids(out, at, window, notify, r.version);
    let n = tip(out, n, r);
    let n = balloon(out, n, r);
    icon(out, n, b" picture=", r.icon, bytes, PICTURE)
}
