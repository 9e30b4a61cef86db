// The desktop: its fields, and the figure of the windows that are shown.
ghost use Rattle.std.specs.Prelude.{◌≡◌};
ghost use Rattle.wire.specs.Tests.{pick};
ghost use Rattle.print.specs.Laid.{Laid};
ghost use Rattle.desktop_text.specs.Desktop.{modes_text, fields_text, figure_text, desktop_text};

use field_text::FOUND;
use field_text::fields::stack;
use print::fill::numbers;
use protocol::WindowId;
use view::DesktopRecord;

// The figure stands after the record: the windows that are shown, and the lower and the upper half of their pixels.
const SHOWN: usize = layout::DESKTOP;

const PIXELS_LOW: usize = SHOWN + 4;

const PIXELS_HIGH: usize = PIXELS_LOW + 4;

// The numbers of 4 bytes.
const HALF: u64 = 4294967296;

// 1 for yes.
fn yes_number(b: bool) -> u64
    ensures { result ≡ pick b 1 0 }
{
    if b { 1 } else { 0 }
}

// The active window, and whether the desktop is hooked and synchronizes.
fn modes(out: &mut [u8], at: usize, active: WindowId, hooked: u64, syncing: u64) -> usize
    ensures { Laid out.old at (modes_text active hooked syncing) out.new result }
{
    let ns = [active.id as u64, hooked, syncing];
    numbers(out, at, b" active=# hooked=# syncing=#", &ns)
}

// Its modes and its stacking list.
fn fields(out: &mut [u8], at: usize, d: DesktopRecord) -> usize
    ensures { Laid out.old at (fields_text d) out.new result }
{
    let hooked = yes_number(d.hooked);
    let syncing = yes_number(d.syncing);
    let n = modes(out, at, d.active, hooked, syncing);
    stack(out, n, d.stack)
}

// The windows that are shown, and their pixels.
fn figure(out: &mut [u8], at: usize, bytes: &[u8; FOUND]) -> usize
    ensures { Laid out.old at (figure_text bytes.now) out.new result }
{
    let shown = wire::read_u32(bytes, SHOWN) as u64;
    let low = wire::read_u32(bytes, PIXELS_LOW) as u64;
    let high = wire::read_u32(bytes, PIXELS_HIGH) as u64;
    numbers(out, at, b" shown=# pixels=#", &[shown, low + HALF * high])
}

// The desktop that the bytes are.
pub fn line(out: &mut [u8], at: usize, bytes: &[u8; FOUND]) -> usize
    ensures { Laid out.old at (desktop_text bytes.now) out.new result }
{
    let d = view::desktop(bytes);
    let n = fields(out, at, d);
    figure(out, n, bytes)
}
