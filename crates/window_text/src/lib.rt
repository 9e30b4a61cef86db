// A window as text: its fields, its icons and its pixels.
#![tactic(auto)]

ghost use Rattle.print.specs.Laid.{Laid};
ghost use Rattle.window_text.specs.Windows.{looks_text, client_text, margins_text, root_text, places_text, visible_text, bars_text, titled_text, inner_text, outer_text, areas_text, newest_text, fields_text, icons_text, pixels_text, window_text};

use field_text::FOUND;
use field_text::fields::{rectangles, words};
use field_text::pictures::icon;
use print::fill::{fill, numbers};
use protocol::WindowId;
use view::{NewerRecord, Pair, Point, WindowRecord};

// Its ids, its styles and its show state.
fn looks(
    out: &mut [u8],
    at: usize,
    id: WindowId,
    owner: WindowId,
    style: u32,
    extended: u32,
    show: u8,
) -> usize
    ensures { Laid out.old at (looks_text id owner style extended show) out.new result }
{
    let ns = [
        id.id as u64,
        owner.id as u64,
        style as u64,
        extended as u64,
        show as u64,
    ];
    numbers(out, at, b" id=# owner=# style=# ext=# show=#", &ns)
}

// Where its client area is, and how large.
fn client(out: &mut [u8], at: usize, offset: Point, size: Pair) -> usize
    ensures { Laid out.old at (client_text offset size) out.new result }
{
    let ns = [size.x as u64, size.y as u64];
    let zs = [offset.x, offset.y];
    fill(out, at, b" client=~,~ client_size=#,#", &ns, &zs)
}

// The margins by which it is resized.
fn margins(out: &mut [u8], at: usize, left: u32, right: u32, top: u32, bottom: u32) -> usize
    ensures { Laid out.old at (margins_text left right top bottom) out.new result }
{
    let ns = [left as u64, right as u64, top as u64, bottom as u64];
    numbers(out, at, b" margin_x=#,# margin_y=#,#", &ns)
}

// What its root parent shows, and which window that is.
fn root(out: &mut [u8], at: usize, content: u8, parent: WindowId) -> usize
    ensures { Laid out.old at (root_text content parent) out.new result }
{
    let ns = [content as u64, parent.id as u64];
    numbers(out, at, b" rp=# root=#", &ns)
}

// Where it is, how far its client area is from there, and how large it is.
fn places(out: &mut [u8], at: usize, offset: Point, delta: Point, size: Pair) -> usize
    ensures { Laid out.old at (places_text offset delta size) out.new result }
{
    let ns = [size.x as u64, size.y as u64];
    let zs = [offset.x, offset.y, delta.x, delta.y];
    fill(out, at, b" offset=~,~ delta=~,~ size=#,#", &ns, &zs)
}

// Where its visible part begins.
fn visible(out: &mut [u8], at: usize, offset: Point) -> usize
    ensures { Laid out.old at (visible_text offset) out.new result }
{
    fill(out, at, b" visible=~,~", &[], &[offset.x, offset.y])
}

// Its button on the taskbar, who orders it, and its state and edge as an application bar.
fn bars(out: &mut [u8], at: usize, taskbar: u8, order: u8, state: u8, edge: u8) -> usize
    ensures { Laid out.old at (bars_text taskbar order state edge) out.new result }
{
    let ns = [taskbar as u64, order as u64, state as u64, edge as u64];
    numbers(out, at, b" taskbar=# server_z=# app_bar=# edge=#", &ns)
}

// Its looks and its title.
fn titled(out: &mut [u8], at: usize, id: WindowId, w: WindowRecord) -> usize
    ensures { Laid out.old at (titled_text id w) out.new result }
{
    let n = looks(
        out,
        at,
        id,
        w.owner,
        w.style,
        w.extended_style,
        w.show_state,
    );
    words(out, n, b" title=", w.title)
}

// Its client area and its margins.
fn inner(out: &mut [u8], at: usize, w: WindowRecord) -> usize
    ensures { Laid out.old at (inner_text w) out.new result }
{
    let n = client(out, at, w.client_offset, w.client_size);
    margins(
        out,
        n,
        w.newer.left_resize_margin,
        w.newer.right_resize_margin,
        w.newer.top_resize_margin,
        w.newer.bottom_resize_margin,
    )
}

// Its root parent and its places.
fn outer(out: &mut [u8], at: usize, w: WindowRecord) -> usize
    ensures { Laid out.old at (outer_text w) out.new result }
{
    let n = root(out, at, w.rp_content, w.root_parent);
    places(out, n, w.window_offset, w.client_delta, w.window_size)
}

// Its rectangles and those of its visible part.
fn areas(out: &mut [u8], at: usize, w: WindowRecord) -> usize
    ensures { Laid out.old at (areas_text w) out.new result }
{
    let n = rectangles(out, at, b" rects=", w.window_rects);
    let n = visible(out, n, w.visible_offset);
    rectangles(out, n, b" vis_rects=", w.visibility_rects)
}

// What newer servers say of it besides.
fn newest(out: &mut [u8], at: usize, w: NewerRecord) -> usize
    ensures { Laid out.old at (newest_text w) out.new result }
{
    let n = words(out, at, b" overlay_text=", w.overlay_description);
    bars(
        out,
        n,
        w.taskbar_button,
        w.enforce_server_z_order,
        w.app_bar_state,
        w.app_bar_edge,
    )
}

// All its fields.
fn fields(out: &mut [u8], at: usize, id: WindowId, w: WindowRecord) -> usize
    ensures { Laid out.old at (fields_text id w) out.new result }
{
    let n = titled(out, at, id, w);
    let n = inner(out, n, w);
    let n = outer(out, n, w);
    let n = areas(out, n, w);
    newest(out, n, w.newer)
}

// Its small and its big icon, and the overlay of the one on the taskbar.
fn icons(out: &mut [u8], at: usize, w: WindowRecord, bytes: &[u8; FOUND]) -> usize
    ensures { Laid out.old at (icons_text w bytes.now) out.new result }
{
    let n = icon(out, at, b" small=", w.small, bytes, layout::SMALL_AT);
    let n = icon(out, n, b" big=", w.big, bytes, layout::BIG_AT);
    icon(
        out,
        n,
        b" overlay=",
        w.newer.overlay,
        bytes,
        layout::OVERLAY_AT,
    )
}

// The pixels that it covers.
fn pixels(out: &mut [u8], at: usize, bytes: &[u8; FOUND]) -> usize
    ensures { Laid out.old at (pixels_text bytes.now) out.new result }
{
    print::field(
        out,
        at,
        b" pixels=",
        wire::read_u32(bytes, layout::PIXELS_AT) as u64,
    )
}

// The window that the bytes are.
pub fn line(out: &mut [u8], at: usize, id: WindowId, bytes: &[u8; FOUND]) -> usize
    ensures { Laid out.old at (window_text id bytes.now) out.new result }
{
    let w = view::window(bytes);
    let n = fields(out, at, id, w);
    let n = icons(out, n, w, bytes);
    pixels(out, n, bytes)
}
