// The figure of the present table counted: each window that its index lists is followed from the mark through the journal's orders.
#![tactic(auto)]

ghost use Rattle.std.specs.Prelude.{◌≡◌, ◌<◌, ◌≤◌, length};
ghost use Rattle.places.specs.declared.Family.TheVariants as family;
ghost use Rattle.slots.specs.Families.{capacity};
ghost use Rattle.body.specs.Bodies.{window_fields, body_of, slot_of};
ghost use Rattle.figure.specs.Figure.{pixels_of};
ghost use Rattle.table.specs.Memory.{bodies_length};
ghost use Rattle.journal.specs.Limits.{journal_length, log_start};
ghost use Rattle.present.specs.PresentFigure.{Followable, window_held, held_at, shown_one, FigureIs, figure_held, no_figure};
ghost use Rattle.present.specs.Touched.{is_order_for, touched_from};

use figure::Figure;
use follow::Want;
use places::Family;
use protocol::{NotifyIconId, WindowId};

// An order for the window of an id.
fn is_for(s: &[u8], w: WindowId) -> bool
    ensures { result ≡ is_order_for w.id s.now }
{
    let flags = wire::read_u32(s, single::FLAGS_AT);
    let id = wire::read_u32(s, single::ID_AT);
    (flags & protocol::WINDOW != 0) & (id == w.id)
}

// Whether one of the first count orders is for the window of an id, or is cut.
fn is_touched(journal: &[u8], count: usize, w: WindowId) -> bool
    requires { journal_length ≤ length journal.now }
    ensures { result ≡ touched_from w.id count log_start journal.now }
{
    let mut p = journal::START;
    let mut i = 0;
    while i < count {
        let size = wire::read_u16(journal, p + 1) as usize;
        if journal::LENGTH - p < size {
            return true;
        }
        let end = p + size;
        if is_for(&journal[p..end], w) {
            return true;
        }
        p = end;
        i += 1;
    }
    false
}

// What the window in slot i of the table at the mark shows.
fn window_marked(bodies: &[u8], i: usize) -> Figure
    requires { (i < capacity family.Windows) × (bodies_length ≤ length bodies.now) }
    ensures { FigureIs result (shown_one (body_of window_fields (slot_of bodies.now i))) (pixels_of (body_of window_fields (slot_of bodies.now i))) }
{
    let from = body::start(i);
    let to = from + body::WINDOW;
    let slot = &bodies[from..to];
    let shown = figure::shows(slot);
    let pixels = figure::pixels(slot);
    Figure {
        windows: shown as u32,
        pixels,
    }
}

// What the window of an id shows after the first count orders, followed through them.
fn window_followed(index: &[u8], bodies: &[u8], journal: &[u8], count: usize, w: WindowId) -> Figure
    requires { Followable index.now bodies.now journal.now }
    ensures { FigureIs result (shown_one (window_held index.now bodies.now journal.now count w)) (pixels_of (window_held index.now bodies.now journal.now count w)) }
{
    let mut d = [0u8; slots::LENGTH];
    let mut m = [0u8; follow::WINDOW];
    journal_replay::from_mark(
        index,
        bodies,
        journal,
        count,
        Some(Want::Window(w)),
        &mut d,
        &mut m,
    );
    let slot = &m[0..body::WINDOW];
    let shown = figure::shows(slot);
    let pixels = figure::pixels(slot);
    Figure {
        windows: shown as u32,
        pixels,
    }
}

// The same. A window of the mark that none of the orders is for is as it was there.
fn window_held(index: &[u8], bodies: &[u8], journal: &[u8], count: usize, w: WindowId) -> Figure
    requires { Followable index.now bodies.now journal.now }
    ensures { FigureIs result (shown_one (window_held index.now bodies.now journal.now count w)) (pixels_of (window_held index.now bodies.now journal.now count w)) }
{
    if is_touched(journal, count, w) {
        return window_followed(index, bodies, journal, count, w);
    }
    let Some(i) = slots::find(index, Family::Windows, w, NotifyIconId { id: 0 }).found else {
        return window_followed(index, bodies, journal, count, w);
    };
    window_marked(bodies, i)
}

fn none() -> Figure
    ensures { result ≡ no_figure }
{
    Figure {
        windows: 0,
        pixels: 0,
    }
}

// The same for slot i of the index x, nothing where it has no window.
fn slot_held(
    x: &[u8],
    i: usize,
    index: &[u8],
    bodies: &[u8],
    journal: &[u8],
    count: usize,
) -> Figure
    requires { (i < capacity family.Windows) × Followable index.now bodies.now journal.now }
    ensures { FigureIs result (held_at shown_one x.now index.now bodies.now journal.now count i) (held_at pixels_of x.now index.now bodies.now journal.now count i) }
{
    let at = places::LENGTH + slots::SLOT * i;
    if wire::read_u8(x, at) != 1 {
        return none();
    }
    let id = wire::read_u32(x, at + 1);
    window_held(index, bodies, journal, count, WindowId { id })
}

// How many windows of the index x are shown after the first count orders, and their pixels in all.
pub fn count_held(x: &[u8], index: &[u8], bodies: &[u8], journal: &[u8], count: usize) -> Figure
    requires { Followable index.now bodies.now journal.now }
    ensures { result ≡ figure_held x.now index.now bodies.now journal.now count }
{
    let mut windows = 0;
    let mut pixels = 0;
    let mut i = 0;
    while i < slots::WINDOWS {
        let f = slot_held(x, i, index, bodies, journal, count);
        windows += f.windows;
        pixels += f.pixels;
        i += 1;
    }
    Figure { windows, pixels }
}
