// How much is visible: the number of windows that are shown, and the pixels of their visibility rectangles. Both stand behind
// the index, so that nobody counts again: the pixels of each slot's window 4, the windows that are shown 4, the pixels in all 8.
#![tactic(auto)]

ghost use Rattle.std.specs.Prelude.{◌≡◌, ◌+◌, ◌<◌, ◌≤◌, length};
ghost use Rattle.wire.specs.Parts.{splice};
ghost use Rattle.area.specs.Cutting.{most_points};
ghost use Rattle.body.specs.Bodies.{window_fields, body_of};
ghost use Rattle.places.specs.declared.Family.TheVariants.{Windows};
ghost use Rattle.slots.specs.Families.{capacity, index_length};
ghost use Rattle.figure.specs.Figure.{is_shown, pixels_of, shown_at, pixels_at, window_length, windows_length, figure_length, figure_bytes};
ghost use Rattle.figure.specs.Kept.{kept_length, kept_figure, figures_ok, kept_of};

// The windows that are shown, and their pixels in all.
#[derive(Clone, Copy)]
pub struct Figure {
    pub windows: u32,
    pub pixels: u64,
}

// Where the show state and the visibility rectangles of a window stand in its slot, and the room of these.
const SHOW_STATE: usize = 14;

const VISIBILITY: usize = 736;

const VISIBILITY_ROOM: usize = 130;

// Where the totals stand, and the bytes of the index with its figures.
const TOTALS: usize = slots::LENGTH + 4 * slots::WINDOWS;

pub const LENGTH: usize = TOTALS + BYTES;

// The bytes of a figure: windows 4, pixels 8.
pub const BYTES: usize = 12;

// The numbers of 4 bytes.
const HALF: u64 = 4294967296;

// Whether the window of a slot is shown.
pub fn shows(slot: &[u8]) -> bool
    requires { window_length ≤ length slot.now }
    ensures { result ≡ is_shown (body_of window_fields slot.now) }
{
    slot[SHOW_STATE] != 0
}

// The pixels of its visibility rectangles, 0 where it is hidden.
pub fn pixels(slot: &[u8]) -> u64
    requires { window_length ≤ length slot.now }
    ensures { (result ≡ pixels_of (body_of window_fields slot.now)) × (result ≤ most_points) }
{
    if !shows(slot) {
        return 0;
    }
    area::area(&slot[VISIBILITY..VISIBILITY + VISIBILITY_ROOM])
}

// Writes a figure at index at.
pub fn write(out: &mut [u8], at: usize, f: Figure)
    requires { at + figure_length ≤ length out.old }
    ensures { out.new ≡ splice out.old at (figure_bytes f) }
{
    wire::write_u32(out, at, f.windows);
    wire::write_u32(out, at + 4, (f.pixels % HALF) as u32);
    wire::write_u32(out, at + 8, (f.pixels / HALF) as u32);
}

// Whether slot i has a window that is shown.
fn is_shown(index: &[u8], bodies: &[u8], i: usize) -> bool
    requires { (i < capacity Windows) × (index_length ≤ length index.now) × (windows_length ≤ length bodies.now) }
    ensures { result ≡ shown_at index.now bodies.now i }
{
    if index[places::LENGTH + slots::SLOT * i] != 1 {
        return false;
    }
    let from = body::WINDOW * i;
    let to = from + body::WINDOW;
    shows(&bodies[from..to])
}

// The pixels of the window in slot i, which is shown or not. Most windows have one rectangle: what that takes is a few
// instructions in the caller's loop, and the others go to a function of their own.
fn pixels_at(index: &[u8], bodies: &[u8], i: usize, shown: bool) -> u64
    requires { (i < capacity Windows) × (windows_length ≤ length bodies.now) × (shown ≡ shown_at index.now bodies.now i) }
    ensures { (result ≡ pixels_at index.now bodies.now i) × (result ≤ most_points) }
{
    if !shown {
        return 0;
    }
    let from = body::WINDOW * i;
    let rects = from + VISIBILITY;
    let part = &bodies[rects..rects + VISIBILITY_ROOM];
    if wire::read_u16(part, 0) == 1 {
        return area::single(part);
    }
    pixels(&bodies[from..from + body::WINDOW])
}

// The totals that are stored.
pub fn kept(index: &[u8]) -> Figure
    requires { kept_length ≤ length index.now }
    ensures { result ≡ kept_figure index.now }
{
    let windows = wire::read_u32(index, TOTALS);
    let low = wire::read_u32(index, TOTALS + 4);
    let high = wire::read_u32(index, TOTALS + 8);
    let pixels = low as u64 + HALF * (high as u64);
    Figure { windows, pixels }
}

// Whether the stored figures are those of the table: one pass, each window's area once.
pub fn is_kept(index: &[u8], bodies: &[u8]) -> bool
    requires { (kept_length ≤ length index.now) × (windows_length ≤ length bodies.now) }
    ensures { result ≡ figures_ok index.now bodies.now }
{
    let mut windows = 0;
    let mut pixels = 0;
    for i in 0..slots::WINDOWS {
        let shown = is_shown(index, bodies, i);
        let p = pixels_at(index, bodies, i, shown);
        let at = slots::LENGTH + 4 * i;
        let end = at + 4;
        if wire::read_u32(&index[at..end], 0) != (p % HALF) as u32 {
            return false;
        }
        windows += shown as u32;
        pixels += p;
    }
    let f = kept(index);
    (f.windows == windows) & (f.pixels == pixels)
}

// Stores the figures of the table.
pub fn keep(index: &mut [u8], bodies: &[u8])
    requires { (kept_length ≤ length index.old) × (windows_length ≤ length bodies.now) }
    ensures { index.new ≡ kept_of index.old bodies.now }
{
    let mut windows = 0;
    let mut pixels = 0;
    for i in 0..slots::WINDOWS {
        let shown = is_shown(index, bodies, i);
        let p = pixels_at(index, bodies, i, shown);
        wire::write_u32(index, slots::LENGTH + 4 * i, (p % HALF) as u32);
        windows += shown as u32;
        pixels += p;
    }
    write(index, TOTALS, Figure { windows, pixels });
}
