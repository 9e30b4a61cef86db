// The lookup: what is looked up is followed from the mark through the journal's orders, and handed out in its fixed layout.
#![tactic(auto)]

ghost use Rattle.std.specs.Prelude.{◌≡◌, ◌+◌, ◌<◌, ◌≤◌, true, ◌++◌, length};
ghost use Rattle.wire.specs.Parts.{splice};
ghost use Rattle.places.specs.Sizes.{holder_count};
ghost use Rattle.places.specs.Memory.{pointer_at, shown};
ghost use Rattle.places.specs.Holder.{icon, number_of};
ghost use Rattle.slots.specs.Families.{index_length};
ghost use Rattle.slots.specs.Slots.{slot_of};
ghost use Rattle.index.specs.Memory.{index_of};
ghost use Rattle.body.specs.Bodies.{desktop_fields, fields_ok, body_of};
ghost use Rattle.layout.specs.Layouts.{picture_size, desktop_size, record_bytes};
ghost use Rattle.figure.specs.Figure.{figure_length, figure_bytes};
ghost use Rattle.store.specs.Store.{five};
ghost use Rattle.follow.specs.Follow.{room_for};
ghost use Rattle.shown.specs.Shown.{held_pictures, Ready};
ghost use Rattle.journal.specs.View.{memory};
ghost use Rattle.present.specs.PresentFigure.{no_figure};
ghost use Rattle.session.specs.declared.LookupTarget.TheVariants as target;
ghost use Rattle.session.specs.Calls.{cell_number, holder_of};
ghost use Rattle.session.specs.Outcome.{lookup, handed, layout_size, CallOutcome};
ghost use Rattle.session.specs.Targets.{want_of, listed_in};
ghost use Rattle.session.specs.Handing.{refusal_of, marked_picture, records_held, bytes_held, HandsOut};

use crate::figures::figure_for;
use figure::Figure;
use follow::Want;
use places::Family;
use protocol::{NotifyIconId, WindowId};
use replies::{granted, refused};
use session::{LookupTarget, PictureHolder, Reply};

mod figures;

// The numbers that the pixels of a window can hold.
const PIXELS_END: u64 = 4294967296;

// The bytes of a window and of the desktop state that are handed out.
pub const WINDOW: usize = layout::WHOLE_WINDOW;

pub const DESKTOP: usize = layout::DESKTOP + figure::BYTES;

// The cell of a cache and an entry, 12 for one outside the caches.
fn cell_number(cache: u8, entry: u16) -> usize
    ensures { result ≡ cell_number cache entry }
{
    let inside = (cache <= 1) & (entry <= 5);
    if !inside {
        return places::CELLS;
    }
    6 * (cache as usize) + (entry as usize)
}

// The number of icon w of a record, that of no holder where the record is not listed.
fn icon_number(d: &[u8], family: Family, window: WindowId, notify: NotifyIconId, w: usize) -> usize
    requires { (index_length ≤ length d.now) × (w < 3) }
    ensures { result ≡ number_of (slot_of d.now) (icon family window.id notify.id w) }
{
    let Some(i) = slots::find(d, family, window, notify).found else {
        return places::HOLDERS;
    };
    places::CELLS + places::ICONS_EACH * i + w
}

// The number of a holder.
fn holder_number(d: &[u8], g: PictureHolder) -> usize
    requires { index_length ≤ length d.now }
    ensures { result ≡ number_of (slot_of d.now) (holder_of g) }
{
    match g {
        PictureHolder::Cell(cache, entry) => {
            let c = cell_number(cache, entry);
            if c < places::CELLS {
                return c;
            }
            places::HOLDERS
        }
        PictureHolder::Small(w) => icon_number(d, Family::Windows, w, NotifyIconId { id: 0 }, 0),
        PictureHolder::Big(w) => icon_number(d, Family::Windows, w, NotifyIconId { id: 0 }, 1),
        PictureHolder::Overlay(w) => icon_number(d, Family::Windows, w, NotifyIconId { id: 0 }, 2),
        PictureHolder::Notification(w, n) => icon_number(d, Family::Notifications, w, n, 0),
    }
}

// The pointer of a holder, 0 for one that is not kept.
fn pointer(d: &[u8], h: usize) -> u8
    requires { index_length ≤ length d.now }
    ensures { result ≡ pointer_at d.now h }
{
    if places::HOLDERS <= h {
        return 0;
    }
    d[h + 1]
}

// Whether two holders share a place.
fn shares(d: &[u8], g: PictureHolder, k: PictureHolder) -> bool
    requires { index_length ≤ length d.now }
    ensures { result ≡ (index_of d.now).sharing.shares (holder_of g) (holder_of k) }
{
    let p = pointer(d, holder_number(d, g));
    let q = pointer(d, holder_number(d, k));
    (p != 0) & (p == q)
}

// What is followed for a target.
fn want_of(target: LookupTarget) -> Option<Want>
    ensures { result ≡ want_of target }
{
    match target {
        LookupTarget::Window(w) => Some(Want::Window(w)),
        LookupTarget::Notification(w, n) => Some(Want::Notification(w, n)),
        LookupTarget::Cell(_, _) => Some(Want::Pictures),
        LookupTarget::Desktop => Some(Want::Desktop),
        LookupTarget::Windows => None,
        LookupTarget::Notifications => None,
        LookupTarget::Shares(_, _) => None,
    }
}

// The bytes of the memory in which it is followed.
fn room_of(want: Option<Want>) -> usize
    ensures { result ≡ room_for want }
{
    match want {
        None => 0,
        Some(Want::Window(_)) => follow::WINDOW,
        Some(Want::Notification(_, _)) => follow::NOTIFICATION,
        Some(Want::Pictures) => follow::ORIGINS,
        Some(Want::Desktop) => body::OTHER,
    }
}

fn found(d: &[u8], family: Family, window: WindowId, notify: NotifyIconId) -> bool
    requires { index_length ≤ length d.now }
    ensures { result ≡ (index_of d.now).listed family window.id notify.id }
{
    slots::find(d, family, window, notify).found.is_some()
}

// Whether an index lists the target.
fn listed(d: &[u8], target: LookupTarget) -> bool
    requires { index_length ≤ length d.now }
    ensures { result ≡ listed_in target (index_of d.now) }
{
    match target {
        LookupTarget::Window(w) => found(d, Family::Windows, w, NotifyIconId { id: 0 }),
        LookupTarget::Notification(w, n) => found(d, Family::Notifications, w, n),
        LookupTarget::Cell(cache, entry) => {
            let g = PictureHolder::Cell(cache, entry);
            shares(d, g, g)
        }
        LookupTarget::Desktop => true,
        LookupTarget::Windows => true,
        LookupTarget::Notifications => true,
        LookupTarget::Shares(g, k) => shares(d, g, g) & shares(d, k, k),
    }
}

// The bytes that the target takes.
fn size_of(target: LookupTarget) -> usize
    ensures { result ≡ layout_size target }
{
    match target {
        LookupTarget::Window(_) => WINDOW,
        LookupTarget::Notification(_, _) => layout::NOTIFICATION + layout::PICTURE,
        LookupTarget::Cell(_, _) => layout::PICTURE,
        LookupTarget::Desktop => DESKTOP,
        LookupTarget::Windows => ids::LENGTH,
        LookupTarget::Notifications => ids::LENGTH,
        LookupTarget::Shares(_, _) => 1,
    }
}

// 9 where the index x does not list the target, 14 where so many bytes do not hold it, else 0.
fn refusal(x: &[u8], target: LookupTarget, room: usize) -> u8
    requires { index_length ≤ length x.now }
    ensures { result ≡ refusal_of target (index_of x.now) room }
{
    if !listed(x, target) {
        return 9;
    }
    if room < size_of(target) {
        return 14;
    }
    0
}

// Hands out the picture of holder h at index at; the byte at index mark says whether it is there.
fn picture(
    out: &mut [u8],
    at: usize,
    mark: usize,
    x: &[u8],
    h: usize,
    bodies: &[u8],
    a: &[u8],
    b: &[u8],
    c: &[u8],
    d: &[u8],
    e: &[u8],
    journal: &[u8],
    origins: &[u8],
)
    requires picture_size_in_bounds { (at + picture_size ≤ length out.old) × (mark < length out.old) × (h < holder_count) }
    requires ready { Ready x.now bodies.now (five a.now b.now c.now d.now e.now) journal.now origins.now }
    ensures { out.new ≡ marked_picture out.old at mark (shown x.now (held_pictures bodies.now (five a.now b.now c.now d.now e.now) journal.now origins.now) h) }
{
    let s = shown::holder(out, at, x, h, bodies, a, b, c, d, e, journal, origins);
    wire::write_u8(out, mark, s as u8);
}

// Hands out the records of a window: its older fields, the pictures of its small and its big icon, its newer fields, and the picture
// of its overlay icon; a mark says of each picture whether it is there.
fn window_records(
    out: &mut [u8],
    x: &[u8],
    bodies: &[u8],
    a: &[u8],
    b: &[u8],
    c: &[u8],
    d: &[u8],
    e: &[u8],
    journal: &[u8],
    m: &[u8],
    w: WindowId,
)
    requires { HandsOut (target.Window w) x.now bodies.now (five a.now b.now c.now d.now e.now) journal.now m.now out.old }
    ensures { out.new ≡ splice out.old 0 (records_held w x.now bodies.now (five a.now b.now c.now d.now e.now) journal.now m.now) }
{
    let none = NotifyIconId { id: 0 };
    let small = icon_number(x, Family::Windows, w, none, 0);
    let big = small + 1;
    let overlay = small + 2;
    let origins = &m[body::WINDOW..follow::WINDOW];
    let slot = &m[0..body::WINDOW];
    layout::window(out, slot);
    picture(
        out,
        layout::SMALL_AT,
        0,
        x,
        small,
        bodies,
        a,
        b,
        c,
        d,
        e,
        journal,
        origins,
    );
    picture(
        out,
        layout::BIG_AT,
        1,
        x,
        big,
        bodies,
        a,
        b,
        c,
        d,
        e,
        journal,
        origins,
    );
    layout::newer(out, layout::NEWER_AT, slot);
    picture(
        out,
        layout::OVERLAY_AT,
        layout::NEWER_AT,
        x,
        overlay,
        bodies,
        a,
        b,
        c,
        d,
        e,
        journal,
        origins,
    );
}

// Hands out a window: its records, then its pixels.
fn window(
    out: &mut [u8],
    x: &[u8],
    bodies: &[u8],
    a: &[u8],
    b: &[u8],
    c: &[u8],
    d: &[u8],
    e: &[u8],
    journal: &[u8],
    m: &[u8],
    w: WindowId,
)
    requires { HandsOut (target.Window w) x.now bodies.now (five a.now b.now c.now d.now e.now) journal.now m.now out.old }
    ensures { out.new ≡ splice out.old 0 (bytes_held (target.Window w) x.now bodies.now (five a.now b.now c.now d.now e.now) journal.now m.now no_figure) }
{
    window_records(out, x, bodies, a, b, c, d, e, journal, m, w);
    let pixels = figure::pixels(&m[0..body::WINDOW]);
    wire::write_u32(out, layout::PIXELS_AT, (pixels % PIXELS_END) as u32);
}

// Hands out a notification icon: its fields, then its picture; its first mark says whether that is there.
fn notification(
    out: &mut [u8],
    x: &[u8],
    bodies: &[u8],
    a: &[u8],
    b: &[u8],
    c: &[u8],
    d: &[u8],
    e: &[u8],
    journal: &[u8],
    m: &[u8],
    w: WindowId,
    n: NotifyIconId,
)
    requires { HandsOut (target.Notification w n) x.now bodies.now (five a.now b.now c.now d.now e.now) journal.now m.now out.old }
    ensures { out.new ≡ splice out.old 0 (bytes_held (target.Notification w n) x.now bodies.now (five a.now b.now c.now d.now e.now) journal.now m.now no_figure) }
{
    let own = icon_number(x, Family::Notifications, w, n, 0);
    let origins = &m[body::OTHER..follow::NOTIFICATION];
    layout::record(out, &m[0..body::OTHER], 23, 29);
    let at = layout::NOTIFICATION;
    picture(out, at, 0, x, own, bodies, a, b, c, d, e, journal, origins);
    wire::write_u8(out, 1, 0);
}

// Hands out the picture of a cell.
fn cell(
    out: &mut [u8],
    x: &[u8],
    bodies: &[u8],
    a: &[u8],
    b: &[u8],
    c: &[u8],
    d: &[u8],
    e: &[u8],
    journal: &[u8],
    m: &[u8],
    cache: u8,
    entry: u16,
)
    requires { HandsOut (target.Cell cache entry) x.now bodies.now (five a.now b.now c.now d.now e.now) journal.now m.now out.old }
    ensures { out.new ≡ splice out.old 0 (bytes_held (target.Cell cache entry) x.now bodies.now (five a.now b.now c.now d.now e.now) journal.now m.now no_figure) }
{
    let h = cell_number(cache, entry);
    let origins = &m[0..follow::ORIGINS];
    shown::holder(out, 0, x, h, bodies, a, b, c, d, e, journal, origins);
}

// Hands out the desktop state, then the figure of the table.
fn desktop(out: &mut [u8], m: &[u8], f: Figure)
    requires { (desktop_size + figure_length ≤ length out.old) × (desktop_size ≤ length m.now) × (fields_ok desktop_fields 2 m.now ≡ true) }
    ensures { out.new ≡ splice out.old 0 (record_bytes desktop_fields (body_of desktop_fields m.now) ++ figure_bytes f) }
{
    layout::record(out, m, 29, 31);
    figure::write(out, layout::DESKTOP, f);
}

// Hands out what the index x of the present table, the memory m of the target and the pictures hold, and the figure f with the desktop
// state.
fn hand_out(
    out: &mut [u8],
    x: &[u8],
    bodies: &[u8],
    a: &[u8],
    b: &[u8],
    c: &[u8],
    d: &[u8],
    e: &[u8],
    journal: &[u8],
    m: &[u8],
    f: Figure,
    target: LookupTarget,
)
    requires { HandsOut target x.now bodies.now (five a.now b.now c.now d.now e.now) journal.now m.now out.old }
    ensures { out.new ≡ splice out.old 0 (bytes_held target x.now bodies.now (five a.now b.now c.now d.now e.now) journal.now m.now f) }
{
    match target {
        LookupTarget::Window(w) => window(out, x, bodies, a, b, c, d, e, journal, m, w),
        LookupTarget::Notification(w, n) => {
            notification(out, x, bodies, a, b, c, d, e, journal, m, w, n)
        }
        LookupTarget::Cell(cache, entry) => {
            cell(out, x, bodies, a, b, c, d, e, journal, m, cache, entry)
        }
        LookupTarget::Desktop => desktop(out, m, f),
        LookupTarget::Windows => ids::list(out, x, false),
        LookupTarget::Notifications => ids::list(out, x, true),
        LookupTarget::Shares(g, k) => wire::write_u8(out, 0, shares(x, g, k) as u8),
    }
}

// The lookup in a memory m of the target's size.
fn look_in(
    index: &[u8],
    bodies: &[u8],
    a: &[u8],
    b: &[u8],
    c: &[u8],
    d: &[u8],
    e: &[u8],
    journal: &[u8],
    want: Option<Want>,
    target: LookupTarget,
    m: &mut [u8],
    out: &mut [u8],
) -> Reply
    requires { (want ≡ want_of target) × (length m.old ≡ room_for want) }
    ensures { CallOutcome (lookup target out.old) (memory index.now bodies.now (five a.now b.now c.now d.now e.now) journal.now) (handed result out.new) (memory index.now bodies.now (five a.now b.now c.now d.now e.now) journal.now) }
{
    let lent = store::places(a, b, c, d, e);
    let mut x = [0u8; slots::LENGTH];
    let Some(w) = journal_replay::validate(index, bodies, lent, journal, want, &mut x, m) else {
        return refused(1);
    };
    let number = refusal(&x, target, out.len());
    if number != 0 {
        return refused(number);
    }
    let f = figure_for(target, &x, index, bodies, journal, w.count);
    hand_out(out, &x, bodies, a, b, c, d, e, journal, m, f, target);
    granted(w)
}

pub fn look(
    index: &[u8],
    bodies: &[u8],
    a: &[u8],
    b: &[u8],
    c: &[u8],
    d: &[u8],
    e: &[u8],
    journal: &[u8],
    target: LookupTarget,
    out: &mut [u8],
) -> Reply
    ensures { CallOutcome (lookup target out.old) (memory index.now bodies.now (five a.now b.now c.now d.now e.now) journal.now) (handed result out.new) (memory index.now bodies.now (five a.now b.now c.now d.now e.now) journal.now) }
{
    let mut m = [0u8; follow::WINDOW];
    let want = want_of(target);
    let room = room_of(want);
    look_in(
        index,
        bodies,
        a,
        b,
        c,
        d,
        e,
        journal,
        want,
        target,
        &mut m[0..room],
        out,
    )
}
