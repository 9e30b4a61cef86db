// The picture that a holder shows, handed out in the fixed layout: from the store at the mark, or from the order of the journal
// that brought it.
#![tactic(auto)]

ghost use Rattle.std.specs.Prelude.{◌≡◌, ◌+◌, ◌<◌, ◌≤◌, length};
ghost use Rattle.wire.specs.Parts.{splice};
ghost use Rattle.places.specs.Sizes.{holder_count};
ghost use Rattle.places.specs.Memory.{shown};
ghost use Rattle.store.specs.Store.{five};
ghost use Rattle.layout.specs.Layouts.{picture_size, picture_bytes};
ghost use Rattle.follow.specs.Follow.{carried_by};
ghost use Rattle.shown.specs.Shown.{shows, shown_bytes, held_pictures, Ready};
ghost use Rattle.shown.specs.Steps.{begins_at, Carries, PlaceReady};

use order::Order;

// The bytes of an icon before its bits per pixel: entry 2, cache id 1.
const ICON_CELL: usize = 3;

// Where the picture begins that an order carries with an icon at index icon: at its end where it brings none.
fn begins_at(s: &[u8], flags: u32, icon: u32) -> usize
    ensures { result ≡ begins_at s.now flags icon }
{
    if flags & protocol::ICON == 0 {
        return s.len();
    }
    icon as usize + ICON_CELL
}

// Where the picture begins that an order carries, which reaches to its end.
fn carried_from(s: &[u8]) -> usize
    ensures { Carries s.now result }
{
    match order_judge::judge(s) {
        Ok(Order::Window(o)) => begins_at(s, o.flags, o.icon),
        Ok(Order::Notification(o)) => begins_at(s, o.flags, o.icon),
        Ok(Order::Desktop(_)) => s.len(),
        Err(_) => s.len(),
    }
}

// Puts the picture that an order carries into the fixed layout.
fn carried(out: &mut [u8], s: &[u8])
    requires { picture_size ≤ length out.old }
    ensures { out.new ≡ splice out.old 0 (picture_bytes (carried_by s.now)) }
{
    let from = carried_from(s);
    let n = s.len() - from;
    wire::copy_part(out, 0, s, from, n);
    wire::clear(out, n, layout::PICTURE - n);
}

// Puts the picture at place p into the fixed layout.
fn at_place(
    out: &mut [u8],
    p: usize,
    bodies: &[u8],
    a: &[u8],
    b: &[u8],
    c: &[u8],
    d: &[u8],
    e: &[u8],
    journal: &[u8],
    origins: &[u8],
)
    requires picture_size_in_bounds { picture_size ≤ length out.old }
    requires place_ready { PlaceReady bodies.now (five a.now b.now c.now d.now e.now) journal.now origins.now p }
    ensures { out.new ≡ splice out.old 0 (picture_bytes (held_pictures bodies.now (five a.now b.now c.now d.now e.now) journal.now origins.now p)) }
{
    let q = wire::read_u16(origins, 2 * p) as usize;
    if q == 0 {
        picture::show(out, &bodies[table::HEADS..], a, b, c, d, e, p);
        return;
    }
    let end = q + wire::read_u16(journal, q + 1) as usize;
    carried(out, &journal[q..end]);
}

// Hands out the picture that holder h of an index shows, at index at of out. Whether it shows one.
pub fn holder(
    out: &mut [u8],
    at: usize,
    index: &[u8],
    h: usize,
    bodies: &[u8],
    a: &[u8],
    b: &[u8],
    c: &[u8],
    d: &[u8],
    e: &[u8],
    journal: &[u8],
    origins: &[u8],
) -> bool
    requires picture_size_in_bounds { (at + picture_size ≤ length out.old) × (h < holder_count) }
    requires ready { Ready index.now bodies.now (five a.now b.now c.now d.now e.now) journal.now origins.now }
    ensures value { result ≡ shows (shown index.now (held_pictures bodies.now (five a.now b.now c.now d.now e.now) journal.now origins.now) h) }
    ensures out_after { out.new ≡ splice out.old at (shown_bytes (shown index.now (held_pictures bodies.now (five a.now b.now c.now d.now e.now) journal.now origins.now) h)) }
{
    let pointer = index[h + 1] as usize;
    if pointer == 0 {
        wire::clear(out, at, layout::PICTURE);
        return false;
    }
    let end = at + layout::PICTURE;
    at_place(
        &mut out[at..end],
        pointer - 1,
        bodies,
        a,
        b,
        c,
        d,
        e,
        journal,
        origins,
    );
    true
}
