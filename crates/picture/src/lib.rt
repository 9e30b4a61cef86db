// Pictures at the places of a store: the numbers of each in a head of 14 bytes in state memory, its mask, color table and color in
// the place.
#![tactic(auto)]

ghost use Rattle.std.specs.Prelude.{◌≡◌, true, ◌+◌, ◌*◌, ◌-◌, ◌<◌, ◌≤◌, length};
ghost use Rattle.wire.specs.Parts.{splice};
ghost use Rattle.order.specs.Icons.{parts_of};
ghost use Rattle.cache.specs.Cells.{cell_ok};
ghost use Rattle.layout.specs.Layouts.{picture_size, picture_bytes};
ghost use Rattle.store.specs.Store.{place_length, places_in, five};
ghost use Rattle.picture.specs.Pictures.{head_length, picture_at, head_ok, heads_after_of, store_after};

// The bytes of a head.
pub const HEAD: usize = 14;

// Puts the icon at index icon of an order, which reaches to its end, at place p.
pub fn put(
    heads: &mut [u8],
    a: &mut [u8],
    b: &mut [u8],
    c: &mut [u8],
    d: &mut [u8],
    e: &mut [u8],
    p: usize,
    s: &[u8],
    icon: usize,
)
    requires { (head_length * p + head_length ≤ length heads.old) × (icon ≤ length s.now) × ((parts_of s.now icon).end ≡ length s.now) × ((parts_of s.now icon).end - (parts_of s.now icon).mask ≤ place_length) }
    ensures heads_after { heads.new ≡ heads_after_of heads.old p s.now icon }
    ensures e_after { five a.new b.new c.new d.new e.new ≡ store_after (five a.old b.old c.old d.old e.old) p s.now icon }
{
    let parts = order_icon::icon_parts(s, icon);
    let mask = parts.mask;
    wire::copy_part(heads, HEAD * p, s, icon, mask - icon);
    store::put(a, b, c, d, e, p, &s[mask..]);
}

// Whether the head of place p is in its sets.
pub fn is_ok(heads: &[u8], p: usize) -> bool
    requires { head_length * p + head_length ≤ length heads.now }
    ensures { result ≡ head_ok heads.now p }
{
    let at = HEAD * p;
    let end = at + HEAD;
    cache::picture_ok(&heads[at..end])
}

// Puts the picture at place p into the fixed layout.
pub fn show(
    out: &mut [u8],
    heads: &[u8],
    a: &[u8],
    b: &[u8],
    c: &[u8],
    d: &[u8],
    e: &[u8],
    p: usize,
)
    requires { (picture_size ≤ length out.old) × (head_length * p + head_length ≤ length heads.now) × (p < places_in (five a.now b.now c.now d.now e.now)) × (head_ok heads.now p ≡ true) }
    ensures { out.new ≡ splice out.old 0 (picture_bytes (picture_at heads.now (five a.now b.now c.now d.now e.now) p)) }
{
    let at = HEAD * p;
    let end = at + HEAD;
    let parts = order_icon::icon_parts(&heads[at..end], 0);
    let from = parts.mask - 3;
    let n = parts.end - parts.mask;
    wire::copy_part(out, 0, heads, at + 3, from);
    store::read(out, from, a, b, c, d, e, p, n);
    let done = from + n;
    wire::clear(out, done, layout::PICTURE - done);
}
