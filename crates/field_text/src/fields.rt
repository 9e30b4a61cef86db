// Fields that are lists: strings, rectangles, ids.
ghost use Rattle.std.specs.Prelude.{◌≤◌, take};
ghost use Rattle.print.specs.Laid.{Laid};
ghost use Rattle.field_text.specs.Fields.{string_text, sides_text, rectangles_field, ids_text, stack_text};

use print::{least, string, text};
use protocol::WindowId;
use view::{Rectangles, Stack, Text};

// A string, in hex.
pub fn words(out: &mut [u8], at: usize, name: &[u8], t: Text) -> usize
    ensures { Laid out.old at (string_text name.now t) out.new result }
{
    let bytes = t.bytes;
    string(out, at, name, &bytes, 0, t.count as usize)
}

// The first k numbers of a list of rectangles, as many as there are.
fn sides(out: &mut [u8], at: usize, ns: &[u16], k: usize) -> usize
    ensures { Laid out.old at (sides_text (take k ns.now)) out.new result }
{
    let end = least(k, ns.len());
    print::rectangles(out, at, &ns[0..end])
}

// A name, and rectangles.
pub fn rectangles(out: &mut [u8], at: usize, name: &[u8], r: Rectangles) -> usize
    ensures { Laid out.old at (rectangles_field name.now r) out.new result }
{
    let n = text(out, at, name);
    let list = r.sides;
    sides(out, n, &list, 4 * (r.count as usize))
}

// The first k ids.
fn ids(out: &mut [u8], at: usize, list: [WindowId; 64], k: usize) -> usize
    requires { k ≤ 64 }
    ensures { Laid out.old at (ids_text list k) out.new result }
{
    let mut n = at;
    let mut i = 0;
    while i < k {
        let w = list[i];
        n = print::parting(out, n, i, b',');
        n = print::decimal(out, n, w.id as u64);
        i += 1;
    }
    n
}

// The stacking list.
pub fn stack(out: &mut [u8], at: usize, s: Stack) -> usize
    ensures { Laid out.old at (stack_text s) out.new result }
{
    let n = text(out, at, b" stack=");
    let list = s.ids;
    ids(out, n, list, least(s.count as usize, 64))
}
