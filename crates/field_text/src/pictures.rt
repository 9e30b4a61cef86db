// A picture: in a cell a name=value for each field, in a record the values in one.
ghost use Rattle.std.specs.Prelude.{◌≤◌, length, drop};
ghost use Rattle.print.specs.Laid.{Laid};
ghost use Rattle.field_text.specs.Pictures.{sides_text, lying_text, content_text, cell_text, values_text, icon_text};
ghost use Rattle.view.specs.Views.{picture_view};

use print::fill::numbers;
use print::{string, text};
use view::PictureRecord;

// Bits per pixel, width and height, as a template has them.
fn sides(out: &mut [u8], at: usize, p: PictureRecord, template: &[u8]) -> usize
    ensures { Laid out.old at (sides_text template.now p) out.new result }
{
    numbers(
        out,
        at,
        template,
        &[p.bits as u64, p.width as u64, p.height as u64],
    )
}

// Mask, color table and color, each after its name. They lie one after the other.
fn lying(
    out: &mut [u8],
    at: usize,
    s: &[u8],
    mask: u16,
    table: u16,
    color: u16,
    a: &[u8],
    b: &[u8],
    c: &[u8],
) -> usize
    ensures { Laid out.old at (lying_text s.now mask table color a.now b.now c.now) out.new result }
{
    let m = mask as usize;
    let t = table as usize;
    let n = string(out, at, a, s, 0, m);
    let n = string(out, n, b, s, m, t);
    string(out, n, c, s, m + t, color as usize)
}

// The content of a picture.
fn content(out: &mut [u8], at: usize, p: PictureRecord, a: &[u8], b: &[u8], c: &[u8]) -> usize
    ensures { Laid out.old at (content_text a.now b.now c.now p) out.new result }
{
    let bytes = p.bytes;
    lying(out, at, &bytes, p.mask, p.table, p.color, a, b, c)
}

// The fields of a cell.
pub fn cell(out: &mut [u8], at: usize, bytes: &[u8]) -> usize
    ensures { Laid out.old at (cell_text (picture_view bytes.now)) out.new result }
{
    let p = view::picture(bytes);
    let n = sides(out, at, p, b" bpp=# width=# height=#");
    content(out, n, p, b" mask=", b" table=", b" color=")
}

// The values of a picture.
fn values(out: &mut [u8], at: usize, bytes: &[u8]) -> usize
    ensures { Laid out.old at (values_text (picture_view bytes.now)) out.new result }
{
    let p = view::picture(bytes);
    let n = sides(out, at, p, b"#,#,#");
    content(out, n, p, b",", b",", b",")
}

// The field of an icon, which may show none; its picture stands at index from of the bytes.
pub fn icon(out: &mut [u8], at: usize, name: &[u8], there: bool, bytes: &[u8], from: usize) -> usize
    requires { from ≤ length bytes.now }
    ensures { Laid out.old at (icon_text name.now there (drop from bytes.now)) out.new result }
{
    let n = text(out, at, name);
    if there {
        return values(out, n, &bytes[from..]);
    }
    text(out, n, b"none")
}
