// Messages of one layout put at the start of output memory that has room for them: a head, and the numbers after it.
ghost use Rattle.std.specs.Prelude.{◌≡◌, [], ◌∷◌, ◌+◌, ◌≤◌, length};
ghost use Rattle.wire.specs.Parts.{splice};
ghost use Rattle.wire.specs.Numbers.{put_all};

use crate::numbers::{put_head, put_pair, put_quad};
// A number of 1 byte after the head.
pub(crate) fn put_byte(out: &mut [u8], kind: u16, v: u32, a: u8)
    requires { 9 ≤ length out.old }
    ensures { out.new ≡ splice out.old 0 (put_all (2 ∷ 2 ∷ 4 ∷ 1 ∷ []) (kind ∷ 9 ∷ v ∷ a ∷ [])) }
{
    put_head(out, kind, 9, v);
    wire::write_u8(out, 8, a);
}

// One, two or four numbers of 2 bytes after the head.
pub(crate) fn put_one(out: &mut [u8], kind: u16, v: u32, a: u16)
    requires { 10 ≤ length out.old }
    ensures { out.new ≡ splice out.old 0 (put_all (2 ∷ 2 ∷ 4 ∷ 2 ∷ []) (kind ∷ 10 ∷ v ∷ a ∷ [])) }
{
    put_head(out, kind, 10, v);
    wire::write_u16(out, 8, a);
}

pub(crate) fn put_two(out: &mut [u8], kind: u16, v: u32, a: u16, b: u16)
    requires { 12 ≤ length out.old }
    ensures { out.new ≡ splice out.old 0 (put_all (2 ∷ 2 ∷ 4 ∷ 2 ∷ 2 ∷ []) (kind ∷ 12 ∷ v ∷ a ∷ b ∷ [])) }
{
    put_head(out, kind, 12, v);
    put_pair(out, 8, a, b);
}

pub(crate) fn put_four(out: &mut [u8], kind: u16, v: u32, a: u16, b: u16, c: u16, d: u16)
    requires { 16 ≤ length out.old }
    ensures { out.new ≡ splice out.old 0 (put_all (2 ∷ 2 ∷ 4 ∷ 2 ∷ 2 ∷ 2 ∷ 2 ∷ []) (kind ∷ 16 ∷ v ∷ a ∷ b ∷ c ∷ d ∷ [])) }
{
    put_head(out, kind, 16, v);
    put_quad(out, 8, a, b, c, d);
}

// A number of 4 bytes after the head.
pub(crate) fn put_long(out: &mut [u8], kind: u16, v: u32, a: u32)
    requires { 12 ≤ length out.old }
    ensures { out.new ≡ splice out.old 0 (put_all (2 ∷ 2 ∷ 4 ∷ 4 ∷ []) (kind ∷ 12 ∷ v ∷ a ∷ [])) }
{
    put_head(out, kind, 12, v);
    wire::write_u32(out, 8, a);
}
