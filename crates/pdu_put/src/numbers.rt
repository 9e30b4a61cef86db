// Numbers and strings put at an index.
ghost use Rattle.std.specs.Prelude.{◌≡◌, [], ◌∷◌, ◌+◌, ◌≤◌, length};
ghost use Rattle.wire.specs.Parts.{splice};
ghost use Rattle.wire.specs.Numbers.{put_all};
ghost use Rattle.signs.specs.TwosComplement.{unsigned};
ghost use Rattle.pdu.specs.Writing.{part_of, lies, zeros};
ghost use Rattle.pdu_put.specs.Judging.{TextReady};

use pdu::Span;

// The number of 2 bytes that stands for a value of 2.
#[tactic(auto, unfolding(signs::specs::TwosComplement::unsigned))]
pub(crate) fn half(z: i16) -> u16
    ensures { result ≡ unsigned 2 z }
{
    z.cast_unsigned()
}

// Two numbers of 2 bytes.
pub(crate) fn put_pair(out: &mut [u8], at: usize, a: u16, b: u16)
    requires { at + 4 ≤ length out.old }
    ensures { out.new ≡ splice out.old at (put_all (2 ∷ 2 ∷ []) (a ∷ b ∷ [])) }
{
    wire::write_u16(out, at, a);
    wire::write_u16(out, at + 2, b);
}

// Four numbers of 2 bytes.
pub(crate) fn put_quad(out: &mut [u8], at: usize, a: u16, b: u16, c: u16, d: u16)
    requires { at + 8 ≤ length out.old }
    ensures { out.new ≡ splice out.old at (put_all (2 ∷ 2 ∷ 2 ∷ 2 ∷ []) (a ∷ b ∷ c ∷ d ∷ [])) }
{
    put_pair(out, at, a, b);
    put_pair(out, at + 4, c, d);
}

// The header, and the number of 4 bytes that follows it in most messages.
pub(crate) fn put_head(out: &mut [u8], kind: u16, size: u16, v: u32)
    requires { 8 ≤ length out.old }
    ensures { out.new ≡ splice out.old 0 (put_all (2 ∷ 2 ∷ 4 ∷ []) (kind ∷ size ∷ v ∷ [])) }
{
    put_pair(out, 0, kind, size);
    wire::write_u32(out, 4, v);
}

// src of n bytes has the string whole.
#[inline(always)]
pub(crate) fn lies_in(n: usize, t: Span) -> bool
    ensures { result ≡ lies n t }
{
    t.at as usize + t.len as usize <= n
}

// Copies a string of src into out at index at.
pub(crate) fn copy_string(out: &mut [u8], at: usize, src: &[u8], t: Span)
    requires { (at + t.len ≤ length out.old) × (t.at + t.len ≤ length src.now) }
    ensures { out.new ≡ splice out.old at (part_of src.now t) }
{
    let from = t.at as usize;
    let len = t.len as usize;
    wire::copy_part(out, at, src, from, len);
}

// Lays an application id in a zeroed array of 520 bytes and writes that at index 8.
pub(crate) fn put_application_id(out: &mut [u8], src: &[u8], t: Span)
    requires { TextReady t 528 src.now out.old }
    ensures { out.new ≡ splice out.old 8 (splice zeros 0 (part_of src.now t)) }
{
    let mut room = [0u8; 520];
    copy_string(&mut room, 0, src, t);
    wire::copy_at(out, 8, &room);
}
