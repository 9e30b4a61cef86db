// Text laid in lent memory. Each function lays its text from index at on and answers the index after it; what would pass
// the end of the memory is left out, so that texts laid one after the other are one text.
#![tactic(auto)]

ghost use Rattle.std.specs.Prelude.{◌≡◌, [], ◌∷◌, ◌++◌, ◌+◌, ◌/◌, ◌%◌, ◌<◌, ◌≤◌, min, length, nat_abs, eqb, IfOk, OnErr, IsTrue, ◌↔◌, Ok, true, false, take};
ghost use Rattle.std.specs.Io.KnownBytes.{Appends};
ghost use Rattle.wire.specs.Parts.{slice};
ghost use Rattle.wire.specs.Tests.{pick};
ghost use Rattle.print.specs.Laid.{Laid, laid, after};
ghost use Rattle.print.specs.Texts.{hex_digit, hex_text, decimal_text, signed_text, numbers_text, laid_rectangles_text};

use std::io::Write;

pub mod fill;
mod printed;

pub use printed::{Hex, Parting, Rectangles};

// The lesser of two.
pub fn least(a: usize, b: usize) -> usize
    ensures { (result ≡ min a b) × (result ≤ a) × (result ≤ b) }
{
    if a < b { a } else { b }
}

pub fn byte(out: &mut [u8], at: usize, b: u8) -> usize
    ensures { Laid out.old at (b ∷ []) out.new result }
{
    if at < out.len() {
        out[at] = b;
        return at + 1;
    }
    at
}

pub fn text(out: &mut [u8], at: usize, s: &[u8]) -> usize
    ensures { Laid out.old at s.now out.new result }
{
    if out.len() < at {
        return at;
    }
    let n = least(s.len(), out.len() - at);
    wire::copy_part(out, at, s, 0, n);
    at + n
}

// A digit below 16.
fn digit(d: u8) -> u8
    requires { d < 16 }
    ensures { result ≡ hex_digit d }
{
    if d < 10 { 48 + d } else { 87 + d }
}

fn hex_byte(out: &mut [u8], at: usize, b: u8) -> usize
    ensures { Laid out.old at (hex_digit (b / 16) ∷ hex_digit (b % 16) ∷ []) out.new result }
{
    let n = byte(out, at, digit(b / 16));
    byte(out, n, digit(b % 16))
}

// Bytes in hex.
pub fn hex(out: &mut [u8], at: usize, s: &[u8]) -> usize
    ensures { Laid out.old at (hex_text s.now) out.new result }
{
    let mut n = at;
    let mut i = 0;
    while i < s.len() {
        n = hex_byte(out, n, s[i]);
        i += 1;
    }
    n
}

pub fn decimal(out: &mut [u8], at: usize, v: u64) -> usize
    ensures { Laid out.old at (decimal_text v) out.new result }
{
    let mut digits = [0u8; 20];
    let k = io::decimal(v, &mut digits);
    text(out, at, &digits[..k])
}

// How far a number is from 0.
fn magnitude(v: i32) -> u64
    ensures { result ≡ nat_abs v }
{
    if v < 0 {
        return (0 - v as i64) as u64;
    }
    v as u64
}

// A number that may be negative.
pub fn signed(out: &mut [u8], at: usize, v: i32) -> usize
    ensures { Laid out.old at (signed_text v) out.new result }
{
    if v < 0 {
        let n = byte(out, at, b'-');
        return decimal(out, n, magnitude(v));
    }
    decimal(out, at, magnitude(v))
}

// A name as it is printed, and a number.
pub fn field(out: &mut [u8], at: usize, name: &[u8], v: u64) -> usize
    ensures { Laid out.old at (name.now ++ decimal_text v) out.new result }
{
    let n = text(out, at, name);
    decimal(out, n, v)
}

// A name and two numbers, parted by a byte.
pub fn pair(out: &mut [u8], at: usize, name: &[u8], x: u64, part: u8, y: u64) -> usize
    ensures { Laid out.old at (name.now ++ decimal_text x ++ (part ∷ []) ++ decimal_text y) out.new result }
{
    let n = field(out, at, name, x);
    let n = byte(out, n, part);
    decimal(out, n, y)
}

// A name, and in hex the len bytes of s from index from on, as many of them as there are.
pub fn string(out: &mut [u8], at: usize, name: &[u8], s: &[u8], from: usize, len: usize) -> usize
    ensures { Laid out.old at (name.now ++ hex_text (slice s.now from len)) out.new result }
{
    let n = text(out, at, name);
    if s.len() < from {
        return n;
    }
    let end = from + least(len, s.len() - from);
    hex(out, n, &s[from..end])
}

// The byte that parts entry i of a list from the one before it.
pub fn parting(out: &mut [u8], at: usize, i: usize, part: u8) -> usize
    ensures { Laid out.old at (pick (eqb i 0) [] (part ∷ [])) out.new result }
{
    if i == 0 {
        return at;
    }
    byte(out, at, part)
}

// Entry i of a list of numbers.
fn entry(out: &mut [u8], at: usize, i: usize, part: u8, v: u64) -> usize
    ensures { Laid out.old at (pick (eqb i 0) [] (part ∷ []) ++ decimal_text v) out.new result }
{
    let n = parting(out, at, i, part);
    decimal(out, n, v)
}

fn wide4(v: u32) -> u64
    ensures { result ≡ v }
{
    v as u64
}

fn wide2(v: u16) -> u64
    ensures { result ≡ v }
{
    v as u64
}

// Numbers, parted by a byte.
pub fn numbers(out: &mut [u8], at: usize, part: u8, ns: &[u32]) -> usize
    ensures { Laid out.old at (numbers_text part ns.now 0 (length ns.now)) out.new result }
{
    let mut n = at;
    let mut i = 0;
    while i < ns.len() {
        n = entry(out, n, i, part, wide4(ns[i]));
        i += 1;
    }
    n
}

// The four numbers from index from on.
fn rectangle(out: &mut [u8], at: usize, ns: &[u16], from: usize) -> usize
    requires { from + 4 ≤ length ns.now }
    ensures { Laid out.old at (numbers_text 44 ns.now from 4) out.new result }
{
    let mut n = at;
    let mut j = 0;
    while j < 4 {
        n = entry(out, n, j, b',', wide2(ns[from + j]));
        j += 1;
    }
    n
}

// Rectangles, four numbers each.
pub fn rectangles(out: &mut [u8], at: usize, ns: &[u16]) -> usize
    ensures { Laid out.old at (laid_rectangles_text ns.now (length ns.now / 4)) out.new result }
{
    let mut n = at;
    let mut i = 0;
    let k = ns.len() / 4;
    while i < k {
        n = parting(out, n, i, b';');
        n = rectangle(out, n, ns, 4 * i);
        i += 1;
    }
    n
}

// Ends the line before index at and writes it to a writer. False where index at is past the end of the memory: nothing is written then.
pub fn end_line<W: Write>(to: &mut W, out: &mut [u8], at: usize) -> std::io::Result<bool>
    ensures memory { out.new ≡ laid out.old at (10 ∷ []) }
    ensures answer { IfOk result (λ within. IsTrue within ↔ (at ≤ length out.old)) }
    ensures failed { OnErr result (at ≤ length out.old) }
    ensures written { result ≡ Ok true → Appends (W.contents to.old) (W.contents to.new) (take (after out.old at (10 ∷ [])) out.new) }
    ensures kept { result ≡ Ok false → to.new ≡ to.old }
{
    let n = byte(out, at, b'\n');
    if n > out.len() {
        return Ok(false);
    }
    to.write_all(&out[0..n])?;
    Ok(true)
}
