// The fields of a record, each read from its place.
ghost use Rattle.std.specs.Prelude.{◌≡◌, ◌≤◌, leb, length, replicate};
ghost use Rattle.wire.specs.Tests.{pick};
ghost use Rattle.wire.specs.Numbers.{num_at};
ghost use Rattle.wire.specs.Parts.{slice, splice, padded};
ghost use Rattle.rows.specs.Rows.{numbers_row, text_row, rectangles_row, ids_row};
ghost use Rattle.layout.specs.Layouts.{field_at};
ghost use Rattle.view.specs.Views.{each_of, window_id, point_of, pair_of, text_of, rectangles_of, stack_of, is_marked};

use crate::{Pair, Point, Rectangles, Stack, Text};
use protocol::WindowId;

pub fn point(s: &[u8], at: usize) -> Point
    requires { at ≤ 65535 }
    ensures { result ≡ point_of (field_at (numbers_row 0 8) s.now at) }
{
    let x = signs::read_i32(s, at);
    let y = signs::read_i32(s, at + 4);
    Point { x, y }
}

pub fn pair(s: &[u8], at: usize) -> Pair
    requires { at ≤ 65535 }
    ensures { result ≡ pair_of (field_at (numbers_row 0 8) s.now at) }
{
    let x = wire::read_u32(s, at);
    let y = wire::read_u32(s, at + 4);
    Pair { x, y }
}

pub fn window_id(s: &[u8], at: usize) -> WindowId
    ensures { result ≡ window_id (num_at 4 s.now at) }
{
    let id = wire::read_u32(s, at);
    WindowId { id }
}

// A mark that is set.
pub fn marked(v: u8) -> bool
    ensures { result ≡ is_marked v }
{
    v == 1
}

// The lesser of two.
fn least(a: usize, b: usize) -> usize
    ensures { result ≡ pick (leb a b) a b }
{
    if a <= b {
        return a;
    }
    b
}

// Puts n bytes of s, from index at on, at the start of out, as many as s has.
pub fn put_bytes(out: &mut [u8], s: &[u8], at: usize, n: usize)
    requires { n ≤ length out.old }
    ensures { out.new ≡ splice out.old 0 (slice s.now at n) }
{
    if s.len() <= at {
        return;
    }
    let k = least(n, s.len() - at);
    wire::copy_part(out, 0, s, at, k);
}

// A string of at most most bytes.
pub fn text(s: &[u8], at: usize, most: usize) -> Text
    requires { (at ≤ 65535) × (most ≤ 520) }
    ensures { result ≡ text_of (field_at (text_row 0 most) s.now at) }
{
    let count = wire::read_u16(s, at);
    let n = least(count as usize, most);
    let mut bytes = [0u8; 520];
    put_bytes(&mut bytes, s, at + 2, n);
    Text { count, bytes }
}

// Puts n numbers of 2 bytes, from index at on, at the start of out, which is zeros.
fn put_sides(out: &mut [u16], s: &[u8], at: usize, n: usize)
    requires { (at ≤ 131070) × (n ≤ 64) × (out.old ≡ replicate 64 0) }
    ensures { out.new ≡ padded 0 64 (each_of (λ v. v) 2 n s.now at) }
{
    let mut i = 0;
    while i < n {
        out[i] = wire::read_u16(s, at + 2 * i);
        i += 1;
    }
}

pub fn rectangles(s: &[u8], at: usize) -> Rectangles
    requires { at ≤ 65535 }
    ensures { result ≡ rectangles_of (field_at (rectangles_row 0) s.now at) }
{
    let count = wire::read_u16(s, at);
    let n = least(4 * (count as usize), 64);
    let mut sides = [0u16; 64];
    put_sides(&mut sides, s, at + 2, n);
    Rectangles { count, sides }
}

pub fn stack(s: &[u8], at: usize) -> Stack
    requires { at ≤ 65535 }
    ensures { result ≡ stack_of (field_at (ids_row 0) s.now at) }
{
    let count = wire::read_u8(s, at);
    let n = least(count as usize, 64);
    let none = WindowId { id: 0 };
    let mut ids = [none; 64];
    let mut i = 0;
    while i < n {
        let id = window_id(s, at + 1 + 4 * i);
        ids[i] = id;
        i += 1;
    }
    Stack { count, ids }
}
