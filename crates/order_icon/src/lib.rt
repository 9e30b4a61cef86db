// An icon or a cached icon, after the other fields of an order.
#![tactic(auto)]

ghost use Rattle.std.specs.Prelude.{◌≡◌, ◌+◌, ◌≤◌, length};
ghost use Rattle.rows.specs.Rows.{Within};
ghost use Rattle.order.specs.Icons.{tabled, parts_from, parts_of, icon_numbers_bad, icon_bad, cached_numbers_bad, cached_bad, head_cut, parts_cut, icon_fit, cached_fit, picture_fit, icon_whole, cached_whole};

use order::IconParts;
use rows::{Fit, first_bad};

pub fn has_table(bits: u8) -> bool
    ensures { result ≡ tabled bits }
{
    (bits == 1) | (bits == 4) | (bits == 8)
}

fn parts(start: usize, mask: usize, table: usize, color: usize) -> IconParts
    requires { start + mask + table + color ≤ 0xFFFFFFFFFFFFFFFF }
    ensures { result ≡ parts_from start mask table color }
{
    IconParts {
        mask: start,
        table: start + mask,
        color: start + mask + table,
        end: start + mask + table + color,
    }
}

// Where mask, color table and color of the icon at index at begin, and where it ends.
pub fn icon_parts(s: &[u8], at: usize) -> IconParts
    requires { at ≤ length s.now }
    ensures { result ≡ parts_of s.now at }
{
    let bits = wire::read_u8(s, at + 3);
    let a = wire::read_u16(s, at + 8) as usize;
    let b = wire::read_u16(s, at + 10) as usize;
    if has_table(bits) {
        let c = wire::read_u16(s, at + 12) as usize;
        return parts(at + 14, b, a, c);
    }
    parts(at + 12, a, 0, b)
}

// The offset of the first number of an icon outside its set, 0 for none.
fn numbers_bad(
    at: usize,
    entry: u16,
    cache: u8,
    bits: u8,
    width: u16,
    height: u16,
    n: usize,
    last: usize,
) -> usize
    requires { at + 6 ≤ 0xFFFFFFFFFFFFFFFF }
    ensures { result ≡ icon_numbers_bad at entry cache bits width height n last }
{
    if !((cache == 0xFF) | (entry <= 5)) {
        return at;
    }
    if !((cache == 0xFF) | (cache <= 1)) {
        return at + 2;
    }
    if !((bits == 1) | (bits == 4) | (bits == 8) | (bits == 16) | (bits == 24) | (bits == 32)) {
        return at + 3;
    }
    if !((1 <= width) & (width <= 32)) {
        return at + 4;
    }
    if !((1 <= height) & (height <= 32)) {
        return at + 6;
    }
    if !(n <= 4224) {
        return last;
    }
    0
}

fn icon_bad(s: &[u8], at: usize, p: IconParts) -> usize
    requires at_in_bounds { at ≤ length s.now }
    requires p_value { p ≡ parts_of s.now at }
    ensures { result ≡ icon_bad s.now at }
{
    let entry = wire::read_u16(s, at);
    let cache = wire::read_u8(s, at + 2);
    let bits = wire::read_u8(s, at + 3);
    let width = wire::read_u16(s, at + 4);
    let height = wire::read_u16(s, at + 6);
    let n = p.end - p.mask;
    let last = p.mask - 2;
    numbers_bad(at, entry, cache, bits, width, height, n, last)
}

// Of a header with a bytes left, where the number begins that is cut.
fn head_cut(a: usize) -> usize
    ensures { result ≡ head_cut a }
{
    if a < 2 {
        return 0;
    }
    if a < 4 {
        return a;
    }
    a / 2 * 2
}

// Of an icon at index at that is cut at end, where the number or run begins that is cut.
fn icon_cut(at: usize, end: usize, p: IconParts) -> usize
    requires { at ≤ end }
    ensures { result ≡ parts_cut at end p }
{
    if end < p.mask {
        let n = head_cut(end - at);
        return at + n;
    }
    if end < p.table {
        return p.mask;
    }
    if end < p.color {
        return p.table;
    }
    p.color
}

fn icon_fit(s: &[u8], at: usize, bad: usize) -> Fit
    requires { at ≤ length s.now }
    ensures { result ≡ icon_fit s.now at bad }
{
    let p = icon_parts(s, at);
    let q = p.end;
    if q <= s.len() {
        let more = icon_bad(s, at, p);
        let b = first_bad(bad, more);
        return Fit::Ends(q, b);
    }
    let c = icon_cut(at, s.len(), p);
    Fit::Short(c)
}

fn cached_numbers_bad(at: usize, entry: u16, cache: u8) -> usize
    requires { at + 2 ≤ 0xFFFFFFFFFFFFFFFF }
    ensures { result ≡ cached_numbers_bad at entry cache }
{
    if !(entry <= 5) {
        return at;
    }
    if !(cache <= 1) {
        return at + 2;
    }
    0
}

fn cached_bad(s: &[u8], at: usize) -> usize
    requires { at ≤ length s.now }
    ensures { result ≡ cached_bad s.now at }
{
    let entry = wire::read_u16(s, at);
    let cache = wire::read_u8(s, at + 2);
    cached_numbers_bad(at, entry, cache)
}

// The bytes of a cached icon: entry and cache id.
pub const CACHED_LENGTH: usize = 3;

fn cached_fit(s: &[u8], at: usize, bad: usize) -> Fit
    requires { at ≤ length s.now }
    ensures { result ≡ cached_fit s.now at bad }
{
    let a = s.len() - at;
    if CACHED_LENGTH <= a {
        let more = cached_bad(s, at);
        let b = first_bad(bad, more);
        return Fit::Ends(at + CACHED_LENGTH, b);
    }
    let n = head_cut(a);
    Fit::Short(at + n)
}

// Where the icon or cached icon that the flags name ends.
pub fn picture(s: &[u8], flags: u32, at: usize, bad: usize) -> Fit
    requires { (at ≤ length s.now) × (bad ≤ length s.now) }
    ensures { (result ≡ picture_fit flags s.now at bad) × Within result (length s.now) }
{
    if flags & protocol::ICON != 0 {
        return icon_fit(s, at, bad);
    }
    if flags & protocol::CACHED_ICON != 0 {
        return cached_fit(s, at, bad);
    }
    Fit::Ends(at, bad)
}

// Whether a good icon fills the order from index at on.
pub fn is_whole(s: &[u8], at: usize) -> bool
    requires { at ≤ length s.now }
    ensures { result ≡ icon_whole s.now at }
{
    let p = icon_parts(s, at);
    let bad = icon_bad(s, at, p);
    (p.end == s.len()) & (bad == 0)
}

// The same of a good cached icon.
pub fn is_whole_cached(s: &[u8], at: usize) -> bool
    requires { at ≤ length s.now }
    ensures { result ≡ cached_whole s.now at }
{
    if at + CACHED_LENGTH != s.len() {
        return false;
    }
    cached_bad(s, at) == 0
}
