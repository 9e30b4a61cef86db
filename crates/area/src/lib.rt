// The points in the union of a list of rectangles.
//
// A rectangle adds what those before it leave of it: the whole, where none of them meets it; else it is cut into four pieces
// around the last one that does, and each piece goes against those before that one. A box is a rectangle, or a piece of one.
#![tactic(auto)]

ghost use Rattle.std.specs.Prelude.{◌≡◌, true, ◌+◌, ◌-◌, ◌*◌, ◌<◌, ◌≤◌, min, max, length};
ghost use Rattle.wire.specs.Numbers.{num_at};
ghost use Rattle.area.specs.Area.{area_of, rect_at, list_length};
ghost use Rattle.area.specs.Area.{listed as Area·listed};
ghost use Rattle.area.specs.Cutting.{left_over, most_points, box, meets, Met};

// Its points are those from left and top on; right and bottom are outside.
#[derive(Clone, Copy)]
pub struct Rect {
    pub left: u16,
    pub top: u16,
    pub right: u16,
    pub bottom: u16,
}

// The bytes of a list's count and of each rectangle, and the most rectangles of a list.
const COUNT: usize = 2;

const RECT: usize = 8;

const MOST: usize = 16;

fn wide(b: u8) -> u32
    ensures { (result ≡ b) × (result < 256) }
{
    b as u32
}

// The number of 2 bytes at index at.
fn number(s: &[u8], at: usize) -> u16
    requires { at + 2 ≤ length s.now }
    ensures { result ≡ num_at 2 s.now at }
{
    (wide(s[at]) + 256 * wide(s[at + 1])) as u16
}

// Rectangle i of a list.
fn rect_at(s: &[u8], i: usize) -> Rect
    requires { list_length (i + 1) ≤ length s.now }
    ensures { result ≡ rect_at s.now i }
{
    let at = COUNT + RECT * i;
    let left = number(s, at);
    let top = number(s, at + 2);
    let right = number(s, at + 4);
    let bottom = number(s, at + 6);
    Rect {
        left,
        top,
        right,
        bottom,
    }
}

fn larger(a: u16, b: u16) -> u16
    ensures { result ≡ max a b }
{
    if a < b { b } else { a }
}

fn smaller(a: u16, b: u16) -> u16
    ensures { result ≡ min a b }
{
    if a < b { a } else { b }
}

// Whether a box, which has points, and a rectangle have one in common. What tells most pairs apart stands last, where the
// compiled code looks first.
fn meet(q: Rect, p: Rect) -> bool
    ensures { result ≡ meets q p }
{
    (p.left < p.right)
        & (p.top < p.bottom)
        & (p.top < q.bottom)
        & (q.top < p.bottom)
        & (p.left < q.right)
        & (q.left < p.right)
}

// One more than the number of the last of the first n rectangles that meets the box; 0: none does.
fn met(s: &[u8], n: usize, q: Rect) -> usize
    requires { list_length n ≤ length s.now }
    ensures { Met s.now n q result }
{
    let mut k = n;
    while 0 < k {
        let i = k - 1;
        if meet(q, rect_at(s, i)) {
            return k;
        }
        k = i;
    }
    0
}

// The points of a box that the first n rectangles leave uncovered. The box has points; it comes as four numbers, which pass in
// registers.
#[cycle(columns_cut_rows_uncovered)]
fn uncovered(s: &[u8], n: usize, left: u16, top: u16, right: u16, bottom: u16) -> u64
    requires { (list_length n ≤ length s.now) × (left < right) × (top < bottom) }
    ensures { (result ≡ left_over s.now n (box left top right bottom)) × (result ≤ most_points) }
{
    let q = Rect {
        left,
        top,
        right,
        bottom,
    };
    let k = met(s, n, q);
    if k == 0 {
        return (right as u64 - left as u64) * (bottom as u64 - top as u64);
    }
    cut(s, k - 1, left, top, right, bottom)
}

// The same of a box that may have no rows.
#[cycle(columns_cut_rows_uncovered)]
fn rows(s: &[u8], n: usize, left: u16, top: u16, right: u16, bottom: u16) -> u64
    requires { (list_length n ≤ length s.now) × (left < right) }
    ensures { (result ≡ left_over s.now n (box left top right bottom)) × (result ≤ most_points) }
{
    if top < bottom {
        return uncovered(s, n, left, top, right, bottom);
    }
    0
}

// And of one that may have no columns.
#[cycle(columns_cut_rows_uncovered)]
fn columns(s: &[u8], n: usize, left: u16, top: u16, right: u16, bottom: u16) -> u64
    requires { (list_length n ≤ length s.now) × (top < bottom) }
    ensures { (result ≡ left_over s.now n (box left top right bottom)) × (result ≤ most_points) }
{
    if left < right {
        return uncovered(s, n, left, top, right, bottom);
    }
    0
}

// The points of a box that rectangle i, which meets it, and those before leave uncovered: the pieces above, below, left and
// right of the rectangle.
#[cycle(columns_cut_rows_uncovered)]
fn cut(s: &[u8], i: usize, left: u16, top: u16, right: u16, bottom: u16) -> u64
    requires i_in_bounds { (list_length (i + 1) ≤ length s.now) × (left < right) × (top < bottom) }
    requires i_value { meets (box left top right bottom) (rect_at s.now i) ≡ true }
    ensures { (result ≡ left_over s.now (i + 1) (box left top right bottom)) × (result ≤ most_points) }
{
    let p = rect_at(s, i);
    let x = larger(left, p.left);
    let y = larger(top, p.top);
    let u = smaller(right, p.right);
    let v = smaller(bottom, p.bottom);
    rows(s, i, left, top, right, y)
        + rows(s, i, left, v, right, bottom)
        + columns(s, i, left, y, x, v)
        + columns(s, i, u, y, right, v)
}

// The points of any box that the first n rectangles leave uncovered.
fn piece(s: &[u8], n: usize, q: Rect) -> u64
    requires { list_length n ≤ length s.now }
    ensures { (result ≡ left_over s.now n q) × (result ≤ most_points) }
{
    if (q.left < q.right) & (q.top < q.bottom) {
        return rows(s, n, q.left, q.top, q.right, q.bottom);
    }
    0
}

// How many rectangles a list has.
fn listed(s: &[u8]) -> usize
    ensures { (result ≡ Area·listed s.now) × (8 * result ≤ length s.now - 2) }
{
    let n = wire::read_u16(s, 0) as usize;
    if (n <= MOST) & (COUNT + RECT * n <= s.len()) {
        return n;
    }
    0
}

// The points that lie in at least one rectangle of a list: a count of 2 bytes, and 8 bytes for each.
pub fn area(s: &[u8]) -> u64
    ensures { result ≡ area_of s.now }
{
    let mut sum = 0;
    for i in 0..listed(s) {
        sum += piece(s, i, rect_at(s, i));
    }
    sum
}

// The points of a list that has one rectangle: none where its right or bottom does not pass its left or top, without a branch.
pub fn single(s: &[u8]) -> u64
    requires { Area·listed s.now ≡ 1 }
    ensures { (result ≡ area_of s.now) × (result ≤ most_points) }
{
    let q = rect_at(s, 0);
    let wide = larger(q.left, q.right) - q.left;
    let high = larger(q.top, q.bottom) - q.top;
    wide as u64 * high as u64
}
