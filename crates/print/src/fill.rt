// Text with numbers in it: a template in which `#` stands for the next of some numbers as a decimal, and `~` for the next of others,
// which may be negative; past the last of them for 0.
ghost use Rattle.std.specs.Prelude.{◌≡◌, [], ◌+◌, ◌<◌, ◌≤◌, pos, get_or};
ghost use Rattle.print.specs.Laid.{Laid};
ghost use Rattle.print.specs.Templates.{stands_for, next_after, fill_text};

// Number k, if there is one.
fn number(ns: &[u64], k: usize) -> u64
    ensures { result ≡ get_or ns.now k 0 }
{
    if k < ns.len() { ns[k] } else { 0 }
}

fn signed(zs: &[i32], k: usize) -> i32
    ensures { result ≡ get_or zs.now k (pos 0) }
{
    if k < zs.len() { zs[k] } else { 0 }
}

// Lays what the byte b of a template stands for: v and z are the next numbers.
fn stand_for(out: &mut [u8], at: usize, b: u8, v: u64, z: i32) -> usize
    ensures { Laid out.old at (stands_for b v z) out.new result }
{
    if b == b'#' {
        return crate::decimal(out, at, v);
    }
    if b == b'~' {
        return crate::signed(out, at, z);
    }
    crate::byte(out, at, b)
}

// Which number is next after the byte b, where those are numbers that the byte mark stands for.
fn after(k: usize, b: u8, mark: u8) -> usize
    requires { k < 18446744073709551615 }
    ensures { (result ≡ next_after k b mark) × (result ≤ k + 1) }
{
    if b == mark { k + 1 } else { k }
}

pub fn fill(out: &mut [u8], at: usize, template: &[u8], ns: &[u64], zs: &[i32]) -> usize
    ensures { Laid out.old at (fill_text template.now ns.now zs.now) out.new result }
{
    let mut n = at;
    let mut k = 0;
    let mut j = 0;
    let mut i = 0;
    while i < template.len() {
        let b = template[i];
        n = stand_for(out, n, b, number(ns, k), signed(zs, j));
        k = after(k, b, b'#');
        j = after(j, b, b'~');
        i += 1;
    }
    n
}

// The same with no number that may be negative.
pub fn numbers(out: &mut [u8], at: usize, template: &[u8], ns: &[u64]) -> usize
    ensures { Laid out.old at (fill_text template.now ns.now []) out.new result }
{
    fill(out, at, template, ns, &[])
}
