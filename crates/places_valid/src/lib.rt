// Whether a memory describes holders and places: the rule of `places`.
#![tactic(auto)]

ghost use Rattle.std.specs.Prelude.{◌≡◌, ℕ, ◌<◌, ◌≤◌, ltb, length};
ghost use Rattle.places.specs.Sizes.{holder_count, holders_length, pointer_count};
ghost use Rattle.wire.specs.Tests.{pick};
ghost use Rattle.places.specs.Memory.{pointer_at, cells_apart, valid};
ghost use Rattle.places.specs.Marks.{Most};

// The larger of two pointers.
pub fn larger(a: u8, b: u8) -> u8
    ensures { result ≡ pick (ltb a b) b a }
{
    if a < b { b } else { a }
}

// The largest pointer.
fn most(bytes: &[u8]) -> u8
    requires { holders_length ≤ length bytes.now }
    ensures { Most (pointer_at bytes.now) holder_count result }
{
    let mut m = 0;
    for h in 0..places::HOLDERS {
        m = larger(m, bytes[h + 1]);
    }
    m
}

// No two cells point at one place.
fn cells_apart(bytes: &[u8]) -> bool
    requires { (holders_length ≤ length bytes.now) × ((h : ℕ) → pointer_at bytes.now h < pointer_count) }
    ensures { result ≡ cells_apart (pointer_at bytes.now) }
{
    let mut marks = [0u8; places::POINTERS];
    for c in 0..places::CELLS {
        let v = bytes[c + 1] as usize;
        if (v != 0) & (marks[v] != 0) {
            return false;
        }
        marks[v] = 1;
    }
    true
}

// The memory describes holders and places.
pub fn is_valid(bytes: &[u8]) -> bool
    ensures { result ≡ valid bytes.now }
{
    if bytes.len() < places::LENGTH {
        return false;
    }
    let n = bytes[0];
    if n < places::FEWEST {
        return false;
    }
    if places::MOST < n {
        return false;
    }
    if n < most(bytes) {
        return false;
    }
    cells_apart(bytes)
}
