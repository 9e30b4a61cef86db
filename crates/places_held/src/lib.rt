// The first free place where the first places are known to be held: of those only the two holders' own are looked at.
#![tactic(auto)]

ghost use Rattle.std.specs.Prelude.{◌≡◌, true, ◌∷◌, [], ◌-◌, ◌<◌, ◌≤◌, ltb, length};
ghost use Rattle.places.specs.Sizes.{holder_count, holders_length};
ghost use Rattle.wire.specs.Tests.{pick};
ghost use Rattle.places.specs.Memory.{pointer_at, count_at, is_free, valid};
ghost use Rattle.places.specs.Held.{HeldBelow};
ghost use Rattle.places.specs.Changes.{let_go, free_place};

fn smaller(a: u8, b: u8) -> u8
    ensures { result ≡ pick (ltb a b) a b }
{
    if a < b { a } else { b }
}

// How many holders have a pointer.
fn users(bytes: &[u8], v: u8) -> u8
    requires { holders_length ≤ length bytes.now }
    ensures { result ≡ count_at holder_count (pointer_at bytes.now) v }
{
    let mut n: u8 = 0;
    for h in 0..places::HOLDERS {
        n += (bytes[h + 1] == v) as u8;
    }
    n
}

// Nobody but these two has a pointer, which is not none.
fn is_theirs(bytes: &[u8], cell: usize, pointer: usize, v: u8) -> bool
    requires { (holders_length ≤ length bytes.now) × (cell < holder_count) × (pointer < holder_count) × (0 < v) }
    ensures { result ≡ is_free holder_count (let_go (cell ∷ pointer ∷ []) (pointer_at bytes.now)) (v - 1) }
{
    let own = (bytes[cell + 1] == v) as u8;
    let other = ((bytes[pointer + 1] == v) & (cell != pointer)) as u8;
    users(bytes, v) == own + other
}

// The first place that nobody but these two points at, where the first `held` places are all pointed at: of those only the
// two's own are looked at, the lower one first, then the next place; all pointers are marked only where none of these is free.
pub fn free_place_from(bytes: &[u8], cell: usize, pointer: usize, held: u8) -> Option<usize>
    requires bytes_value { (valid bytes.now ≡ true) × (cell < holder_count) × (pointer < holder_count) }
    requires held_below { HeldBelow bytes.now held }
    ensures { result ≡ free_place bytes.now (cell ∷ pointer ∷ []) }
{
    if held == 0 {
        return places_free::free_place(bytes, cell, pointer);
    }
    let a = bytes[cell + 1];
    let b = bytes[pointer + 1];
    let x = smaller(a, b);
    let y = places_valid::larger(a, b);
    if (x != 0) & (x <= held) {
        if is_theirs(bytes, cell, pointer, x) {
            return Some(x as usize - 1);
        }
    }
    if (x != y) & (y <= held) {
        if is_theirs(bytes, cell, pointer, y) {
            return Some(y as usize - 1);
        }
    }
    if held < bytes[0] {
        if is_theirs(bytes, cell, pointer, held + 1) {
            return Some(held as usize);
        }
    }
    places_free::free_place(bytes, cell, pointer)
}
