// Z: the state memory and the places of the store in hex.
ghost use Rattle.std.specs.Prelude.{◌*◌, ◌≤◌, length};

use crate::state::State;

// The most places that are printed.
const MOST: usize = 64;

// The bytes of the longest line: two digits a byte, the kind and a space before them, the line's end after them.
const DUMPED: usize = session::INDEX + session::BODIES + session::JOURNAL + MOST * store::PLACE;

pub(crate) const LINE: usize = 2 * DUMPED + 3;

// How many whole places of a part follow, where at most so many may.
fn following(part: &[u8], left: usize) -> usize
    ensures { (result ≤ left) × (4224 * result ≤ length part.now) }
{
    left.min(part.len() / store::PLACE)
}

// Lays the whole places of a part, where at most so many may follow. Answers where they end, and how many may follow then.
fn lay_part(out: &mut [u8], at: usize, part: &[u8], left: usize) -> (usize, usize) {
    let places = following(part, left);
    let end = store::PLACE * places;
    let at = print::hex(out, at, &part[..end]);
    (at, left - places)
}

// Lays the line without its end, and answers where it ends. What the next call lacks is printed too.
pub(crate) fn lay(out: &mut [u8], state: &State<'_>) -> usize {
    let mut at = print::text(out, 0, b"Z ");
    for part in state.memory() {
        at = print::hex(out, at, part);
    }
    let mut left = MOST;
    for part in state.store() {
        let (end, rest) = lay_part(out, at, part, left);
        at = end;
        left = rest;
    }
    at
}
