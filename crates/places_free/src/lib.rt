// The places that holders point at, marked in one pass over the pointers, and the first that is free once two have let go.
#![tactic(auto)]

ghost use Rattle.std.specs.Prelude.{◌≡◌, true, ◌∷◌, [], ℕ, ◌+◌, ◌<◌, ◌≤◌, eqb, length, get_or};
ghost use Rattle.places.specs.Sizes.{holder_count, group_size, most_places, pointer_count};
ghost use Rattle.places.specs.Counts.{first_from};
ghost use Rattle.places.specs.Memory.{pointer_at, valid};
ghost use Rattle.places.specs.Marks.{none_of, Marked};
ghost use Rattle.places.specs.Changes.{free_place};

// Pointers are marked by groups, the cells and the icons of four records each: where all of a group are none, one test passes them.
const GROUP: usize = 12;

const GROUPS: usize = 13;

// Whether the pointers of a group are all none.
fn is_none(group: &[u8]) -> bool
    ensures { result ≡ none_of group.now }
{
    let a = wire::read_u32(group, 0);
    let b = wire::read_u32(group, 4);
    let c = wire::read_u32(group, 8);
    (a == 0) & (b == 0) & (c == 0)
}

// Marks the pointers of a group.
fn mark_group(marks: &mut [u8; places::POINTERS], pointers: &[u8], from: usize)
    requires group_size_in_bounds { (from + group_size ≤ length pointers.now) × ((h : ℕ) → get_or pointers.now h 0 < pointer_count) }
    requires marks_len { (length marks.old ≡ pointer_count) × Marked (λ h. get_or pointers.now h 0) from marks.old }
    ensures { (length marks.new ≡ pointer_count) × Marked (λ h. get_or pointers.now h 0) (from + group_size) marks.new }
{
    for h in from..from + GROUP {
        let v = pointers[h] as usize;
        marks[v] = 1;
    }
}

// A mark for each pointer at a place that stands among some, 0 where it does not.
fn marks_of(pointers: &[u8]) -> [u8; places::POINTERS]
    requires { (length pointers.now ≡ holder_count) × ((h : ℕ) → get_or pointers.now h 0 < pointer_count) }
    ensures { Marked (λ h. get_or pointers.now h 0) holder_count result }
{
    let mut marks = [0u8; places::POINTERS];
    for g in 0..GROUPS {
        let from = GROUP * g;
        let end = from + GROUP;
        if !is_none(&pointers[from..end]) {
            mark_group(&mut marks, pointers, from);
        }
    }
    marks
}

// A mark for each pointer at a place that a holder has.
pub fn marks(bytes: &[u8]) -> [u8; places::POINTERS]
    requires { valid bytes.now ≡ true }
    ensures { Marked (pointer_at bytes.now) holder_count result }
{
    marks_of(&bytes[1..places::LENGTH])
}

// The first of n places whose pointer has no mark.
fn first_unmarked(marks: &[u8; places::POINTERS], n: u8) -> Option<usize>
    requires { n ≤ most_places }
    ensures { result ≡ first_from n 0 (λ p. eqb (get_or marks.now (p + 1) 0) 0) }
{
    for p in 0..n as usize {
        if marks[p + 1] == 0 {
            return Some(p);
        }
    }
    None
}

// The first place that nobody but these two points at.
pub fn free_place(bytes: &[u8], cell: usize, pointer: usize) -> Option<usize>
    requires { (valid bytes.now ≡ true) × (cell < holder_count) × (pointer < holder_count) }
    ensures { result ≡ free_place bytes.now (cell ∷ pointer ∷ []) }
{
    let mut left = [0u8; places::HOLDERS];
    wire::copy_part(&mut left, 0, bytes, 1, places::HOLDERS);
    left[cell] = 0;
    left[pointer] = 0;
    let marks = marks_of(&left);
    first_unmarked(&marks, bytes[0])
}
