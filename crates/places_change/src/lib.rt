// The changes of the pointers: to take a place, to share one, to let one go.
#![tactic(auto)]

ghost use Rattle.std.specs.Prelude.{◌≡◌, ◌∷◌, [], ◌+◌, ◌<◌, ◌≤◌, length};
ghost use Rattle.places.specs.Sizes.{holder_count, holders_length, most_places};
ghost use Rattle.places.specs.Changes.{point_all, share_of, release_of, release_records_of};

// Where the pointers of icons begin.
const ICONS_AT: usize = 13;

// An icon's cell and its pointer take a place that is free once they let go.
pub fn take_at(bytes: &mut [u8], cell: usize, pointer: usize, place: usize)
    requires { (holders_length ≤ length bytes.old) × (cell < holder_count) × (pointer < holder_count) × (place < most_places) }
    ensures { bytes.new ≡ point_all bytes.old (cell ∷ pointer ∷ []) (place + 1) }
{
    let to = (place + 1) as u8;
    bytes[cell + 1] = to;
    bytes[pointer + 1] = to;
}

// A cached icon: its pointer shares its cell's place.
pub fn share(bytes: &mut [u8], pointer: usize, cell: usize)
    requires { (holders_length ≤ length bytes.old) × (cell < holder_count) × (pointer < holder_count) }
    ensures { bytes.new ≡ share_of bytes.old pointer cell }
{
    bytes[pointer + 1] = bytes[cell + 1];
}

// A holder lets its place go.
pub fn release(bytes: &mut [u8], holder: usize)
    requires { (holders_length ≤ length bytes.old) × (holder < holder_count) }
    ensures { bytes.new ≡ release_of bytes.old holder }
{
    bytes[holder + 1] = 0;
}

// Every icon of a record lets its place go; the cells keep theirs.
pub fn release_records(bytes: &mut [u8])
    requires { holders_length ≤ length bytes.old }
    ensures { bytes.new ≡ release_records_of bytes.old }
{
    let zeros = [0u8; places::ICONS];
    wire::copy_at(bytes, ICONS_AT, &zeros);
}
