// The flagged fields of an order put into the slot of a record, or of the desktop state, at their places.
#![tactic(auto)]

ghost use Rattle.std.specs.Prelude.{◌≡◌, ◌+◌, ◌<◌, ◌≤◌, length, get_or};
ghost use Rattle.rows.specs.Rows.{all_rows, no_row, rows_from, room_of, kind_row};
ghost use Rattle.body.specs.Stores.{store_of, room_all, EndsWell, Turned, Placed};

// Puts the field of row k, where it is carried from index at on, at index off. Where the next row begins.
fn put_field(
    slot: &mut [u8],
    s: &[u8],
    at: usize,
    flags: u32,
    k: usize,
    flag: u32,
    width: u8,
    kind: u8,
    off: usize,
) -> usize
    requires k_bound { (k < 22) × (1 ≤ at) × (at ≤ length s.now) × (off + room_of (get_or all_rows k no_row) ≤ length slot.old) × (kind_row flag width kind ≡ get_or all_rows k no_row) }
    requires ends_well { EndsWell (rows_from k 22) flags s.now at }
    ensures { Turned k off flags s.now at slot.old result slot.new }
{
    if !rows::is_flagged(flags, flag) {
        return at;
    }
    let n = rows::extent(s, at, flag, width, kind);
    wire::copy_part(slot, off, s, at, n);
    at + n
}

// The same of row K of the table: one proof for every row, and a function for each, in which the compiler knows the row.
#[inline(always)]
fn put<const K: usize>(slot: &mut [u8], s: &[u8], at: usize, flags: u32, off: usize) -> usize
    requires k_bound { (K < 22) × (1 ≤ at) × (at ≤ length s.now) × (off + room_of (get_or all_rows K no_row) ≤ length slot.old) }
    requires ends_well { EndsWell (rows_from K 22) flags s.now at }
    ensures { Turned K off flags s.now at slot.old result slot.new }
{
    put_field(
        slot,
        s,
        at,
        flags,
        K,
        rows::FLAGS[K],
        rows::WIDTHS[K],
        rows::KINDS[K],
        off,
    )
}

// Puts owner, style, show state and title. Where the next row begins.
fn put_owner_to_title(slot: &mut [u8], s: &[u8], at: usize, flags: u32) -> usize
    requires le_at { (1 ≤ at) × (at ≤ length s.now) × (1392 ≤ length slot.old) }
    requires ends_well { EndsWell (rows_from 1 22) flags s.now at }
    ensures { Placed 1 2 5 537 flags s.now at slot.old result slot.new }
{
    let p = put::<1>(slot, s, at, flags, 2); // owner
    let p = put::<2>(slot, s, p, flags, 6); // style, extended style
    let p = put::<3>(slot, s, p, flags, 14); // show state
    put::<4>(slot, s, p, flags, 15) // title
}

// The same for client offset, client size and resize margins.
fn put_client_area(slot: &mut [u8], s: &[u8], at: usize, flags: u32) -> usize
    requires le_at { (1 ≤ at) × (at ≤ length s.now) × (1392 ≤ length slot.old) }
    requires ends_well { EndsWell (rows_from 5 22) flags s.now at }
    ensures { Placed 5 537 9 569 flags s.now at slot.old result slot.new }
{
    let p = put::<5>(slot, s, at, flags, 537); // client offset x, y
    let p = put::<6>(slot, s, p, flags, 545); // client width, height
    let p = put::<7>(slot, s, p, flags, 553); // left, right resize margin
    put::<8>(slot, s, p, flags, 561) // top, bottom resize margin
}

// For RPContent, root parent, window offset, client delta and window size.
fn put_content_to_size(slot: &mut [u8], s: &[u8], at: usize, flags: u32) -> usize
    requires le_at { (1 ≤ at) × (at ≤ length s.now) × (1392 ≤ length slot.old) }
    requires ends_well { EndsWell (rows_from 9 22) flags s.now at }
    ensures { Placed 9 569 14 598 flags s.now at slot.old result slot.new }
{
    let p = put::<9>(slot, s, at, flags, 569); // RPContent
    let p = put::<10>(slot, s, p, flags, 570); // root parent
    let p = put::<11>(slot, s, p, flags, 574); // window offset x, y
    let p = put::<12>(slot, s, p, flags, 582); // window client delta x, y
    put::<13>(slot, s, p, flags, 590) // window width, height
}

// For window rectangles, visible offset and visibility rectangles.
fn put_rectangles(slot: &mut [u8], s: &[u8], at: usize, flags: u32) -> usize
    requires le_at { (1 ≤ at) × (at ≤ length s.now) × (1392 ≤ length slot.old) }
    requires ends_well { EndsWell (rows_from 14 22) flags s.now at }
    ensures { Placed 14 598 17 866 flags s.now at slot.old result slot.new }
{
    let p = put::<14>(slot, s, at, flags, 598); // window rectangles
    let p = put::<15>(slot, s, p, flags, 728); // visible offset x, y
    put::<16>(slot, s, p, flags, 736) // visibility rectangles
}

// For overlay description, taskbar button, stacking by the server, application bar and its edge.
fn put_overlay_to_edge(slot: &mut [u8], s: &[u8], at: usize, flags: u32) -> usize
    requires le_at { (1 ≤ at) × (at ≤ length s.now) × (1392 ≤ length slot.old) }
    requires ends_well { EndsWell (rows_from 17 22) flags s.now at }
    ensures { Placed 17 866 22 1392 flags s.now at slot.old result slot.new }
{
    let p = put::<17>(slot, s, at, flags, 866); // overlay description
    let p = put::<18>(slot, s, p, flags, 1388); // taskbar button
    let p = put::<19>(slot, s, p, flags, 1389); // stacking by the server
    let p = put::<20>(slot, s, p, flags, 1390); // application bar
    put::<21>(slot, s, p, flags, 1391) // its edge
}

// Puts the flagged fields of a window, carried from index at on, into their places. With rows and places that the compiler
// knows this takes fewer instructions than a loop.
fn store_window(slot: &mut [u8], s: &[u8], at: usize, flags: u32)
    requires le_at { (1 ≤ at) × (at ≤ length s.now) × (1392 ≤ length slot.old) }
    requires ends_well { EndsWell (rows_from 1 22) flags s.now at }
    ensures { slot.new ≡ store_of (rows_from 1 22) 2 flags s.now at slot.old }
{
    let p = put_owner_to_title(slot, s, at, flags);
    let p = put_client_area(slot, s, p, flags);
    let p = put_content_to_size(slot, s, p, flags);
    let p = put_rectangles(slot, s, p, flags);
    put_overlay_to_edge(slot, s, p, flags);
}

// Puts the flagged fields of rows low to high into their places, row by row.
fn store_rows(slot: &mut [u8], s: &[u8], at: usize, flags: u32, low: usize, high: usize)
    requires low_le_high { (low ≤ high) × (high ≤ 31) × (1 ≤ at) × (at ≤ length s.now) × (2 + room_all (rows_from low high) ≤ length slot.old) }
    requires ends_well { EndsWell (rows_from low high) flags s.now at }
    ensures { slot.new ≡ store_of (rows_from low high) 2 flags s.now at slot.old }
{
    let fs = rows::FLAGS;
    let ws = rows::WIDTHS;
    let ks = rows::KINDS;
    let mut p = at;
    let mut off = 2; // past the two marks
    for k in low..high {
        let n = rows::carried(s, p, flags, fs[k], ws[k], ks[k]);
        wire::copy_part(slot, off, s, p, n);
        let m = rows::room(fs[k], ws[k], ks[k]);
        p += n;
        off += m;
    }
}

// Puts the flagged fields of rows low to high, carried from index at on, into their places.
pub fn store(slot: &mut [u8], s: &[u8], at: usize, flags: u32, low: usize, high: usize)
    requires low_le_high { (low ≤ high) × (high ≤ 31) × (1 ≤ at) × (at ≤ length s.now) × (2 + room_all (rows_from low high) ≤ length slot.old) }
    requires ends_well { EndsWell (rows_from low high) flags s.now at }
    ensures { slot.new ≡ store_of (rows_from low high) 2 flags s.now at slot.old }
{
    if (low == 1) & (high == 22) {
        store_window(slot, s, at, flags);
        return;
    }
    store_rows(slot, s, at, flags, low, high);
}
