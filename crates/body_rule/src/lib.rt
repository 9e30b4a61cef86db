// The rule of a body: whether a slot of `body` holds one, its marks within their limits and each field in its set.
#![tactic(auto)]

ghost use Rattle.std.specs.Prelude.{◌≡◌, ◌≤◌, leb};
ghost use Rattle.wire.specs.Tests.{both};
ghost use Rattle.wire.specs.Numbers.{num_at};
ghost use Rattle.rows.specs.Rows.{rows_from};
ghost use Rattle.body.specs.Bodies.{fields_ok, body_ok};

// Whether each field of rows low to high is in its set, row by row.
fn rows_ok(slot: &[u8], low: usize, high: usize) -> bool
    requires { (low ≤ high) × (high ≤ 31) }
    ensures { result ≡ fields_ok (rows_from low high) 2 slot.now }
{
    let fs = rows::FLAGS;
    let ws = rows::WIDTHS;
    let ks = rows::KINDS;
    let mut off = 2;
    for k in low..high {
        if !rows::in_set(slot, off, fs[k], ws[k], ks[k]) {
            return false;
        }
        off += rows::room(fs[k], ws[k], ks[k]);
    }
    true
}

// Whether the first fields of a window that have a set are in theirs. With rows and places that the compiler knows a test takes
// few instructions.
fn first_sets(slot: &[u8]) -> bool
    ensures { result ≡ fields_ok (rows_from 1 17) 2 slot.now }
{
    let f = rows::FLAGS;
    let w = rows::WIDTHS;
    let t = rows::KINDS;
    if !rows::in_set(slot, 14, f[3], w[3], t[3]) {
        return false; // show state
    }
    let a = rows::in_set(slot, 15, f[4], w[4], t[4]); // title
    let b = rows::in_set(slot, 569, f[9], w[9], t[9]); // RPContent
    let c = rows::in_set(slot, 598, f[14], w[14], t[14]); // window rectangles
    let d = rows::in_set(slot, 736, f[16], w[16], t[16]); // visibility rectangles
    a & b & c & d
}

// Whether a window's last four are: taskbar button, stacking by the server, application bar and its edge. They are a byte each,
// and one number tells all.
fn last_bytes(slot: &[u8]) -> bool
    ensures { result ≡ fields_ok (rows_from 18 22) 1388 slot.now }
{
    let f = rows::FLAGS;
    let w = rows::WIDTHS;
    let t = rows::KINDS;
    let v = wire::read_u32(slot, 1388) as usize;
    let a = rows::takes(f[18], w[18], t[18], v % 256);
    let b = rows::takes(f[19], w[19], t[19], v / 256 % 256);
    let c = rows::takes(f[20], w[20], t[20], v / 256 / 256 % 256);
    let d = rows::takes(f[21], w[21], t[21], v / 256 / 256 / 256);
    a & b & c & d
}

// Whether the last ones are: overlay description, and those of a byte.
fn last_sets(slot: &[u8]) -> bool
    ensures { result ≡ fields_ok (rows_from 17 22) 866 slot.now }
{
    let f = rows::FLAGS;
    let w = rows::WIDTHS;
    let t = rows::KINDS;
    let a = rows::in_set(slot, 866, f[17], w[17], t[17]);
    let b = last_bytes(slot);
    a & b
}

// Whether each field of a window is in its set.
fn window_ok(slot: &[u8]) -> bool
    ensures { result ≡ fields_ok (rows_from 1 22) 2 slot.now }
{
    if !first_sets(slot) {
        return false;
    }
    last_sets(slot)
}

// Whether each field of a notification icon is in its set: three rows have one.
fn notification_ok(slot: &[u8]) -> bool
    ensures { result ≡ fields_ok (rows_from 23 29) 2 slot.now }
{
    let f = rows::FLAGS;
    let w = rows::WIDTHS;
    let t = rows::KINDS;
    let a = rows::in_set(slot, 6, f[24], w[24], t[24]); // tip
    let b = rows::in_set(slot, 272, f[26], w[26], t[26]); // balloon text
    let c = rows::in_set(slot, 784, f[27], w[27], t[27]); // balloon title
    a & b & c
}

// Whether each field of the desktop is in its set: the stacking list has one.
fn desktop_ok(slot: &[u8]) -> bool
    ensures { result ≡ fields_ok (rows_from 29 31) 2 slot.now }
{
    let f = rows::FLAGS;
    let w = rows::WIDTHS;
    let t = rows::KINDS;
    rows::in_set(slot, 6, f[30], w[30], t[30])
}

// Whether each field of rows low to high is in its set.
fn fields_ok(slot: &[u8], low: usize, high: usize) -> bool
    requires { (low ≤ high) × (high ≤ 31) }
    ensures { result ≡ fields_ok (rows_from low high) 2 slot.now }
{
    if (low == 23) & (high == 29) {
        return notification_ok(slot);
    }
    if (low == 29) & (high == 31) {
        return desktop_ok(slot);
    }
    rows_ok(slot, low, high)
}

// Whether the marks of a slot are up to m and n: one number tells both.
fn marks_ok(slot: &[u8], m: u8, n: u8) -> bool
    ensures { result ≡ both (leb (num_at 1 slot.now 0) m) (leb (num_at 1 slot.now 1) n) }
{
    let v = wire::read_u16(slot, 0);
    (v % 256 <= m as u16) & (v / 256 <= n as u16)
}

// Whether a slot holds a window, whose marks are 0. Where its length is known to the compiler, no read of it is tested.
pub fn window_sound(slot: &[u8]) -> bool
    ensures { result ≡ body_ok (rows_from 1 22) 0 0 slot.now }
{
    if !marks_ok(slot, 0, 0) {
        return false;
    }
    window_ok(slot)
}

// Whether a slot holds a body of rows low to high, with marks up to m and n.
pub fn sound(slot: &[u8], low: usize, high: usize, m: u8, n: u8) -> bool
    requires { (low ≤ high) × (high ≤ 31) }
    ensures { result ≡ body_ok (rows_from low high) m n slot.now }
{
    if !marks_ok(slot, m, n) {
        return false;
    }
    fields_ok(slot, low, high)
}
