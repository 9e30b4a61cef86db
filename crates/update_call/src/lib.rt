// A whole update: its orders are cut from its bytes and delivered one by one on memory that is validated once.
#![tactic(auto)]

ghost use Rattle.std.specs.Prelude.{◌≡◌, ◌+◌, ◌-◌, ◌≤◌, length, drop};
ghost use Rattle.journal.specs.Limits.{log_start, most_orders, journal_length};
ghost use Rattle.journal.specs.View.{memory, InEachStore};
ghost use Rattle.update.specs.Update.{first_size};
ghost use Rattle.update.specs.Outcome.{UpdateOutcome};
ghost use Rattle.update.specs.Packed.{standing_half, granted_half, packed_report};

use journal::JournalExtent;
use session::Reply;
use update::Report;

// An order begins with its type byte and OrderSize and has at least FEWEST bytes.
const HEAD: usize = 3;

const FEWEST: usize = 7;

// Where the order at index at ends: by its OrderSize; at the end of the update where that is missing, under 7 or past the end.
fn cut(s: &[u8], at: usize) -> usize
    requires { at ≤ length s.now }
    ensures { result ≡ at + first_size (drop at s.now) }
{
    let left = s.len() - at;
    if left < HEAD {
        return s.len();
    }
    let size = wire::read_u16(s, at + 1) as usize;
    if (size < FEWEST) | (left < size) {
        return s.len();
    }
    at + size
}

// The report once n orders of at bytes in all are granted on a journal of the extent w.
fn reported(number: u8, n: u32, at: usize, w: JournalExtent) -> Report
    requires { (w.count + n ≤ most_orders) × (log_start ≤ w.end) × (w.end + at ≤ journal_length) }
    ensures { result ≡ record { number = number; orders = n; granted = at; count = w.count + n; bytes = w.end + at - log_start } }
{
    let count = (w.count as u32) + n;
    let bytes = (w.end + at - journal::START) as u32;
    Report {
        number,
        orders: n,
        granted: at as u32,
        count,
        bytes,
    }
}

// Delivers the orders of the update until limit are granted, none is left or one is refused. The record of each is looked for in the
// slot of the one before it first, and a free place behind those that one found taken.
pub fn update(
    index: &[u8],
    bodies: &[u8],
    lent: usize,
    journal: &mut [u8],
    limit: u32,
    s: &[u8],
) -> Report
    ensures { InEachStore lent (λ store. UpdateOutcome limit s.now (memory index.now bodies.now store journal.old) result (memory index.now bodies.now store journal.new)) }
{
    let mut d = [0u8; slots::LENGTH];
    let Some(w) = journal_replay::extent(index, bodies, lent, journal, &mut d) else {
        return Report {
            number: 1,
            orders: 0,
            granted: 0,
            count: 0,
            bytes: 0,
        };
    };
    let mut n: u32 = 0;
    let mut at: usize = 0;
    let mut near = slots::COUNT;
    let mut held: u8 = 0;
    while (n < limit) & (at < s.len()) {
        let end = cut(s, at);
        let extent = JournalExtent {
            count: w.count + (n as usize),
            end: w.end + at,
        };
        let r = state_calls::deliver_on(journal, &mut d, &s[at..end], extent, near, held);
        if r.number != 0 {
            return reported(r.number, n, at, w);
        }
        n += 1;
        at = end;
        near = r.slot;
        held = r.held;
    }
    reported(0, n, at, w)
}

// The last number, 256 times the count and 65,536 times the bytes that stand, as in the reply of a single call.
pub fn standing(r: Report) -> u32
    ensures { result ≡ standing_half r }
{
    replies::packed(Reply {
        number: r.number,
        count: r.count,
        bytes: r.bytes,
    })
}

// The orders granted, and 65,536 times their bytes.
pub fn granted(r: Report) -> u32
    ensures { result ≡ granted_half r }
{
    (r.orders % 65536) + 65536 * (r.granted % 65536)
}

// A report as one number: what stands, and 2^32 times what was granted.
pub fn packed(r: Report) -> u64
    ensures { result ≡ packed_report r }
{
    let low = standing(r) as u64;
    let high = granted(r) as u64;
    low + 4294967296 * high
}
