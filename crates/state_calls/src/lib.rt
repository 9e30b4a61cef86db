// The state calls that change a state: emptying, delivery, checkpoint (document 01's mark) and undo (its step back); and the session
// record of what stands.
#![tactic(auto)]

ghost use Rattle.std.specs.Prelude.{◌≡◌, ◌+◌, ◌≤◌, length};
ghost use Rattle.wire.specs.Numbers.{bytes_of};
ghost use Rattle.wire.specs.Parts.{splice};
ghost use Rattle.journal.specs.Limits.{journal_length, most_orders};
ghost use Rattle.places.specs.Held.{HeldBelow};
ghost use Rattle.store.specs.Store.{five};
ghost use Rattle.figure.specs.Figure.{windows_length};
ghost use Rattle.figure.specs.Kept.{kept_length};
ghost use Rattle.journal.specs.View.{memory, InEachStore};
ghost use Rattle.session.specs.Calls.{reset, deliver, checkpoint, undo};
ghost use Rattle.session.specs.Outcome.{plain, replied, CallOutcome};
ghost use Rattle.session.specs.Mark.{MarkSet};
ghost use Rattle.session.specs.Delivery.{Ready, DeliveredOn};
ghost use Rattle.session.specs.Standing.{Stands};

use crate::extents::{extent, extent_in};
use index::Stepped;
use journal::JournalExtent;
use replies::{granted, refused};
use session::Reply;

mod extents;
pub mod records;

// Makes a table that at the mark: stores its figures, and counts no order after it.
fn set_mark(index: &mut [u8], bodies: &[u8], journal: &mut [u8]) -> Reply
    requires { (kept_length ≤ length index.old) × (windows_length ≤ length bodies.now) × (journal_length ≤ length journal.old) }
    ensures { MarkSet index.old bodies.now journal.old result index.new journal.new }
{
    figure::keep(index, bodies);
    wire::write_u16(journal, 0, 0);
    granted(JournalExtent {
        count: 0,
        end: journal::START,
    })
}

// Empties a state to which so many places are lent.
pub fn reset(index: &mut [u8], bodies: &mut [u8], lent: usize, journal: &mut [u8]) -> Reply
    ensures { InEachStore lent (λ store. CallOutcome (plain (reset lent)) (memory index.old bodies.old store journal.old) (replied result) (memory index.new bodies.new store journal.new)) }
{
    if journal_replay::too_short(index, bodies, lent, journal) {
        return refused(1);
    }
    table_change::empty(index, bodies, lent);
    set_mark(index, bodies, journal)
}

// Appends an order to the journal of count orders that end at index end.
fn append(journal: &mut [u8], s: &[u8], count: usize, end: usize)
    requires { (count + 1 ≤ most_orders) × (end + length s.now ≤ journal_length) × (journal_length ≤ length journal.old) }
    ensures { journal.new ≡ splice (splice journal.old end s.now) 0 (bytes_of 2 (count + 1)) }
{
    wire::copy_at(journal, end, s);
    let n = (count + 1) as u16;
    wire::write_u16(journal, 0, n);
}

// Judges an order on the index d of a validated memory whose journal has the extent w and, where it is granted, appends it and
// carries it out on d: what was validated then stands for the next order. Slot near is looked at for its record before a search,
// and the first held places are known to be pointed at.
pub fn deliver_on(
    journal: &mut [u8],
    d: &mut [u8],
    s: &[u8],
    w: JournalExtent,
    near: usize,
    held: u8,
) -> Stepped
    requires { Ready d.old journal.old w × HeldBelow d.old held }
    ensures { DeliveredOn d.old journal.old s.now w result d.new journal.new }
{
    let full = (journal::MOST_ORDERS < w.count + 1)
        | (journal::MOST_BYTES < w.end - journal::START + s.len());
    let r = index_step::step(d, s, near, held, full);
    if r.number == 0 {
        append(journal, s, w.count, w.end);
    }
    r
}

pub fn deliver(index: &[u8], bodies: &[u8], lent: usize, journal: &mut [u8], s: &[u8]) -> Reply
    ensures { InEachStore lent (λ store. CallOutcome (plain (deliver s.now)) (memory index.now bodies.now store journal.old) (replied result) (memory index.now bodies.now store journal.new)) }
{
    let mut d = [0u8; slots::LENGTH];
    let Some(w) = journal_replay::extent(index, bodies, lent, journal, &mut d) else {
        return refused(1);
    };
    let r = deliver_on(journal, &mut d, s, w, slots::COUNT, 0);
    if r.number != 0 {
        return refused(r.number);
    }
    granted(JournalExtent {
        count: w.count + 1,
        end: w.end + s.len(),
    })
}

// The checkpoint of a memory that is well formed and whose journal has the extent w: its orders are applied to the table at the mark.
fn advance(
    index: &mut [u8],
    bodies: &mut [u8],
    a: &mut [u8],
    b: &mut [u8],
    c: &mut [u8],
    d: &mut [u8],
    e: &mut [u8],
    journal: &mut [u8],
    w: JournalExtent,
) -> Reply
    requires { Stands (memory index.old bodies.old (five a.old b.old c.old d.old e.old) journal.old) w }
    ensures { CallOutcome (plain checkpoint) (memory index.old bodies.old (five a.old b.old c.old d.old e.old) journal.old) (replied result) (memory index.new bodies.new (five a.new b.new c.new d.new e.new) journal.new) }
{
    journal_apply::apply(index, bodies, a, b, c, d, e, journal, w.count);
    set_mark(index, bodies, journal)
}

pub fn checkpoint(
    index: &mut [u8],
    bodies: &mut [u8],
    a: &mut [u8],
    b: &mut [u8],
    c: &mut [u8],
    d: &mut [u8],
    e: &mut [u8],
    journal: &mut [u8],
) -> Reply
    ensures { CallOutcome (plain checkpoint) (memory index.old bodies.old (five a.old b.old c.old d.old e.old) journal.old) (replied result) (memory index.new bodies.new (five a.new b.new c.new d.new e.new) journal.new) }
{
    let Some(w) = extent_in(index, bodies, a, b, c, d, e, journal) else {
        return refused(1);
    };
    advance(index, bodies, a, b, c, d, e, journal, w)
}

pub fn undo(index: &[u8], bodies: &[u8], lent: usize, journal: &mut [u8], k: u64) -> Reply
    ensures { InEachStore lent (λ store. CallOutcome (plain (undo k)) (memory index.now bodies.now store journal.old) (replied result) (memory index.now bodies.now store journal.new)) }
{
    let Some(w) = extent(index, bodies, lent, journal) else {
        return refused(1);
    };
    if (w.count as u64) < k {
        return refused(13);
    }
    let count = w.count - (k as usize);
    let end = journal_apply::end_of(journal, count);
    wire::write_u16(journal, 0, count as u16);
    granted(JournalExtent { count, end })
}
