// The session record of the orders that stand after the mark.
ghost use Rattle.journal.specs.View.{memory, InEachStore};
ghost use Rattle.session.specs.Outcome.{record_to, handed, CallOutcome};

use crate::extents::extent;
use replies::{granted, refused};
use session::Reply;

// Writes it to out.
pub fn write(index: &[u8], bodies: &[u8], lent: usize, journal: &[u8], out: &mut [u8]) -> Reply
    ensures { InEachStore lent (λ store. CallOutcome (record_to out.old) (memory index.now bodies.now store journal.now) (handed result out.new) (memory index.now bodies.now store journal.now)) }
{
    let Some(w) = extent(index, bodies, lent, journal) else {
        return refused(1);
    };
    if !record::write(journal, w.count, w.end, out) {
        return refused(14);
    }
    granted(w)
}
