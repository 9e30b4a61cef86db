// The extent of the journal of any memory: none where the memory is not well formed.
ghost use Rattle.std.specs.Prelude.{◌≡◌};
ghost use Rattle.store.specs.Store.{five};
ghost use Rattle.journal.specs.View.{memory, InEachStore};
ghost use Rattle.journal.specs.Replay.{extent_of};

use journal::JournalExtent;

// With so many places lent.
pub fn extent(index: &[u8], bodies: &[u8], lent: usize, journal: &[u8]) -> Option<JournalExtent>
    ensures { InEachStore lent (λ store. result ≡ extent_of (memory index.now bodies.now store journal.now)) }
{
    let mut d = [0u8; slots::LENGTH];
    journal_replay::extent(index, bodies, lent, journal, &mut d)
}

// With the five parts of the store.
pub fn extent_in(
    index: &[u8],
    bodies: &[u8],
    a: &[u8],
    b: &[u8],
    c: &[u8],
    d: &[u8],
    e: &[u8],
    journal: &[u8],
) -> Option<JournalExtent>
    ensures { result ≡ extent_of (memory index.now bodies.now (five a.now b.now c.now d.now e.now) journal.now) }
{
    let lent = store::places(a, b, c, d, e);
    extent(index, bodies, lent, journal)
}
