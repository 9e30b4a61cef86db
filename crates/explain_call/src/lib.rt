// Why an order would be refused: the number that delivery would give, and the byte offset of the field at fault.
#![tactic(auto)]

ghost use Rattle.std.specs.Prelude.{◌≡◌, ◌-◌, ◌≤◌, length};
ghost use Rattle.wire.specs.Parts.{slice};
ghost use Rattle.journal.specs.View.{memory, InEachStore};
ghost use Rattle.explain.specs.Explain.{explain};
ghost use Rattle.explain.specs.Steps.{Judgeable, on_table, on_state};
ghost use Rattle.explain.specs.OneFile.{memory_in};

use explain::Explanation;
use journal::JournalExtent;

// Where a field is at fault that no offset of the order's bytes tells: its first byte after the header.
const AFTER_FLAGS: u32 = 7;

// 9, 10, 11, 17 and 12 of an order that passes 2 to 8, on the index d of the present table and the extent w of the journal.
fn on_table(d: &[u8], s: &[u8], w: JournalExtent) -> Explanation
    requires { Judgeable d.now w }
    ensures { result ≡ on_table d.now s.now w }
{
    let p = index_plan::judge(d, s);
    let number = index_plan::number(p);
    if number != 0 {
        return Explanation {
            number,
            at: AFTER_FLAGS,
        };
    }
    if (journal::MOST_ORDERS < w.count + 1)
        | (journal::MOST_BYTES < w.end - journal::START + s.len())
    {
        return Explanation {
            number: 12,
            at: AFTER_FLAGS,
        };
    }
    Explanation { number: 0, at: 0 }
}

// Explains an order on the index d of the present table and the extent w of the journal.
#[tactic(auto, unfolding(explain::specs::Steps::on_state))]
fn on_state(d: &[u8], s: &[u8], w: JournalExtent) -> Explanation
    requires { Judgeable d.now w }
    ensures { result ≡ on_state d.now s.now w }
{
    match order_judge::judge(s) {
        Ok(_) => on_table(d, s, w),
        Err(fault) => Explanation {
            number: u8::from(fault.refusal),
            at: fault.at,
        },
    }
}

pub fn explain(index: &[u8], bodies: &[u8], lent: usize, journal: &[u8], s: &[u8]) -> Explanation
    ensures { InEachStore lent (λ store. result ≡ explain s.now (memory index.now bodies.now store journal.now)) }
{
    let mut d = [0u8; slots::LENGTH];
    let Some(w) = journal_replay::extent(index, bodies, lent, journal, &mut d) else {
        return Explanation { number: 1, at: 0 };
    };
    on_state(&d, s, w)
}

// Explains an order on a state whose bodies begin at index i, its journal at j and its places at k.
fn explain_at(state: &[u8], i: usize, j: usize, k: usize, lent: usize, s: &[u8]) -> Explanation
    requires { (i ≤ j) × (j ≤ k) × (k ≤ length state.now) }
    ensures { InEachStore lent (λ store. result ≡ explain s.now (memory (slice state.now 0 i) (slice state.now i (j - i)) store (slice state.now j (k - j)))) }
{
    explain(&state[0..i], &state[i..j], lent, &state[j..k], s)
}

// The parts of the state one after the other, then its places: where the bodies, the journal and the places begin.
const BODIES_AT: usize = session::INDEX;

const JOURNAL_AT: usize = BODIES_AT + session::BODIES;

pub const PLACES_AT: usize = JOURNAL_AT + session::JOURNAL;

// Explains an order on a state whose parts stand end to end, then its places.
pub fn in_one(state: &[u8], s: &[u8]) -> Explanation
    ensures { result ≡ explain s.now (memory_in state.now) }
{
    if state.len() < PLACES_AT {
        return Explanation { number: 1, at: 0 };
    }
    let lent = (state.len() - PLACES_AT) / store::PLACE;
    explain_at(state, BODIES_AT, JOURNAL_AT, PLACES_AT, lent, s)
}
