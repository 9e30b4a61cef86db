// How much was visible at the mark: the figure of the table at the last checkpoint, as a state call.
#![tactic(auto)]

ghost use Rattle.std.specs.Prelude.{◌≡◌};
ghost use Rattle.journal.specs.View.{memory, InEachStore};
ghost use Rattle.visible.specs.Outcome.{FigureOutcome};

use session::Reply;

// The bytes of a figure: windows 4, pixels 8.
pub const LENGTH: usize = figure::BYTES;

// The figure of the table at the mark, which is stored with it, written to out. The orders since the mark do not count.
pub fn at_mark(index: &[u8], bodies: &[u8], lent: usize, journal: &[u8], out: &mut [u8]) -> Reply
    ensures { InEachStore lent (λ store. FigureOutcome (memory index.now bodies.now store journal.now) out.old result out.new) }
{
    let mut d = [0u8; slots::LENGTH];
    let Some(w) = journal_replay::extent(index, bodies, lent, journal, &mut d) else {
        return Reply {
            number: 1,
            count: 0,
            bytes: 0,
        };
    };
    if out.len() < LENGTH {
        return Reply {
            number: 14,
            count: 0,
            bytes: 0,
        };
    }
    let f = figure::kept(index);
    figure::write(out, 0, f);
    Reply {
        number: 0,
        count: w.count as u32,
        bytes: (w.end - journal::START) as u32,
    }
}
