// Replies, also as one number, and holders of pictures by numbers.
#![tactic(auto)]

ghost use Rattle.std.specs.Prelude.{◌≡◌, ◌-◌, ◌≤◌};
ghost use Rattle.journal.specs.Limits.{log_start, most_orders, journal_length};
ghost use Rattle.session.specs.Calls.{refuse};
ghost use Rattle.session.specs.Outcome.{reply_of};
ghost use Rattle.session.specs.Packed.{packed_of};

use journal::JournalExtent;
use session::Reply;

pub mod holders;

pub fn refused(number: u8) -> Reply
    ensures { result ≡ reply_of (refuse number) }
{
    Reply {
        number,
        count: 0,
        bytes: 0,
    }
}

// A granted call that leaves a journal of that extent.
pub fn granted(w: JournalExtent) -> Reply
    requires { (w.count ≤ most_orders) × (log_start ≤ w.end) × (w.end ≤ journal_length) }
    ensures { result ≡ record { number = 0; count = w.count; bytes = w.end - log_start } }
{
    let count = w.count as u32;
    let bytes = (w.end - journal::START) as u32;
    Reply {
        number: 0,
        count,
        bytes,
    }
}

// The number, 256 times the count, 65,536 times the bytes: a reply as one number, for callers over bytes.
pub fn packed(r: Reply) -> u32
    ensures { result ≡ packed_of r }
{
    (r.number as u32) + 256 * (r.count % 256) + 65536 * (r.bytes % 65536)
}
