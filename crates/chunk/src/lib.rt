// Control messages that arrive in chunks (MS-RDPBCGR 2.2.6.1), joined in lent memory: the bytes of
// the message from its start on, then its total length and how many of its bytes have come. A total
// of 0 says that nothing is begun. Definitions and proofs only.
#![tactic(auto)]

use pdu::Pdu;
use protocol::Refusal;

// How much memory is lent.
pub const MEMORY: usize = 17060;

// What joining a chunk gives: more is awaited after so many bytes; or a whole message of so many
// bytes, which stand at the start of the lent memory until the next call.
#[derive(Clone, Copy, Debug, PartialEq, Eq)]
pub enum Joined {
    More(u32),
    Whole(u32),
}

// The same, a whole message with what reading it gives. Its strings are places in the lent memory.
#[derive(Clone, Copy, Debug, PartialEq, Eq)]
pub enum Taken {
    More(u32),
    Whole(u32, Result<Pdu, Refusal>),
}
