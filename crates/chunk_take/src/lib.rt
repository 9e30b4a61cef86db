// Takes the chunks of a control message, and reads the whole message.
#![tactic(auto)]

ghost use Rattle.chunk.specs.Outcome.{TakeOutcome};

use chunk::{Joined, Taken};
use protocol::Refusal;

// Takes one chunk, and reads the message where it is the last.
pub fn take(memory: &mut [u8], chunk: &[u8]) -> Result<Taken, Refusal>
    ensures { TakeOutcome memory.old chunk.now result memory.new }
{
    match chunk_join::join(memory, chunk)? {
        Joined::More(got) => Ok(Taken::More(got)),
        Joined::Whole(len) => {
            let read = pdu_read_record::read_pdu(&memory[..len as usize]);
            Ok(Taken::Whole(len, read))
        }
    }
}
