// Chunks of the channel for C: each joined to what is begun, a whole message read to words.
ghost use Rattle.chunk.specs.Outcome.{ResetOutcome};
ghost use Rattle.rail.specs.Chunks.{ChunkExport};

use chunk::Joined;

// Empties the chunk memory: 0, or 1 where it is too short.
#[unsafe(no_mangle)]
pub extern "C" fn rail_chunk_reset(memory: &mut [u8]) -> u32
    ensures { ResetOutcome memory.old result memory.new }
{
    match chunk_join::reset(memory) {
        Ok(()) => 0,
        Err(refusal) => u32::from(refusal),
    }
}

// Takes one chunk. The number; 256 times the messages handed out, 1 or 0; 65,536 times the bytes of the
// message that the memory holds, so far or whole. The words are written where a message is handed out.
#[unsafe(no_mangle)]
pub extern "C" fn rail_chunk(memory: &mut [u8], bytes: &[u8], words: &mut [u32; 12]) -> u32
    ensures { ChunkExport memory.old bytes.now words.old result memory.new words.new }
{
    match chunk_join::join(memory, bytes) {
        Ok(Joined::More(got)) => 65536 * got,
        Ok(Joined::Whole(len)) => {
            let end = len as usize;
            let number = pdu_read::read_words(&memory[..end], words);
            if number != 0 {
                return number;
            }
            256 + 65536 * len
        }
        Err(refusal) => u32::from(refusal),
    }
}
