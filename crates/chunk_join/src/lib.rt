// Joins the chunks of a control message in lent memory.
#![tactic(auto)]

ghost use Rattle.std.specs.Prelude.{◌≡◌, ◌≤◌, length, eqb, ltb};
ghost use Rattle.wire.specs.Tests.{either, has};
ghost use Rattle.protocol.specs.Refusals.{refused_by};
ghost use Rattle.chunk.specs.Chunk.{most, head_size, flag_first, flag_last, compressed};
ghost use Rattle.chunk.specs.Memory.{memory_size, fit, start_at, refuses_at, noted};
ghost use Rattle.chunk.specs.Outcome.{JoinOutcome, ResetOutcome};

use chunk::{Joined, MEMORY};
use protocol::Refusal;

// The longest message.
const MOST: u32 = 17052;

// Where its total length and the number of bytes that came stand in the memory.
const TOTAL_AT: usize = 17052;

const GOT_AT: usize = 17056;

// A chunk has its total length at 0, its flags at 4 and its data after them.
const FLAGS_AT: usize = 4;

const HEAD: usize = 8;

// Of the flags three matter.
const FLAG_FIRST: u32 = 1;

const FLAG_LAST: u32 = 2;

const COMPRESSED: u32 = 0x0020_0000;

// Long enough and well formed.
fn is_fit(memory: &[u8]) -> bool
    ensures { result ≡ fit memory.now }
{
    if memory.len() < MEMORY {
        return false;
    }
    let total = wire::read_u32(memory, TOTAL_AT);
    if MOST < total {
        return false;
    }
    wire::read_u32(memory, GOT_AT) <= total
}

fn is_first(flags: u32) -> bool
    ensures { result ≡ has flags flag_first }
{
    flags & FLAG_FIRST != 0
}

fn is_last(flags: u32) -> bool
    ensures { result ≡ has flags flag_last }
{
    flags & FLAG_LAST != 0
}

fn is_compressed(flags: u32) -> bool
    ensures { result ≡ has flags compressed }
{
    flags & COMPRESSED != 0
}

// Where the data of a chunk goes: a first chunk starts afresh.
fn start(memory: &[u8], chunk: &[u8]) -> u32
    ensures { result ≡ start_at memory.now chunk.now }
{
    if is_first(wire::read_u32(chunk, FLAGS_AT)) {
        return 0;
    }
    wire::read_u32(memory, GOT_AT)
}

// A total that no message has.
fn is_outside(total: u32) -> bool
    ensures { result ≡ either (eqb total 0) (ltb most total) }
{
    (total == 0) | (MOST < total)
}

// A bad chunk: of a message in one chunk by the fewest tests, then of another first chunk, then of a
// later one. A later one with nothing begun is among those refused: its total is 0 or differs from the
// 0 that is noted.
fn refuses(memory: &[u8], chunk: &[u8]) -> bool
    requires { head_size ≤ length chunk.now }
    ensures { result ≡ refuses_at memory.now chunk.now }
{
    let total = wire::read_u32(chunk, 0);
    let flags = wire::read_u32(chunk, FLAGS_AT);
    let data = chunk.len() - HEAD;
    if is_first(flags) {
        if is_last(flags) & !is_compressed(flags) {
            return is_outside(total) | (data != total as usize);
        }
        // Where this one is last too, it is compressed.
        return is_compressed(flags) | is_outside(total) | ((total as usize) < data);
    }
    let begun = wire::read_u32(memory, TOTAL_AT);
    let end = wire::read_u32(memory, GOT_AT) as usize + data;
    is_compressed(flags)
        | is_outside(total)
        | (total != begun)
        | ((total as usize) < end)
        | (is_last(flags) & (end < total as usize))
}

// Notes the total length of a message and how many of its bytes have come.
fn note(memory: &mut [u8], total: u32, got: u32)
    requires { memory_size ≤ length memory.old }
    ensures { memory.new ≡ noted memory.old total got }
{
    wire::write_u32(memory, TOTAL_AT, total);
    wire::write_u32(memory, GOT_AT, got);
}

// Empties the memory, unless it is too short: nothing is begun.
pub fn reset(memory: &mut [u8]) -> Result<(), Refusal>
    ensures { ResetOutcome memory.old (refused_by result) memory.new }
{
    if memory.len() < MEMORY {
        Err(Refusal::UnfitMemory)
    } else {
        note(memory, 0, 0);
        Ok(())
    }
}

// Joins a chunk to what is begun. The message is not read.
pub fn join(memory: &mut [u8], chunk: &[u8]) -> Result<Joined, Refusal>
    ensures { JoinOutcome memory.old chunk.now result memory.new }
{
    if !is_fit(memory) {
        return Err(Refusal::UnfitMemory);
    }
    if chunk.len() < HEAD {
        return Err(Refusal::ChunkTooShort);
    }
    if refuses(memory, chunk) {
        note(memory, 0, 0);
        return Err(Refusal::BadChunk);
    }
    let total = wire::read_u32(chunk, 0);
    let from = start(memory, chunk);
    let last = is_last(wire::read_u32(chunk, FLAGS_AT));
    let len = chunk.len() - HEAD;
    wire::copy_part(memory, from as usize, chunk, HEAD, len);
    if last {
        note(memory, 0, 0);
        return Ok(Joined::Whole(total));
    }
    let got = from + len as u32;
    note(memory, total, got);
    Ok(Joined::More(got))
}
