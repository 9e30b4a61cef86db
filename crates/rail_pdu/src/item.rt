// The items of a script: each is a kind (1 byte), a length (2) and a payload. A function whose name begins with lay lays a line
// without its end, and answers where it ends.
use crate::channel::ChunkMemory;
use crate::record;
use crate::record::{Draft, Words};
use chunk::Joined;
use protocol::Refusal;
use script::Stop;

// The most output memory that an item can ask for.
const SIZE_MAX: usize = 17408;

// The rules by which a message is read or written.
#[derive(Clone, Copy, Debug, PartialEq, Eq)]
pub(crate) enum Rules {
    Plain,
    Counter,
}

#[derive(Drop)]
pub(crate) enum Item<'a> {
    // R, r: a message to be read.
    Read(Rules, &'a [u8]),
    // P, p: a record to be written.
    Write(Rules, Draft<'a>),
    // K: a chunk of a message, which is read by the plain rules.
    Chunk(&'a [u8]),
    // E: the chunk memory is emptied.
    Empty,
    // T: the next call on the chunk memory lacks so many bytes.
    Shorten(u16),
    // X: a byte of the chunk memory changes.
    Change(u32, u8),
}

// The number of what a call was refused for, 0 for nothing.
fn number_of<T>(answer: &Result<T, Refusal>) -> u32 {
    match answer {
        Ok(_) => 0,
        Err(refusal) => u32::from(*refusal),
    }
}

// The words of the record that a message is by the plain rules, or the number of the refusal.
fn read_plain(message: &[u8]) -> Result<Words, u32> {
    let answer = pdu_read_record::read_pdu(message);
    let number = number_of(&answer);
    let Ok(record) = answer else {
        return Err(number);
    };
    let mut words = [0u32; 12];
    pdu_words_of::words_of(&mut words, record);
    Ok(words)
}

// The same by the counter profile.
fn read_counter(message: &[u8]) -> Result<Words, u32> {
    let mut words = [0u32; 12];
    match profile_pdu::read_words(message, &mut words) {
        0 => Ok(words),
        number => Err(number),
    }
}

// Writes a record by the plain rules.
fn write_plain(draft: &Draft<'_>, out: &mut [u8]) -> Result<usize, Refusal> {
    if !pdu_words_rule::is_record(&draft.words) {
        return Err(Refusal::OutsideSet);
    }
    pdu_write::write_pdu(
        pdu_from_words::record_from(&draft.words),
        draft.strings,
        out,
    )
}

impl Rules {
    fn read(self, message: &[u8]) -> Result<Words, u32> {
        match self {
            Rules::Plain => read_plain(message),
            Rules::Counter => read_counter(message),
        }
    }

    fn write(self, draft: &Draft<'_>, out: &mut [u8]) -> Result<usize, Refusal> {
        match self {
            Rules::Plain => write_plain(draft, out),
            Rules::Counter => profile_pdu::write_words(&draft.words, draft.strings, out),
        }
    }
}

// The line of an answer that is a number alone.
fn lay_number(out: &mut [u8], kind: u8, number: u32) -> usize {
    print::field(out, 0, &[kind, b' '], u64::from(number))
}

// The line of what a message is read as.
fn lay_read(out: &mut [u8], kind: u8, rules: Rules, message: &[u8]) -> usize {
    match rules.read(message) {
        Ok(words) => {
            let at = print::byte(out, 0, kind);
            let at = print::text(out, at, b" 0 type=");
            record::lay(out, at, &words, message)
        }
        Err(number) => lay_number(out, kind, number),
    }
}

// The line of bytes that were written.
fn lay_bytes(out: &mut [u8], kind: u8, bytes: &[u8]) -> usize {
    let at = print::text(out, 0, &[kind, b' ', b'0', b' ']);
    print::hex(out, at, bytes)
}

// Writes a record to memory of its own. The line of what became of it; bad where the memory asked for is too large.
fn lay_write(out: &mut [u8], kind: u8, rules: Rules, draft: &Draft<'_>) -> Result<usize, Stop> {
    let mut memory = [script::UNTOUCHED; SIZE_MAX];
    let memory = memory.get_mut(..draft.size).ok_or(Stop::BadItem)?;
    match rules.write(draft, memory) {
        Ok(len) => {
            let bytes = script::written(memory, len)?;
            Ok(lay_bytes(out, kind, bytes))
        }
        Err(refusal) => {
            script::written(memory, 0)?;
            Ok(lay_number(out, kind, u32::from(refusal)))
        }
    }
}

// Joins a chunk. The line of what the whole message is read as, of the refusal, or that more is awaited.
fn lay_chunk(out: &mut [u8], kind: u8, memory: &mut [u8], chunk: &[u8]) -> usize {
    let answer = chunk_join::join(memory, chunk);
    let number = number_of(&answer);
    let Ok(Joined::Whole(len)) = answer else {
        return lay_number(out, kind, number);
    };
    let len = memory.len().min(len as usize);
    lay_read(out, kind, Rules::Plain, &memory[..len])
}

// Empties the memory of chunks. The line of the number of the refusal, 0 for none.
fn lay_empty(out: &mut [u8], kind: u8, memory: &mut [u8]) -> usize {
    let number = number_of(&chunk_join::reset(memory));
    lay_number(out, kind, number)
}

impl<'a> Item<'a> {
    // None where no script has it.
    pub(crate) fn parse(kind: u8, payload: &'a [u8]) -> Option<Item<'a>> {
        match (kind, payload) {
            (b'R', message) => Some(Item::Read(Rules::Plain, message)),
            (b'r', message) => Some(Item::Read(Rules::Counter, message)),
            (b'P', payload) => Some(Item::Write(Rules::Plain, Draft::parse(payload)?)),
            (b'p', payload) => Some(Item::Write(Rules::Counter, Draft::parse(payload)?)),
            (b'K', chunk) => Some(Item::Chunk(chunk)),
            (b'E', []) => Some(Item::Empty),
            (b'T', [0, 0]) => None,
            (b'T', [low, high]) => Some(Item::Shorten(u16::from_le_bytes([*low, *high]))),
            (b'X', [a, b, c, d, by]) => Some(Item::Change(
                u32::from_le_bytes([*a, *b, *c, *d]),
                *by,
            )),
            _ => None,
        }
    }

    // Runs it, and lays its line after its kind. Answers where the line ends, none for an item that has no line.
    pub(crate) fn run(
        self,
        kind: u8,
        memory: &mut ChunkMemory<'_>,
        out: &mut [u8],
    ) -> Result<Option<usize>, Stop> {
        match self {
            Item::Read(rules, message) => Ok(Some(lay_read(out, kind, rules, message))),
            Item::Write(rules, draft) => Ok(Some(lay_write(out, kind, rules, &draft)?)),
            Item::Chunk(chunk) => Ok(Some(lay_chunk(out, kind, memory.lend(), chunk))),
            Item::Empty => Ok(Some(lay_empty(out, kind, memory.lend()))),
            Item::Shorten(missing) => {
                memory.shorten(usize::from(missing));
                Ok(None)
            }
            Item::Change(at, by) => {
                memory.change(at as usize, by)?;
                Ok(None)
            }
        }
    }
}
