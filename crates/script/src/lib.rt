// What the programs that run a script share: an item read in parts, what ends a run, and the memory that a call is lent for its output.
// Nothing is allocated: each part is read into memory of the caller.
#![tactic(auto)]

ghost use Rattle.std.specs.Prelude.{◌≡◌, ◌<◌, ◌≤◌, ◌↔◌, length, take, drop, All, IsOk, IfOk, IfErr, MatchResult, MatchOption};
ghost use Rattle.script.specs.declared.Stop.TheVariants as S;
ghost use Rattle.script.specs.Ending.{Ended};
ghost use Rattle.script.specs.Reading.{IsOver, IsRead, Unread};

use std::io;
use std::io::Read;

// What ends a run before its input does.
#[derive(Debug, Drop)]
pub enum Stop {
    // An item is cut, or none that a script has.
    BadItem,
    // A call changed more of the memory lent for its output than it says.
    MemoryChanged,
    // A read or a write that failed.
    Failed(io::Error),
}

impl From<io::Error> for Stop {
    ghost from_gives = { λ error stop. stop ≡ S.Failed error };

    fn from(error: io::Error) -> Stop {
        Stop::Failed(error)
    }
}

// The most bytes of a payload.
pub const PAYLOAD: usize = 65535;

// Reads the head of an item. None at the end of the input.
pub fn head<const N: usize, R: Read>(input: &mut R) -> Result<Option<[u8; N]>, Stop>
    ensures { MatchResult result (λ found. MatchOption found (0 < N → IsOver (R.remaining input.old) (R.remaining input.new)) (λ bytes. IsRead N (R.remaining input.old) (R.remaining input.new) bytes)) (λ stop. Unread 1 N (R.remaining input.old) (R.remaining input.new) stop) }
{
    let mut head = [0u8; N];
    let (len, ended) = input::fill(input, &mut head);
    ended?;
    if len == 0 {
        return Ok(None);
    }
    if len < N {
        return Err(Stop::BadItem);
    }
    Ok(Some(head))
}

// Reads the payload of an item to the start of the memory, and answers that part of it.
pub fn payload<'m, R: Read>(
    input: &mut R,
    memory: &'m mut [u8; PAYLOAD],
    len: u16,
) -> Result<&'m [u8], Stop>
    ensures { MatchResult result (λ bytes. IsRead len (R.remaining input.old) (R.remaining input.new) bytes.now) (λ stop. Unread 0 len (R.remaining input.old) (R.remaining input.new) stop) }
{
    let payload = &mut memory[..usize::from(len)];
    let (got, ended) = input::fill(input, payload);
    ended?;
    if got < payload.len() {
        return Err(Stop::BadItem);
    }
    Ok(payload)
}

// Ends a run: what stopped it is the last line, and how the program is used goes to standard error where an item was bad.
pub fn end(rt: &(impl Print + Eprint), ran: Result<(), Stop>, usage: &str) -> io::Result<()>
    ensures { Ended ran result }
{
    match ran {
        Ok(()) => Ok(()),
        Err(Stop::BadItem) => {
            println!(rt; "bad item")?;
            eprintln!(rt; "usage: {usage}")
        }
        Err(Stop::MemoryChanged) => println!(rt; "output memory changed"),
        Err(Stop::Failed(error)) => Err(error),
    }
}

// Each byte of the memory lent for output before a call.
pub const UNTOUCHED: u8 = 0xEE;

// The first len bytes of the memory, which a call wrote. Those after them have to be untouched.
pub fn written(memory: &[u8], len: usize) -> Result<&[u8], Stop>
    ensures kept { IsOk result ↔ ((len ≤ length memory.now) × All (λ byte. byte ≡ UNTOUCHED) (drop len memory.now)) }
    ensures bytes { IfOk result (λ bytes. bytes.now ≡ take len memory.now) }
    ensures changed { IfErr result (λ stop. stop ≡ S.MemoryChanged) }
{
    match memory.split_at_checked(len) {
        Some((written, rest)) if rest.iter().all(|byte| *byte == UNTOUCHED) => Ok(written),
        _ => Err(Stop::MemoryChanged),
    }
}
