// An input read a part at a time.
#![tactic(auto)]

ghost use Rattle.std.specs.Prelude.{◌<◌, ◌≤◌, length, take, OnOk};
ghost use Rattle.std.specs.Io.KnownBytes.{Consumes, IsAtEnd};

use std::io;
use std::io::Read;

// Reads into out until it is full, the input ends or a read fails. Answers how many bytes it put at the start of out, and whether a
// read failed.
pub fn fill<R: Read>(input: &mut R, out: &mut [u8]) -> (usize, io::Result<()>)
    ensures bound { result.0 ≤ length out.new }
    ensures bytes { Consumes (R.remaining input.old) (R.remaining input.new) (take result.0 out.new) }
    ensures end { OnOk result.1 (result.0 < length out.new → IsAtEnd (R.remaining input.new)) }
{
    let mut done = 0;
    while done < out.len() {
        match input.read(&mut out[done..]) {
            Ok(0) => return (done, Ok(())),
            Ok(n) => done += n,
            Err(e) => return (done, Err(e)),
        }
    }
    (done, Ok(()))
}
