// Tells why an order would be refused. The first argument names a file with the state, its parts end to end and then its places,
// the second one with the order. Prints the number, its words and, where it is not 0, the offset of the field at fault.
#![tactic(auto)]

ghost use Rattle.std.specs.Prelude.{◌≤◌, length, IfSome};

use explain::Explanation;
use protocol::Refusal;
use std::fs::File;
use std::io;
use std::rt::{Env, Files};

// What is read of the state: its parts, and the most places.
const STATE: usize = explain_call::PLACES_AT + (places::MOST as usize) * store::PLACE;

// What is read of the order: a byte more than OrderSize can say.
const ORDER: usize = 65536;

// The longest argument that is read.
const ARGUMENT: usize = 4096;

// Opens the file that argument i names. None where it cannot be opened, or its name is not UTF-8.
fn open<R: Env + Files>(rt: &R, i: usize) -> Option<R::File> {
    let mut argument = [0u8; ARGUMENT];
    let len = rt.arg(i, &mut argument).ok()?;
    let name = str::from_utf8(&argument[..len]).ok()?;
    File::open(rt, name).ok()
}

// The file that argument i names, as much of it as the memory has room for. None where nothing of it can be read.
fn read<'m>(rt: &(impl Env + Files), i: usize, memory: &'m mut [u8]) -> Option<&'m [u8]>
    ensures { IfSome result (λ content. length content.now ≤ length memory.old) }
{
    let mut file = open(rt, i)?;
    let (len, ended) = input::fill(&mut file, memory);
    if len == 0 && ended.is_err() {
        return None;
    }
    Some(&memory[..len])
}

// Prints what is told of the order.
fn tell(rt: &impl Print, told: Explanation) -> io::Result<()> {
    match Refusal::try_from(u32::from(told.number)) {
        Ok(refusal) => println!(rt; "{}\n{refusal}\n{}", told.number, told.at),
        Err(_) => println!(rt; "0\ndone"),
    }
}

// Whether there is an argument after the two. An empty one counts as none, and so does one too long to be read.
fn is_more(rt: &impl Env) -> bool {
    let mut argument = [0u8; ARGUMENT];
    matches!(rt.arg(3, &mut argument), Ok(len) if len > 0)
}

// Says on standard error what is wrong with the arguments, and how the program is used.
fn tell_unfit(rt: &(impl Env + Eprint), has_state: bool, has_order: bool) -> io::Result<()> {
    if !has_state {
        eprintln!(rt; "rail_explain: STATE cannot be read, and counts as empty")?;
    }
    if !has_order {
        eprintln!(rt; "rail_explain: ORDER cannot be read, and counts as empty")?;
    }
    if !has_state || !has_order || is_more(rt) {
        eprintln!(rt; "usage: rail_explain STATE ORDER, the names of two files (docs/FORMATS.md)")?;
    }
    Ok(())
}

fn run(
    rt: &(impl Env + Eprint + Files + Print),
    state: &mut [u8; STATE],
    order: &mut [u8; ORDER],
) -> io::Result<()> {
    let state = read(rt, 1, state);
    let order = read(rt, 2, order);
    tell(
        rt,
        explain_call::in_one(state.unwrap_or(&[]), order.unwrap_or(&[])),
    )?;
    tell_unfit(rt, state.is_some(), order.is_some())
}

fn main(rt: HostRuntime) -> io::Result<()> {
    let mut state = [0u8; STATE];
    let mut order = [0u8; ORDER];
    run(&rt, &mut state, &mut order)
}
