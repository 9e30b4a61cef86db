// Runs a call script of state calls through the library and prints what each call answers.
#![tactic(auto)]

mod calls;
mod dump;
mod item;
mod state;

use item::{Item, Kind};
use script::Stop;
use state::State;
use std::io;

const USAGE: &str =
    "rail_session < SCRIPT, a call script of state calls (docs/FORMATS.md); second session < SCRIPT tells which item is bad";

// A proved loop has to end, and nothing says that the input does: the items are counted up to a number that no run reaches.
fn run(
    rt: &(impl Input + Print),
    state: &mut State<'_>,
    payload: &mut [u8; script::PAYLOAD],
    out: &mut [u8; dump::LINE],
) -> Result<(), Stop> {
    let mut input = rt.reader();
    for _ in 0..u64::MAX {
        let Some(head) = script::head::<3, _>(&mut input)? else {
            break;
        };
        let [letter, low, high] = head;
        let kind = Kind::try_from(letter)?;
        let len = u16::from_le_bytes([low, high]);
        if !kind.fits(len) {
            return Err(Stop::BadItem);
        }
        let payload = script::payload(&mut input, payload, len)?;
        let item = Item::parse(kind, payload).ok_or(Stop::BadItem)?;
        if let Some(end) = calls::run(out, letter, item, state)? {
            if !print::end_line(&mut io::writer(rt), out, end)? {
                break;
            }
        }
    }
    Ok(())
}

fn main(rt: HostRuntime) -> io::Result<()> {
    let mut index = [0xEEu8; session::INDEX];
    let mut bodies = [0xEEu8; session::BODIES];
    let mut journal = [0xEEu8; session::JOURNAL];
    let mut a = [0xEEu8; state::ROOM];
    let mut b = [0xEEu8; state::ROOM];
    let mut c = [0xEEu8; state::ROOM];
    let mut d = [0xEEu8; state::ROOM];
    let mut e = [0xEEu8; state::ROOM];
    let mut payload = [0u8; script::PAYLOAD];
    let mut out = [0u8; dump::LINE];
    let mut state = State::new(
        &mut index,
        &mut bodies,
        &mut journal,
        &mut a,
        &mut b,
        &mut c,
        &mut d,
        &mut e,
    );
    let ran = run(&rt, &mut state, &mut payload, &mut out);
    script::end(&rt, ran, USAGE)
}
