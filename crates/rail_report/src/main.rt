// Delivers the orders on standard input and prints, at each mark, how many windows are shown and how many of their pixels are visible.
#![tactic(auto)]

mod state;

use script::Stop;
use state::{FEW, LINE, MANY, State};
use std::io;

const USAGE: &str =
    "rail_report < ITEMS, a length of 2 and that many bytes of an order each, length 0 a mark (docs/FORMATS.md)";

// A proved loop has to end, and nothing says that the input does: the items are counted up to a number that no run reaches.
fn run(
    rt: &(impl Input + Print),
    state: &mut State<'_>,
    payload: &mut [u8; script::PAYLOAD],
) -> Result<(), Stop> {
    let mut input = rt.reader();
    let mut marks = 0u64;
    println!(rt; "mark windows pixels")?;
    for items in 0..u64::MAX {
        let Some(len) = script::head(&mut input)? else {
            break;
        };
        let order = script::payload(&mut input, payload, u16::from_le_bytes(len))?;
        if order.is_empty() {
            marks += 1;
            state.mark();
            let mut line = [0u8; LINE];
            let end = state::lay(&mut line, marks, state.figure());
            if !print::end_line(&mut io::writer(rt), &mut line, end)? {
                break;
            }
        } else {
            state.deliver(order);
        }
    }
    Ok(())
}

fn main(rt: HostRuntime) -> io::Result<()> {
    let mut index = [0u8; session::INDEX];
    let mut bodies = [0u8; session::BODIES];
    let mut journal = [0u8; session::JOURNAL];
    let mut a = [0u8; MANY];
    let mut b = [0u8; MANY];
    let mut c = [0u8; MANY];
    let mut d = [0u8; MANY];
    let mut e = [0u8; FEW];
    let mut payload = [0u8; script::PAYLOAD];
    let mut state = State::new(
        &mut index,
        &mut bodies,
        &mut journal,
        &mut a,
        &mut b,
        &mut c,
        &mut d,
        &mut e,
    );
    match run(&rt, &mut state, &mut payload) {
        Err(Stop::BadItem) => {
            eprintln!(rt; "rail_report: the last item is cut, and dropped")?;
            eprintln!(rt; "usage: {USAGE}")
        }
        ran => script::end(&rt, ran, USAGE),
    }
}
