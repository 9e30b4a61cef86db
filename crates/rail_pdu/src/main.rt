// Runs a call script of control messages and their chunks through the library and prints what each call answers.
#![tactic(auto)]

mod channel;
mod fields;
mod item;
mod record;

use channel::ChunkMemory;
use item::Item;
use script::Stop;
use std::io;

const USAGE: &str =
    "rail_pdu < SCRIPT, a call script of messages (docs/FORMATS.md); second pdu < SCRIPT tells which item is bad";

// The memory for a line.
const LINE: usize = 36864;

// A proved loop has to end, and nothing says that the input does: the items are counted up to a number that no run reaches.
fn run(
    rt: &(impl Input + Print),
    memory: &mut ChunkMemory<'_>,
    payload: &mut [u8; script::PAYLOAD],
    out: &mut [u8; LINE],
) -> Result<(), Stop> {
    let mut input = rt.reader();
    for _ in 0..u64::MAX {
        let Some(head) = script::head::<3, _>(&mut input)? else {
            break;
        };
        let [kind, low, high] = head;
        let payload = script::payload(&mut input, payload, u16::from_le_bytes([low, high]))?;
        let item = Item::parse(kind, payload).ok_or(Stop::BadItem)?;
        if let Some(end) = item.run(kind, memory, out)? {
            if !print::end_line(&mut io::writer(rt), out, end)? {
                break;
            }
        }
    }
    Ok(())
}

fn main(rt: HostRuntime) -> io::Result<()> {
    let mut bytes = [0xEEu8; chunk::MEMORY];
    let mut payload = [0u8; script::PAYLOAD];
    let mut out = [0u8; LINE];
    let mut memory = ChunkMemory::new(&mut bytes);
    let ran = run(&rt, &mut memory, &mut payload, &mut out);
    script::end(&rt, ran, USAGE)
}
