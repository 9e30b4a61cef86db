// The calls of items, and the lines that tell what they answer. A function whose name begins with lay lays a line without its end,
// and answers where it ends.
use crate::dump;
use crate::item::Item;
use crate::state::State;
use script::Stop;
use session::{LookupTarget, Reply};

// The most memory that an item lends for a session record.
const RECORD: usize = 65535;

// W, N, C, S, H
fn lay_found(out: &mut [u8], letter: u8, state: &mut State<'_>, target: LookupTarget) -> usize {
    let mut found = [0u8; lines::FOUND];
    let reply = state.look(target, &mut found);
    lines::found(out, letter, reply, target, &found)
}

// I
fn lay_lists(out: &mut [u8], letter: u8, state: &mut State<'_>) -> usize {
    let mut windows = [0u8; ids::LENGTH];
    let mut icons = [0u8; ids::LENGTH];
    let reply = state.list(&mut windows, &mut icons);
    lines::listed(out, letter, reply, &windows, &icons)
}

// The bytes that writing the session record wrote, by its reply.
fn record_len(reply: Reply) -> usize {
    if reply.number != 0 {
        return 0;
    }
    2 + 8 * reply.count as usize + reply.bytes as usize
}

// O
fn lay_record(out: &mut [u8], state: &mut State<'_>, size: u16) -> Result<usize, Stop> {
    let mut memory = [script::UNTOUCHED; RECORD];
    let memory = &mut memory[..usize::from(size)];
    let reply = state.write_record(memory);
    let record = script::written(memory, record_len(reply))?;
    Ok(lines::records::written(out, reply, record))
}

// Makes the call of an item, and lays its line after its letter. None for an item that is no call.
pub(crate) fn run(
    out: &mut [u8],
    letter: u8,
    item: Item<'_>,
    state: &mut State<'_>,
) -> Result<Option<usize>, Stop> {
    match item {
        Item::Reset => Ok(Some(lines::reply(out, letter, state.reset()))),
        Item::Mark => Ok(Some(lines::reply(out, letter, state.mark()))),
        Item::Deliver(order) => Ok(Some(lines::reply(out, letter, state.deliver(order)))),
        Item::Undo(steps) => Ok(Some(lines::reply(out, letter, state.undo(steps)))),
        Item::Update { limit, orders } => {
            Ok(Some(lines::updated(out, state.update(limit, orders))))
        }
        Item::Look(target) => Ok(Some(lay_found(out, letter, state, target))),
        Item::Lists => Ok(Some(lay_lists(out, letter, state))),
        Item::WriteRecord(size) => Ok(Some(lay_record(out, state, size)?)),
        Item::ReadRecord(record) => Ok(Some(lines::records::read(out, record))),
        Item::Dump => Ok(Some(dump::lay(out, state))),
        Item::Lend(lengths) => {
            state.set_lengths(lengths);
            Ok(None)
        }
        Item::Shorten { part, missing } => {
            state.shorten(part, usize::from(missing))?;
            Ok(None)
        }
        Item::Change { part, at, by } => {
            state.change(part, at as usize, by)?;
            Ok(None)
        }
    }
}
