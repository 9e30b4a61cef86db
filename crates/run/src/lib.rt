// Runs a list of calls on lent state memory: demand 3 as the contract of running code.
#![tactic(auto)]

ghost use Rattle.std.specs.Prelude.{◌≡◌, ◌++◌, ◌≤◌, length, drop};
ghost use Rattle.wire.specs.Parts.{splice};
ghost use Rattle.wire.specs.Numbers.{num_at, bytes_of};
ghost use Rattle.store.specs.Store.{places_in, five};
ghost use Rattle.table.specs.Memory.{fixed_by};
ghost use Rattle.journal.specs.View.{memory, formed, view_of, InEachStore};
ghost use Rattle.session.specs.Calls.{reset, checkpoint, look, write_record};
ghost use Rattle.session.specs.Outcome.{plain, replied, CallOutcome};
ghost use Rattle.session.specs.Packed.{packed_of};
ghost use Rattle.update.specs.Packed.{standing_half, granted_half};
ghost use Rattle.model.specs.Updates.{update};
ghost use Rattle.model.specs.Wellformed.{emptied_state};
ghost use Rattle.run.specs.Script.{holder_at, target_of, change_of, one_call, limit_size, step_of, block_length, ends_with, course_of, RunAs, Runs};
ghost use Rattle.run.specs.Steps.{Takes, TakesOne, EndsAt, Done, Journaled, Handed};

use protocol::{NotifyIconId, WindowId};
use session::{LookupTarget, PictureHolder, Reply};
use update::Report;

// A whole update: its limit, LIMIT bytes, before its own.
const UPDATE: u8 = 8;

const LIMIT: usize = 4;

// The bytes of a holder.
const HOLDER: usize = 9;

// The session record written.
const RECORD: u8 = 9;

// The last kind.
const LAST: u8 = 12;

// The number of 8 bytes at the start; a byte past the end counts 0.
fn read_u64(s: &[u8]) -> u64
    ensures { result ≡ num_at 8 s.now 0 }
{
    let low = wire::read_u32(s, 0) as u64;
    let high = wire::read_u32(s, 4) as u64;
    low + 4294967296 * high
}

// The holder at index at: its kind 1, and two numbers of 4.
fn holder_at(arg: &[u8], at: usize) -> PictureHolder
    requires { at ≤ 9 }
    ensures { result ≡ holder_at arg.now at }
{
    let kind = wire::read_u8(arg, at);
    let first = wire::read_u32(arg, at + 1);
    let second = wire::read_u32(arg, at + 5);
    replies::holders::holder_of(kind, first, second)
}

// What a lookup of kinds 4 to 7 and 10 to 12 looks for.
fn target_of(kind: u8, arg: &[u8]) -> LookupTarget
    ensures { result ≡ target_of kind arg.now }
{
    let id = wire::read_u32(arg, 0);
    if kind == 4 {
        return LookupTarget::Window(WindowId { id });
    }
    if kind == 5 {
        let icon = wire::read_u32(arg, 4);
        return LookupTarget::Notification(WindowId { id }, NotifyIconId { id: icon });
    }
    if kind == 6 {
        let cache = wire::read_u8(arg, 0);
        let entry = wire::read_u16(arg, 1);
        return LookupTarget::Cell(cache, entry);
    }
    if kind == 10 {
        return LookupTarget::Windows;
    }
    if kind == 11 {
        return LookupTarget::Notifications;
    }
    if kind == 12 {
        let g = holder_at(arg, 0);
        let k = holder_at(arg, HOLDER);
        return LookupTarget::Shares(g, k);
    }
    LookupTarget::Desktop
}

// The bytes that the block of a single call takes.
fn single_length(kind: u8) -> usize
    ensures { TakesOne kind result }
{
    if kind < 4 {
        return 4;
    }
    if kind == 4 {
        return 4 + lookups::WINDOW;
    }
    if kind == 5 {
        return 4 + layout::NOTIFICATION + layout::PICTURE;
    }
    if kind == 6 {
        return 4 + layout::PICTURE;
    }
    if kind == RECORD {
        return 4 + record::MOST;
    }
    if kind == 10 {
        return 4 + ids::LENGTH;
    }
    if kind == 11 {
        return 4 + ids::LENGTH;
    }
    if kind == 12 {
        return 5;
    }
    4 + lookups::DESKTOP
}

// The bytes that the block of a call takes.
fn block_length(kind: u8) -> usize
    ensures { Takes kind result }
{
    if kind == UPDATE {
        return 8;
    }
    single_length(kind)
}

// Writes a reply at the start of a block.
fn put_reply(out: &mut [u8], r: Reply)
    requires { 4 ≤ length out.old }
    ensures { out.new ≡ splice out.old 0 (bytes_of 4 (packed_of r)) }
{
    let head = replies::packed(r);
    wire::write_u32(out, 0, head);
}

// Kind 0 and its block.
fn reset_block(index: &mut [u8], bodies: &mut [u8], lent: usize, journal: &mut [u8], out: &mut [u8])
    requires { length out.old ≡ 4 }
    ensures { InEachStore lent (λ store. Done (one_call (reset lent)) (memory index.old bodies.old store journal.old) (memory index.new bodies.new store journal.new) out.new) }
{
    let r = state_calls::reset(index, bodies, lent, journal);
    put_reply(out, r);
}

// Kinds 1 and 3, which change the journal alone.
fn journal_change(
    index: &[u8],
    bodies: &[u8],
    lent: usize,
    journal: &mut [u8],
    kind: u8,
    arg: &[u8],
) -> Reply
    requires { Journaled kind }
    ensures { InEachStore lent (λ store. CallOutcome (plain (change_of lent kind arg.now)) (memory index.now bodies.now store journal.old) (replied result) (memory index.now bodies.now store journal.new)) }
{
    if kind == 1 {
        return state_calls::deliver(index, bodies, lent, journal, arg);
    }
    let k = read_u64(arg);
    state_calls::undo(index, bodies, lent, journal, k)
}

// Where the bytes of an update begin in what its item carries: after the limit.
fn after_limit(arg: &[u8]) -> usize
    ensures { (result ≤ length arg.now) × (drop result arg.now ≡ drop limit_size arg.now) }
{
    if arg.len() < LIMIT {
        return arg.len();
    }
    LIMIT
}

// Writes a report to its block: what stands after the update, and what it granted.
fn put_report(out: &mut [u8], r: Report)
    requires { length out.old ≡ 8 }
    ensures { out.new ≡ bytes_of 4 (standing_half r) ++ bytes_of 4 (granted_half r) }
{
    let low = update_call::standing(r);
    let high = update_call::granted(r);
    wire::write_u32(out, 0, low);
    wire::write_u32(out, 4, high);
}

// A whole update and its block.
fn update_all(
    index: &[u8],
    bodies: &[u8],
    lent: usize,
    journal: &mut [u8],
    arg: &[u8],
    out: &mut [u8],
)
    requires { length out.old ≡ 8 }
    ensures { InEachStore lent (λ store. Done (update (num_at 4 arg.now 0) (drop limit_size arg.now)) (memory index.now bodies.now store journal.old) (memory index.now bodies.now store journal.new) out.new) }
{
    let limit = wire::read_u32(arg, 0);
    let start = after_limit(arg);
    let end = arg.len();
    let r = update_call::update(index, bodies, lent, journal, limit, &arg[start..end]);
    put_report(out, r);
}

// Kinds 1, 3 and 8, which change the journal alone, and the block.
fn journal_block(
    index: &[u8],
    bodies: &[u8],
    lent: usize,
    journal: &mut [u8],
    kind: u8,
    arg: &[u8],
    out: &mut [u8],
)
    requires { Journaled kind × (length out.old ≡ block_length (step_of lent kind arg.now)) }
    ensures { InEachStore lent (λ store. Done (step_of lent kind arg.now) (memory index.now bodies.now store journal.old) (memory index.now bodies.now store journal.new) out.new) }
{
    if kind == UPDATE {
        return update_all(index, bodies, lent, journal, arg, out);
    }
    let r = journal_change(index, bodies, lent, journal, kind, arg);
    put_reply(out, r);
}

// A lookup and its block: the reply is put before what it hands out in a field of zeros.
fn look_up(
    index: &[u8],
    bodies: &[u8],
    a: &[u8],
    b: &[u8],
    c: &[u8],
    d: &[u8],
    e: &[u8],
    journal: &[u8],
    target: LookupTarget,
    out: &mut [u8],
)
    requires { length out.old ≡ block_length (one_call (look target)) }
    ensures { Done (one_call (look target)) (memory index.now bodies.now (five a.now b.now c.now d.now e.now) journal.now) (memory index.now bodies.now (five a.now b.now c.now d.now e.now) journal.now) out.new }
{
    let end = out.len();
    wire::clear(out, 0, end);
    let r = lookups::look(
        index,
        bodies,
        a,
        b,
        c,
        d,
        e,
        journal,
        target,
        &mut out[4..end],
    );
    put_reply(out, r);
}

// The session record and its block, in a field of zeros.
fn put_record(index: &[u8], bodies: &[u8], lent: usize, journal: &[u8], out: &mut [u8])
    requires { length out.old ≡ block_length (one_call write_record) }
    ensures { InEachStore lent (λ store. Done (one_call write_record) (memory index.now bodies.now store journal.now) (memory index.now bodies.now store journal.now) out.new) }
{
    let end = out.len();
    wire::clear(out, 0, end);
    let r = state_calls::records::write(index, bodies, lent, journal, &mut out[4..end]);
    put_reply(out, r);
}

// A call from kind 4 on but 8, which hands something out, and its block.
fn hand_out(
    index: &[u8],
    bodies: &[u8],
    a: &[u8],
    b: &[u8],
    c: &[u8],
    d: &[u8],
    e: &[u8],
    lent: usize,
    journal: &[u8],
    kind: u8,
    arg: &[u8],
    out: &mut [u8],
)
    requires { Handed kind × (lent ≡ places_in (five a.now b.now c.now d.now e.now)) × (length out.old ≡ block_length (step_of lent kind arg.now)) }
    ensures { Done (step_of lent kind arg.now) (memory index.now bodies.now (five a.now b.now c.now d.now e.now) journal.now) (memory index.now bodies.now (five a.now b.now c.now d.now e.now) journal.now) out.new }
{
    if kind == RECORD {
        return put_record(index, bodies, lent, journal, out);
    }
    let target = target_of(kind, arg);
    look_up(index, bodies, a, b, c, d, e, journal, target, out)
}

// A call of any kind but 0 and 2, which changes the journal at most, and its block.
fn journal_call(
    index: &[u8],
    bodies: &[u8],
    a: &[u8],
    b: &[u8],
    c: &[u8],
    d: &[u8],
    e: &[u8],
    lent: usize,
    journal: &mut [u8],
    kind: u8,
    arg: &[u8],
    out: &mut [u8],
)
    requires { (kind ≡ 0 → ⊥) × (kind ≡ 2 → ⊥) × (lent ≡ places_in (five a.now b.now c.now d.now e.now)) × (length out.old ≡ block_length (step_of lent kind arg.now)) }
    ensures { Done (step_of lent kind arg.now) (memory index.now bodies.now (five a.now b.now c.now d.now e.now) journal.old) (memory index.now bodies.now (five a.now b.now c.now d.now e.now) journal.new) out.new }
{
    if (kind < 4) | (kind == UPDATE) {
        return journal_block(index, bodies, lent, journal, kind, arg, out);
    }
    hand_out(index, bodies, a, b, c, d, e, lent, journal, kind, arg, out)
}

// A call of any kind but 2, which leaves the store, and its block.
fn table_call(
    index: &mut [u8],
    bodies: &mut [u8],
    a: &[u8],
    b: &[u8],
    c: &[u8],
    d: &[u8],
    e: &[u8],
    journal: &mut [u8],
    kind: u8,
    arg: &[u8],
    out: &mut [u8],
)
    requires { (kind ≡ 2 → ⊥) × (length out.old ≡ block_length (step_of (places_in (five a.now b.now c.now d.now e.now)) kind arg.now)) }
    ensures { Done (step_of (places_in (five a.now b.now c.now d.now e.now)) kind arg.now) (memory index.old bodies.old (five a.now b.now c.now d.now e.now) journal.old) (memory index.new bodies.new (five a.now b.now c.now d.now e.now) journal.new) out.new }
{
    let lent = store::places(a, b, c, d, e);
    if kind == 0 {
        reset_block(index, bodies, lent, journal, out);
    } else {
        journal_call(index, bodies, a, b, c, d, e, lent, journal, kind, arg, out);
    }
}

// A call and its block.
fn call(
    index: &mut [u8],
    bodies: &mut [u8],
    a: &mut [u8],
    b: &mut [u8],
    c: &mut [u8],
    d: &mut [u8],
    e: &mut [u8],
    journal: &mut [u8],
    kind: u8,
    arg: &[u8],
    out: &mut [u8],
)
    requires { length out.old ≡ block_length (step_of (places_in (five a.old b.old c.old d.old e.old)) kind arg.now) }
    ensures { Done (step_of (places_in (five a.old b.old c.old d.old e.old)) kind arg.now) (memory index.old bodies.old (five a.old b.old c.old d.old e.old) journal.old) (memory index.new bodies.new (five a.new b.new c.new d.new e.new) journal.new) out.new }
{
    if kind == 2 {
        let r = state_calls::checkpoint(index, bodies, a, b, c, d, e, journal);
        put_reply(out, r);
    } else {
        table_call(index, bodies, a, b, c, d, e, journal, kind, arg, out);
    }
}

// The number with which the run ends at index at, 255 where a call is done.
fn end_at(script: &[u8], at: usize, room: usize) -> u8
    requires { at ≤ length script.now }
    ensures { EndsAt result (drop at script.now) room }
{
    let left = script.len() - at;
    if left == 0 {
        return 0;
    }
    if left < 3 {
        return 2;
    }
    let kind = wire::read_u8(script, at);
    let size = wire::read_u16(script, at + 1) as usize;
    if left < 3 + size {
        return 3;
    }
    if LAST < kind {
        return 4;
    }
    if room < block_length(kind) {
        return 14;
    }
    255
}

// The script's calls are done on emptied memory, each block behind the one before.
fn run_on(
    index: &mut [u8],
    bodies: &mut [u8],
    a: &mut [u8],
    b: &mut [u8],
    c: &mut [u8],
    d: &mut [u8],
    e: &mut [u8],
    journal: &mut [u8],
    script: &[u8],
    out: &mut [u8],
) -> u64
    requires { view_of (memory index.old bodies.old (five a.old b.old c.old d.old e.old) journal.old) ≡ formed (emptied_state (places_in (five a.old b.old c.old d.old e.old))) }
    ensures { RunAs (fixed_by (places_in (five a.old b.old c.old d.old e.old))) (course_of (places_in (five a.old b.old c.old d.old e.old)) script.now (length out.old)) (memory index.old bodies.old (five a.old b.old c.old d.old e.old) journal.old) out.old result (memory index.new bodies.new (five a.new b.new c.new d.new e.new) journal.new) out.new }
{
    let mut at: usize = 0;
    let mut to: usize = 0;
    let mut n: usize = 0;
    let mut ended = end_at(script, 0, out.len());
    while ended == 255 {
        let kind = wire::read_u8(script, at);
        let size = wire::read_u16(script, at + 1) as usize;
        let arg = at + 3;
        let after = arg + size;
        let end = to + block_length(kind);
        call(
            index,
            bodies,
            a,
            b,
            c,
            d,
            e,
            journal,
            kind,
            &script[arg..after],
            &mut out[to..end],
        );
        at = after;
        to = end;
        n += 1;
        ended = end_at(script, at, out.len() - to);
    }
    (ended as u64) + 256 * ((n as u64) % 0x100000000000000)
}

// Empties the memory and does the script's calls on it: the number with which the run ends, and 256 times the calls done.
pub fn run(
    index: &mut [u8],
    bodies: &mut [u8],
    a: &mut [u8],
    b: &mut [u8],
    c: &mut [u8],
    d: &mut [u8],
    e: &mut [u8],
    journal: &mut [u8],
    script: &[u8],
    out: &mut [u8],
) -> u64
    ensures { Runs script.now (memory index.old bodies.old (five a.old b.old c.old d.old e.old) journal.old) out.old result (memory index.new bodies.new (five a.new b.new c.new d.new e.new) journal.new) out.new }
{
    let lent = store::places(a, b, c, d, e);
    let r = state_calls::reset(index, bodies, lent, journal);
    if r.number != 0 {
        return 1;
    }
    run_on(index, bodies, a, b, c, d, e, journal, script, out)
}
