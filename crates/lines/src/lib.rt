// The lines of a call script's answers: what a call answers, and the record that a lookup hands out, a name=value for each field.
#![tactic(auto)]

ghost use Rattle.print.specs.Laid.{Laid};
ghost use Rattle.lines.specs.Lines.{reply_text, update_text, shared_text, record_text, found_text, lists_text};

use print::{field, fill};
use session::{LookupTarget, Reply};
use update::Report;

pub mod records;

// The most bytes that a lookup hands out.
pub const FOUND: usize = field_text::FOUND;

// The kind and the number, and for a granted call the count and the bytes.
pub fn reply(out: &mut [u8], kind: u8, r: Reply) -> usize
    ensures { Laid out.old 0 (reply_text kind r) out.new result }
{
    let n = field(out, 0, &[kind, b' '], r.number as u64);
    if r.number != 0 {
        return n;
    }
    fill::numbers(out, n, b" # #", &[r.count as u64, r.bytes as u64])
}

// The line of an update: the number, and where the memory is fit what was granted, and what stands.
pub fn updated(out: &mut [u8], r: Report) -> usize
    ensures { Laid out.old 0 (update_text r) out.new result }
{
    let n = field(out, 0, b"U ", r.number as u64);
    if r.number == 1 {
        return n;
    }
    let ns = [
        r.orders as u64,
        r.granted as u64,
        r.count as u64,
        r.bytes as u64,
    ];
    fill::numbers(out, n, b" # # # #", &ns)
}

// Whether two holders share a picture.
fn shared(out: &mut [u8], at: usize, bytes: &[u8; FOUND]) -> usize
    ensures { Laid out.old at (shared_text bytes.now) out.new result }
{
    field(out, at, b" shared=", wire::read_u8(bytes, 0) as u64)
}

// The record in the bytes that were handed out.
fn handed_out(out: &mut [u8], at: usize, target: LookupTarget, bytes: &[u8; FOUND]) -> usize
    ensures { Laid out.old at (record_text target bytes.now) out.new result }
{
    match target {
        LookupTarget::Window(w) => window_text::line(out, at, w, bytes),
        LookupTarget::Notification(w, n) => desktop_text::notifications::line(out, at, w, n, bytes),
        LookupTarget::Cell(_, _) => field_text::pictures::cell(out, at, bytes),
        LookupTarget::Desktop => desktop_text::desktop::line(out, at, bytes),
        LookupTarget::Windows => at,
        LookupTarget::Notifications => at,
        LookupTarget::Shares(_, _) => shared(out, at, bytes),
    }
}

// The line of a lookup.
pub fn found(out: &mut [u8], kind: u8, r: Reply, target: LookupTarget, bytes: &[u8; FOUND]) -> usize
    ensures { Laid out.old 0 (found_text kind r target bytes.now) out.new result }
{
    let n = reply(out, kind, r);
    if r.number != 0 {
        return n;
    }
    handed_out(out, n, target, bytes)
}

// The line of the two lists of ids.
pub fn listed(out: &mut [u8], kind: u8, r: Reply, windows: &[u8], icons: &[u8]) -> usize
    ensures { Laid out.old 0 (lists_text kind r windows.now icons.now) out.new result }
{
    let n = reply(out, kind, r);
    if r.number != 0 {
        return n;
    }
    list_text::both(out, n, windows, icons)
}
