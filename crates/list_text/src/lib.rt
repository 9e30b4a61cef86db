// The lists of ids as text.
#![tactic(auto)]

ghost use Rattle.std.specs.Prelude.{◌≡◌};
ghost use Rattle.print.specs.Laid.{Laid};
ghost use Rattle.list_text.specs.Lists.{entry_text, entries_text, laid_of, both_text};

use print::{decimal, text};

// The most ids that a list has.
const MOST: u8 = 32;

// How many ids of a list are laid.
fn laid(bytes: &[u8]) -> u8
    ensures { result ≡ laid_of bytes.now }
{
    let n = ids::typed::count(bytes);
    if n < (MOST as u32) { n as u8 } else { MOST }
}

// Id i of a list; of a notification icon both.
fn entry(out: &mut [u8], at: usize, bytes: &[u8], i: u8, icons: bool) -> usize
    ensures { Laid out.old at (entry_text icons bytes.now i) out.new result }
{
    if icons {
        let p = ids::typed::notification(bytes, i);
        return print::pair(out, at, b"", p.window.id as u64, b'/', p.icon.id as u64);
    }
    let w = ids::typed::window(bytes, i);
    decimal(out, at, w.id as u64)
}

// The ids of a list, parted by commas.
fn entries(out: &mut [u8], at: usize, bytes: &[u8], icons: bool) -> usize
    ensures { Laid out.old at (entries_text icons bytes.now (laid_of bytes.now)) out.new result }
{
    let k = laid(bytes);
    let mut n = at;
    let mut i: u8 = 0;
    while i < k {
        n = print::parting(out, n, i as usize, b',');
        n = entry(out, n, bytes, i, icons);
        i += 1;
    }
    n
}

// The two lists.
pub fn both(out: &mut [u8], at: usize, windows: &[u8], icons: &[u8]) -> usize
    ensures { Laid out.old at (both_text windows.now icons.now) out.new result }
{
    let n = text(out, at, b" windows=");
    let n = entries(out, n, windows, false);
    let n = text(out, n, b" icons=");
    entries(out, n, icons, true)
}
