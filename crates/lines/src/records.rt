// The lines of the session record: as it is written, and as it is read.
ghost use Rattle.print.specs.Laid.{Laid};
ghost use Rattle.lines.specs.Records.{written_text, bodies_text, contents_text, read_text};

use print::field;
use print::fill::numbers;
use session::Reply;

// The line of a write: the answer, and of a granted one the record.
pub fn written(out: &mut [u8], r: Reply, s: &[u8]) -> usize
    ensures { Laid out.old 0 (written_text r s.now) out.new result }
{
    let n = crate::reply(out, b'O', r);
    if r.number != 0 {
        return n;
    }
    print::string(out, n, b" ", s, 0, s.len())
}

// The first k bodies, parted by commas.
fn bodies(out: &mut [u8], at: usize, s: &[u8], k: usize) -> usize
    ensures { Laid out.old at (bodies_text s.now k) out.new result }
{
    let mut n = at;
    let mut i = 0;
    while i < k {
        n = print::parting(out, n, i, b',');
        n = print::hex(out, n, record::body(s, i));
        i += 1;
    }
    n
}

// The number of a record, and where that is 0 its bodies, so many.
fn contents(out: &mut [u8], s: &[u8], number: u8, count: usize) -> usize
    ensures { Laid out.old 0 (contents_text s.now number count) out.new result }
{
    let n = field(out, 0, b"V ", number as u64);
    if number != 0 {
        return n;
    }
    let n = numbers(out, n, b" # bodies=", &[count as u64]);
    bodies(out, n, s, count)
}

// The line of a record read.
pub fn read(out: &mut [u8], s: &[u8]) -> usize
    ensures { Laid out.old 0 (read_text s.now) out.new result }
{
    match record::inspect(s) {
        Ok(told) => contents(out, s, 0, told.count),
        Err(refusal) => contents(out, s, u8::from(refusal), 0),
    }
}
