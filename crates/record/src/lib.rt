// The session record: the orders that stand after the mark, written with a table of contents and read again. The work is done on
// slices and numbers. `Reader` holds a lent record and the next index; its functions are thin.
#![tactic(auto)]

ghost use Rattle.std.specs.Prelude.{◌≡◌, true, [], ◌<◌, ◌≤◌, length, get_or};
ghost use Rattle.std.specs.Iterator.{item_count};
ghost use Rattle.protocol.specs.Refusals.{refused_by, says};
ghost use Rattle.wire.specs.Parts.{splice};
ghost use Rattle.journal.specs.State.{bytes_in};
ghost use Rattle.journal.specs.Limits.{most_orders, log_start, journal_length};
ghost use Rattle.journal.specs.Journal.{orders_from, within_from};
ghost use Rattle.record.specs.Layout.{head_of, layout_from, table_of, record_of};
ghost use Rattle.record.specs.Reading.{count_in, record_number, parts_of, bodies_of, inspected_of, place_of};
ghost use Rattle.record.specs.Writing.{Within, fits_in, out_after_of};
ghost use Rattle.record.specs.Handing.{turn_of, left_of, Opens};

use protocol::Refusal;

// The bytes of the count, and of an entry of the table of contents: offset 4, size 4.
const COUNT: usize = 2;

const ENTRY: usize = 8;

// The most bytes that a record has.
pub const MOST: usize = COUNT + ENTRY * journal::MOST_ORDERS + journal::MOST_BYTES;

// ---- reading, on a slice and a number

// Checks a record whose table of contents of count entries lies within.
fn scan(record: &[u8], count: usize) -> Result<(), Refusal>
    requires { (count ≡ count_in «record».now) × (count < 65536) × (head_of count ≤ length «record».now) }
    ensures { refused_by result ≡ record_number «record».now }
{
    let head = COUNT + ENTRY * count;
    let mut end = head;
    let mut placed = true;
    for i in 0..count {
        let at = COUNT + ENTRY * i;
        let offset = wire::read_u32(record, at) as usize;
        let size = wire::read_u32(record, at + 4) as usize;
        if record.len() < offset + size {
            return Err(Refusal::RecordCut);
        }
        placed = placed & (offset == end);
        end += size;
    }
    if (journal::MOST_ORDERS < count)
        | (journal::MOST_BYTES < end - head)
        | !placed
        | (end < record.len())
    {
        return Err(Refusal::RecordDiffers);
    }
    Ok(())
}

// Checks a whole record: refused where it is cut, or where it is no list's record.
#[tactic(auto, using(crate::proofs::Scanning::short_count, crate::proofs::Scanning::short_table))]
pub fn check(record: &[u8]) -> Result<(), Refusal>
    ensures { refused_by result ≡ record_number «record».now }
{
    if record.len() < COUNT {
        return Err(Refusal::RecordCut);
    }
    let count = wire::read_u16(record, 0) as usize;
    if record.len() < COUNT + ENTRY * count {
        return Err(Refusal::RecordCut);
    }
    scan(record, count)
}

// The part that the i-th entry names, whatever the record's number.
fn part(record: &[u8], i: usize) -> &[u8]
    ensures { result.now ≡ get_or (parts_of «record».now) i [] }
{
    let count = wire::read_u16(record, 0) as usize;
    if count <= i {
        return &record[0..0];
    }
    let at = COUNT + ENTRY * i;
    let offset = wire::read_u32(record, at) as usize;
    let end = offset + wire::read_u32(record, at + 4) as usize;
    if record.len() < end {
        return &record[0..0];
    }
    &record[offset..end]
}

// How many bodies a record hands out, and their bytes in all.
#[derive(Clone, Copy, Debug, PartialEq, Eq)]
pub struct Contents {
    pub count: usize,
    pub bytes: usize,
}

// Checks a whole record, and tells what it hands out.
#[tactic(auto, using(crate::proofs::Handing::inspect_refused, crate::proofs::Handing::inspect_granted, crate::proofs::Handing::head_fits))]
pub fn inspect(record: &[u8]) -> Result<Contents, Refusal>
    ensures { says result ≡ inspected_of «record».now }
{
    check(record)?;
    let count = wire::read_u16(record, 0) as usize;
    Ok(Contents {
        count,
        bytes: record.len() - (COUNT + ENTRY * count),
    })
}

// An entry of the table of contents: where a body lies.
#[derive(Clone, Copy, Debug, PartialEq, Eq)]
pub struct Entry {
    pub offset: usize,
    pub size: usize,
}

// Where the i-th body lies, for callers that take no slices.
pub fn place(record: &[u8], i: usize) -> Option<Entry>
    ensures { result ≡ place_of «record».now i }
{
    let Ok(contents) = inspect(record) else {
        return None;
    };
    if contents.count <= i {
        return None;
    }
    let at = COUNT + ENTRY * i;
    let offset = wire::read_u32(record, at) as usize;
    let size = wire::read_u32(record, at + 4) as usize;
    Some(Entry { offset, size })
}

// The i-th body, as the part of the record where it lies. Empty where there is none.
#[tactic(auto, using(crate::proofs::Handing::refused_body, crate::proofs::Handing::granted_body))]
pub fn body(record: &[u8], i: usize) -> &[u8]
    ensures { result.now ≡ get_or (bodies_of «record».now) i [] }
{
    if check(record).is_err() {
        return &record[0..0];
    }
    part(record, i)
}

// ---- a reader that keeps its place in the lent record

#[derive(Clone, Copy, Debug)]
pub struct Reader<'a> {
    record: &'a [u8],
    next: usize,
}

// The next index, where a body is left.
#[tactic(auto, using(crate::proofs::Handing::turn_found, crate::proofs::Handing::turn_none))]
fn advance(record: &[u8], next: usize) -> Option<usize>
    ensures { result ≡ turn_of «record».now next }
{
    let count = wire::read_u16(record, 0) as usize;
    if next < count {
        return Some(next + 1);
    }
    None
}

impl<'a> Reader<'a> {
    // The whole record is checked first.
    #[tactic(auto, using(crate::proofs::Handing::opened))]
    pub fn new(record: &'a [u8]) -> Result<Reader<'a>, Refusal>
        ensures { Opens «record».entry result }
    {
        check(record)?;
        Ok(Reader { record, next: 0 })
    }

    // A reader of any record. That of a refused one begins past its last entry, and so has nothing left.
    #[tactic(auto, using(crate::proofs::Handing::over_refused, crate::proofs::Handing::over_granted))]
    pub fn over(record: &'a [u8]) -> Reader<'a>
        ensures lent { result.«record» ≡ «record».entry }
        ensures left { left_of result ≡ bodies_of «record».now }
    {
        let refused = check(record).is_err();
        if refused {
            let past = wire::read_u16(record, 0) as usize;
            return Reader { record, next: past };
        }
        Reader { record, next: 0 }
    }
}

// Its bodies, each as the part of the record where it lies.
impl<'a> Iterator for Reader<'a> {
    type Item = &'a [u8];

    ghost use Rattle.record.specs.Handing.{left_of, HandsOut};

    ghost next_gives = { HandsOut };

    ghost remaining = { item_count left_of };

    #[tactic(auto, using(crate::proofs::Handing::left_none, crate::proofs::Handing::left_some), unfolding(crate::specs::Handing::left_of))]
    fn next(&mut self) -> Option<&'a [u8]> {
        let record = self.record;
        let next = advance(record, self.next)?;
        let body = part(record, self.next);
        self.next = next;
        Some(body)
    }
}

// The bytes of all bodies. Its parameter is plain, so whoever calls it needs no walk.
#[tactic(auto, using(crate::proofs::Handing::bytes_first, crate::proofs::Handing::bytes_past, crate::proofs::Handing::bytes_bodies))]
pub fn total(record: &[u8]) -> usize
    ensures { result ≡ bytes_in (bodies_of «record».now) }
{
    let mut sum = 0;
    for body in Reader::over(record) {
        sum += body.len();
    }
    sum
}

// ---- writing

// Writes the table of contents of the journal's first count orders, whose bodies touch from where the table ends.
fn write_table(journal: &[u8], count: usize, out: &mut [u8])
    requires { (count ≤ most_orders) × (journal_length ≤ length journal.now) × (within_from count log_start journal.now ≡ true) × (head_of count ≤ length out.old) }
    ensures { out.new ≡ splice out.old 2 (table_of (layout_from (head_of count) (orders_from count log_start journal.now))) }
{
    let mut p = journal::START;
    let mut offset = COUNT + ENTRY * count;
    for i in 0..count {
        let size = wire::read_u16(journal, p + 1) as usize;
        let at = COUNT + ENTRY * i;
        wire::write_u32(out, at, offset as u32);
        wire::write_u32(out, at + 4, size as u32);
        p += size;
        offset += size;
    }
}

// Writes the journal's count orders, which end at index end, as a record. False where the output is too small.
pub fn write(journal: &[u8], count: usize, end: usize, out: &mut [u8]) -> bool
    requires { Within journal.now count end }
    ensures value { result ≡ fits_in (record_of (orders_from count log_start journal.now)) out.old }
    ensures out_after { out.new ≡ out_after_of (record_of (orders_from count log_start journal.now)) out.old }
{
    let bytes = end - journal::START;
    let head = COUNT + ENTRY * count;
    if out.len() < head + bytes {
        return false;
    }
    wire::write_u16(out, 0, count as u16);
    write_table(journal, count, out);
    wire::copy_part(out, head, journal, journal::START, bytes);
    true
}
