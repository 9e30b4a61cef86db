// The session record for C: written from the state memory, checked, and its bodies found.
ghost use Rattle.store.specs.Store.{five};
ghost use Rattle.journal.specs.View.{memory};
ghost use Rattle.session.specs.Outcome.{record_to};
ghost use Rattle.rail.specs.States.{Exported};
ghost use Rattle.rail.specs.RecordExports.{CheckExport, BodyExport};

use replies::packed;
use session::Reply;

// Writes the record of the orders since the checkpoint to out.
#[unsafe(no_mangle)]
pub extern "C" fn rail_record_write(
    index: &[u8],
    bodies: &[u8],
    a: &[u8],
    b: &[u8],
    c: &[u8],
    d: &[u8],
    e: &[u8],
    journal: &[u8],
    out: &mut [u8],
) -> u32
    ensures { Exported (record_to out.old) (memory index.now bodies.now (five a.now b.now c.now d.now e.now) journal.now) result out.new (memory index.now bodies.now (five a.now b.now c.now d.now e.now) journal.now) }
{
    let lent = store::places(a, b, c, d, e);
    let r = state_calls::records::write(index, bodies, lent, journal, out);
    packed(r)
}

// Checks a whole record: its number and, where that is 0, how many bodies it has and their bytes.
#[unsafe(no_mangle)]
pub extern "C" fn rail_record_check(bytes: &[u8]) -> u32
    ensures { CheckExport bytes.now result }
{
    let contents = match record::inspect(bytes) {
        Ok(contents) => contents,
        Err(refusal) => {
            return packed(Reply {
                number: u8::from(refusal),
                count: 0,
                bytes: 0,
            });
        }
    };
    let count = contents.count as u32;
    let size = contents.bytes as u32;
    packed(Reply {
        number: 0,
        count,
        bytes: size,
    })
}

// Where the body of that index lies in a record that passes the check: its offset, and 65,536 times its size. 0 where there is none.
#[unsafe(no_mangle)]
pub extern "C" fn rail_record_body(bytes: &[u8], index: u32) -> u32
    ensures { BodyExport bytes.now index result }
{
    let Some(e) = record::place(bytes, index as usize) else {
        return 0;
    };
    e.offset as u32 + 65536 * (e.size as u32)
}
