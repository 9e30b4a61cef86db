// Why an order would be refused, for C: the number that rail_deliver would give and the offset of the field at fault, as one number.
ghost use Rattle.store.specs.Store.{five};
ghost use Rattle.journal.specs.View.{memory};
ghost use Rattle.rail.specs.Explanations.{ExplainExport};

use replies::packed;
use session::Reply;

// Explains an order: the number, and 65,536 times the offset of the field at fault (0 where the number is 0).
#[unsafe(no_mangle)]
pub extern "C" fn rail_explain(
    index: &[u8],
    bodies: &[u8],
    a: &[u8],
    b: &[u8],
    c: &[u8],
    d: &[u8],
    e: &[u8],
    journal: &[u8],
    order: &[u8],
) -> u32
    ensures { ExplainExport order.now (memory index.now bodies.now (five a.now b.now c.now d.now e.now) journal.now) result }
{
    let lent = store::places(a, b, c, d, e);
    let x = explain_call::explain(index, bodies, lent, journal, order);
    packed(Reply {
        number: x.number,
        count: 0,
        bytes: x.at,
    })
}
