// A whole update for C: its report as one number.
ghost use Rattle.store.specs.Store.{five};
ghost use Rattle.journal.specs.View.{memory};
ghost use Rattle.rail.specs.Updates.{UpdateExport};

// Delivers the orders of an update until limit are granted, none is left or one is refused. The last number; 256 times the orders
// and 65,536 times the bytes that then stand after the mark; 2^32 times the orders granted and 2^48 times their bytes.
#[unsafe(no_mangle)]
pub extern "C" fn rail_update(
    index: &[u8],
    bodies: &[u8],
    a: &[u8],
    b: &[u8],
    c: &[u8],
    d: &[u8],
    e: &[u8],
    journal: &mut [u8],
    limit: u32,
    orders: &[u8],
) -> u64
    ensures { UpdateExport limit orders.now (memory index.now bodies.now (five a.now b.now c.now d.now e.now) journal.old) result (memory index.now bodies.now (five a.now b.now c.now d.now e.now) journal.new) }
{
    let lent = store::places(a, b, c, d, e);
    let r = update_call::update(index, bodies, lent, journal, limit, orders);
    update_call::packed(r)
}
