// How much was visible at the mark, for C.
ghost use Rattle.store.specs.Store.{five};
ghost use Rattle.journal.specs.View.{memory};
ghost use Rattle.rail.specs.FigureExports.{FigureExport};

use replies::packed;

// Writes the figure of the table at the mark to out: windows 4, pixels 8.
#[unsafe(no_mangle)]
pub extern "C" fn rail_figure(
    index: &[u8],
    bodies: &[u8],
    a: &[u8],
    b: &[u8],
    c: &[u8],
    d: &[u8],
    e: &[u8],
    journal: &[u8],
    out: &mut [u8],
) -> u32
    ensures { FigureExport (memory index.now bodies.now (five a.now b.now c.now d.now e.now) journal.now) out.old result out.new }
{
    let lent = store::places(a, b, c, d, e);
    let r = visible::at_mark(index, bodies, lent, journal, out);
    packed(r)
}
