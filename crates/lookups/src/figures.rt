// The figure that goes with a target.
ghost use Rattle.std.specs.Prelude.{◌≡◌};
ghost use Rattle.wire.specs.Numbers.{Bytes};
ghost use Rattle.present.specs.PresentFigure.{Followable};
ghost use Rattle.session.specs.Targets.{figure_for};

use figure::Figure;
use session::LookupTarget;

// The figure that is handed out with a target: with the desktop state that of the table whose index x is, else none. (That x holds
// bytes is what its type says.)
pub fn figure_for(
    target: LookupTarget,
    x: &[u8],
    index: &[u8],
    bodies: &[u8],
    journal: &[u8],
    count: usize,
) -> Figure
    requires { Followable index.now bodies.now journal.now }
    ensures { (result ≡ figure_for target x.now index.now bodies.now journal.now count) × Bytes x.now }
{
    match target {
        LookupTarget::Desktop => present_count::count_held(x, index, bodies, journal, count),
        _ => Figure {
            windows: 0,
            pixels: 0,
        },
    }
}
