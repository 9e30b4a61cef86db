// A list of calls in one, for C: demand 3 as the contract of running code.
ghost use Rattle.store.specs.Store.{five};
ghost use Rattle.journal.specs.View.{memory};
ghost use Rattle.run.specs.Script.{Runs};

// Empties the state memory and does the script's calls on it, each answer in a block of the output: the number with which the run
// ends, and 256 times the calls done.
#[unsafe(no_mangle)]
pub extern "C" fn rail_run(
    index: &mut [u8],
    bodies: &mut [u8],
    a: &mut [u8],
    b: &mut [u8],
    c: &mut [u8],
    d: &mut [u8],
    e: &mut [u8],
    journal: &mut [u8],
    script: &[u8],
    out: &mut [u8],
) -> u64
    ensures { Runs script.now (memory index.old bodies.old (five a.old b.old c.old d.old e.old) journal.old) out.old result (memory index.new bodies.new (five a.new b.new c.new d.new e.new) journal.new) out.new }
{
    run::run(index, bodies, a, b, c, d, e, journal, script, out)
}
