// The journal's orders applied to the table, at a checkpoint.
#![tactic(auto)]

ghost use Rattle.std.specs.Prelude.{◌≡◌, true, ◌≤◌, length};
ghost use Rattle.store.specs.Store.{places_in, five};
ghost use Rattle.table.specs.Memory.{sound_table};
ghost use Rattle.journal.specs.Limits.{journal_length, log_start, most_orders};
ghost use Rattle.journal.specs.Journal.{end_from, within_from};
ghost use Rattle.journal.specs.Replay.{Applied};

// Where the first count orders end.
pub fn end_of(journal: &[u8], count: usize) -> usize
    requires { (count ≤ most_orders) × (within_from count log_start journal.now ≡ true) }
    ensures { (result ≡ end_from count log_start journal.now) × (result ≤ journal_length) }
{
    let mut p = journal::START;
    let mut i = 0;
    while i < count {
        p += wire::read_u16(journal, p + 1) as usize;
        i += 1;
    }
    p
}

// Applies the first count orders to a table.
pub fn apply(
    index: &mut [u8],
    bodies: &mut [u8],
    a: &mut [u8],
    b: &mut [u8],
    c: &mut [u8],
    d: &mut [u8],
    e: &mut [u8],
    journal: &[u8],
    count: usize,
)
    requires e_value { sound_table index.old bodies.old (places_in (five a.old b.old c.old d.old e.old)) ≡ true }
    requires journal_length_in_bounds { (journal_length ≤ length journal.now) × (within_from count log_start journal.now ≡ true) }
    ensures { Applied index.old bodies.old (five a.old b.old c.old d.old e.old) journal.now count index.new bodies.new (five a.new b.new c.new d.new e.new) }
{
    let mut p = journal::START;
    let mut i = 0;
    while i < count {
        let end = p + wire::read_u16(journal, p + 1) as usize;
        table_change::deliver(index, bodies, a, b, c, d, e, &journal[p..end]);
        p = end;
        i += 1;
    }
}
