// The journal's orders replayed on an index, to validate the memory that is lent to a call; what is looked up is followed on the way.
#![tactic(auto)]

ghost use Rattle.std.specs.Prelude.{◌≡◌, true, [], ◌≤◌, length, Some, None};
ghost use Rattle.slots.specs.Families.{index_length};
ghost use Rattle.slots.specs.Sound.{sound_index};
ghost use Rattle.index.specs.Plans.{plan_of, plan_number, plan_slot};
ghost use Rattle.table.specs.Memory.{bodies_length};
ghost use Rattle.follow.specs.Follow.{room_for};
ghost use Rattle.journal.specs.Limits.{journal_length, log_start};
ghost use Rattle.journal.specs.View.{memory, InEachStore, short_of, meets_rule};
ghost use Rattle.journal.specs.Replay.{index_after, followed_after, replay_from, Replayed, from_mark, replayable, Validation};

use follow::Want;
use index::Stepped;
use journal::JournalExtent;

// A part is shorter than needed, or fewer than 12 places are lent.
pub fn too_short(index: &[u8], bodies: &[u8], lent: usize, journal: &[u8]) -> bool
    ensures { result ≡ short_of index.now bodies.now lent journal.now }
{
    (index.len() < figure::LENGTH)
        | (bodies.len() < table::BODIES)
        | (lent < (places::FEWEST as usize))
        | (journal.len() < journal::LENGTH)
}

// Judges an order, which stands at index q of the journal, on an index, follows what is looked up and applies the order's plan to
// the index. Slot near is looked at for its record before a search: many an order is for the record of the one before it.
fn follow_order(d: &mut [u8], m: &mut [u8], s: &[u8], q: u16, want: Want, near: usize) -> Stepped
    requires { (sound_index d.old ≡ true) × (length m.old ≡ room_for (Some want)) }
    ensures number_and_slot_are_the_plans { (result.number ≡ plan_number (plan_of d.old s.now)) × (result.slot ≡ plan_slot (plan_of d.old s.now)) }
    ensures index_is_after_the_order { d.new ≡ index_after d.old s.now }
    ensures followed_is_after_the_order { m.new ≡ followed_after (Some want) q d.old s.now m.old }
{
    let p = index_plan::judge_near(d, s, near);
    follow_orders::follow(m, s, p, q, Some(want));
    index_change::apply(d, p);
    let number = index_plan::number(p);
    let slot = index_plan::slot(p);
    Stepped {
        number,
        slot,
        held: 0,
    }
}

// The same in one step where nothing is looked up.
fn replay_order(
    d: &mut [u8],
    m: &mut [u8],
    s: &[u8],
    q: u16,
    want: Option<Want>,
    near: usize,
) -> Stepped
    requires { (sound_index d.old ≡ true) × (length m.old ≡ room_for want) }
    ensures number_and_slot_are_the_plans { (result.number ≡ plan_number (plan_of d.old s.now)) × (result.slot ≡ plan_slot (plan_of d.old s.now)) }
    ensures index_is_after_the_order { d.new ≡ index_after d.old s.now }
    ensures followed_is_after_the_order { m.new ≡ followed_after want q d.old s.now m.old }
{
    match want {
        Some(want) => follow_order(d, m, s, q, want, near),
        None => index_step::step(d, s, near, 0, false),
    }
}

// Replays count orders of the journal. Where they end, or 0 where one is cut or refused.
fn replay(d: &mut [u8], m: &mut [u8], journal: &[u8], count: usize, want: Option<Want>) -> usize
    requires { (sound_index d.old ≡ true) × (length m.old ≡ room_for want) × (journal_length ≤ length journal.now) }
    ensures { Replayed (replay_from want count log_start journal.now d.old m.old) result d.new m.new }
{
    let mut p = journal::START;
    let mut near = slots::COUNT;
    let mut i = 0;
    while i < count {
        let size = wire::read_u16(journal, p + 1) as usize;
        if journal::LENGTH - p < size {
            return 0;
        }
        let end = p + size;
        let step = replay_order(d, m, &journal[p..end], p as u16, want, near);
        if step.number != 0 {
            return 0;
        }
        near = step.slot;
        p = end;
        i += 1;
    }
    p
}

// The same from the mark on: d becomes the index after count orders, and m what the table then has of the target.
pub fn from_mark(
    index: &[u8],
    bodies: &[u8],
    journal: &[u8],
    count: usize,
    want: Option<Want>,
    d: &mut [u8],
    m: &mut [u8],
) -> usize
    requires index_value { (sound_index index.now ≡ true) × (bodies_length ≤ length bodies.now) × (journal_length ≤ length journal.now) }
    requires d_len { (length d.old ≡ index_length) × (length m.old ≡ room_for want) }
    ensures { Replayed (from_mark want index.now bodies.now journal.now count d.old m.old) result d.new m.new }
{
    wire::copy_part(d, 0, index, 0, slots::LENGTH);
    follow_orders::begin(m, index, bodies, want);
    replay(d, m, journal, count, want)
}

// Whether the orders can be replayed: the parts are long enough, the table at the mark is one and has its figures, and the count is
// within the room.
fn can_replay(index: &[u8], bodies: &[u8], lent: usize, journal: &[u8]) -> bool
    ensures { result ≡ replayable index.now bodies.now lent journal.now }
{
    if too_short(index, bodies, lent, journal) {
        return false;
    }
    if !table_sound::is_sound(index, bodies, lent) {
        return false;
    }
    let count = wire::read_u16(journal, 0) as usize;
    figure::is_kept(index, bodies) & !(journal::MOST_ORDERS < count)
}

// Decides the rule for any memory to which so many places are lent. Where it is met, d becomes the index of the present table and m
// what that has of the target.
pub fn validate(
    index: &[u8],
    bodies: &[u8],
    lent: usize,
    journal: &[u8],
    want: Option<Want>,
    d: &mut [u8],
    m: &mut [u8],
) -> Option<JournalExtent>
    requires { (length d.old ≡ index_length) × (length m.old ≡ room_for want) }
    ensures { InEachStore lent (λ store. Validation want (memory index.now bodies.now store journal.now) d.old m.old result d.new m.new) }
{
    if !can_replay(index, bodies, lent, journal) {
        return None;
    }
    let count = wire::read_u16(journal, 0) as usize;
    let end = from_mark(index, bodies, journal, count, want, d, m);
    if end == 0 {
        return None;
    }
    Some(JournalExtent { count, end })
}

// The same with nothing looked up.
pub fn extent(
    index: &[u8],
    bodies: &[u8],
    lent: usize,
    journal: &[u8],
    d: &mut [u8],
) -> Option<JournalExtent>
    requires { length d.old ≡ index_length }
    ensures { InEachStore lent (λ store. Validation None (memory index.now bodies.now store journal.now) d.old [] result d.new []) }
{
    let mut m = [0u8; 0];
    validate(index, bodies, lent, journal, None, d, &mut m)
}

pub fn well_formed(index: &[u8], bodies: &[u8], lent: usize, journal: &[u8]) -> bool
    ensures { InEachStore lent (λ store. result ≡ meets_rule (memory index.now bodies.now store journal.now)) }
{
    let mut d = [0u8; slots::LENGTH];
    extent(index, bodies, lent, journal, &mut d).is_some()
}
