// An order judged on the index of a table and carried out in one step: its plan carried out as it is made.
#![tactic(auto)]

ghost use Rattle.std.specs.Prelude.{◌≡◌, true, false, ◌<◌, ◌≤◌, length};
ghost use Rattle.wire.specs.Numbers.{num_at};
ghost use Rattle.single.specs.Single.{delete_flags, BringsCached, BringsIcon};
ghost use Rattle.places.specs.Sizes.{slot_count};
ghost use Rattle.places.specs.Held.{HeldBelow};
ghost use Rattle.places.specs.declared.Family.TheVariants.{Windows};
ghost use Rattle.slots.specs.Families.{index_length};
ghost use Rattle.slots.specs.Sound.{sound_index};
ghost use Rattle.index.specs.declared.Plan.TheVariants.{ChangeRecord, ChangeDesktop};
ghost use Rattle.index.specs.Orders.{is_new, record_of};
ghost use Rattle.index.specs.Plans.{slot_for, plan_in, plan_record, plan_of};
ghost use Rattle.index.specs.Changes.{Fits};
ghost use Rattle.index.specs.Steps.{change_held, step_of, stepped_of, StepOutcome, SlotOutcome};

use index::{Change, Place, RecordOrder, Stepped};
use order::Order;
use places::Family;
use protocol::{NotifyIconId, WindowId};

// The answer of an order that changes no slot.
fn no_slot(number: u8) -> Stepped
    ensures { result ≡ record { number = number; slot = slot_count; held = 0 } }
{
    Stepped {
        number,
        slot: slots::COUNT,
        held: 0,
    }
}

// So many places, from the first on, are pointed at once the change of a record is carried out.
fn held_after(c: Change) -> u8
    requires { Fits c }
    ensures { result ≡ change_held c }
{
    if c.deleted {
        return 0;
    }
    if c.flags & protocol::ICON == 0 {
        return 0;
    }
    (c.place + 1) as u8
}

// Carries out the change of a record, unless the history is full.
fn carry_out(index: &mut [u8], c: Change, full: bool) -> Stepped
    requires { (index_length ≤ length index.old) × Fits c }
    ensures { StepOutcome full index.old (ChangeRecord c) result index.new }
{
    let slot = c.slot;
    if full {
        return Stepped {
            number: 12,
            slot,
            held: 0,
        };
    }
    index_change::change(index, c);
    let held = held_after(c);
    Stepped {
        number: 0,
        slot,
        held,
    }
}

// The same of a record's order that changes no picture: its slot alone.
fn slot(index: &mut [u8], o: RecordOrder, fresh: bool, i: usize, full: bool) -> Stepped
    requires { (index_length ≤ length index.old) × (i < slot_count) × (fresh ≡ is_new o.family o.flags) }
    ensures { SlotOutcome full index.old o i result index.new }
{
    if full {
        return Stepped {
            number: 12,
            slot: i,
            held: 0,
        };
    }
    if o.flags & protocol::DELETED != 0 {
        index_change::remove(index, i);
        return Stepped {
            number: 0,
            slot: i,
            held: 0,
        };
    }
    if fresh {
        index_change::list(index, i, o.window.id, o.notify.id);
        return Stepped {
            number: 0,
            slot: i,
            held: 0,
        };
    }
    Stepped {
        number: 0,
        slot: i,
        held: 0,
    }
}

// Icon, cached icon, overlay icon set to none: without one of these an order changes no picture.
const PICTURES: u32 = 0xC020_0000;

// 11 and 17, or the change of a record in slot i, carried out unless the history is full.
fn at(
    index: &mut [u8],
    s: &[u8],
    o: RecordOrder,
    fresh: bool,
    i: usize,
    held: u8,
    full: bool,
) -> Stepped
    requires { (sound_index index.old ≡ true) × (i < slot_count) × (fresh ≡ is_new o.family o.flags) × HeldBelow index.old held }
    ensures { StepOutcome full index.old (plan_in index.old s.now o i) result index.new }
{
    if o.flags & PICTURES == 0 {
        return slot(index, o, fresh, i, full);
    }
    let c = index_plan::cell(s, o.icon);
    if index_plan::lacks_picture(index, o.flags, c) {
        return no_slot(11);
    }
    let pointer = index_plan::pointer_of(i, o.flags);
    let beside = index_plan::beside(c, pointer);
    if o.flags & protocol::ICON == 0 {
        return carry_out(
            index,
            index_plan::change_at(o, fresh, i, beside, pointer, 0),
            full,
        );
    }
    let Some(p) = places_held::free_place_from(index, beside, pointer, held) else {
        return no_slot(17);
    };
    carry_out(
        index,
        index_plan::change_at(o, fresh, i, beside, pointer, p),
        full,
    )
}

// 9, 10, 11 and 17, or the change of a record, carried out unless the history is full.
fn record(index: &mut [u8], s: &[u8], o: RecordOrder, near: usize, held: u8, full: bool) -> Stepped
    requires { (sound_index index.old ≡ true) × HeldBelow index.old held }
    ensures { StepOutcome full index.old (plan_record index.old s.now o) result index.new }
{
    let family = o.family;
    let fresh = index_plan::is_new(family, o.flags);
    let p = if index_plan::is_near(index, o, fresh, near) {
        Place::Slot(near)
    } else {
        index_plan::searched_slot(index, family, o.window, o.notify, fresh)
    };
    match p {
        Place::Not(n) => no_slot(n),
        Place::Slot(i) => at(index, s, o, fresh, i, held, full),
    }
}

// A desktop order carried out, unless the history is full.
fn desktop(index: &mut [u8], flags: u32, full: bool) -> Stepped
    requires { index_length ≤ length index.old }
    ensures { StepOutcome full index.old (ChangeDesktop flags) result index.new }
{
    if full {
        return no_slot(12);
    }
    if flags & protocol::DESKTOP_NONE != 0 {
        index_change::clear(index);
        return no_slot(0);
    }
    no_slot(0)
}

// The order of a window that has no field, as one for a record.
fn bare_order(s: &[u8], flags: u32) -> RecordOrder
    ensures { result ≡ record_of flags s.now }
{
    let family = Family::Windows;
    let id = wire::read_u32(s, single::ID_AT);
    RecordOrder {
        family,
        window: WindowId { id },
        notify: NotifyIconId { id: 0 },
        flags,
        icon: single::ICON_AT,
    }
}

// 9, or the slot of a record that is listed; slot near is looked at before a search.
fn own_slot(index: &[u8], o: RecordOrder, near: usize) -> Place
    requires { (sound_index index.now ≡ true) × (is_new o.family o.flags ≡ false) }
    ensures { result ≡ slot_for index.now o }
{
    if index_plan::is_near(index, o, false, near) {
        return Place::Slot(near);
    }
    let family = o.family;
    index_plan::searched_slot(index, family, o.window, o.notify, false)
}

// A window's delete, which says nothing else.
fn delete(index: &mut [u8], s: &[u8], near: usize, full: bool) -> Stepped
    requires { sound_index index.old ≡ true }
    ensures { StepOutcome full index.old (plan_record index.old s.now (record_of delete_flags s.now)) result index.new }
{
    let o = bare_order(s, single::DELETE);
    let p = own_slot(index, o, near);
    match p {
        Place::Not(n) => no_slot(n),
        Place::Slot(i) => slot(index, o, false, i, full),
    }
}

// 11, or a cached icon of the record in slot i, which says nothing else, shared unless the history is full.
fn share_at(index: &mut [u8], s: &[u8], o: RecordOrder, i: usize, full: bool) -> Stepped
    requires { (sound_index index.old ≡ true) × (i < slot_count) × (o.family ≡ Windows) × BringsCached o.flags }
    ensures { StepOutcome full index.old (plan_in index.old s.now o i) result index.new }
{
    let c = index_plan::cell(s, o.icon);
    if index_plan::lacks_picture(index, o.flags, c) {
        return no_slot(11);
    }
    if full {
        return Stepped {
            number: 12,
            slot: i,
            held: 0,
        };
    }
    let pointer = index_plan::pointer_of(i, o.flags);
    let held = index_plan::beside(c, pointer);
    places_change::share(index, pointer, held);
    Stepped {
        number: 0,
        slot: i,
        held: 0,
    }
}

// A window's cached icon, which says nothing else.
fn cached(index: &mut [u8], s: &[u8], near: usize, full: bool) -> Stepped
    requires { (sound_index index.old ≡ true) × BringsCached (num_at 4 s.now 3) }
    ensures { StepOutcome full index.old (plan_record index.old s.now (record_of (num_at 4 s.now 3) s.now)) result index.new }
{
    let flags = wire::read_u32(s, single::FLAGS_AT);
    let o = bare_order(s, flags);
    let p = own_slot(index, o, near);
    match p {
        Place::Not(n) => no_slot(n),
        Place::Slot(i) => share_at(index, s, o, i, full),
    }
}

// 17, or an icon of the record in slot i, which says nothing else, at the first free place unless the history is full.
fn take_at(index: &mut [u8], s: &[u8], o: RecordOrder, i: usize, held: u8, full: bool) -> Stepped
    requires { (sound_index index.old ≡ true) × (i < slot_count) × (o.family ≡ Windows) × BringsIcon o.flags × HeldBelow index.old held }
    ensures { StepOutcome full index.old (plan_in index.old s.now o i) result index.new }
{
    let c = index_plan::cell(s, o.icon);
    let pointer = index_plan::pointer_of(i, o.flags);
    let beside = index_plan::beside(c, pointer);
    let Some(p) = places_held::free_place_from(index, beside, pointer, held) else {
        return no_slot(17);
    };
    if full {
        return Stepped {
            number: 12,
            slot: i,
            held: 0,
        };
    }
    places_change::take_at(index, beside, pointer, p);
    Stepped {
        number: 0,
        slot: i,
        held: (p + 1) as u8,
    }
}

// A window's icon, which says nothing else.
fn icon(index: &mut [u8], s: &[u8], near: usize, held: u8, full: bool) -> Stepped
    requires { (sound_index index.old ≡ true) × BringsIcon (num_at 4 s.now 3) × HeldBelow index.old held }
    ensures { StepOutcome full index.old (plan_record index.old s.now (record_of (num_at 4 s.now 3) s.now)) result index.new }
{
    let flags = wire::read_u32(s, single::FLAGS_AT);
    let o = bare_order(s, flags);
    let p = own_slot(index, o, near);
    match p {
        Place::Not(n) => no_slot(n),
        Place::Slot(i) => take_at(index, s, o, i, held, full),
    }
}

// Judges any order and carries it out.
#[tactic(auto, unfolding(index::specs::Plans::plan_of), using(slots::proofs::Ways::sound_long))]
fn step_judged(index: &mut [u8], s: &[u8], near: usize, held: u8, full: bool) -> Stepped
    requires { (sound_index index.old ≡ true) × HeldBelow index.old held }
    ensures { StepOutcome full index.old (plan_of index.old s.now) result index.new }
{
    let order = match order_judge::judge(s) {
        Ok(order) => order,
        Err(fault) => {
            return no_slot(u8::from(fault.refusal));
        }
    };
    let o = match order {
        Order::Window(o) => index_plan::of_window(o),
        Order::Notification(o) => index_plan::of_notification(o),
        Order::Desktop(o) => {
            return desktop(index, o.flags, full);
        }
    };
    record(index, s, o, near, held, full)
}

// Judges an order on the index and, unless it is refused or the history is full (12, the last of the numbers), carries it
// out. Slot near is looked at for its record before a search, and the first held places are known to be pointed at. No plan is made
// of it: that takes as long again; and an order that says one thing is judged at a glance.
pub fn step(index: &mut [u8], s: &[u8], near: usize, held: u8, full: bool) -> Stepped
    requires { (sound_index index.old ≡ true) × HeldBelow index.old held }
    ensures value { result ≡ step_of full (plan_of index.old s.now) }
    ensures index_after { index.new ≡ stepped_of full index.old (plan_of index.old s.now) }
    ensures held_below { HeldBelow index.new result.held }
{
    if single::is_delete(s) {
        return delete(index, s, near, full);
    }
    if single::is_cached(s) {
        return cached(index, s, near, full);
    }
    if single::is_icon(s) {
        return icon(index, s, near, held, full);
    }
    if single::is_list(s) {
        return desktop(index, single::LIST, full);
    }
    step_judged(index, s, near, held, full)
}
