// Judging an order on the index of a table: the first of its numbers that applies, or the plan of what it changes. No byte is changed.
#![tactic(auto)]

ghost use Rattle.std.specs.Prelude.{◌≡◌, true, not, ◌<◌, ◌≤◌, length};
ghost use Rattle.wire.specs.Tests.{both};
ghost use Rattle.places.specs.Sizes.{holder_count, slot_count};
ghost use Rattle.places.specs.declared.Family.TheVariants.{Windows, Notifications};
ghost use Rattle.slots.specs.Families.{index_length, is_within};
ghost use Rattle.slots.specs.Slots.{is_at};
ghost use Rattle.slots.specs.Sound.{sound_index};
ghost use Rattle.index.specs.Orders.{is_new, cell_at, which_of};
ghost use Rattle.index.specs.Plans.{beside_of, pointer_for, lacks_picture, place_for, change_with, plan_in, plan_record, plan_of, plan_number, plan_slot};

use index::{Change, Place, Plan, RecordOrder};
use order::{NotificationOrder, Order, WindowOrder};
use places::Family;
use protocol::{NotifyIconId, WindowId};

// The cell that an icon or cached icon at index icon names.
pub fn cell(s: &[u8], icon: u32) -> usize
    ensures { (result ≡ cell_at s.now icon) × (result < 67073) }
{
    let at = icon as usize;
    if s.len() <= at {
        return 0;
    }
    let entry = wire::read_u16(s, at) as usize;
    let cache = wire::read_u8(s, at + 2) as usize;
    6 * cache + entry
}

// Which of a record's icons is set.
fn which(flags: u32) -> usize
    ensures { (result ≡ which_of flags) × (result < 3) }
{
    if flags & protocol::BIG_ICON != 0 {
        return 1;
    }
    if flags & protocol::ANY_OVERLAY != 0 {
        return 2;
    }
    0
}

// The holder that takes a place with a pointer: the cell, or the pointer itself where that is none (cache id FF).
pub fn beside(cell: usize, pointer: usize) -> usize
    requires { pointer < holder_count }
    ensures { (result ≡ beside_of cell pointer) × (result < holder_count) }
{
    if places::CELLS <= cell { pointer } else { cell }
}

// 11: a cached icon whose cell points at nothing.
pub fn lacks_picture(index: &[u8], flags: u32, cell: usize) -> bool
    requires { index_length ≤ length index.now }
    ensures { result ≡ lacks_picture index.now flags cell }
{
    if flags & protocol::CACHED_ICON == 0 {
        return false;
    }
    if places::CELLS <= cell {
        return true;
    }
    index[cell + 1] == 0
}

// A new record is asked for.
pub fn is_new(family: Family, flags: u32) -> bool
    ensures { result ≡ is_new family flags }
{
    match family {
        Family::Windows => (flags & protocol::NEW != 0) & !(flags & protocol::ANY_ICON != 0),
        Family::Notifications => flags & protocol::NEW != 0,
    }
}

// 9, 10, or the slot that a search finds for the record of the ids: its own, or where it is fresh, the first free one.
pub fn searched_slot(
    index: &[u8],
    family: Family,
    window: WindowId,
    notify: NotifyIconId,
    fresh: bool,
) -> Place
    requires { index_length ≤ length index.now }
    ensures { result ≡ place_for index.now family window.id notify.id fresh }
{
    match slots::find(index, family, window, notify).found {
        Some(i) => {
            if fresh {
                return Place::Not(9);
            }
            Place::Slot(i)
        }
        None => {
            if !fresh {
                return Place::Not(9);
            }
            let Some(i) = slots::free(index, family) else {
                return Place::Not(10);
            };
            Place::Slot(i)
        }
    }
}

// Slot near has the record that an order changes.
pub fn is_near(index: &[u8], o: RecordOrder, fresh: bool, near: usize) -> bool
    requires { index_length ≤ length index.now }
    ensures { result ≡ both (not fresh) (both (is_within o.family near) (is_at index.now o.window.id o.notify.id near)) }
{
    if fresh {
        return false;
    }
    let family = o.family;
    slots::has_record(index, family, o.window, o.notify, near)
}

// The pointer of the icon of slot i that an order sets.
pub fn pointer_of(i: usize, flags: u32) -> usize
    requires { i < slot_count }
    ensures { (result ≡ pointer_for i flags) × (result < holder_count) }
{
    let w = which(flags);
    places::CELLS + places::ICONS_EACH * i + w
}

// The change of a record in slot i, with a cell, a pointer and a place for its icon.
pub fn change_at(
    o: RecordOrder,
    fresh: bool,
    i: usize,
    cell: usize,
    pointer: usize,
    place: usize,
) -> Change
    requires { fresh ≡ is_new o.family o.flags }
    ensures { result ≡ change_with o i cell pointer place }
{
    let family = o.family;
    let flags = o.flags;
    let deleted = flags & protocol::DELETED != 0;
    let window = o.window;
    let notify = o.notify;
    let icon = o.icon;
    Change {
        family,
        slot: i,
        fresh,
        deleted,
        window,
        notify,
        flags,
        icon,
        cell,
        pointer,
        place,
    }
}

// 11, 17, or the change of a record in slot i.
fn plan_at(index: &[u8], s: &[u8], o: RecordOrder, fresh: bool, i: usize) -> Plan
    requires { (sound_index index.now ≡ true) × (i < slot_count) × (fresh ≡ is_new o.family o.flags) }
    ensures { result ≡ plan_in index.now s.now o i }
{
    let c = cell(s, o.icon);
    if lacks_picture(index, o.flags, c) {
        return Plan::Refuse(11);
    }
    let pointer = pointer_of(i, o.flags);
    let held = beside(c, pointer);
    if o.flags & protocol::ICON == 0 {
        return Plan::ChangeRecord(change_at(o, fresh, i, held, pointer, 0));
    }
    let Some(p) = places_free::free_place(index, held, pointer) else {
        return Plan::Refuse(17);
    };
    Plan::ChangeRecord(change_at(o, fresh, i, held, pointer, p))
}

// 9, 10, 11 and 17, or the change of a record.
fn plan_record(index: &[u8], s: &[u8], o: RecordOrder, near: usize) -> Plan
    requires { sound_index index.now ≡ true }
    ensures { result ≡ plan_record index.now s.now o }
{
    let family = o.family;
    let fresh = is_new(family, o.flags);
    let p = if is_near(index, o, fresh, near) {
        Place::Slot(near)
    } else {
        searched_slot(index, family, o.window, o.notify, fresh)
    };
    match p {
        Place::Not(n) => Plan::Refuse(n),
        Place::Slot(i) => plan_at(index, s, o, fresh, i),
    }
}

// The order of a record: a window's.
pub fn of_window(o: WindowOrder) -> RecordOrder
    ensures { result ≡ record { family = Windows; window = o.window; notify = record { id = 0 }; flags = o.flags; icon = o.icon } }
{
    let family = Family::Windows;
    let window = o.window;
    let notify = NotifyIconId { id: 0 };
    let flags = o.flags;
    let icon = o.icon;
    RecordOrder {
        family,
        window,
        notify,
        flags,
        icon,
    }
}

// And a notification icon's.
pub fn of_notification(o: NotificationOrder) -> RecordOrder
    ensures { result ≡ record { family = Notifications; window = o.window; notify = o.notify; flags = o.flags; icon = o.icon } }
{
    let family = Family::Notifications;
    let window = o.window;
    let notify = o.notify;
    let flags = o.flags;
    let icon = o.icon;
    RecordOrder {
        family,
        window,
        notify,
        flags,
        icon,
    }
}

// The first of the numbers 2 to 11 and 17 that applies to an order, or what it changes. Slot near is looked at for its record before
// a search.
#[tactic(auto, unfolding(index::specs::Plans::plan_of))]
pub fn judge_near(index: &[u8], s: &[u8], near: usize) -> Plan
    requires { sound_index index.now ≡ true }
    ensures { result ≡ plan_of index.now s.now }
{
    let order = match order_judge::judge(s) {
        Ok(order) => order,
        Err(fault) => {
            return Plan::Refuse(u8::from(fault.refusal));
        }
    };
    let o = match order {
        Order::Window(o) => of_window(o),
        Order::Notification(o) => of_notification(o),
        Order::Desktop(o) => {
            return Plan::ChangeDesktop(o.flags);
        }
    };
    plan_record(index, s, o, near)
}

// The same with no slot known.
pub fn judge(index: &[u8], s: &[u8]) -> Plan
    requires { sound_index index.now ≡ true }
    ensures { result ≡ plan_of index.now s.now }
{
    judge_near(index, s, slots::COUNT)
}

// The number of a plan.
pub fn number(p: Plan) -> u8
    ensures { result ≡ plan_number p }
{
    match p {
        Plan::ChangeRecord(_) => 0,
        Plan::ChangeDesktop(_) => 0,
        Plan::Refuse(n) => n,
    }
}

// The slot of the record that a plan changes, past the last where it changes none.
pub fn slot(p: Plan) -> usize
    ensures { result ≡ plan_slot p }
{
    match p {
        Plan::ChangeRecord(c) => c.slot,
        Plan::ChangeDesktop(_) => slots::COUNT,
        Plan::Refuse(_) => slots::COUNT,
    }
}
