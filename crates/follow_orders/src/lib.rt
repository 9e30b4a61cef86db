// What is looked up taken from the table at the mark and followed through the orders of a journal, in a memory of its own.
#![tactic(auto)]

ghost use Rattle.std.specs.Prelude.{Some, ◌≡◌, ◌+◌, ◌<◌, ◌≤◌, length};
ghost use Rattle.slots.specs.Families.{index_length};
ghost use Rattle.table.specs.Memory.{bodies_length};
ghost use Rattle.slots.specs.Slots as slots;
ghost use Rattle.table.specs.Changes.{Able, Follows};
ghost use Rattle.follow.specs.Follow.{origins_length, slot_room, record_room, room_for, begin_slot, begin_record, begin_of, is_for, slot_followed, origins_followed, record_followed, pictures_followed, desktop_followed, followed_of};

use follow::Want;
use index::{Change, Plan};
use places::Family;
use protocol::{NotifyIconId, WindowId};

// The bytes of a slot of the family.
fn slot_room(family: Family) -> usize
    ensures { result ≡ slot_room family }
{
    match family {
        Family::Windows => body::WINDOW,
        Family::Notifications => body::OTHER,
    }
}

// Copies the slot in which the record of the ids is listed, where it is.
#[tactic(auto, using(follow::proofs::Ways::slot_below, follow::proofs::Ways::slot_found, follow::proofs::Ways::begun_nothing))]
fn begin_slot(
    m: &mut [u8],
    index: &[u8],
    bodies: &[u8],
    family: Family,
    window: WindowId,
    notify: NotifyIconId,
)
    requires { (length m.old ≡ record_room family) × (index_length ≤ length index.now) × (bodies_length ≤ length bodies.now) }
    ensures { m.new ≡ begin_slot family (slots.slot_of index.now family window.id notify.id) bodies.now m.old }
{
    let Some(i) = slots::find(index, family, window, notify).found else {
        return;
    };
    let room = slot_room(family);
    wire::copy_part(m, 0, bodies, body::start(i), room);
}

fn begin_record(
    m: &mut [u8],
    index: &[u8],
    bodies: &[u8],
    family: Family,
    window: WindowId,
    notify: NotifyIconId,
)
    requires { (length m.old ≡ record_room family) × (index_length ≤ length index.now) × (bodies_length ≤ length bodies.now) }
    ensures { m.new ≡ begin_record family (slots.slot_of index.now family window.id notify.id) bodies.now m.old }
{
    begin_slot(m, index, bodies, family, window, notify);
    let room = slot_room(family);
    wire::clear(m, room, follow::ORIGINS);
}

// Takes what is wanted from the table at the mark.
#[tactic(auto, unfolding(follow::specs::Follow::begin_of, body::specs::Bodies::slot_of, body::specs::Bodies::slot_start, body::specs::Bodies::slot_length))]
pub fn begin(m: &mut [u8], index: &[u8], bodies: &[u8], want: Option<Want>)
    requires { (length m.old ≡ room_for want) × (index_length ≤ length index.now) × (bodies_length ≤ length bodies.now) }
    ensures { m.new ≡ begin_of want index.now bodies.now m.old }
{
    let Some(want) = want else {
        return;
    };
    match want {
        Want::Window(w) => {
            begin_record(m, index, bodies, Family::Windows, w, NotifyIconId { id: 0 })
        }
        Want::Notification(w, n) => begin_record(m, index, bodies, Family::Notifications, w, n),
        Want::Pictures => wire::clear(m, 0, follow::ORIGINS),
        Want::Desktop => wire::copy_part(m, 0, bodies, table::DESKTOP, body::OTHER),
    }
}

// Whether a change is for the record of the ids.
fn is_for(c: Change, family: Family, window: WindowId, notify: NotifyIconId) -> bool
    ensures { result ≡ is_for family window.id notify.id c }
{
    let f = c.family;
    let ids = (window.id == c.window.id) & (notify.id == c.notify.id);
    match f {
        Family::Windows => match family {
            Family::Windows => ids,
            Family::Notifications => false,
        },
        Family::Notifications => match family {
            Family::Windows => false,
            Family::Notifications => ids,
        },
    }
}

// Notes at index start on where the picture of a change comes: from the order at index q of the journal.
#[tactic(auto, unfolding(follow::specs::Follow::origins_followed))]
fn note(m: &mut [u8], start: usize, q: u16, c: Change)
    requires { (start + origins_length ≤ length m.old) × (c.place < 64) }
    ensures { m.new ≡ origins_followed start q c m.old }
{
    if c.deleted {
        return;
    }
    if c.flags & protocol::ICON == 0 {
        return;
    }
    wire::write_u16(m, start + 2 * c.place, q);
}

#[tactic(auto, unfolding(follow::specs::Follow::slot_followed))]
fn follow_slot(
    m: &mut [u8],
    s: &[u8],
    c: Change,
    family: Family,
    window: WindowId,
    notify: NotifyIconId,
)
    requires { (length m.old ≡ record_room family) × Able s.now c }
    ensures { m.new ≡ slot_followed family window.id notify.id s.now c m.old }
{
    if !is_for(c, family, window, notify) {
        return;
    }
    if c.deleted {
        return;
    }
    let room = slot_room(family);
    table_change::change_slot(&mut m[0..room], s, c);
}

#[tactic(auto, unfolding(follow::specs::Follow::record_followed, table::specs::Changes::Follows))]
fn follow_record(
    m: &mut [u8],
    s: &[u8],
    p: Plan,
    q: u16,
    family: Family,
    window: WindowId,
    notify: NotifyIconId,
)
    requires { (length m.old ≡ record_room family) × Follows s.now p }
    ensures { m.new ≡ record_followed family window.id notify.id q s.now p m.old }
{
    let Plan::ChangeRecord(c) = p else {
        return;
    };
    follow_slot(m, s, c, family, window, notify);
    let room = slot_room(family);
    note(m, room, q, c);
}

#[tactic(auto, unfolding(follow::specs::Follow::pictures_followed, table::specs::Changes::Follows))]
fn follow_pictures(m: &mut [u8], s: &[u8], p: Plan, q: u16)
    requires { (length m.old ≡ origins_length) × Follows s.now p }
    ensures { m.new ≡ pictures_followed q p m.old }
{
    let Plan::ChangeRecord(c) = p else {
        return;
    };
    note(m, 0, q, c);
}

#[tactic(auto, unfolding(follow::specs::Follow::desktop_followed, table::specs::Changes::Follows))]
fn follow_desktop(m: &mut [u8], s: &[u8], p: Plan)
    requires { (length m.old ≡ 916) × Follows s.now p }
    ensures { m.new ≡ desktop_followed s.now p m.old }
{
    let Plan::ChangeDesktop(flags) = p else {
        return;
    };
    table_change::desktop_slot(m, s, flags);
}

// What an order that has been judged, at index q of the journal, makes of what is wanted.
#[tactic(auto, unfolding(follow::specs::Follow::followed_of))]
pub fn follow(m: &mut [u8], s: &[u8], p: Plan, q: u16, want: Option<Want>)
    requires { (length m.old ≡ room_for want) × Follows s.now p }
    ensures { m.new ≡ followed_of want q s.now p m.old }
{
    let Some(want) = want else {
        return;
    };
    match want {
        Want::Window(w) => { follow_record(m, s, p, q, Family::Windows, w, NotifyIconId { id: 0 }) }
        Want::Notification(w, n) => follow_record(m, s, p, q, Family::Notifications, w, n),
        Want::Pictures => follow_pictures(m, s, p, q),
        Want::Desktop => follow_desktop(m, s, p),
    }
}
