// The state calls and lookups for C: each reply as one number. The store of pictures is lent in the five parts a to e.
ghost use Rattle.std.specs.Prelude.{[], ◌≡◌};
ghost use Rattle.store.specs.Store.{places_in, five};
ghost use Rattle.journal.specs.View.{memory};
ghost use Rattle.session.specs.Calls.{reset, deliver, checkpoint, undo};
ghost use Rattle.session.specs.Outcome.{plain, lookup};
ghost use Rattle.session.specs.Holders.{holder_from};
ghost use Rattle.session.specs.declared.LookupTarget.TheVariants.{Window, Notification, Cell, Desktop, Windows, Notifications, Shares};
ghost use Rattle.rail.specs.States.{size_of, Exported};

use lookups::look;
use protocol::{NotifyIconId, WindowId};
use replies::holders::holder_of;
use replies::packed;
use session::LookupTarget;

// The bytes of a part of the state memory (of the store, those of a place), of a lookup with its pictures, of a picture, of the
// chunk memory, of the longest session record, of a list, or of a figure.
#[unsafe(no_mangle)]
pub extern "C" fn rail_size(what: u32) -> u32
    ensures { result ≡ size_of what }
{
    match what {
        0 => session::INDEX as u32,
        1 => session::BODIES as u32,
        2 => store::PLACE as u32,
        3 => session::JOURNAL as u32,
        4 => lookups::WINDOW as u32,
        5 => (layout::NOTIFICATION + layout::PICTURE) as u32,
        6 => lookups::DESKTOP as u32,
        7 => layout::PICTURE as u32,
        8 => chunk::MEMORY as u32,
        9 => record::MOST as u32,
        10 => ids::LENGTH as u32,
        11 => figure::BYTES as u32,
        _ => 0,
    }
}

#[unsafe(no_mangle)]
pub extern "C" fn rail_reset(
    index: &mut [u8],
    bodies: &mut [u8],
    a: &[u8],
    b: &[u8],
    c: &[u8],
    d: &[u8],
    e: &[u8],
    journal: &mut [u8],
) -> u32
    ensures { Exported (plain (reset (places_in (five a.now b.now c.now d.now e.now)))) (memory index.old bodies.old (five a.now b.now c.now d.now e.now) journal.old) result [] (memory index.new bodies.new (five a.now b.now c.now d.now e.now) journal.new) }
{
    let lent = store::places(a, b, c, d, e);
    let r = state_calls::reset(index, bodies, lent, journal);
    packed(r)
}

#[unsafe(no_mangle)]
pub extern "C" fn rail_deliver(
    index: &[u8],
    bodies: &[u8],
    a: &[u8],
    b: &[u8],
    c: &[u8],
    d: &[u8],
    e: &[u8],
    journal: &mut [u8],
    order: &[u8],
) -> u32
    ensures { Exported (plain (deliver order.now)) (memory index.now bodies.now (five a.now b.now c.now d.now e.now) journal.old) result [] (memory index.now bodies.now (five a.now b.now c.now d.now e.now) journal.new) }
{
    let lent = store::places(a, b, c, d, e);
    let r = state_calls::deliver(index, bodies, lent, journal, order);
    packed(r)
}

#[unsafe(no_mangle)]
pub extern "C" fn rail_checkpoint(
    index: &mut [u8],
    bodies: &mut [u8],
    a: &mut [u8],
    b: &mut [u8],
    c: &mut [u8],
    d: &mut [u8],
    e: &mut [u8],
    journal: &mut [u8],
) -> u32
    ensures { Exported (plain checkpoint) (memory index.old bodies.old (five a.old b.old c.old d.old e.old) journal.old) result [] (memory index.new bodies.new (five a.new b.new c.new d.new e.new) journal.new) }
{
    let r = state_calls::checkpoint(index, bodies, a, b, c, d, e, journal);
    packed(r)
}

#[unsafe(no_mangle)]
pub extern "C" fn rail_undo(
    index: &[u8],
    bodies: &[u8],
    a: &[u8],
    b: &[u8],
    c: &[u8],
    d: &[u8],
    e: &[u8],
    journal: &mut [u8],
    k: u64,
) -> u32
    ensures { Exported (plain (undo k)) (memory index.now bodies.now (five a.now b.now c.now d.now e.now) journal.old) result [] (memory index.now bodies.now (five a.now b.now c.now d.now e.now) journal.new) }
{
    let lent = store::places(a, b, c, d, e);
    let r = state_calls::undo(index, bodies, lent, journal, k);
    packed(r)
}

#[unsafe(no_mangle)]
pub extern "C" fn rail_window(
    index: &[u8],
    bodies: &[u8],
    a: &[u8],
    b: &[u8],
    c: &[u8],
    d: &[u8],
    e: &[u8],
    journal: &[u8],
    id: u32,
    out: &mut [u8],
) -> u32
    ensures { Exported (lookup (Window (record { id = id })) out.old) (memory index.now bodies.now (five a.now b.now c.now d.now e.now) journal.now) result out.new (memory index.now bodies.now (five a.now b.now c.now d.now e.now) journal.now) }
{
    let target = LookupTarget::Window(WindowId { id });
    let r = look(index, bodies, a, b, c, d, e, journal, target, out);
    packed(r)
}

#[unsafe(no_mangle)]
pub extern "C" fn rail_notification(
    index: &[u8],
    bodies: &[u8],
    a: &[u8],
    b: &[u8],
    c: &[u8],
    d: &[u8],
    e: &[u8],
    journal: &[u8],
    id: u32,
    icon: u32,
    out: &mut [u8],
) -> u32
    ensures { Exported (lookup (Notification (record { id = id }) (record { id = icon })) out.old) (memory index.now bodies.now (five a.now b.now c.now d.now e.now) journal.now) result out.new (memory index.now bodies.now (five a.now b.now c.now d.now e.now) journal.now) }
{
    let target = LookupTarget::Notification(WindowId { id }, NotifyIconId { id: icon });
    let r = look(index, bodies, a, b, c, d, e, journal, target, out);
    packed(r)
}

#[unsafe(no_mangle)]
pub extern "C" fn rail_cell(
    index: &[u8],
    bodies: &[u8],
    a: &[u8],
    b: &[u8],
    c: &[u8],
    d: &[u8],
    e: &[u8],
    journal: &[u8],
    cache: u8,
    entry: u16,
    out: &mut [u8],
) -> u32
    ensures { Exported (lookup (Cell cache entry) out.old) (memory index.now bodies.now (five a.now b.now c.now d.now e.now) journal.now) result out.new (memory index.now bodies.now (five a.now b.now c.now d.now e.now) journal.now) }
{
    let target = LookupTarget::Cell(cache, entry);
    let r = look(index, bodies, a, b, c, d, e, journal, target, out);
    packed(r)
}

#[unsafe(no_mangle)]
pub extern "C" fn rail_desktop(
    index: &[u8],
    bodies: &[u8],
    a: &[u8],
    b: &[u8],
    c: &[u8],
    d: &[u8],
    e: &[u8],
    journal: &[u8],
    out: &mut [u8],
) -> u32
    ensures { Exported (lookup Desktop out.old) (memory index.now bodies.now (five a.now b.now c.now d.now e.now) journal.now) result out.new (memory index.now bodies.now (five a.now b.now c.now d.now e.now) journal.now) }
{
    let target = LookupTarget::Desktop;
    let r = look(index, bodies, a, b, c, d, e, journal, target, out);
    packed(r)
}

#[unsafe(no_mangle)]
pub extern "C" fn rail_windows(
    index: &[u8],
    bodies: &[u8],
    a: &[u8],
    b: &[u8],
    c: &[u8],
    d: &[u8],
    e: &[u8],
    journal: &[u8],
    out: &mut [u8],
) -> u32
    ensures { Exported (lookup Windows out.old) (memory index.now bodies.now (five a.now b.now c.now d.now e.now) journal.now) result out.new (memory index.now bodies.now (five a.now b.now c.now d.now e.now) journal.now) }
{
    let target = LookupTarget::Windows;
    let r = look(index, bodies, a, b, c, d, e, journal, target, out);
    packed(r)
}

#[unsafe(no_mangle)]
pub extern "C" fn rail_notifications(
    index: &[u8],
    bodies: &[u8],
    a: &[u8],
    b: &[u8],
    c: &[u8],
    d: &[u8],
    e: &[u8],
    journal: &[u8],
    out: &mut [u8],
) -> u32
    ensures { Exported (lookup Notifications out.old) (memory index.now bodies.now (five a.now b.now c.now d.now e.now) journal.now) result out.new (memory index.now bodies.now (five a.now b.now c.now d.now e.now) journal.now) }
{
    let target = LookupTarget::Notifications;
    let r = look(index, bodies, a, b, c, d, e, journal, target, out);
    packed(r)
}

// Whether two holders share a place, as one byte. Each by three numbers: 1 a window's small icon, 2 its big one, 3 a notification icon,
// by its ids, 4 a window's overlay icon; any other a cell, by cache id and entry.
#[unsafe(no_mangle)]
pub extern "C" fn rail_shared(
    index: &[u8],
    bodies: &[u8],
    a: &[u8],
    b: &[u8],
    c: &[u8],
    d: &[u8],
    e: &[u8],
    journal: &[u8],
    kind1: u8,
    first1: u32,
    second1: u32,
    kind2: u8,
    first2: u32,
    second2: u32,
    out: &mut [u8],
) -> u32
    ensures { Exported (lookup (Shares (holder_from kind1 first1 second1) (holder_from kind2 first2 second2)) out.old) (memory index.now bodies.now (five a.now b.now c.now d.now e.now) journal.now) result out.new (memory index.now bodies.now (five a.now b.now c.now d.now e.now) journal.now) }
{
    let g = holder_of(kind1, first1, second1);
    let k = holder_of(kind2, first2, second2);
    let target = LookupTarget::Shares(g, k);
    let r = look(index, bodies, a, b, c, d, e, journal, target, out);
    packed(r)
}
