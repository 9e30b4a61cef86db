// A windowing order judged whole on its bytes, after `order`: its length and type, its flags, its fields by the rows of its kind, its
// icon.
#![tactic(auto)]

ghost use Rattle.std.specs.Prelude.{◌≡◌, ◌≤◌, length, Ok, Err};
ghost use Rattle.rows.specs.Rows.{walk_of, Within};
ghost use Rattle.order.specs.Judge.{refuse, order_of, kind_rows, judge_end, judge_rows, judge_flags, judge_of};

use order::{DesktopOrder, Fault, NotificationOrder, Order, WindowOrder};
use protocol::{NotifyIconId, Refusal, WindowId};
use rows::Fit;

fn fault(refusal: Refusal, at: usize) -> Fault
    requires { at ≤ 65535 }
    ensures { Err result ≡ refuse refusal at }
{
    let at = at as u32;
    Fault { refusal, at }
}

// The order of the kind that its flags name, with its ids.
#[tactic(auto, using(order::proofs::Verdicts::order_window, order::proofs::Verdicts::order_notification, order::proofs::Verdicts::order_desktop))]
fn of_kind(s: &[u8], flags: u32, icon: usize) -> Order
    requires { icon ≤ 65535 }
    ensures { Ok result ≡ order_of flags s.now icon }
{
    let icon = icon as u32;
    let window = WindowId {
        id: wire::read_u32(s, 7),
    };
    if flags & protocol::WINDOW != 0 {
        return Order::Window(WindowOrder {
            window,
            flags,
            icon,
        });
    }
    let notify = NotifyIconId {
        id: wire::read_u32(s, 11),
    };
    if flags & protocol::NOTIFICATION != 0 {
        return Order::Notification(NotificationOrder {
            window,
            notify,
            flags,
            icon,
        });
    }
    Order::Desktop(DesktopOrder { flags })
}

// 7 and 8 once the fields before the icon have ended at icon.
#[tactic(auto, using(order::proofs::Verdicts::end_good))]
fn judge_end(s: &[u8], flags: u32, icon: usize, bad: usize) -> Result<Order, Fault>
    requires s_len_bound { length s.now ≤ 65535 }
    requires icon_in_bounds { (icon ≤ length s.now) × (bad ≤ length s.now) }
    ensures { result ≡ judge_end flags s.now icon bad }
{
    let f = order_icon::picture(s, flags, icon, bad);
    match f {
        Fit::Short(at) => Err(fault(Refusal::NotFilled, at)),
        Fit::Ends(end, first) => {
            if end != s.len() {
                return Err(fault(Refusal::NotFilled, end));
            }
            if first != 0 {
                return Err(fault(Refusal::OutsideSet, first));
            }
            Ok(of_kind(s, flags, icon))
        }
    }
}

// Where the fields before the icon end, by the rows of the order's kind. A window or desktop order whose fields end within
// it, each in its set, takes no walk.
#[tactic(auto, using(order::proofs::Verdicts::fit_ended, order::proofs::Verdicts::fit_window, order::proofs::Verdicts::fit_desktop))]
fn fields_end(s: &[u8], flags: u32) -> Fit
    requires { (7 ≤ length s.now) × (length s.now ≤ 65535) }
    ensures { (result ≡ walk_of (kind_rows flags) flags s.now 7 0) × Within result (length s.now) }
{
    if flags & protocol::WINDOW != 0 {
        let p = row_ends::window(s, flags);
        if p <= s.len() {
            return Fit::Ends(p, 0);
        }
        return rows::walk(s, flags, 0, rows::WINDOW_END);
    }
    if flags & protocol::NOTIFICATION != 0 {
        return rows::walk(s, flags, rows::WINDOW_END, rows::NOTIFICATION_END);
    }
    let p = row_ends::desktop(s, flags);
    if p <= s.len() {
        return Fit::Ends(p, 0);
    }
    rows::walk(s, flags, rows::NOTIFICATION_END, rows::DESKTOP_END)
}

// 7 and 8, by the rows of the order's kind. One call of judge_end, so that the compiler writes it out here.
#[tactic(auto, using(order::proofs::Verdicts::rows_end))]
fn judge_kind(s: &[u8], flags: u32) -> Result<Order, Fault>
    requires { (7 ≤ length s.now) × (length s.now ≤ 65535) }
    ensures { result ≡ judge_rows (kind_rows flags) flags s.now }
{
    let f = fields_end(s, flags);
    match f {
        Fit::Short(at) => Err(fault(Refusal::NotFilled, at)),
        Fit::Ends(icon, bad) => judge_end(s, flags, icon, bad),
    }
}

// 4, 5 and 6, then what the fields say.
#[tactic(auto, using(order::proofs::Verdicts::other_byte, order::proofs::Verdicts::not_one, order::proofs::Verdicts::not_closed, order::proofs::Verdicts::clashing, order::proofs::Verdicts::flags_good))]
fn judge_flags(s: &[u8], flags: u32) -> Result<Order, Fault>
    requires { (7 ≤ length s.now) × (length s.now ≤ 65535) }
    ensures { result ≡ judge_flags flags s.now }
{
    if wire::read_u8(s, 0) != 0x2E {
        return Err(fault(Refusal::UnknownType, 0));
    }
    if !order_flags::one_type(flags) {
        return Err(fault(Refusal::UnknownType, 3));
    }
    if !order_flags::in_closed(flags) {
        return Err(fault(Refusal::UnknownFlag, 3));
    }
    if order_flags::clashes(flags) {
        return Err(fault(Refusal::FlagsClash, 3));
    }
    judge_kind(s, flags)
}

// The first of the numbers 2 to 8 that applies to an order, or the order.
#[tactic(auto, using(order::proofs::Verdicts::too_short_lem, order::proofs::Verdicts::other_length, order::proofs::Verdicts::framed))]
pub fn judge(s: &[u8]) -> Result<Order, Fault>
    ensures { result ≡ judge_of s.now }
{
    if s.len() < 7 {
        return Err(fault(Refusal::TooShort, 0));
    }
    if wire::read_u16(s, 1) as usize != s.len() {
        return Err(fault(Refusal::LengthDiffers, 1));
    }
    let flags = wire::read_u32(s, 3);
    judge_flags(s, flags)
}
