// The flags of an order: its type bits, the closed list of its kind, and the flags that clash.
#![tactic(auto)]

ghost use Rattle.std.specs.Prelude.{◌≡◌};
ghost use Rattle.order.specs.Flags.{one_type, closed, clash};

// Exactly one of the three type bits is set.
pub fn one_type(flags: u32) -> bool
    ensures { result ≡ one_type flags }
{
    u32::count_ones(flags & protocol::TYPES) == 1
}

// No bit stands outside the closed list of the order's kind.
pub fn in_closed(flags: u32) -> bool
    ensures { result ≡ closed flags }
{
    ((flags & protocol::WINDOW != 0) & (flags & protocol::WINDOW_FLAGS == flags))
        | ((flags & protocol::NOTIFICATION != 0) & (flags & protocol::NOTIFICATION_FLAGS == flags))
        | ((flags & protocol::DESKTOP != 0) & (flags & protocol::DESKTOP_FLAGS == flags))
}

// Deleted, big or overlay icon, desktop: without one of these, an icon or a cached icon no flags clash.
const CLASHING: u32 = 0x2410_2000;

// In branches, so that most orders take the first test alone, and each kind of the others only its own tests.
pub fn clashes(flags: u32) -> bool
    ensures { result ≡ clash flags }
{
    if (flags & CLASHING == 0) & (flags & protocol::ANY_ICON == 0) {
        return false;
    }
    if flags & protocol::DELETED != 0 {
        return flags & 0xD8FF_FFFF != 0;
    }
    if flags & protocol::ANY_ICON != 0 {
        if (flags & protocol::ICON != 0) & (flags & protocol::CACHED_ICON != 0) {
            return true;
        }
        if (flags & protocol::WINDOW != 0) & (flags & 0x28EF_DFFF != 0) {
            return true;
        }
        if (flags & protocol::OVERLAY_ICON != 0) & (flags & protocol::BIG_ICON != 0) {
            return true;
        }
    } else {
        if (flags & protocol::BIG_ICON != 0) | (flags & protocol::OVERLAY_ICON != 0) {
            return true;
        }
    }
    if flags & protocol::DESKTOP == 0 {
        return false;
    }
    ((flags & protocol::DESKTOP_NONE != 0) & (flags & 0xF8FF_FFFE != 0))
        | ((flags & protocol::DESKTOP_ARC_COMPLETED != 0)
            & (flags & protocol::DESKTOP_ARC_BEGAN != 0))
}
