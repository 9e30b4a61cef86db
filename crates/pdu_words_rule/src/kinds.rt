// The greatest number of each word of a message, by its kind.
#![tactic(auto, unfolding(pdu_words::specs::FromWords::stand, pdu::specs::Layout::known))]

ghost use Rattle.std.specs.Prelude.{◌≡◌, get_or};
ghost use Rattle.pdu_words.specs.FromWords.{setting_most, within};

use crate::Words;
use crate::limits::is_within;
use pdu::{
    Activate, ApplicationIdResponse, ClientInformation, Execute, ExecuteResult, GetApplicationId,
    Handshake, HandshakeEx, Message, MinMaxInfo, MoveSize, NotifyEvent, SystemCommand, SystemMenu,
    SystemParameters, WindowMove,
};

// The greatest numbers of 8, 16 and 32 bits.
const U8: u32 = 0xFF;

const U16: u32 = 0xFFFF;

const U32: u32 = 0xFFFF_FFFF;

impl Words for Execute {
    #[inline(always)]
    fn stand(w: &[u32; 12]) -> bool {
        is_within(w, [U16, U32, U32, U32, U32, U32, U32, 0, 0, 0, 0])
    }
}

impl Words for Activate {
    #[inline(always)]
    fn stand(w: &[u32; 12]) -> bool {
        is_within(w, [U32, U8, 0, 0, 0, 0, 0, 0, 0, 0, 0])
    }
}

impl Words for SystemCommand {
    #[inline(always)]
    fn stand(w: &[u32; 12]) -> bool {
        is_within(w, [U32, U16, 0, 0, 0, 0, 0, 0, 0, 0, 0])
    }
}

impl Words for Handshake {
    #[inline(always)]
    fn stand(w: &[u32; 12]) -> bool {
        is_within(w, [U32, 0, 0, 0, 0, 0, 0, 0, 0, 0, 0])
    }
}

impl Words for NotifyEvent {
    #[inline(always)]
    fn stand(w: &[u32; 12]) -> bool {
        is_within(w, [U32, U32, U32, 0, 0, 0, 0, 0, 0, 0, 0])
    }
}

impl Words for WindowMove {
    #[inline(always)]
    fn stand(w: &[u32; 12]) -> bool {
        is_within(w, [U32, U32, U32, U32, U32, 0, 0, 0, 0, 0, 0])
            & signs::is_short(w[2])
            & signs::is_short(w[3])
            & signs::is_short(w[4])
            & signs::is_short(w[5])
    }
}

impl Words for MoveSize {
    #[inline(always)]
    fn stand(w: &[u32; 12]) -> bool {
        is_within(w, [U32, 1, U16, U32, U32, 0, 0, 0, 0, 0, 0])
            & signs::is_short(w[4])
            & signs::is_short(w[5])
    }
}

impl Words for MinMaxInfo {
    #[inline(always)]
    fn stand(w: &[u32; 12]) -> bool {
        is_within(w, [U32, U16, U16, U32, U32, U16, U16, U16, U16, 0, 0])
            & signs::is_short(w[4])
            & signs::is_short(w[5])
    }
}

impl Words for ClientInformation {
    #[inline(always)]
    fn stand(w: &[u32; 12]) -> bool {
        is_within(w, [U32, 0, 0, 0, 0, 0, 0, 0, 0, 0, 0])
    }
}

impl Words for SystemMenu {
    #[inline(always)]
    fn stand(w: &[u32; 12]) -> bool {
        is_within(w, [U32, U32, U32, 0, 0, 0, 0, 0, 0, 0, 0])
            & signs::is_short(w[2])
            & signs::is_short(w[3])
    }
}

impl Words for GetApplicationId {
    #[inline(always)]
    fn stand(w: &[u32; 12]) -> bool {
        is_within(w, [U32, 0, 0, 0, 0, 0, 0, 0, 0, 0, 0])
    }
}

impl Words for ApplicationIdResponse {
    #[inline(always)]
    fn stand(w: &[u32; 12]) -> bool {
        is_within(w, [U32, U32, U32, 0, 0, 0, 0, 0, 0, 0, 0])
    }
}

impl Words for HandshakeEx {
    #[inline(always)]
    fn stand(w: &[u32; 12]) -> bool {
        is_within(w, [U32, U32, 0, 0, 0, 0, 0, 0, 0, 0, 0])
    }
}

impl Words for ExecuteResult {
    #[inline(always)]
    fn stand(w: &[u32; 12]) -> bool {
        is_within(w, [U16, U16, U32, U32, U32, 0, 0, 0, 0, 0, 0])
    }
}

// By the setting in the second word.
impl Words for SystemParameters {
    #[inline(always)]
    fn stand(w: &[u32; 12]) -> bool {
        let n = w[1];
        if pdu_rule::is_byte_setting(n) {
            return is_within(w, [n, U8, 0, 0, 0, 0, 0, 0, 0, 0, 0]);
        }
        if pdu_rule::is_area_setting(n) {
            return is_within(w, [n, U16, U16, U16, U16, 0, 0, 0, 0, 0, 0]);
        }
        if n == 0x43 {
            return is_within(w, [n, U32, U32, U32, 0, 0, 0, 0, 0, 0, 0]);
        }
        false
    }
}
