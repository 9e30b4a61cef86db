// The message of each kind, of words that are within its limits.
#![tactic(auto, unfolding(pdu_words::specs::FromWords::record_from))]

use crate::FromWords;
use pdu::{
    Activate, ApplicationIdResponse, ClientInformation, Execute, ExecuteResult, GetApplicationId,
    Handshake, HandshakeEx, MinMaxInfo, MoveSize, NotifyEvent, Span, SystemCommand, SystemMenu,
    WindowMove,
};
use protocol::{NotifyIconId, WindowId};

impl FromWords for Execute {
    #[inline(always)]
    fn from_words(w: &[u32; 12]) -> Execute {
        Execute {
            flags: w[1] as u16,
            exe_or_file: Span {
                at: w[2],
                len: w[3],
            },
            working_dir: Span {
                at: w[4],
                len: w[5],
            },
            arguments: Span {
                at: w[6],
                len: w[7],
            },
        }
    }
}

impl FromWords for Activate {
    #[inline(always)]
    fn from_words(w: &[u32; 12]) -> Activate {
        Activate {
            window_id: WindowId { id: w[1] },
            enabled: w[2] as u8,
        }
    }
}

impl FromWords for SystemCommand {
    #[inline(always)]
    fn from_words(w: &[u32; 12]) -> SystemCommand {
        SystemCommand {
            window_id: WindowId { id: w[1] },
            command: w[2] as u16,
        }
    }
}

impl FromWords for Handshake {
    #[inline(always)]
    fn from_words(w: &[u32; 12]) -> Handshake {
        Handshake { build_number: w[1] }
    }
}

impl FromWords for NotifyEvent {
    #[inline(always)]
    fn from_words(w: &[u32; 12]) -> NotifyEvent {
        NotifyEvent {
            window_id: WindowId { id: w[1] },
            notify_icon_id: NotifyIconId { id: w[2] },
            message: w[3],
        }
    }
}

impl FromWords for WindowMove {
    #[inline(always)]
    fn from_words(w: &[u32; 12]) -> WindowMove {
        WindowMove {
            window_id: WindowId { id: w[1] },
            left: signs::from_word(w[2]),
            top: signs::from_word(w[3]),
            right: signs::from_word(w[4]),
            bottom: signs::from_word(w[5]),
        }
    }
}

impl FromWords for MoveSize {
    #[inline(always)]
    fn from_words(w: &[u32; 12]) -> MoveSize {
        MoveSize {
            window_id: WindowId { id: w[1] },
            is_start: w[2] != 0,
            move_size_type: w[3] as u16,
            pos_x: signs::from_word(w[4]),
            pos_y: signs::from_word(w[5]),
        }
    }
}

impl FromWords for MinMaxInfo {
    #[inline(always)]
    fn from_words(w: &[u32; 12]) -> MinMaxInfo {
        MinMaxInfo {
            window_id: WindowId { id: w[1] },
            max_width: w[2] as u16,
            max_height: w[3] as u16,
            max_pos_x: signs::from_word(w[4]),
            max_pos_y: signs::from_word(w[5]),
            min_track_width: w[6] as u16,
            min_track_height: w[7] as u16,
            max_track_width: w[8] as u16,
            max_track_height: w[9] as u16,
        }
    }
}

impl FromWords for ClientInformation {
    #[inline(always)]
    fn from_words(w: &[u32; 12]) -> ClientInformation {
        ClientInformation { flags: w[1] }
    }
}

impl FromWords for SystemMenu {
    #[inline(always)]
    fn from_words(w: &[u32; 12]) -> SystemMenu {
        SystemMenu {
            window_id: WindowId { id: w[1] },
            left: signs::from_word(w[2]),
            top: signs::from_word(w[3]),
        }
    }
}

impl FromWords for GetApplicationId {
    #[inline(always)]
    fn from_words(w: &[u32; 12]) -> GetApplicationId {
        GetApplicationId {
            window_id: WindowId { id: w[1] },
        }
    }
}

impl FromWords for ApplicationIdResponse {
    #[inline(always)]
    fn from_words(w: &[u32; 12]) -> ApplicationIdResponse {
        ApplicationIdResponse {
            window_id: WindowId { id: w[1] },
            application_id: Span {
                at: w[2],
                len: w[3],
            },
        }
    }
}

impl FromWords for ExecuteResult {
    #[inline(always)]
    fn from_words(w: &[u32; 12]) -> ExecuteResult {
        ExecuteResult {
            flags: w[1] as u16,
            exec_result: w[2] as u16,
            raw_result: w[3],
            exe_or_file: Span {
                at: w[4],
                len: w[5],
            },
        }
    }
}

impl FromWords for HandshakeEx {
    #[inline(always)]
    fn from_words(w: &[u32; 12]) -> HandshakeEx {
        HandshakeEx {
            build_number: w[1],
            flags: w[2],
        }
    }
}
