// What each kind of message takes and how it is put.
#![tactic(auto, unfolding(wire::specs::Numbers::bytes_of, wire::specs::Numbers::put_all, pdu::specs::Layout::widths, pdu::specs::Records::kind_of, pdu::specs::Records::nums_of, pdu::specs::Records::size_of, pdu::specs::Records::spans_of, pdu::specs::Rules::allowed, pdu::specs::Writing::joined, pdu::specs::Writing::strings_of, pdu::specs::Writing::encode))]

ghost use Rattle.std.specs.Prelude.{◌≡◌, [], ◌∷◌, ◌+◌, ◌≤◌, length};
ghost use Rattle.pdu_put.specs.Judging.{judged, Ready, Encoded};

use crate::Put;
use crate::numbers::{half, lies_in, put_head, put_quad};
use crate::shapes::{put_byte, put_four, put_long, put_one, put_two};
use crate::strings::{put_application_id_response, put_execute, put_execute_result};
use pdu::{
    Activate, ApplicationIdResponse, ClientInformation, Execute, ExecuteResult, GetApplicationId,
    Handshake, HandshakeEx, Message, MinMaxInfo, MoveSize, NotifyEvent, SystemCommand, SystemMenu,
    WindowMove,
};

impl Put for Activate {
    #[inline(always)]
    fn judge(self, _n: usize) -> Option<usize> {
        pdu_rule::activate_allowed(self).then_some(9)
    }

    #[inline(always)]
    fn put(self, out: &mut [u8], _src: &[u8]) {
        put_byte(out, Self::TYPE, self.window_id.id, self.enabled)
    }
}

impl Put for SystemCommand {
    #[inline(always)]
    fn judge(self, _n: usize) -> Option<usize> {
        pdu_rule::system_command_allowed(self).then_some(10)
    }

    #[inline(always)]
    fn put(self, out: &mut [u8], _src: &[u8]) {
        put_one(out, Self::TYPE, self.window_id.id, self.command)
    }
}

impl Put for Handshake {
    #[inline(always)]
    fn judge(self, _n: usize) -> Option<usize> {
        Some(8)
    }

    #[inline(always)]
    fn put(self, out: &mut [u8], _src: &[u8]) {
        put_head(out, Self::TYPE, 8, self.build_number)
    }
}

impl Put for NotifyEvent {
    #[inline(always)]
    fn judge(self, _n: usize) -> Option<usize> {
        Some(16)
    }

    #[inline(always)]
    fn put(self, out: &mut [u8], _src: &[u8]) {
        put_head(out, Self::TYPE, 16, self.window_id.id);
        wire::write_u32(out, 8, self.notify_icon_id.id);
        wire::write_u32(out, 12, self.message)
    }
}

impl Put for WindowMove {
    #[inline(always)]
    fn judge(self, _n: usize) -> Option<usize> {
        Some(16)
    }

    #[inline(always)]
    fn put(self, out: &mut [u8], _src: &[u8]) {
        put_four(
            out,
            Self::TYPE,
            self.window_id.id,
            half(self.left),
            half(self.top),
            half(self.right),
            half(self.bottom),
        )
    }
}

impl Put for MoveSize {
    #[inline(always)]
    fn judge(self, _n: usize) -> Option<usize> {
        pdu_rule::move_size_type_allowed(self.move_size_type).then_some(16)
    }

    #[inline(always)]
    fn put(self, out: &mut [u8], _src: &[u8]) {
        put_four(
            out,
            Self::TYPE,
            self.window_id.id,
            u16::from(self.is_start),
            self.move_size_type,
            half(self.pos_x),
            half(self.pos_y),
        )
    }
}

impl Put for MinMaxInfo {
    #[inline(always)]
    fn judge(self, _n: usize) -> Option<usize> {
        Some(24)
    }

    #[inline(always)]
    fn put(self, out: &mut [u8], _src: &[u8]) {
        put_head(out, Self::TYPE, 24, self.window_id.id);
        put_quad(
            out,
            8,
            self.max_width,
            self.max_height,
            half(self.max_pos_x),
            half(self.max_pos_y),
        );
        put_quad(
            out,
            16,
            self.min_track_width,
            self.min_track_height,
            self.max_track_width,
            self.max_track_height,
        )
    }
}

impl Put for ClientInformation {
    #[inline(always)]
    fn judge(self, _n: usize) -> Option<usize> {
        Some(8)
    }

    #[inline(always)]
    fn put(self, out: &mut [u8], _src: &[u8]) {
        put_head(out, Self::TYPE, 8, self.flags)
    }
}

impl Put for SystemMenu {
    #[inline(always)]
    fn judge(self, _n: usize) -> Option<usize> {
        Some(12)
    }

    #[inline(always)]
    fn put(self, out: &mut [u8], _src: &[u8]) {
        put_two(
            out,
            Self::TYPE,
            self.window_id.id,
            half(self.left),
            half(self.top),
        )
    }
}

impl Put for GetApplicationId {
    #[inline(always)]
    fn judge(self, _n: usize) -> Option<usize> {
        Some(8)
    }

    #[inline(always)]
    fn put(self, out: &mut [u8], _src: &[u8]) {
        put_head(out, Self::TYPE, 8, self.window_id.id)
    }
}

impl Put for HandshakeEx {
    #[inline(always)]
    fn judge(self, _n: usize) -> Option<usize> {
        Some(12)
    }

    #[inline(always)]
    fn put(self, out: &mut [u8], _src: &[u8]) {
        put_long(out, Self::TYPE, self.build_number, self.flags)
    }
}

impl Put for Execute {
    #[inline(always)]
    fn judge(self, n: usize) -> Option<usize> {
        let granted = pdu_rule::execute_allowed(self)
            & lies_in(n, self.exe_or_file)
            & lies_in(n, self.working_dir)
            & lies_in(n, self.arguments);
        let strings = self.exe_or_file.len as usize
            + self.working_dir.len as usize
            + self.arguments.len as usize;
        granted.then_some(12 + strings)
    }

    #[inline(always)]
    fn put(self, out: &mut [u8], src: &[u8]) {
        put_execute(out, src, self)
    }
}

impl Put for ApplicationIdResponse {
    #[inline(always)]
    fn judge(self, n: usize) -> Option<usize> {
        let granted = pdu_rule::application_id_response_allowed(self)
            & lies_in(n, self.application_id);
        granted.then_some(528)
    }

    #[inline(always)]
    fn put(self, out: &mut [u8], src: &[u8]) {
        put_application_id_response(out, src, self)
    }
}

impl Put for ExecuteResult {
    #[inline(always)]
    fn judge(self, n: usize) -> Option<usize> {
        let granted = pdu_rule::execute_result_allowed(self) & lies_in(n, self.exe_or_file);
        granted.then_some(16 + self.exe_or_file.len as usize)
    }

    #[inline(always)]
    fn put(self, out: &mut [u8], src: &[u8]) {
        put_execute_result(out, src, self)
    }
}
