// The kinds of messages: each struct, its message type, and the record that it is.
ghost use Rattle.std.specs.Prelude.{ℕ};
ghost use Rattle.pdu.specs.declared.Pdu.{Pdu};
ghost use Rattle.pdu.specs.declared.Pdu.TheVariants as P;
ghost use Rattle.pdu.specs.Kinds as K;
ghost use Rattle.pdu.specs.Kinds.{OfType};

use super::{
    Activate, ApplicationIdResponse, ClientInformation, Execute, ExecuteResult, GetApplicationId,
    Handshake, HandshakeEx, MinMaxInfo, MoveSize, NotifyEvent, SystemCommand, SystemMenu,
    SystemParameters, WindowMove,
};

// A message of one kind.
pub trait Message: Copy {
    // The message type, the first number of its header.
    ghost TYPE: { ℕ };

    const TYPE: u16;

    // The record that it is.
    ghost message: { Self → Pdu };

    ghost is_of_its_type: { OfType message TYPE };
}

impl Message for Execute {
    const TYPE: u16 = 0x01;

    ghost TYPE = { 0x01 };

    ghost message = { P.Execute };

    ghost is_of_its_type = { K.execute };
}

impl Message for Activate {
    const TYPE: u16 = 0x02;

    ghost TYPE = { 0x02 };

    ghost message = { P.Activate };

    ghost is_of_its_type = { K.activate };
}

impl Message for SystemParameters {
    const TYPE: u16 = 0x03;

    ghost TYPE = { 0x03 };

    ghost message = { P.SystemParameters };

    ghost is_of_its_type = { K.system_parameters };
}

impl Message for SystemCommand {
    const TYPE: u16 = 0x04;

    ghost TYPE = { 0x04 };

    ghost message = { P.SystemCommand };

    ghost is_of_its_type = { K.system_command };
}

impl Message for Handshake {
    const TYPE: u16 = 0x05;

    ghost TYPE = { 0x05 };

    ghost message = { P.Handshake };

    ghost is_of_its_type = { K.handshake };
}

impl Message for NotifyEvent {
    const TYPE: u16 = 0x06;

    ghost TYPE = { 0x06 };

    ghost message = { P.NotifyEvent };

    ghost is_of_its_type = { K.notify_event };
}

impl Message for WindowMove {
    const TYPE: u16 = 0x08;

    ghost TYPE = { 0x08 };

    ghost message = { P.WindowMove };

    ghost is_of_its_type = { K.window_move };
}

impl Message for MoveSize {
    const TYPE: u16 = 0x09;

    ghost TYPE = { 0x09 };

    ghost message = { P.MoveSize };

    ghost is_of_its_type = { K.move_size };
}

impl Message for MinMaxInfo {
    const TYPE: u16 = 0x0A;

    ghost TYPE = { 0x0A };

    ghost message = { P.MinMaxInfo };

    ghost is_of_its_type = { K.min_max_info };
}

impl Message for ClientInformation {
    const TYPE: u16 = 0x0B;

    ghost TYPE = { 0x0B };

    ghost message = { P.ClientInformation };

    ghost is_of_its_type = { K.client_information };
}

impl Message for SystemMenu {
    const TYPE: u16 = 0x0C;

    ghost TYPE = { 0x0C };

    ghost message = { P.SystemMenu };

    ghost is_of_its_type = { K.system_menu };
}

impl Message for GetApplicationId {
    const TYPE: u16 = 0x0E;

    ghost TYPE = { 0x0E };

    ghost message = { P.GetApplicationId };

    ghost is_of_its_type = { K.get_application_id };
}

impl Message for ApplicationIdResponse {
    const TYPE: u16 = 0x0F;

    ghost TYPE = { 0x0F };

    ghost message = { P.ApplicationIdResponse };

    ghost is_of_its_type = { K.application_id_response };
}

impl Message for HandshakeEx {
    const TYPE: u16 = 0x13;

    ghost TYPE = { 0x13 };

    ghost message = { P.HandshakeEx };

    ghost is_of_its_type = { K.handshake_ex };
}

impl Message for ExecuteResult {
    const TYPE: u16 = 0x80;

    ghost TYPE = { 0x80 };

    ghost message = { P.ExecuteResult };

    ghost is_of_its_type = { K.execute_result };
}
