// Control messages read from lent bytes to words; to a record, in `pdu_read_record`.
#![tactic(auto)]

ghost use Rattle.std.specs.Prelude.{true, false, ◌≡◌};
ghost use Rattle.wire.specs.Numbers.{num_at};
ghost use Rattle.pdu.specs.Settings.{is_byte, is_area, high_contrast};
ghost use Rattle.pdu.specs.Records.{is_yes, yes_number};
ghost use Rattle.pdu.specs.Reading.{body_of, read_of};
ghost use Rattle.pdu_read.specs.Told.{Reads, Told};

use pdu::{
    Activate, ApplicationIdResponse, ClientInformation, Execute, ExecuteResult, GetApplicationId,
    Handshake, HandshakeEx, HighContrast, NotifyEvent, Rectangle, Span, SystemCommand,
};
use protocol::{NotifyIconId, Refusal, WindowId};

// The refusals of a message, by their numbers: a `Result` from each reader costs a quarter of all instructions more (Execute 75, then 94).
const TOO_SHORT: u32 = Refusal::TooShort as u32;

const LENGTH_DIFFERS: u32 = Refusal::LengthDiffers as u32;

const UNKNOWN_TYPE: u32 = Refusal::UnknownType as u32;

const NOT_FILLED: u32 = Refusal::NotFilled as u32;

const OUTSIDE_SET: u32 = Refusal::OutsideSet as u32;

// ---- the words of a message of each type, whose declared length is right

fn read_execute(s: &[u8], words: &mut [u32; 12]) -> u32
    ensures { Told (body_of 0x01 s.now) words.old result words.new }
{
    if s.len() < 12 {
        return NOT_FILLED;
    }
    let a = wire::read_u16(s, 6) as u32;
    let b = wire::read_u16(s, 8) as u32;
    let c = wire::read_u16(s, 10) as u32;
    if (12 + a + b + c) as usize != s.len() {
        return NOT_FILLED;
    }
    let e = Execute {
        flags: wire::read_u16(s, 4),
        exe_or_file: Span { at: 12, len: a },
        working_dir: Span { at: 12 + a, len: b },
        arguments: Span {
            at: 12 + a + b,
            len: c,
        },
    };
    if !pdu_rule::execute_allowed(e) {
        return OUTSIDE_SET;
    }
    pdu_to_words::execute_words(words, e);
    0
}

fn read_activate(s: &[u8], words: &mut [u32; 12]) -> u32
    ensures { Told (body_of 0x02 s.now) words.old result words.new }
{
    if s.len() != 9 {
        return NOT_FILLED;
    }
    let e = Activate {
        window_id: WindowId {
            id: wire::read_u32(s, 4),
        },
        enabled: wire::read_u8(s, 8),
    };
    if !pdu_rule::activate_allowed(e) {
        return OUTSIDE_SET;
    }
    pdu_to_words::activate_words(words, e);
    0
}

fn read_system_command(s: &[u8], words: &mut [u32; 12]) -> u32
    ensures { Told (body_of 0x04 s.now) words.old result words.new }
{
    if s.len() != 10 {
        return NOT_FILLED;
    }
    let e = SystemCommand {
        window_id: WindowId {
            id: wire::read_u32(s, 4),
        },
        command: wire::read_u16(s, 8),
    };
    if !pdu_rule::system_command_allowed(e) {
        return OUTSIDE_SET;
    }
    pdu_to_words::system_command_words(words, e);
    0
}

fn read_handshake(s: &[u8], words: &mut [u32; 12]) -> u32
    ensures { Told (body_of 0x05 s.now) words.old result words.new }
{
    if s.len() != 8 {
        return NOT_FILLED;
    }
    let e = Handshake {
        build_number: wire::read_u32(s, 4),
    };
    pdu_to_words::handshake_words(words, e);
    0
}

fn read_notify_event(s: &[u8], words: &mut [u32; 12]) -> u32
    ensures { Told (body_of 0x06 s.now) words.old result words.new }
{
    if s.len() != 16 {
        return NOT_FILLED;
    }
    let e = NotifyEvent {
        window_id: WindowId {
            id: wire::read_u32(s, 4),
        },
        notify_icon_id: NotifyIconId {
            id: wire::read_u32(s, 8),
        },
        message: wire::read_u32(s, 12),
    };
    pdu_to_words::notify_event_words(words, e);
    0
}

fn read_window_move(s: &[u8], words: &mut [u32; 12]) -> u32
    ensures { Told (body_of 0x08 s.now) words.old result words.new }
{
    if s.len() != 16 {
        return NOT_FILLED;
    }
    let id = wire::read_u32(s, 4);
    let left = signs::read_word(s, 8);
    let top = signs::read_word(s, 10);
    let right = signs::read_word(s, 12);
    let bottom = signs::read_word(s, 14);
    pdu_to_words::four_words(words, 0x08, id, left, top, right, bottom);
    0
}

// Any number but 0 is a start.
fn start_number(n: u16) -> u32
    ensures { result ≡ yes_number (is_yes n) }
{
    if n == 0 {
        return 0;
    }
    1
}

fn read_move_size(s: &[u8], words: &mut [u32; 12]) -> u32
    ensures { Told (body_of 0x09 s.now) words.old result words.new }
{
    if s.len() != 16 {
        return NOT_FILLED;
    }
    let kind = wire::read_u16(s, 10);
    if !pdu_rule::move_size_type_allowed(kind) {
        return OUTSIDE_SET;
    }
    let id = wire::read_u32(s, 4);
    let start = start_number(wire::read_u16(s, 8));
    let x = signs::read_word(s, 12);
    let y = signs::read_word(s, 14);
    pdu_to_words::four_words(words, 0x09, id, start, kind as u32, x, y);
    0
}

fn read_min_max_info(s: &[u8], words: &mut [u32; 12]) -> u32
    ensures { Told (body_of 0x0A s.now) words.old result words.new }
{
    if s.len() != 24 {
        return NOT_FILLED;
    }
    let id = wire::read_u32(s, 4);
    let width = wire::read_u16(s, 8) as u32;
    let height = wire::read_u16(s, 10) as u32;
    let pos_x = signs::read_word(s, 12);
    let pos_y = signs::read_word(s, 14);
    let a = wire::read_u16(s, 16) as u32;
    let b = wire::read_u16(s, 18) as u32;
    let c = wire::read_u16(s, 20) as u32;
    let d = wire::read_u16(s, 22) as u32;
    pdu_to_words::four_words(words, 0x0A, id, width, height, pos_x, pos_y);
    pdu_to_words::track_words(words, a, b, c, d);
    0
}

fn read_client_information(s: &[u8], words: &mut [u32; 12]) -> u32
    ensures { Told (body_of 0x0B s.now) words.old result words.new }
{
    if s.len() != 8 {
        return NOT_FILLED;
    }
    let e = ClientInformation {
        flags: wire::read_u32(s, 4),
    };
    pdu_to_words::client_information_words(words, e);
    0
}

fn read_system_menu(s: &[u8], words: &mut [u32; 12]) -> u32
    ensures { Told (body_of 0x0C s.now) words.old result words.new }
{
    if s.len() != 12 {
        return NOT_FILLED;
    }
    let id = wire::read_u32(s, 4);
    let left = signs::read_word(s, 8);
    let top = signs::read_word(s, 10);
    pdu_to_words::four_words(words, 0x0C, id, left, top, 0, 0);
    0
}

fn read_get_application_id(s: &[u8], words: &mut [u32; 12]) -> u32
    ensures { Told (body_of 0x0E s.now) words.old result words.new }
{
    if s.len() != 8 {
        return NOT_FILLED;
    }
    let e = GetApplicationId {
        window_id: WindowId {
            id: wire::read_u32(s, 4),
        },
    };
    pdu_to_words::get_application_id_words(words, e);
    0
}

fn read_application_id_response(s: &[u8], words: &mut [u32; 12]) -> u32
    ensures { Told (body_of 0x0F s.now) words.old result words.new }
{
    if s.len() != 528 {
        return NOT_FILLED;
    }
    let e = ApplicationIdResponse {
        window_id: WindowId {
            id: wire::read_u32(s, 4),
        },
        application_id: Span { at: 8, len: 520 },
    };
    pdu_to_words::application_id_response_words(words, e);
    0
}

fn read_execute_result(s: &[u8], words: &mut [u32; 12]) -> u32
    ensures { Told (body_of 0x80 s.now) words.old result words.new }
{
    if s.len() < 16 {
        return NOT_FILLED;
    }
    let a = wire::read_u16(s, 14) as u32;
    if (16 + a) as usize != s.len() {
        return NOT_FILLED;
    }
    let e = ExecuteResult {
        flags: wire::read_u16(s, 4),
        exec_result: wire::read_u16(s, 6),
        raw_result: wire::read_u32(s, 8),
        exe_or_file: Span { at: 16, len: a },
    };
    if !pdu_rule::execute_result_allowed(e) {
        return OUTSIDE_SET;
    }
    pdu_to_words::execute_result_words(words, e);
    0
}

// System parameters by the shape of the body: one byte, a rectangle, a color scheme.
fn read_byte_setting(s: &[u8], number: u32, words: &mut [u32; 12]) -> u32
    requires { (number ≡ num_at 4 s.now 4) × (is_byte number ≡ true) }
    ensures { Told (body_of 0x03 s.now) words.old result words.new }
{
    if s.len() != 9 {
        return NOT_FILLED;
    }
    let value = wire::read_u8(s, 8);
    pdu_to_words::byte_setting_words(words, number, value);
    0
}

fn read_area_setting(s: &[u8], number: u32, words: &mut [u32; 12]) -> u32
    requires { (number ≡ num_at 4 s.now 4) × (is_byte number ≡ false) × (is_area number ≡ true) }
    ensures { Told (body_of 0x03 s.now) words.old result words.new }
{
    if s.len() != 16 {
        return NOT_FILLED;
    }
    let place = Rectangle {
        left: wire::read_u16(s, 8),
        top: wire::read_u16(s, 10),
        right: wire::read_u16(s, 12),
        bottom: wire::read_u16(s, 14),
    };
    pdu_to_words::area_setting_words(words, number, place);
    0
}

// The outer length of a color scheme takes in the inner one, 2 bytes.
fn read_high_contrast(s: &[u8], words: &mut [u32; 12]) -> u32
    requires { high_contrast ≡ num_at 4 s.now 4 }
    ensures { Told (body_of 0x03 s.now) words.old result words.new }
{
    if s.len() < 18 {
        return NOT_FILLED;
    }
    let n = wire::read_u16(s, 16) as u32;
    if (18 + n) as usize != s.len() {
        return NOT_FILLED;
    }
    if wire::read_u32(s, 12) != n + 2 {
        return NOT_FILLED;
    }
    let e = HighContrast {
        flags: wire::read_u32(s, 8),
        color_scheme: Span { at: 18, len: n },
    };
    if !pdu_rule::high_contrast_allowed(e) {
        return OUTSIDE_SET;
    }
    pdu_to_words::high_contrast_words(words, e);
    0
}

fn read_system_parameters(s: &[u8], words: &mut [u32; 12]) -> u32
    ensures { Told (body_of 0x03 s.now) words.old result words.new }
{
    if s.len() < 8 {
        return NOT_FILLED;
    }
    let number = wire::read_u32(s, 4);
    if pdu_rule::is_byte_setting(number) {
        return read_byte_setting(s, number, words);
    }
    if pdu_rule::is_area_setting(number) {
        return read_area_setting(s, number, words);
    }
    if number == 0x43 {
        return read_high_contrast(s, words);
    }
    OUTSIDE_SET
}

fn read_handshake_ex(s: &[u8], words: &mut [u32; 12]) -> u32
    ensures { Told (body_of 0x13 s.now) words.old result words.new }
{
    if s.len() != 12 {
        return NOT_FILLED;
    }
    let e = HandshakeEx {
        build_number: wire::read_u32(s, 4),
        flags: wire::read_u32(s, 8),
    };
    pdu_to_words::handshake_ex_words(words, e);
    0
}

// ---- any message

// The number of a message, and the words of its record where that is 0; its strings are where they stand in it.
pub fn read_words(message: &[u8], words: &mut [u32; 12]) -> u32
    ensures { Told (read_of message.now) words.old result words.new }
{
    if message.len() < 4 {
        return TOO_SHORT;
    }
    if wire::read_u16(message, 2) as usize != message.len() {
        return LENGTH_DIFFERS;
    }
    let kind = wire::read_u16(message, 0);
    // a copy of the slice: the readers' calls take its address, and message itself stays in registers
    let whole = message;
    match kind {
        0x01 => read_execute(whole, words),
        0x02 => read_activate(whole, words),
        0x04 => read_system_command(whole, words),
        0x05 => read_handshake(whole, words),
        0x06 => read_notify_event(whole, words),
        0x08 => read_window_move(whole, words),
        0x09 => read_move_size(whole, words),
        0x0A => read_min_max_info(whole, words),
        0x0B => read_client_information(whole, words),
        0x0C => read_system_menu(whole, words),
        0x0E => read_get_application_id(whole, words),
        0x0F => read_application_id_response(whole, words),
        0x03 => read_system_parameters(whole, words),
        0x13 => read_handshake_ex(whole, words),
        0x80 => read_execute_result(whole, words),
        _ => UNKNOWN_TYPE,
    }
}

// The words of a message's record, or its refusal.
pub fn read(message: &[u8], words: &mut [u32; 12]) -> Result<(), Refusal>
    ensures { Reads (read_of message.now) words.old result words.new }
{
    match Refusal::try_from(read_words(message, words)) {
        Ok(refusal) => Err(refusal),
        Err(_) => Ok(()),
    }
}
