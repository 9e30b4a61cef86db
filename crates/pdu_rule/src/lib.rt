// Document 01's rules for the numbers of a control message: what a record may hold (8), and which number is which setting.
#![tactic(auto)]

ghost use Rattle.std.specs.Prelude.{◌≡◌, leb};
ghost use Rattle.pdu.specs.Rules.{text_ok, execute_flags_ok, commands, exec_results, execute_allowed, move_size_type_ok, execute_result_allowed};
ghost use Rattle.pdu.specs.Layout.{one_of};
ghost use Rattle.pdu.specs.Settings.{is_byte, is_area, setting_with, byte, area, scheme_fits};

use pdu::{
    Activate, ApplicationIdResponse, Execute, ExecuteResult, HighContrast, Rectangle, Setting,
    SystemCommand,
};

// A string of low to high bytes, an even number of them.
fn text_ok(low: u32, high: u32, n: u32) -> bool
    ensures { result ≡ text_ok low high n }
{
    (low <= n) & (n <= high) & (n % 2 == 0)
}

// No flag above 0010; 0002 needs 0004.
fn execute_flags_ok(flags: u16) -> bool
    ensures { result ≡ execute_flags_ok flags }
{
    (flags < 0x20) & ((flags / 2 % 2 == 0) | (flags / 4 % 2 == 1))
}

fn command_ok(v: u16) -> bool
    ensures { result ≡ one_of v commands }
{
    (v == 0xF000)
        | (v == 0xF010)
        | (v == 0xF020)
        | (v == 0xF030)
        | (v == 0xF060)
        | (v == 0xF100)
        | (v == 0xF120)
        | (v == 0xF160)
}

fn exec_result_ok(v: u16) -> bool
    ensures { result ≡ one_of v exec_results }
{
    (v == 0) | (v == 1) | (v == 2) | (v == 3) | (v == 5) | (v == 6) | (v == 7)
}

pub fn execute_allowed(e: Execute) -> bool
    ensures { result ≡ execute_allowed e }
{
    text_ok(1, 520, e.exe_or_file.len)
        & text_ok(0, 520, e.working_dir.len)
        & text_ok(0, 16000, e.arguments.len)
        & execute_flags_ok(e.flags)
}

pub fn activate_allowed(e: Activate) -> bool
    ensures { result ≡ leb e.enabled 1 }
{
    e.enabled <= 1
}

pub fn system_command_allowed(e: SystemCommand) -> bool
    ensures { result ≡ one_of e.command commands }
{
    command_ok(e.command)
}

pub fn move_size_type_allowed(v: u16) -> bool
    ensures { result ≡ move_size_type_ok v }
{
    (1 <= v) & (v <= 11)
}

pub fn application_id_response_allowed(e: ApplicationIdResponse) -> bool
    ensures { result ≡ leb e.application_id.len 520 }
{
    e.application_id.len <= 520
}

pub fn execute_result_allowed(e: ExecuteResult) -> bool
    ensures { result ≡ execute_result_allowed e }
{
    exec_result_ok(e.exec_result) & (1 <= e.exe_or_file.len) & (e.exe_or_file.len <= 520)
}

pub fn high_contrast_allowed(e: HighContrast) -> bool
    ensures { result ≡ scheme_fits e }
{
    e.color_scheme.len <= 520
}

// ---- settings by number

// A setting whose body is one byte, a rectangle.
pub fn is_byte_setting(number: u32) -> bool
    ensures { result ≡ is_byte number }
{
    (number == 0x25)
        | (number == 0x100B)
        | (number == 0x45)
        | (number == 0x21)
        | (number == 0x11)
        | (number == 0x77)
}

pub fn is_area_setting(number: u32) -> bool
    ensures { result ≡ is_area number }
{
    (number == 0x2F) | (number == 0xF000) | (number == 0xF001)
}

// The setting of a number with such a body, the last where the number has another.
pub fn byte_setting(number: u32, value: u8) -> Setting
    ensures { result ≡ setting_with number (byte value) }
{
    match number {
        0x25 => Setting::DragFullWindows(value),
        0x100B => Setting::KeyboardCues(value),
        0x45 => Setting::KeyboardPref(value),
        0x21 => Setting::MouseButtonSwap(value),
        0x11 => Setting::ScreenSaveActive(value),
        _ => Setting::ScreenSaveSecure(value),
    }
}

pub fn area_setting(number: u32, place: Rectangle) -> Setting
    ensures { result ≡ setting_with number (area place) }
{
    match number {
        0x2F => Setting::WorkArea(place),
        0xF000 => Setting::TaskbarPos(place),
        _ => Setting::DisplayChange(place),
    }
}
