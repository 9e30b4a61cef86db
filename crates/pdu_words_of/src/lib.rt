// The words of a record, by its kind.
#![tactic(auto)]

ghost use Rattle.std.specs.Prelude.{◌≡◌};
ghost use Rattle.pdu.specs.Settings.{number_of, data_of};
ghost use Rattle.pdu_words.specs.Words.{setting_words, words_of};

use pdu::{Pdu, Setting};
use pdu_to_words::{
    activate_words, application_id_response_words, area_setting_words, byte_setting_words,
    client_information_words, execute_result_words, execute_words, get_application_id_words,
    handshake_ex_words, handshake_words, high_contrast_words, min_max_info_words, move_size_words,
    notify_event_words, system_command_words, system_menu_words, window_move_words,
};

// The words of a setting, by its number.
#[tactic(auto, unfolding(pdu::specs::Settings::number_of, pdu::specs::Settings::data_of))]
fn setting_words(words: &mut [u32; 12], s: Setting)
    ensures { words.new ≡ setting_words (number_of s) (data_of s) }
{
    match s {
        Setting::DragFullWindows(v) => byte_setting_words(words, 0x25, v),
        Setting::KeyboardCues(v) => byte_setting_words(words, 0x100B, v),
        Setting::KeyboardPref(v) => byte_setting_words(words, 0x45, v),
        Setting::MouseButtonSwap(v) => byte_setting_words(words, 0x21, v),
        Setting::WorkArea(a) => area_setting_words(words, 0x2F, a),
        Setting::TaskbarPos(a) => area_setting_words(words, 0xF000, a),
        Setting::DisplayChange(a) => area_setting_words(words, 0xF001, a),
        Setting::HighContrast(h) => high_contrast_words(words, h),
        Setting::ScreenSaveActive(v) => byte_setting_words(words, 0x11, v),
        Setting::ScreenSaveSecure(v) => byte_setting_words(words, 0x77, v),
    }
}

// The words of a record, by its kind.
#[tactic(auto, unfolding(pdu_words::specs::Words::words_of))]
pub fn words_of(words: &mut [u32; 12], p: Pdu)
    ensures { words.new ≡ words_of p }
{
    match p {
        Pdu::Execute(e) => execute_words(words, e),
        Pdu::Activate(e) => activate_words(words, e),
        Pdu::SystemCommand(e) => system_command_words(words, e),
        Pdu::Handshake(e) => handshake_words(words, e),
        Pdu::NotifyEvent(e) => notify_event_words(words, e),
        Pdu::WindowMove(e) => window_move_words(words, e),
        Pdu::MoveSize(e) => move_size_words(words, e),
        Pdu::MinMaxInfo(e) => min_max_info_words(words, e),
        Pdu::ClientInformation(e) => client_information_words(words, e),
        Pdu::SystemMenu(e) => system_menu_words(words, e),
        Pdu::GetApplicationId(e) => get_application_id_words(words, e),
        Pdu::ApplicationIdResponse(e) => application_id_response_words(words, e),
        Pdu::ExecuteResult(e) => execute_result_words(words, e),
        Pdu::SystemParameters(e) => setting_words(words, e.setting),
        Pdu::HandshakeEx(e) => handshake_ex_words(words, e),
    }
}
