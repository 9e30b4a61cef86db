// The words of a record of each kind.
#![tactic(auto)]

mod settings;
mod words;

pub use settings::{area_setting_words, byte_setting_words, high_contrast_words};
pub use words::{
    activate_words, application_id_response_words, client_information_words, execute_result_words,
    execute_words, four_words, get_application_id_words, handshake_ex_words, handshake_words,
    min_max_info_words, move_size_words, notify_event_words, system_command_words,
    system_menu_words, track_words, window_move_words,
};
