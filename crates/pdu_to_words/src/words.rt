// The words of a record of each kind, the type first.
ghost use Rattle.std.specs.Prelude.{◌≡◌, [], ◌∷◌, set};
ghost use Rattle.pdu.specs.Records.{yes_number};
ghost use Rattle.pdu_words.specs.Words.{execute_words, activate_words, system_command_words, handshake_words, notify_event_words, window_move_words, move_size_words, min_max_info_words, client_information_words, system_menu_words, get_application_id_words, application_id_response_words, execute_result_words, handshake_ex_words};

use pdu::{
    Activate, ApplicationIdResponse, ClientInformation, Execute, ExecuteResult, GetApplicationId,
    Handshake, HandshakeEx, MinMaxInfo, MoveSize, NotifyEvent, SystemCommand, SystemMenu,
    WindowMove,
};

fn yes_number(b: bool) -> u32
    ensures { result ≡ yes_number b }
{
    if b { 1 } else { 0 }
}

pub fn execute_words(words: &mut [u32; 12], e: Execute)
    ensures { words.new ≡ execute_words e }
{
    *words = [0; 12];
    words[0] = 0x01;
    words[1] = e.flags as u32;
    words[2] = e.exe_or_file.at;
    words[3] = e.exe_or_file.len;
    words[4] = e.working_dir.at;
    words[5] = e.working_dir.len;
    words[6] = e.arguments.at;
    words[7] = e.arguments.len;
}

pub fn activate_words(words: &mut [u32; 12], e: Activate)
    ensures { words.new ≡ activate_words e }
{
    *words = [0; 12];
    words[0] = 0x02;
    words[1] = e.window_id.id;
    words[2] = e.enabled as u32;
}

pub fn system_command_words(words: &mut [u32; 12], e: SystemCommand)
    ensures { words.new ≡ system_command_words e }
{
    *words = [0; 12];
    words[0] = 0x04;
    words[1] = e.window_id.id;
    words[2] = e.command as u32;
}

pub fn handshake_words(words: &mut [u32; 12], e: Handshake)
    ensures { words.new ≡ handshake_words e }
{
    *words = [0; 12];
    words[0] = 0x05;
    words[1] = e.build_number;
}

pub fn notify_event_words(words: &mut [u32; 12], e: NotifyEvent)
    ensures { words.new ≡ notify_event_words e }
{
    *words = [0; 12];
    words[0] = 0x06;
    words[1] = e.window_id.id;
    words[2] = e.notify_icon_id.id;
    words[3] = e.message;
}

// A type, a window id and four words.
pub fn four_words(words: &mut [u32; 12], kind: u32, id: u32, a: u32, b: u32, c: u32, d: u32)
    ensures { words.new ≡ kind ∷ id ∷ a ∷ b ∷ c ∷ d ∷ 0 ∷ 0 ∷ 0 ∷ 0 ∷ 0 ∷ 0 ∷ [] }
{
    *words = [0; 12];
    words[0] = kind;
    words[1] = id;
    words[2] = a;
    words[3] = b;
    words[4] = c;
    words[5] = d;
}

pub fn window_move_words(words: &mut [u32; 12], e: WindowMove)
    ensures { words.new ≡ window_move_words e }
{
    let left = signs::word(e.left);
    let top = signs::word(e.top);
    let right = signs::word(e.right);
    let bottom = signs::word(e.bottom);
    four_words(words, 0x08, e.window_id.id, left, top, right, bottom);
}

pub fn move_size_words(words: &mut [u32; 12], e: MoveSize)
    ensures { words.new ≡ move_size_words e }
{
    let start = yes_number(e.is_start);
    let x = signs::word(e.pos_x);
    let y = signs::word(e.pos_y);
    four_words(
        words,
        0x09,
        e.window_id.id,
        start,
        e.move_size_type as u32,
        x,
        y,
    );
}

// The tracking sizes, after the words before them.
pub fn track_words(words: &mut [u32; 12], a: u32, b: u32, c: u32, d: u32)
    ensures { words.new ≡ set (set (set (set words.old 6 a) 7 b) 8 c) 9 d }
{
    words[6] = a;
    words[7] = b;
    words[8] = c;
    words[9] = d;
}

pub fn min_max_info_words(words: &mut [u32; 12], e: MinMaxInfo)
    ensures { words.new ≡ min_max_info_words e }
{
    let x = signs::word(e.max_pos_x);
    let y = signs::word(e.max_pos_y);
    four_words(
        words,
        0x0A,
        e.window_id.id,
        e.max_width as u32,
        e.max_height as u32,
        x,
        y,
    );
    track_words(
        words,
        e.min_track_width as u32,
        e.min_track_height as u32,
        e.max_track_width as u32,
        e.max_track_height as u32,
    );
}

pub fn client_information_words(words: &mut [u32; 12], e: ClientInformation)
    ensures { words.new ≡ client_information_words e }
{
    *words = [0; 12];
    words[0] = 0x0B;
    words[1] = e.flags;
}

pub fn system_menu_words(words: &mut [u32; 12], e: SystemMenu)
    ensures { words.new ≡ system_menu_words e }
{
    let left = signs::word(e.left);
    let top = signs::word(e.top);
    four_words(words, 0x0C, e.window_id.id, left, top, 0, 0);
}

pub fn get_application_id_words(words: &mut [u32; 12], e: GetApplicationId)
    ensures { words.new ≡ get_application_id_words e }
{
    *words = [0; 12];
    words[0] = 0x0E;
    words[1] = e.window_id.id;
}

pub fn application_id_response_words(words: &mut [u32; 12], e: ApplicationIdResponse)
    ensures { words.new ≡ application_id_response_words e }
{
    *words = [0; 12];
    words[0] = 0x0F;
    words[1] = e.window_id.id;
    words[2] = e.application_id.at;
    words[3] = e.application_id.len;
}

pub fn execute_result_words(words: &mut [u32; 12], e: ExecuteResult)
    ensures { words.new ≡ execute_result_words e }
{
    *words = [0; 12];
    words[0] = 0x80;
    words[1] = e.flags as u32;
    words[2] = e.exec_result as u32;
    words[3] = e.raw_result;
    words[4] = e.exe_or_file.at;
    words[5] = e.exe_or_file.len;
}

pub fn handshake_ex_words(words: &mut [u32; 12], e: HandshakeEx)
    ensures { words.new ≡ handshake_ex_words e }
{
    *words = [0; 12];
    words[0] = 0x13;
    words[1] = e.build_number;
    words[2] = e.flags;
}
