// The control messages (PDUs) as records. Types, definitions and laws; the rules for their numbers are decided in `pdu_rule`.
#![tactic(auto)]

mod kinds;

pub use kinds::Message;
use protocol::{NotifyIconId, WindowId};

// The part of the lent bytes where a string stands.
#[derive(Clone, Copy, Debug, PartialEq, Eq)]
pub struct Span {
    pub at: u32,
    pub len: u32,
}

// TS_RAIL_ORDER_EXEC, type 0001
#[derive(Clone, Copy, Debug, PartialEq, Eq)]
pub struct Execute {
    pub flags: u16,
    pub exe_or_file: Span,
    pub working_dir: Span,
    pub arguments: Span,
}

// TS_RAIL_ORDER_ACTIVATE, type 0002
#[derive(Clone, Copy, Debug, PartialEq, Eq)]
pub struct Activate {
    pub window_id: WindowId,
    pub enabled: u8,
}

// TS_RAIL_ORDER_SYSCOMMAND, type 0004
#[derive(Clone, Copy, Debug, PartialEq, Eq)]
pub struct SystemCommand {
    pub window_id: WindowId,
    pub command: u16,
}

// TS_RAIL_ORDER_HANDSHAKE, type 0005
#[derive(Clone, Copy, Debug, PartialEq, Eq)]
pub struct Handshake {
    pub build_number: u32,
}

// TS_RAIL_ORDER_NOTIFY_EVENT, type 0006
#[derive(Clone, Copy, Debug, PartialEq, Eq)]
pub struct NotifyEvent {
    pub window_id: WindowId,
    pub notify_icon_id: NotifyIconId,
    pub message: u32,
}

// TS_RAIL_ORDER_WINDOWMOVE, type 0008
#[derive(Clone, Copy, Debug, PartialEq, Eq)]
pub struct WindowMove {
    pub window_id: WindowId,
    pub left: i16,
    pub top: i16,
    pub right: i16,
    pub bottom: i16,
}

// TS_RAIL_ORDER_LOCALMOVESIZE, type 0009
#[derive(Clone, Copy, Debug, PartialEq, Eq)]
pub struct MoveSize {
    pub window_id: WindowId,
    pub is_start: bool,
    pub move_size_type: u16,
    pub pos_x: i16,
    pub pos_y: i16,
}

// TS_RAIL_ORDER_MINMAXINFO, type 000A
#[derive(Clone, Copy, Debug, PartialEq, Eq)]
pub struct MinMaxInfo {
    pub window_id: WindowId,
    pub max_width: u16,
    pub max_height: u16,
    pub max_pos_x: i16,
    pub max_pos_y: i16,
    pub min_track_width: u16,
    pub min_track_height: u16,
    pub max_track_width: u16,
    pub max_track_height: u16,
}

// TS_RAIL_ORDER_CLIENTSTATUS, type 000B
#[derive(Clone, Copy, Debug, PartialEq, Eq)]
pub struct ClientInformation {
    pub flags: u32,
}

// TS_RAIL_ORDER_SYSMENU, type 000C
#[derive(Clone, Copy, Debug, PartialEq, Eq)]
pub struct SystemMenu {
    pub window_id: WindowId,
    pub left: i16,
    pub top: i16,
}

// TS_RAIL_ORDER_GET_APPID_REQ, type 000E
#[derive(Clone, Copy, Debug, PartialEq, Eq)]
pub struct GetApplicationId {
    pub window_id: WindowId,
}

// TS_RAIL_ORDER_GET_APPID_RESP, type 000F
#[derive(Clone, Copy, Debug, PartialEq, Eq)]
pub struct ApplicationIdResponse {
    pub window_id: WindowId,
    pub application_id: Span,
}

// TS_RAIL_ORDER_EXEC_RESULT, type 0080
#[derive(Clone, Copy, Debug, PartialEq, Eq)]
pub struct ExecuteResult {
    pub flags: u16,
    pub exec_result: u16,
    pub raw_result: u32,
    pub exe_or_file: Span,
}

// TS_RECTANGLE_16
#[derive(Clone, Copy, Debug, PartialEq, Eq)]
pub struct Rectangle {
    pub left: u16,
    pub top: u16,
    pub right: u16,
    pub bottom: u16,
}

// TS_HIGHCONTRAST
#[derive(Clone, Copy, Debug, PartialEq, Eq)]
pub struct HighContrast {
    pub flags: u32,
    pub color_scheme: Span,
}

// SystemParam with its body. The client sends the first eight, the server the last two.
#[derive(Clone, Copy, Debug, PartialEq, Eq)]
pub enum Setting {
    // SPI_SETDRAGFULLWINDOWS, 00000025
    DragFullWindows(u8),
    // SPI_SETKEYBOARDCUES, 0000100B
    KeyboardCues(u8),
    // SPI_SETKEYBOARDPREF, 00000045
    KeyboardPref(u8),
    // SPI_SETMOUSEBUTTONSWAP, 00000021
    MouseButtonSwap(u8),
    // SPI_SETWORKAREA, 0000002F
    WorkArea(Rectangle),
    // RAIL_SPI_TASKBARPOS, 0000F000
    TaskbarPos(Rectangle),
    // RAIL_SPI_DISPLAYCHANGE, 0000F001
    DisplayChange(Rectangle),
    // SPI_SETHIGHCONTRAST, 00000043
    HighContrast(HighContrast),
    // SPI_SETSCREENSAVEACTIVE, 00000011
    ScreenSaveActive(u8),
    // SPI_SETSCREENSAVESECURE, 00000077
    ScreenSaveSecure(u8),
}

// TS_RAIL_ORDER_SYSPARAM, type 0003
#[derive(Clone, Copy, Debug, PartialEq, Eq)]
pub struct SystemParameters {
    pub setting: Setting,
}

// TS_RAIL_ORDER_HANDSHAKE_EX, type 0013
#[derive(Clone, Copy, Debug, PartialEq, Eq)]
pub struct HandshakeEx {
    pub build_number: u32,
    pub flags: u32,
}

#[derive(Clone, Copy, Debug, PartialEq, Eq)]
pub enum Pdu {
    Execute(Execute),
    Activate(Activate),
    SystemCommand(SystemCommand),
    Handshake(Handshake),
    NotifyEvent(NotifyEvent),
    WindowMove(WindowMove),
    MoveSize(MoveSize),
    MinMaxInfo(MinMaxInfo),
    ClientInformation(ClientInformation),
    SystemMenu(SystemMenu),
    GetApplicationId(GetApplicationId),
    ApplicationIdResponse(ApplicationIdResponse),
    ExecuteResult(ExecuteResult),
    SystemParameters(SystemParameters),
    HandshakeEx(HandshakeEx),
}
