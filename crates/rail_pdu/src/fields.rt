// The fields of each type of message, in carried order.

// How a field stands in an item, and how it is printed.
#[derive(Clone, Copy, Debug, PartialEq, Eq)]
pub(crate) enum Form {
    // A number of 1, 2 or 4 bytes, as a decimal.
    Byte,
    Word,
    Long,
    // A byte that is 0 or another, as 0 or 1.
    Flag,
    // A number of 2 bytes, as a signed decimal.
    Signed,
    // A number of 4 bytes, as eight hex digits.
    Setting,
    // Bytes, in hex. Their length takes 2 bytes, and they stand behind the fields.
    Text,
}

impl Form {
    // Its bytes among the fields of an item.
    pub(crate) fn width(self) -> usize {
        match self {
            Form::Byte | Form::Flag => 1,
            Form::Word | Form::Signed | Form::Text => 2,
            Form::Long | Form::Setting => 4,
        }
    }
}

// A field: its name, and its form.
pub(crate) struct Field(pub &'static str, pub Form);

// The records that differ in their fields: one for each type, and for each shape of system parameters.
#[derive(Clone, Copy, Debug, PartialEq, Eq)]
pub(crate) enum Shape {
    Execute,
    Activate,
    ByteSetting,
    AreaSetting,
    HighContrast,
    SystemCommand,
    Handshake,
    NotifyEvent,
    WindowMove,
    MoveSize,
    MinMaxInfo,
    ClientInformation,
    SystemMenu,
    GetApplicationId,
    ApplicationIdResponse,
    HandshakeEx,
    ExecuteResult,
}

impl Shape {
    // That of system parameters with this setting.
    fn of_setting(setting: u32) -> Option<Shape> {
        if pdu_rule::is_byte_setting(setting) {
            return Some(Shape::ByteSetting);
        }
        if pdu_rule::is_area_setting(setting) {
            return Some(Shape::AreaSetting);
        }
        if setting == 0x43 {
            return Some(Shape::HighContrast);
        }
        None
    }

    // That of a type, of system parameters by their setting.
    pub(crate) fn of(kind: u32, setting: u32) -> Option<Shape> {
        match kind {
            0x01 => Some(Shape::Execute),
            0x02 => Some(Shape::Activate),
            0x03 => Shape::of_setting(setting),
            0x04 => Some(Shape::SystemCommand),
            0x05 => Some(Shape::Handshake),
            0x06 => Some(Shape::NotifyEvent),
            0x08 => Some(Shape::WindowMove),
            0x09 => Some(Shape::MoveSize),
            0x0A => Some(Shape::MinMaxInfo),
            0x0B => Some(Shape::ClientInformation),
            0x0C => Some(Shape::SystemMenu),
            0x0E => Some(Shape::GetApplicationId),
            0x0F => Some(Shape::ApplicationIdResponse),
            0x13 => Some(Shape::HandshakeEx),
            0x80 => Some(Shape::ExecuteResult),
            _ => None,
        }
    }

    // The bytes of its fields in an item.
    pub(crate) fn width(self) -> usize {
        self.fields()
            .iter()
            .fold(0, |width, field| width.saturating_add(field.1.width()))
    }

    pub(crate) fn fields(self) -> &'static [Field] {
        match self {
            Shape::Execute => &[
                Field("flags", Form::Word),
                Field("program", Form::Text),
                Field("directory", Form::Text),
                Field("arguments", Form::Text),
            ],
            Shape::Activate => &[Field("window", Form::Long), Field("enabled", Form::Byte)],
            Shape::ByteSetting => &[Field("setting", Form::Setting), Field("value", Form::Byte)],
            Shape::AreaSetting => &[
                Field("setting", Form::Setting),
                Field("left", Form::Word),
                Field("top", Form::Word),
                Field("right", Form::Word),
                Field("bottom", Form::Word),
            ],
            Shape::HighContrast => &[
                Field("setting", Form::Setting),
                Field("flags", Form::Long),
                Field("string", Form::Text),
            ],
            Shape::SystemCommand => &[Field("window", Form::Long), Field("command", Form::Word)],
            Shape::Handshake => &[Field("build", Form::Long)],
            Shape::NotifyEvent => &[
                Field("window", Form::Long),
                Field("icon", Form::Long),
                Field("message", Form::Long),
            ],
            Shape::WindowMove => &[
                Field("window", Form::Long),
                Field("left", Form::Signed),
                Field("top", Form::Signed),
                Field("right", Form::Signed),
                Field("bottom", Form::Signed),
            ],
            Shape::MoveSize => &[
                Field("window", Form::Long),
                Field("start", Form::Flag),
                Field("move_type", Form::Word),
                Field("x", Form::Signed),
                Field("y", Form::Signed),
            ],
            Shape::MinMaxInfo => &[
                Field("window", Form::Long),
                Field("max_width", Form::Word),
                Field("max_height", Form::Word),
                Field("max_x", Form::Signed),
                Field("max_y", Form::Signed),
                Field("min_track_width", Form::Word),
                Field("min_track_height", Form::Word),
                Field("max_track_width", Form::Word),
                Field("max_track_height", Form::Word),
            ],
            Shape::ClientInformation => &[Field("flags", Form::Long)],
            Shape::SystemMenu => &[
                Field("window", Form::Long),
                Field("left", Form::Signed),
                Field("top", Form::Signed),
            ],
            Shape::GetApplicationId => &[Field("window", Form::Long)],
            Shape::ApplicationIdResponse => &[
                Field("window", Form::Long),
                Field("string", Form::Text),
            ],
            Shape::HandshakeEx => &[Field("build", Form::Long), Field("flags", Form::Long)],
            Shape::ExecuteResult => &[
                Field("flags", Form::Word),
                Field("result", Form::Word),
                Field("raw", Form::Long),
                Field("string", Form::Text),
            ],
        }
    }
}
