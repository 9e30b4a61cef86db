// The bytes that a lookup hands out, in the fixed layout of their kind, as a typed record: numbers, ids, strings, rectangles, and
// whether a picture is there. A byte past the end counts 0.
#![tactic(auto)]

ghost use Rattle.std.specs.Prelude.{◌≡◌, drop};
ghost use Rattle.body.specs.Bodies.{notification_fields, desktop_fields, body_of};
ghost use Rattle.layout.specs.Layouts.{newer_start, newer_fields};
ghost use Rattle.view.specs.Views.{newer_of, window_in, window_of, notification_of, desktop_of, picture_view};

use protocol::WindowId;

mod parts;

// A place on the screen or an offset, which may be to the left of or above the origin.
#[derive(Clone, Copy)]
pub struct Point {
    pub x: i32,
    pub y: i32,
}

// Width and height.
#[derive(Clone, Copy)]
pub struct Pair {
    pub x: u32,
    pub y: u32,
}

// A string: how many bytes it has, its bytes, and zeros to the end.
#[derive(Clone, Copy)]
pub struct Text {
    pub count: u16,
    pub bytes: [u8; 520],
}

// Rectangles: left, top, right and bottom of each, and zeros to the end.
#[derive(Clone, Copy)]
pub struct Rectangles {
    pub count: u16,
    pub sides: [u16; 64],
}

// What newer servers say of a window besides. Its overlay says whether it shows a picture, which follows.
#[derive(Clone, Copy)]
pub struct NewerRecord {
    pub left_resize_margin: u32,
    pub right_resize_margin: u32,
    pub top_resize_margin: u32,
    pub bottom_resize_margin: u32,
    pub overlay_description: Text,
    pub taskbar_button: u8,
    pub enforce_server_z_order: u8,
    pub app_bar_state: u8,
    pub app_bar_edge: u8,
    pub overlay: bool,
}

// Its small and big say whether it shows a picture, which follows the record.
#[derive(Clone, Copy)]
pub struct WindowRecord {
    pub owner: WindowId,
    pub style: u32,
    pub extended_style: u32,
    pub show_state: u8,
    pub title: Text,
    pub client_offset: Point,
    pub client_size: Pair,
    pub rp_content: u8,
    pub root_parent: WindowId,
    pub window_offset: Point,
    pub client_delta: Point,
    pub window_size: Pair,
    pub window_rects: Rectangles,
    pub visible_offset: Point,
    pub visibility_rects: Rectangles,
    pub small: bool,
    pub big: bool,
    pub newer: NewerRecord,
}

// Its icon says whether it shows a picture.
#[derive(Clone, Copy)]
pub struct NotificationRecord {
    pub version: u32,
    pub tip: Text,
    pub timeout: u32,
    pub flags: u32,
    pub text: Text,
    pub title: Text,
    pub state: u32,
    pub icon: bool,
}

// The stacking list: its ids, and 0 to the end.
#[derive(Clone, Copy)]
pub struct Stack {
    pub count: u8,
    pub ids: [WindowId; 64],
}

#[derive(Clone, Copy)]
pub struct DesktopRecord {
    pub active: WindowId,
    pub hooked: bool,
    pub syncing: bool,
    pub stack: Stack,
}

// A picture: mask, color table and color one after the other, and zeros to the end.
#[derive(Clone, Copy)]
pub struct PictureRecord {
    pub bits: u8,
    pub width: u16,
    pub height: u16,
    pub mask: u16,
    pub table: u16,
    pub color: u16,
    pub bytes: [u8; 4224],
}

// The newer fields of a window, after its older ones and two pictures.
fn newer(bytes: &[u8]) -> NewerRecord
    ensures { result ≡ newer_of (body_of newer_fields (drop newer_start bytes.now)) }
{
    let overlay_description = parts::text(bytes, 9338, 520);
    let overlay = parts::marked(wire::read_u8(bytes, 9320));
    NewerRecord {
        left_resize_margin: wire::read_u32(bytes, 9322),
        right_resize_margin: wire::read_u32(bytes, 9326),
        top_resize_margin: wire::read_u32(bytes, 9330),
        bottom_resize_margin: wire::read_u32(bytes, 9334),
        overlay_description,
        taskbar_button: wire::read_u8(bytes, 9860),
        enforce_server_z_order: wire::read_u8(bytes, 9861),
        app_bar_state: wire::read_u8(bytes, 9862),
        app_bar_edge: wire::read_u8(bytes, 9863),
        overlay,
    }
}

// A window in its layout: its older fields (layout::WINDOW bytes), two pictures, its newer fields (layout::NEWER bytes).
pub fn window(bytes: &[u8]) -> WindowRecord
    ensures { result ≡ window_of (window_in bytes.now) }
{
    let newer = newer(bytes);
    let title = parts::text(bytes, 15, 520);
    let client_offset = parts::point(bytes, 537);
    let client_size = parts::pair(bytes, 545);
    let window_offset = parts::point(bytes, 558);
    let client_delta = parts::point(bytes, 566);
    let window_size = parts::pair(bytes, 574);
    let window_rects = parts::rectangles(bytes, 582);
    let visible_offset = parts::point(bytes, 712);
    let visibility_rects = parts::rectangles(bytes, 720);
    let small = parts::marked(wire::read_u8(bytes, 0));
    let big = parts::marked(wire::read_u8(bytes, 1));
    let owner = parts::window_id(bytes, 2);
    let root_parent = parts::window_id(bytes, 554);
    WindowRecord {
        owner,
        style: wire::read_u32(bytes, 6),
        extended_style: wire::read_u32(bytes, 10),
        show_state: wire::read_u8(bytes, 14),
        title,
        client_offset,
        client_size,
        rp_content: wire::read_u8(bytes, 553),
        root_parent,
        window_offset,
        client_delta,
        window_size,
        window_rects,
        visible_offset,
        visibility_rects,
        small,
        big,
        newer,
    }
}

// A notification icon's record in its layout (layout::NOTIFICATION bytes).
pub fn notification(bytes: &[u8]) -> NotificationRecord
    ensures { result ≡ notification_of (body_of notification_fields bytes.now) }
{
    let tip = parts::text(bytes, 6, 256);
    let text = parts::text(bytes, 272, 510);
    let title = parts::text(bytes, 784, 126);
    let icon = parts::marked(wire::read_u8(bytes, 0));
    NotificationRecord {
        version: wire::read_u32(bytes, 2),
        tip,
        timeout: wire::read_u32(bytes, 264),
        flags: wire::read_u32(bytes, 268),
        text,
        title,
        state: wire::read_u32(bytes, 912),
        icon,
    }
}

// The desktop state in its layout (layout::DESKTOP bytes).
pub fn desktop(bytes: &[u8]) -> DesktopRecord
    ensures { result ≡ desktop_of (body_of desktop_fields bytes.now) }
{
    let stack = parts::stack(bytes, 6);
    let active = parts::window_id(bytes, 2);
    let hooked = wire::read_u8(bytes, 0) == 1;
    let syncing = wire::read_u8(bytes, 1) == 1;
    DesktopRecord {
        active,
        hooked,
        syncing,
        stack,
    }
}

// A picture in its layout (layout::PICTURE bytes).
pub fn picture(bytes: &[u8]) -> PictureRecord
    ensures { result ≡ picture_view bytes.now }
{
    let bits = wire::read_u8(bytes, 0);
    let width = wire::read_u16(bytes, 1);
    let height = wire::read_u16(bytes, 3);
    let first = wire::read_u16(bytes, 5);
    let second = wire::read_u16(bytes, 7);
    let mut content = [0u8; 4224];
    if order_icon::has_table(bits) {
        let third = wire::read_u16(bytes, 9);
        parts::put_bytes(&mut content, bytes, 11, 4224);
        return PictureRecord {
            bits,
            width,
            height,
            mask: second,
            table: first,
            color: third,
            bytes: content,
        };
    }
    parts::put_bytes(&mut content, bytes, 9, 4224);
    PictureRecord {
        bits,
        width,
        height,
        mask: first,
        table: 0,
        color: second,
        bytes: content,
    }
}
