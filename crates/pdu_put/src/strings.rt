// The messages with strings, granted and with room for them.
ghost use Rattle.std.specs.Prelude.{◌≡◌, ◌+◌};
ghost use Rattle.pdu.specs.declared.Pdu.TheVariants as P;
ghost use Rattle.pdu.specs.declared.Setting.TheVariants as S;
ghost use Rattle.pdu_put.specs.Judging.{Encoded, ExecuteReady, TextReady};

use crate::numbers::{copy_string, put_application_id, put_head, put_pair, put_quad};
use pdu::{ApplicationIdResponse, Execute, ExecuteResult, HighContrast, Message, SystemParameters};

pub(crate) fn put_execute(out: &mut [u8], src: &[u8], e: Execute)
    requires { ExecuteReady e src.now out.old }
    ensures { Encoded (P.Execute e) src.now out.old out.new }
{
    let a = e.exe_or_file.len;
    let b = e.working_dir.len;
    let m = 12 + a;
    let k = m + b;
    let n = k + e.arguments.len;
    put_pair(out, 0, Execute::TYPE, n as u16);
    put_quad(out, 4, e.flags, a as u16, b as u16, e.arguments.len as u16);
    copy_string(out, 12, src, e.exe_or_file);
    copy_string(out, m as usize, src, e.working_dir);
    copy_string(out, k as usize, src, e.arguments);
}

pub(crate) fn put_application_id_response(out: &mut [u8], src: &[u8], e: ApplicationIdResponse)
    requires { TextReady e.application_id 528 src.now out.old }
    ensures { Encoded (P.ApplicationIdResponse e) src.now out.old out.new }
{
    put_head(out, ApplicationIdResponse::TYPE, 528, e.window_id.id);
    put_application_id(out, src, e.application_id);
}

// Padding is 0.
pub(crate) fn put_execute_result(out: &mut [u8], src: &[u8], e: ExecuteResult)
    requires { TextReady e.exe_or_file (16 + e.exe_or_file.len) src.now out.old }
    ensures { Encoded (P.ExecuteResult e) src.now out.old out.new }
{
    let a = e.exe_or_file.len;
    let n = 16 + a;
    put_quad(
        out,
        0,
        ExecuteResult::TYPE,
        n as u16,
        e.flags,
        e.exec_result,
    );
    wire::write_u32(out, 8, e.raw_result);
    put_pair(out, 12, 0, a as u16);
    copy_string(out, 16, src, e.exe_or_file);
}

// The outer length of a color scheme is the inner plus 2.
pub(crate) fn put_high_contrast(out: &mut [u8], src: &[u8], e: HighContrast)
    requires { TextReady e.color_scheme (18 + e.color_scheme.len) src.now out.old }
    ensures { Encoded (P.SystemParameters (record { setting = S.HighContrast e })) src.now out.old out.new }
{
    let n = e.color_scheme.len;
    let size = 18 + n;
    put_head(out, SystemParameters::TYPE, size as u16, 0x43);
    wire::write_u32(out, 8, e.flags);
    wire::write_u32(out, 12, n + 2);
    wire::write_u16(out, 16, n as u16);
    copy_string(out, 18, src, e.color_scheme);
}
