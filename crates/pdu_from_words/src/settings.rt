// The setting of words that are within its limits: its number stands in the second word, its data after it.
ghost use Rattle.std.specs.Prelude.{◌≡◌, get_or};
ghost use Rattle.pdu_words.specs.FromWords.{byte_most, area_most, setting_most, Within, area_from, scheme_from, setting_from};

use crate::FromWords;
use pdu::{HighContrast, Rectangle, Setting, Span, SystemParameters};

// The body of a setting that is one byte, a rectangle, a color scheme.
pub fn value_from(w: &[u32; 12]) -> u8
    requires { Within w.now (byte_most (get_or w.now 1 0)) }
    ensures { result ≡ get_or w.now 2 0 }
{
    w[2] as u8
}

pub fn area_from(w: &[u32; 12]) -> Rectangle
    requires { Within w.now (area_most (get_or w.now 1 0)) }
    ensures { result ≡ area_from w.now }
{
    Rectangle {
        left: w[2] as u16,
        top: w[3] as u16,
        right: w[4] as u16,
        bottom: w[5] as u16,
    }
}

pub fn high_contrast_from(w: &[u32; 12]) -> HighContrast
    ensures { result ≡ scheme_from w.now }
{
    HighContrast {
        flags: w[2],
        color_scheme: Span {
            at: w[3],
            len: w[4],
        },
    }
}

#[inline(always)]
#[tactic(auto, unfolding(pdu_words::specs::FromWords::data_from, pdu::specs::Settings::setting_with))]
fn setting_from(w: &[u32; 12]) -> Setting
    requires { Within w.now (setting_most (get_or w.now 1 0)) }
    ensures { result ≡ setting_from w.now }
{
    let n = w[1];
    if pdu_rule::is_byte_setting(n) {
        return pdu_rule::byte_setting(n, value_from(w));
    }
    if pdu_rule::is_area_setting(n) {
        return pdu_rule::area_setting(n, area_from(w));
    }
    Setting::HighContrast(high_contrast_from(w))
}

impl FromWords for SystemParameters {
    #[inline(always)]
    #[tactic(auto, unfolding(pdu_words::specs::FromWords::record_from))]
    fn from_words(w: &[u32; 12]) -> SystemParameters {
        SystemParameters {
            setting: setting_from(w),
        }
    }
}
