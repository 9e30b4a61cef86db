// System parameters, by the shape of their body. They stay words: an enum handed between such functions made reading six times slower.
ghost use Rattle.std.specs.Prelude.{◌≡◌, get_or};
ghost use Rattle.pdu.specs.declared.Pdu.TheVariants as P;
ghost use Rattle.pdu.specs.declared.Setting.TheVariants as S;
ghost use Rattle.pdu.specs.Kinds as K;
ghost use Rattle.pdu_words.specs.FromWords.{setting_most, Within, system_parameters_from};
ghost use Rattle.pdu_put.specs.Judging.{judged, Ready, Encoded};

use crate::Put;
use crate::numbers::lies_in;
use crate::shapes::{put_byte, put_four};
use crate::strings::put_high_contrast;
use pdu::{HighContrast, Message, SystemParameters};
use pdu_from_words::FromWords;
use pdu_words_rule::Words;

// The words of system parameters.
#[derive(Clone, Copy, Debug)]
pub struct SettingWords {
    pub words: [u32; 12],
    ghost within: { Within words (setting_most (get_or words 1 0)) },
}

impl Message for SettingWords {
    const TYPE: u16 = 0x03;

    ghost TYPE = { 0x03 };

    ghost message = { λ s. P.SystemParameters (system_parameters_from s.words) };

    ghost is_of_its_type = { λ s. K.system_parameters (system_parameters_from s.words) };
}

impl Words for SettingWords {
    #[inline(always)]
    fn stand(w: &[u32; 12]) -> bool {
        SystemParameters::stand(w)
    }
}

impl FromWords for SettingWords {
    #[inline(always)]
    #[tactic(auto, unfolding(pdu_words::specs::FromWords::record_from))]
    fn from_words(w: &[u32; 12]) -> SettingWords {
        SettingWords { words: *w }
    }
}

#[tactic(auto, unfolding(pdu::specs::Rules::allowed, pdu::specs::Records::spans_of, pdu::specs::Records::size_of, pdu::specs::Settings::data_of, pdu::specs::Settings::data_allowed, pdu::specs::Settings::data_spans, pdu::specs::Settings::data_size))]
fn judge_high_contrast(e: HighContrast, n: usize) -> Option<usize>
    ensures { result ≡ judged (P.SystemParameters (record { setting = S.HighContrast e })) n }
{
    let granted = pdu_rule::high_contrast_allowed(e) & lies_in(n, e.color_scheme);
    granted.then_some(18 + e.color_scheme.len as usize)
}

fn judge_setting(w: &[u32; 12], n: usize) -> Option<usize>
    ensures { result ≡ judged (P.SystemParameters (system_parameters_from w.now)) n }
{
    let number = w[1];
    if pdu_rule::is_byte_setting(number) {
        return Some(9);
    }
    if pdu_rule::is_area_setting(number) {
        return Some(16);
    }
    judge_high_contrast(pdu_from_words::high_contrast_from(w), n)
}

fn put_setting(out: &mut [u8], src: &[u8], w: &[u32; 12])
    requires { Within w.now (setting_most (get_or w.now 1 0)) × Ready (P.SystemParameters (system_parameters_from w.now)) src.now out.old }
    ensures { Encoded (P.SystemParameters (system_parameters_from w.now)) src.now out.old out.new }
{
    let n = w[1];
    if pdu_rule::is_byte_setting(n) {
        let value = pdu_from_words::value_from(w);
        return put_byte(out, SystemParameters::TYPE, n, value);
    }
    if pdu_rule::is_area_setting(n) {
        let a = pdu_from_words::area_from(w);
        return put_four(
            out,
            SystemParameters::TYPE,
            n,
            a.left,
            a.top,
            a.right,
            a.bottom,
        );
    }
    let e = pdu_from_words::high_contrast_from(w);
    put_high_contrast(out, src, e)
}

impl Put for SettingWords {
    #[inline(always)]
    fn judge(self, n: usize) -> Option<usize> {
        judge_setting(&self.words, n)
    }

    #[inline(always)]
    fn put(self, out: &mut [u8], src: &[u8]) {
        put_setting(out, src, &self.words)
    }
}
