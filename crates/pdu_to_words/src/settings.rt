// The words of a setting: its number stands in the second word, its data after it.
ghost use Rattle.std.specs.Prelude.{◌≡◌};
ghost use Rattle.pdu.specs.Settings.{high_contrast, byte, area, scheme};
ghost use Rattle.pdu_words.specs.Words.{setting_words};

use pdu::{HighContrast, Rectangle};

// A setting whose body is one byte, a rectangle, a color scheme: its number stands in the second word.
pub fn byte_setting_words(words: &mut [u32; 12], number: u32, value: u8)
    ensures { words.new ≡ setting_words number (byte value) }
{
    *words = [0; 12];
    words[0] = 0x03;
    words[1] = number;
    words[2] = value as u32;
}

pub fn area_setting_words(words: &mut [u32; 12], number: u32, place: Rectangle)
    ensures { words.new ≡ setting_words number (area place) }
{
    *words = [0; 12];
    words[0] = 0x03;
    words[1] = number;
    words[2] = place.left as u32;
    words[3] = place.top as u32;
    words[4] = place.right as u32;
    words[5] = place.bottom as u32;
}

pub fn high_contrast_words(words: &mut [u32; 12], e: HighContrast)
    ensures { words.new ≡ setting_words high_contrast (scheme e) }
{
    *words = [0; 12];
    words[0] = 0x03;
    words[1] = 0x43;
    words[2] = e.flags;
    words[3] = e.color_scheme.at;
    words[4] = e.color_scheme.len;
}
