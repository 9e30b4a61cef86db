// Messages with positions, as words: a position goes from its word of 4 bytes to its 2, and no signed number stands between.
#![tactic(auto, unfolding(wire::specs::Numbers::bytes_of, wire::specs::Numbers::put_all, pdu::specs::Layout::widths, pdu::specs::Records::kind_of, pdu::specs::Records::nums_of, pdu::specs::Records::size_of, pdu::specs::Records::spans_of, pdu::specs::Rules::allowed, pdu::specs::Writing::joined, pdu::specs::Writing::strings_of, pdu::specs::Writing::encode, pdu_words::specs::FromWords::record_from))]

ghost use Rattle.std.specs.Prelude.{◌≡◌, ◌≤◌, length};
ghost use Rattle.wire.specs.Parts.{splice};
ghost use Rattle.wire.specs.Numbers.{put_all};
ghost use Rattle.pdu.specs.declared.Pdu.TheVariants as P;
ghost use Rattle.pdu.specs.Kinds as K;
ghost use Rattle.pdu.specs.Writing.{row, line};
ghost use Rattle.pdu_words.specs.FromWords.{window_move_from, move_size_from, min_max_info_from, system_menu_from};
ghost use Rattle.pdu_from_words.specs.Fitting.{Fitting};

use crate::Put;
use crate::numbers::{put_head, put_quad};
use crate::shapes::{put_four, put_two};
use pdu::{Message, MinMaxInfo, MoveSize, SystemMenu, WindowMove};
use pdu_from_words::FromWords;
use pdu_words_rule::Words;

// The words of a message of each of these kinds.
#[derive(Clone, Copy, Debug)]
pub struct WindowMoveWords {
    pub words: [u32; 12],
    ghost fits: { Fitting 0x08 words },
}

#[derive(Clone, Copy, Debug)]
pub struct MoveSizeWords {
    pub words: [u32; 12],
    ghost fits: { Fitting 0x09 words },
}

#[derive(Clone, Copy, Debug)]
pub struct MinMaxInfoWords {
    pub words: [u32; 12],
    ghost fits: { Fitting 0x0A words },
}

#[derive(Clone, Copy, Debug)]
pub struct SystemMenuWords {
    pub words: [u32; 12],
    ghost fits: { Fitting 0x0C words },
}

// Each puts its record: the positions are the low halves of their words.
fn put_window_move(out: &mut [u8], w: &[u32; 12])
    requires { (16 ≤ length out.old) × Fitting 0x08 w.now }
    ensures { out.new ≡ splice out.old 0 (put_all (row (P.WindowMove (window_move_from w.now))) (line (P.WindowMove (window_move_from w.now)))) }
{
    let left = signs::low_half(w[2]);
    let top = signs::low_half(w[3]);
    let right = signs::low_half(w[4]);
    let bottom = signs::low_half(w[5]);
    put_four(out, WindowMove::TYPE, w[1], left, top, right, bottom);
}

fn put_move_size(out: &mut [u8], w: &[u32; 12])
    requires { (16 ≤ length out.old) × Fitting 0x09 w.now }
    ensures { out.new ≡ splice out.old 0 (put_all (row (P.MoveSize (move_size_from w.now))) (line (P.MoveSize (move_size_from w.now)))) }
{
    let start = u16::from(w[2] != 0);
    let kind = w[3] as u16;
    let x = signs::low_half(w[4]);
    let y = signs::low_half(w[5]);
    put_four(out, MoveSize::TYPE, w[1], start, kind, x, y);
}

fn put_min_max_info(out: &mut [u8], w: &[u32; 12])
    requires { (24 ≤ length out.old) × Fitting 0x0A w.now }
    ensures { out.new ≡ splice out.old 0 (put_all (row (P.MinMaxInfo (min_max_info_from w.now))) (line (P.MinMaxInfo (min_max_info_from w.now)))) }
{
    let width = w[2] as u16;
    let height = w[3] as u16;
    let x = signs::low_half(w[4]);
    let y = signs::low_half(w[5]);
    let a = w[6] as u16;
    let b = w[7] as u16;
    let c = w[8] as u16;
    let d = w[9] as u16;
    put_head(out, MinMaxInfo::TYPE, 24, w[1]);
    put_quad(out, 8, width, height, x, y);
    put_quad(out, 16, a, b, c, d);
}

fn put_system_menu(out: &mut [u8], w: &[u32; 12])
    requires { (12 ≤ length out.old) × Fitting 0x0C w.now }
    ensures { out.new ≡ splice out.old 0 (put_all (row (P.SystemMenu (system_menu_from w.now))) (line (P.SystemMenu (system_menu_from w.now)))) }
{
    let left = signs::low_half(w[2]);
    let top = signs::low_half(w[3]);
    put_two(out, SystemMenu::TYPE, w[1], left, top);
}

impl Message for WindowMoveWords {
    const TYPE: u16 = 0x08;

    ghost TYPE = { 0x08 };

    ghost message = { λ m. P.WindowMove (window_move_from m.words) };

    ghost is_of_its_type = { λ m. K.window_move (window_move_from m.words) };
}

impl Words for WindowMoveWords {
    #[inline(always)]
    fn stand(w: &[u32; 12]) -> bool {
        WindowMove::stand(w)
    }
}

impl FromWords for WindowMoveWords {
    #[inline(always)]
    fn from_words(w: &[u32; 12]) -> WindowMoveWords {
        WindowMoveWords { words: *w }
    }
}

impl Put for WindowMoveWords {
    #[inline(always)]
    fn judge(self, _n: usize) -> Option<usize> {
        Some(16)
    }

    #[inline(always)]
    fn put(self, out: &mut [u8], _src: &[u8]) {
        put_window_move(out, &self.words)
    }
}

impl Message for MoveSizeWords {
    const TYPE: u16 = 0x09;

    ghost TYPE = { 0x09 };

    ghost message = { λ m. P.MoveSize (move_size_from m.words) };

    ghost is_of_its_type = { λ m. K.move_size (move_size_from m.words) };
}

impl Words for MoveSizeWords {
    #[inline(always)]
    fn stand(w: &[u32; 12]) -> bool {
        MoveSize::stand(w)
    }
}

impl FromWords for MoveSizeWords {
    #[inline(always)]
    fn from_words(w: &[u32; 12]) -> MoveSizeWords {
        MoveSizeWords { words: *w }
    }
}

impl Put for MoveSizeWords {
    #[inline(always)]
    fn judge(self, _n: usize) -> Option<usize> {
        pdu_rule::move_size_type_allowed(self.words[3] as u16).then_some(16)
    }

    #[inline(always)]
    fn put(self, out: &mut [u8], _src: &[u8]) {
        put_move_size(out, &self.words)
    }
}

impl Message for MinMaxInfoWords {
    const TYPE: u16 = 0x0A;

    ghost TYPE = { 0x0A };

    ghost message = { λ m. P.MinMaxInfo (min_max_info_from m.words) };

    ghost is_of_its_type = { λ m. K.min_max_info (min_max_info_from m.words) };
}

impl Words for MinMaxInfoWords {
    #[inline(always)]
    fn stand(w: &[u32; 12]) -> bool {
        MinMaxInfo::stand(w)
    }
}

impl FromWords for MinMaxInfoWords {
    #[inline(always)]
    fn from_words(w: &[u32; 12]) -> MinMaxInfoWords {
        MinMaxInfoWords { words: *w }
    }
}

impl Put for MinMaxInfoWords {
    #[inline(always)]
    fn judge(self, _n: usize) -> Option<usize> {
        Some(24)
    }

    #[inline(always)]
    fn put(self, out: &mut [u8], _src: &[u8]) {
        put_min_max_info(out, &self.words)
    }
}

impl Message for SystemMenuWords {
    const TYPE: u16 = 0x0C;

    ghost TYPE = { 0x0C };

    ghost message = { λ m. P.SystemMenu (system_menu_from m.words) };

    ghost is_of_its_type = { λ m. K.system_menu (system_menu_from m.words) };
}

impl Words for SystemMenuWords {
    #[inline(always)]
    fn stand(w: &[u32; 12]) -> bool {
        SystemMenu::stand(w)
    }
}

impl FromWords for SystemMenuWords {
    #[inline(always)]
    fn from_words(w: &[u32; 12]) -> SystemMenuWords {
        SystemMenuWords { words: *w }
    }
}

impl Put for SystemMenuWords {
    #[inline(always)]
    fn judge(self, _n: usize) -> Option<usize> {
        Some(12)
    }

    #[inline(always)]
    fn put(self, out: &mut [u8], _src: &[u8]) {
        put_system_menu(out, &self.words)
    }
}
