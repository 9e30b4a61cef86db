// A control message judged, and put at the start of lent output memory.
#![tactic(auto)]

mod kinds;
mod numbers;
mod positions;
mod settings;
mod shapes;
mod strings;

ghost use Rattle.std.specs.Prelude.{◌≡◌};
ghost use Rattle.pdu_put.specs.Judging.{judged, Ready, Encoded};

use pdu::Message;
pub use positions::{MinMaxInfoWords, MoveSizeWords, SystemMenuWords, WindowMoveWords};
pub use settings::SettingWords;

// A kind of message that is written.
pub trait Put: Message {
    // The bytes that it takes, where each number is in its set, and src of n bytes has each string whole.
    fn judge(self, n: usize) -> Option<usize>
        ensures { result ≡ judged (Self.message self) n };

    // Puts it at the start of out, its strings taken from src.
    fn put(self, out: &mut [u8], src: &[u8])
        requires { Ready (Self.message self) src.now out.old }
        ensures { Encoded (Self.message self) src.now out.old out.new };
}
