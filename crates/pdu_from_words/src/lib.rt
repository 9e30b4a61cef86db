// The record that words stand for.
#![tactic(auto)]

mod records;
mod settings;

ghost use Rattle.std.specs.Prelude.{◌≡◌, get_or};
ghost use Rattle.pdu_words.specs.FromWords.{record_from, Stands, pdu_of};
ghost use Rattle.pdu_from_words.specs.Fitting.{Fitting};

use pdu::{
    Activate, ApplicationIdResponse, ClientInformation, Execute, ExecuteResult, GetApplicationId,
    Handshake, HandshakeEx, Message, MinMaxInfo, MoveSize, NotifyEvent, Pdu, SystemCommand,
    SystemMenu, SystemParameters, WindowMove,
};
pub use settings::{area_from, high_contrast_from, value_from};

// A kind of message that twelve words stand for.
pub trait FromWords: Message {
    // The message of words that are within its limits.
    fn from_words(w: &[u32; 12]) -> Self
        requires { Fitting Self.TYPE w.now }
        ensures { Self.message result ≡ record_from Self.TYPE w.now };
}

// The message of words that stand for a record of its type.
#[inline(always)]
#[tactic(auto, using(crate::proofs::Fitting::of_type))]
pub fn message_from<M: FromWords>(w: &[u32; 12]) -> M
    requires stands { Stands w.now }
    requires of_the_type { get_or w.now 0 0 ≡ M.TYPE }
    ensures { M.message result ≡ pdu_of w.now }
{
    M::from_words(w)
}

// The record of words that stand for one, by its type.
#[tactic(auto, using(crate::proofs::Fitting::type_small), unfolding(pdu_words::specs::FromWords::stand, pdu::specs::Layout::known))]
pub fn record_from(w: &[u32; 12]) -> Pdu
    requires { Stands w.now }
    ensures { result ≡ pdu_of w.now }
{
    match w[0] as u16 {
        Execute::TYPE => Pdu::Execute(message_from(w)),
        Activate::TYPE => Pdu::Activate(message_from(w)),
        SystemCommand::TYPE => Pdu::SystemCommand(message_from(w)),
        Handshake::TYPE => Pdu::Handshake(message_from(w)),
        NotifyEvent::TYPE => Pdu::NotifyEvent(message_from(w)),
        WindowMove::TYPE => Pdu::WindowMove(message_from(w)),
        MoveSize::TYPE => Pdu::MoveSize(message_from(w)),
        MinMaxInfo::TYPE => Pdu::MinMaxInfo(message_from(w)),
        ClientInformation::TYPE => Pdu::ClientInformation(message_from(w)),
        SystemMenu::TYPE => Pdu::SystemMenu(message_from(w)),
        GetApplicationId::TYPE => Pdu::GetApplicationId(message_from(w)),
        ApplicationIdResponse::TYPE => Pdu::ApplicationIdResponse(message_from(w)),
        SystemParameters::TYPE => Pdu::SystemParameters(message_from(w)),
        HandshakeEx::TYPE => Pdu::HandshakeEx(message_from(w)),
        _ => Pdu::ExecuteResult(message_from(w)),
    }
}
