// Whether words stand for a record.
#![tactic(auto)]

mod kinds;
mod limits;

ghost use Rattle.std.specs.Prelude.{◌≡◌, get_or};
ghost use Rattle.pdu_words.specs.FromWords.{stand};

use pdu::{
    Activate, ApplicationIdResponse, ClientInformation, Execute, ExecuteResult, GetApplicationId,
    Handshake, HandshakeEx, Message, MinMaxInfo, MoveSize, NotifyEvent, SystemCommand, SystemMenu,
    SystemParameters, WindowMove,
};

// A kind of message with the rule for its words.
pub trait Words: Message {
    // Words of this type stand for a record: each is at most the greatest number of its field, 1 for start and 0 after the last
    // field, and a position is a sign-extended number of 16 bits.
    fn stand(w: &[u32; 12]) -> bool
        requires { get_or w.now 0 0 ≡ Self.TYPE }
        ensures { result ≡ stand w.now };
}

// Words stand for a record: the type is known, and they are those of a record of that type.
#[tactic(auto, unfolding(pdu_words::specs::FromWords::stand, pdu::specs::Layout::known))]
pub fn is_record(w: &[u32; 12]) -> bool
    ensures { result ≡ stand w.now }
{
    match u16::try_from(w[0]) {
        Ok(Execute::TYPE) => Execute::stand(w),
        Ok(Activate::TYPE) => Activate::stand(w),
        Ok(SystemCommand::TYPE) => SystemCommand::stand(w),
        Ok(Handshake::TYPE) => Handshake::stand(w),
        Ok(NotifyEvent::TYPE) => NotifyEvent::stand(w),
        Ok(WindowMove::TYPE) => WindowMove::stand(w),
        Ok(MoveSize::TYPE) => MoveSize::stand(w),
        Ok(MinMaxInfo::TYPE) => MinMaxInfo::stand(w),
        Ok(ClientInformation::TYPE) => ClientInformation::stand(w),
        Ok(SystemMenu::TYPE) => SystemMenu::stand(w),
        Ok(GetApplicationId::TYPE) => GetApplicationId::stand(w),
        Ok(ApplicationIdResponse::TYPE) => ApplicationIdResponse::stand(w),
        Ok(SystemParameters::TYPE) => SystemParameters::stand(w),
        Ok(HandshakeEx::TYPE) => HandshakeEx::stand(w),
        Ok(ExecuteResult::TYPE) => ExecuteResult::stand(w),
        _ => false,
    }
}
