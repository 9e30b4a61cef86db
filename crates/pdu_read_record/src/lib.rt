// A control message read to a record: its words, and the record that they stand for.
#![tactic(auto)]

ghost use Rattle.pdu.specs.RoundTrip.{ReadOutcome};

use pdu::Pdu;
use protocol::Refusal;

// The record of a message, its strings where they stand in s, or the first refusal.
pub fn read_pdu(s: &[u8]) -> Result<Pdu, Refusal>
    ensures { ReadOutcome s.now result }
{
    let mut words = [0u32; 12];
    let read = match pdu_read::read(s, &mut words) {
        Ok(()) => Ok(pdu_from_words::record_from(&words)),
        Err(refusal) => Err(refusal),
    };
    read
}
