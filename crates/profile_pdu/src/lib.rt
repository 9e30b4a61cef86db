// Messages read and written by the counter profile: judged by the plain rules, then by the end that sends them and the program that
// they start.
#![tactic(auto)]

ghost use Rattle.std.specs.Prelude.{◌+◌, ◌≤◌, true, ◌≡◌, length};
ghost use Rattle.wire.specs.Tests.{both};
ghost use Rattle.wire.specs.Parts.{slice};
ghost use Rattle.pdu.specs.Writing.{grants};
ghost use Rattle.pdu_words.specs.FromWords.{Stands, pdu_of};
ghost use Rattle.profile.specs.Ends.{server_only, read_taken};
ghost use Rattle.profile.specs.Programs.{begins, published, plain_flags};
ghost use Rattle.pdu_read.specs.Told.{Reads, Told};
ghost use Rattle.profile.specs.Counter.{verdict, counter_read, CounterOutcome};

use pdu::{
    ApplicationIdResponse, Execute, ExecuteResult, Handshake, HandshakeEx, Message, MinMaxInfo,
    MoveSize, SystemParameters,
};
use protocol::Refusal;

// The types of messages that the profile tells apart, as the first word.
const EXECUTE: u32 = Execute::TYPE as u32;

const SYSTEM_PARAMETERS: u32 = SystemParameters::TYPE as u32;

const HANDSHAKE: u32 = Handshake::TYPE as u32;

const MOVE_SIZE: u32 = MoveSize::TYPE as u32;

const MIN_MAX_INFO: u32 = MinMaxInfo::TYPE as u32;

const APPLICATION_ID_RESPONSE: u32 = ApplicationIdResponse::TYPE as u32;

const HANDSHAKE_EX: u32 = HandshakeEx::TYPE as u32;

const EXECUTE_RESULT: u32 = ExecuteResult::TYPE as u32;

// The settings that a server sends.
const SCREEN_SAVE_ACTIVE: u32 = 0x11;

const SCREEN_SAVE_SECURE: u32 = 0x77;

// ---- the end that sends a message

// Only a server sends a message of this type, system parameters by their setting.
#[tactic(auto, unfolding(profile::specs::Ends::server_only))]
fn is_server_only(kind: u32, setting: u32) -> bool
    ensures { result ≡ server_only kind setting }
{
    if kind == SYSTEM_PARAMETERS {
        return (setting == SCREEN_SAVE_ACTIVE) | (setting == SCREEN_SAVE_SECURE);
    }
    (kind == HANDSHAKE_EX)
        | (kind == MOVE_SIZE)
        | (kind == MIN_MAX_INFO)
        | (kind == APPLICATION_ID_RESPONSE)
        | (kind == EXECUTE_RESULT)
}

// Reading takes a message of this type: Handshake from either end.
fn is_read(kind: u32, setting: u32) -> bool
    ensures { result ≡ read_taken kind setting }
{
    (kind == HANDSHAKE) | is_server_only(kind, setting)
}

// ---- the program that a message starts

// The name of a published program begins with two bars and is longer than that.
fn is_published(name: &[u8]) -> bool
    ensures { result ≡ published name.now }
{
    let prefix = b"|\x00|\x00";
    (prefix.len() < name.len()) & name.starts_with(prefix)
}

// Neither 0002, 0004 nor 0010 is among the flags.
fn has_plain_flags(flags: u32) -> bool
    ensures { result ≡ plain_flags flags }
{
    (flags / 0x02 % 2 == 0) & (flags / 0x04 % 2 == 0) & (flags / 0x10 % 2 == 0)
}

// An Execute with these flags may be started, where its program name stands in src at this place.
fn is_permitted(flags: u32, at: u32, len: u32, src: &[u8]) -> bool
    ensures { at + len ≤ length src.now → result ≡ both (plain_flags flags) (published (slice src.now at len)) }
{
    let from = at as usize;
    let end = from + len as usize;
    if src.len() < end {
        return false;
    }
    has_plain_flags(flags) & is_published(&src[from..end])
}

// The refusal of the profile where the plain rules grant the words.
fn verdict(w: &[u32; 12], src: &[u8]) -> Option<Refusal>
    ensures { Stands w.now → grants (pdu_of w.now) src.now ≡ true → result ≡ verdict (pdu_of w.now) src.now }
{
    if is_server_only(w[0], w[1]) {
        return Some(Refusal::WrongEnd);
    }
    if w[0] != EXECUTE {
        return None;
    }
    if is_permitted(w[1], w[2], w[3], src) {
        None
    } else {
        Some(Refusal::NotPermitted)
    }
}

// ---- reading and writing

// The words of the record of a message, or the first refusal.
fn read(message: &[u8], words: &mut [u32; 12]) -> Result<(), Refusal>
    ensures { Reads (counter_read message.now) words.old result words.new }
{
    let mut w = [0u32; 12];
    pdu_read::read(message, &mut w)?;
    if !is_read(w[0], w[1]) {
        return Err(Refusal::WrongEnd);
    }
    *words = w;
    Ok(())
}

// Reads a message: the number of the refusal, and the words of its record where that is 0.
pub fn read_words(message: &[u8], words: &mut [u32; 12]) -> u32
    ensures { Told (counter_read message.now) words.old result words.new }
{
    match read(message, words) {
        Ok(()) => 0,
        Err(refusal) => u32::from(refusal),
    }
}

// Writes the record that words stand for, its strings taken from src, to the start of out.
pub fn write_words(w: &[u32; 12], src: &[u8], out: &mut [u8]) -> Result<usize, Refusal>
    ensures { CounterOutcome w.now src.now out.old result out.new }
{
    pdu_write::write_unless(w, src, out, verdict(w, src))
}
