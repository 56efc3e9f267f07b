// A reading as one number of eight bytes, and back.
ghost use Rattle.std.specs.Prelude.{◌≡◌, Ok};
ghost use Rattle.words.specs.Word.{word_of, message_at, matched};
ghost use Rattle.words.specs.Promises.{WordOfPromise, MessageOfPromise};

use crate::values::{address_at, address_kind, address_number, field_at, target_kind};
use frames::{Message, aimed_at, scheme_at, target_at, target_number};
use refusals::Refusal;

// The first byte is 0, the second the kind; the values follow, and the last byte is 0.
#[tactic(auto, unfolding(crate::specs::Word::six_bytes, laws::specs::Bits::bits))]
fn message_word(message: Message) -> u64
    ensures { result ≡ word_of (Ok message) }
{
    u64::from_be_bytes(match message {
        Message::Command(address, target, opcode) => {
            let (a, b) = (address_kind(address), address_number(address));
            let (c, d) = (target_kind(target), target_number(target));
            [0, 0, a, b, c, d, opcode, 0]
        }
        Message::Special(number, x, y) => [0, 1, number, x, y, 0, 0, 0],
        Message::Event(scheme, first, second, information) => {
            let [high, low] = information.to_be_bytes();
            [0, 2 + scheme as u8, first, second, high, low, 0, 0]
        }
        Message::Power(group, short) => {
            let (a, b) = (u8::from(group.is_some()), group.unwrap_or(0));
            let (c, d) = (u8::from(short.is_some()), short.unwrap_or(0));
            [0, 7, a, b, c, d, 0, 0]
        }
    })
}

pub fn word_of(reading: Result<Message, u8>) -> u64
    ensures { WordOfPromise reading result }
{
    match reading {
        Ok(message) => message_word(message),
        Err(number) => u64::from(number),
    }
}

#[tactic(auto, unfolding(crate::specs::Word::message_at))]
fn message_at(kind: u8, a: u8, b: u8, c: u8, d: u8, e: u8) -> Result<Message, Refusal>
    ensures { result ≡ message_at kind a b c d e }
{
    match kind {
        0 => aimed_at(address_at(a, b), target_at(c, d), e),
        1 => Ok(Message::Special(a, b, c)),
        7 => Ok(Message::Power(field_at(a, b), field_at(c, d))),
        _ => Ok(Message::Event(scheme_at(kind - 2), a, b, u16::from_be_bytes([c, d]))),
    }
}

fn matched_with(reading: Result<Message, Refusal>, word: u64) -> Result<Message, Refusal>
    ensures { result ≡ matched reading word }
{
    match reading {
        Ok(message) if message_word(message) == word => Ok(message),
        _ => Err(Refusal::OutOfRange),
    }
}

#[tactic(auto, unfolding(crate::specs::Word::message_of, laws::specs::Bits::bits))]
pub fn message_of(word: u64) -> Result<Message, Refusal>
    ensures { MessageOfPromise word result }
{
    let [_, kind, a, b, c, d, e, _] = word.to_be_bytes();
    matched_with(message_at(kind, a, b, c, d, e), word)
}
