// The class of what a frame reads as, 0 to 14; 15: no frame.
ghost use Rattle.std.specs.Prelude.{◌≡◌, ◌<◌};
ghost use Rattle.census.specs.Class.{address_class, event_class, message_class, refused_class};
ghost use Rattle.census.specs.Promises.{ClassOfPromise};

use frames::{Address, Message, Scheme};

// Kept: `small` in four contracts: what may not change: ClassOfPromise has it, and each part gives its own.
// Kept, beside `words::address_kind`: the new form is no plainer: the class of an address is paper 02's number, its kind paper 01's.
fn address_class(address: Address) -> usize
    ensures same { result ≡ address_class address }
    ensures small { result < 16 }
{
    match address {
        Address::Short(_) => 0,
        Address::Group(_) => 1,
        Address::Unaddressed => 2,
        Address::Broadcast => 3,
    }
}

fn event_class(scheme: Scheme) -> usize
    ensures same { result ≡ event_class scheme }
    ensures small { result < 16 }
{
    7 + scheme as usize
}

fn message_class(message: Message) -> usize
    ensures same { result ≡ message_class message }
    ensures small { result < 16 }
{
    match message {
        Message::Command(address, _, _) => address_class(address),
        Message::Special(_, _, _) => 4,
        Message::Event(scheme, _, _, _) => event_class(scheme),
        Message::Power(_, _) => 12,
    }
}

// Kept: a number: what may not change (`census:class_of` has a class for every number that a refused reading holds).
#[tactic(auto, using(laws::proofs::Tests::tests), unfolding(crate::specs::Class::refused_class))]
fn refused_class(number: u8) -> usize
    ensures same { result ≡ refused_class number }
    ensures small { result < 16 }
{
    match number {
        2 => 5,
        3 => 6,
        4 => 14,
        5 => 13,
        _ => 15,
    }
}

// A refusal by its number, any byte: one that no frame is refused with is no frame's class.
pub fn class_of(reading: Result<Message, u8>) -> usize
    ensures { ClassOfPromise reading result }
{
    match reading {
        Ok(message) => message_class(message),
        Err(number) => refused_class(number),
    }
}
