// From a frame to a message. What `read` is made of is always put into its caller, and it too: each frame of a trace is read, and a
// message that goes through memory costs a part of that (docs/LOOK-BACK.md).
ghost use Rattle.std.specs.Prelude.{◌≡◌};
ghost use Rattle.frames.specs.Read.{address_of, target_of, aimed, command_of, field_of, power_of, scheme_of};
ghost use Rattle.frames.specs.Read.{first_field, other_of, event_of};
ghost use Rattle.frames.specs.Promises.{ReadPromise};

use crate::kinds::kind;
use crate::message::{Address, Addressed, Message, Scheme, Target};
use crate::places::bits;
use crate::values::target_at;
use refusals::Refusal;

// An odd address byte.
#[tactic(auto, unfolding(crate::specs::Read::address_of))]
fn address_of(byte: u32) -> Result<Addressed, Refusal>
    ensures { result ≡ address_of byte }
{
    if bits(byte, 7, 7) == 0 {
        Ok(Addressed::To(Address::Short(bits(byte, 6, 1) as u8)))
    } else if bits(byte, 7, 6) == 2 {
        Ok(Addressed::To(Address::Group(bits(byte, 5, 1) as u8)))
    } else if byte == 0xFD {
        Ok(Addressed::To(Address::Unaddressed))
    } else if byte == 0xFF {
        Ok(Addressed::To(Address::Broadcast))
    } else if bits(byte, 7, 5) == 6 {
        Ok(Addressed::Special(bits(byte, 4, 1) as u8))
    } else {
        Err(Refusal::ReservedAddress)
    }
}

#[tactic(auto, unfolding(crate::specs::Read::target_of))]
fn target_of(byte: u8) -> Option<Target>
    ensures { result ≡ target_of byte }
{
    target_at(kind(byte), byte % 32)
}

pub fn aimed_at(address: Address, targeted: Option<Target>, opcode: u8) -> Result<Message, Refusal>
    ensures { result ≡ aimed address targeted opcode }
{
    let target = targeted.ok_or(Refusal::ReservedInstance)?;
    Ok(Message::Command(address, target, opcode))
}

#[inline(always)]
#[tactic(auto, unfolding(crate::specs::Read::command_of))]
fn read_command(frame: u32) -> Result<Message, Refusal>
    ensures { result ≡ command_of frame }
{
    let instance = bits(frame, 15, 8) as u8;
    let opcode = bits(frame, 7, 0) as u8;
    match address_of(bits(frame, 23, 16))? {
        Addressed::To(address) => aimed_at(address, target_of(instance), opcode),
        Addressed::Special(number) => Ok(Message::Special(number, instance, opcode)),
    }
}

// The scheme of an event, by its bits 23, 22 and 15.
#[tactic(auto, unfolding(crate::specs::Read::scheme_of))]
fn scheme_of(b23: u32, b22: u32, b15: u32) -> Option<Scheme>
    ensures { result ≡ scheme_of b23 b22 b15 }
{
    match (b23, b22, b15) {
        (0, _, 0) => Some(Scheme::ShortType),
        (0, _, _) => Some(Scheme::ShortNumber),
        (_, 0, 0) => Some(Scheme::GroupType),
        (_, 0, _) => Some(Scheme::TypeNumber),
        (_, _, 0) => Some(Scheme::PrimaryType),
        _ => None,
    }
}

// The first and the last arm are alike: put together, each event of a trace takes longer (docs/LOOK-BACK.md).
fn first_field(scheme: Scheme, frame: u32) -> u8
    ensures { result ≡ first_field scheme frame }
{
    match scheme {
        Scheme::TypeNumber => bits(frame, 21, 17) as u8,
        Scheme::ShortType | Scheme::ShortNumber => bits(frame, 22, 17) as u8,
        Scheme::GroupType | Scheme::PrimaryType => bits(frame, 21, 17) as u8,
    }
}

// A bit, and the field that it announces.
#[tactic(auto, unfolding(crate::specs::Read::field_of))]
fn field_of(announced: u32, value: u8) -> Result<Option<u8>, Refusal>
    ensures { result ≡ field_of announced value }
{
    match (announced == 1).then_some(value) {
        None if value != 0 => Err(Refusal::BlankNotZero),
        field => Ok(field),
    }
}

#[inline(always)]
#[tactic(auto, unfolding(crate::specs::Read::power_of, crate::specs::Read::field_of))]
fn read_power(frame: u32) -> Result<Message, Refusal>
    ensures { result ≡ power_of frame }
{
    let group = field_of(bits(frame, 12, 12), bits(frame, 11, 7) as u8)?;
    let short = field_of(bits(frame, 6, 6), bits(frame, 5, 0) as u8)?;
    Ok(Message::Power(group, short))
}

// Bits 23, 22 and 15 are ones: a power cycle event, or reserved.
#[inline(always)]
#[tactic(auto, unfolding(crate::specs::Read::other_of))]
fn read_other(frame: u32) -> Result<Message, Refusal>
    ensures { result ≡ other_of frame }
{
    let (0x7F, 7) = (bits(frame, 23, 17), bits(frame, 15, 13)) else {
        return Err(Refusal::ReservedEvent);
    };
    read_power(frame)
}

#[inline(always)]
#[tactic(auto, unfolding(crate::specs::Read::event_of))]
fn read_event(frame: u32) -> Result<Message, Refusal>
    ensures { result ≡ event_of frame }
{
    let Some(scheme) = scheme_of(
        bits(frame, 23, 23),
        bits(frame, 22, 22),
        bits(frame, 15, 15),
    ) else {
        return read_other(frame);
    };
    let first = first_field(scheme, frame);
    let second = bits(frame, 14, 10) as u8;
    let information = bits(frame, 9, 0) as u16;
    Ok(Message::Event(scheme, first, second, information))
}

#[inline(always)]
#[tactic(auto, unfolding(crate::specs::Read::read_of))]
pub fn read(frame: u32) -> Result<Message, Refusal>
    ensures { ReadPromise frame result }
{
    if frame >= 16777216 {
        return Err(Refusal::FrameTooLarge);
    }
    if bits(frame, 16, 16) == 1 {
        read_command(frame)
    } else {
        read_event(frame)
    }
}
