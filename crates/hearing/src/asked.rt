// From a frame to what it asks of the unit.
ghost use Rattle.std.specs.Prelude.{◌≡◌, ◌/◌, ◌%◌, ◌^◌, ◌==◌};
ghost use Rattle.hearing.specs.Meaning.{is_for, command_at, message_meaning, meaning_of, keeps, closes};

use crate::heard::Who;
use crate::listed::{device_command, special_command};
use crate::meaning::{Meaning, Once};
use frames::{Address, Message, Target};

// Whether the address means the unit.
fn is_for(who: Who, address: Address) -> bool
    ensures { result ≡ is_for who address }
{
    match address {
        Address::Short(short) => who.address == short,
        Address::Group(group) => is_member(who.groups, group),
        Address::Unaddressed => who.address == 255,
        Address::Broadcast => true,
    }
}

// Whether the group is among the 32 group bits: no group is above 31.
fn is_member(groups: u32, group: u8) -> bool
    ensures { result ≡ (groups / 2 ^ group % 2 == 1) }
{
    group < 32 && (groups >> group) & 1 == 1
}

fn command_at(target: Target, opcode: u8) -> Meaning
    ensures { result ≡ command_at target opcode }
{
    match target {
        Target::Device => device_command(opcode),
        _ => Meaning::NotObeyed,
    }
}

pub fn message_meaning(who: Who, message: Message) -> Meaning
    ensures { result ≡ message_meaning who message }
{
    match message {
        Message::Command(address, target, opcode) => {
            if is_for(who, address) {
                command_at(target, opcode)
            } else {
                Meaning::Foreign
            }
        }
        Message::Special(number, first, second) => special_command(number, first, second),
        Message::Event(..) | Message::Power(..) => Meaning::Foreign,
    }
}

#[tactic(auto, unfolding(crate::specs::Meaning::meaning_of))]
pub fn meaning_of(who: Who, frame: u32) -> Meaning
    ensures { result ≡ meaning_of who frame }
{
    let Ok(message) = frames::read(frame) else {
        return Meaning::Foreign;
    };
    message_meaning(who, message)
}

// Whether write-enable is closed by it.
pub fn closes(meaning: Meaning) -> bool
    ensures { result ≡ closes meaning }
{
    match meaning {
        Meaning::Foreign => false,
        Meaning::NotObeyed => true,
        Meaning::AtOnce(once) => !keeps(once),
        Meaning::NeedsPair(_) => true,
    }
}

fn keeps(once: Once) -> bool
    ensures { result ≡ keeps once }
{
    match once {
        Once::QueryMissingShortAddress => false,
        Once::QueryContentDtr(_) => true,
        Once::ReadMemoryLocation => false,
        Once::QueryDeviceGroups(_) => false,
        Once::WriteMemoryLocation(_, _) => true,
        Once::DirectWriteMemory(_, _) => true,
        Once::SetDtr(_, _) => true,
        Once::SetDtrs(_, _, _) => true,
    }
}
