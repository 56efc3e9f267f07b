// The listed commands, by their numbers.
ghost use Rattle.std.specs.Prelude.{◌≡◌};
ghost use Rattle.hearing.specs.Meaning.{device_command, first_special, special_command};

use crate::meaning::{Meaning, Once, Twice};

// With instance byte 0xFE.
#[tactic(auto, unfolding(crate::specs::Meaning::device_command))]
pub fn device_command(opcode: u8) -> Meaning
    ensures { result ≡ device_command opcode }
{
    match opcode {
        0x11 => Meaning::NeedsPair(Twice::ResetMemoryBank),
        0x14 => Meaning::NeedsPair(Twice::SetShortAddress),
        0x15 => Meaning::NeedsPair(Twice::EnableWriteMemory),
        0x19 => Meaning::NeedsPair(Twice::AddToDeviceGroups(0)),
        0x1A => Meaning::NeedsPair(Twice::AddToDeviceGroups(1)),
        0x1B => Meaning::NeedsPair(Twice::RemoveFromDeviceGroups(0)),
        0x1C => Meaning::NeedsPair(Twice::RemoveFromDeviceGroups(1)),
        0x33 => Meaning::AtOnce(Once::QueryMissingShortAddress),
        0x36 => Meaning::AtOnce(Once::QueryContentDtr(0)),
        0x37 => Meaning::AtOnce(Once::QueryContentDtr(1)),
        0x38 => Meaning::AtOnce(Once::QueryContentDtr(2)),
        0x3C => Meaning::AtOnce(Once::ReadMemoryLocation),
        0x41 => Meaning::AtOnce(Once::QueryDeviceGroups(0)),
        0x42 => Meaning::AtOnce(Once::QueryDeviceGroups(1)),
        0x43 => Meaning::AtOnce(Once::QueryDeviceGroups(2)),
        0x44 => Meaning::AtOnce(Once::QueryDeviceGroups(3)),
        _ => Meaning::NotObeyed,
    }
}

// 0xC1, by its first free byte.
#[tactic(auto, unfolding(crate::specs::Meaning::first_special))]
fn first_special(first: u8, second: u8) -> Meaning
    ensures { result ≡ first_special first second }
{
    match first {
        0x20 => Meaning::AtOnce(Once::WriteMemoryLocation(second, true)),
        0x21 => Meaning::AtOnce(Once::WriteMemoryLocation(second, false)),
        0x30 => Meaning::AtOnce(Once::SetDtr(0, second)),
        0x31 => Meaning::AtOnce(Once::SetDtr(1, second)),
        0x32 => Meaning::AtOnce(Once::SetDtr(2, second)),
        _ => Meaning::NotObeyed,
    }
}

// A special command, by its number.
#[tactic(auto, unfolding(crate::specs::Meaning::special_command))]
pub fn special_command(number: u8, first: u8, second: u8) -> Meaning
    ensures { result ≡ special_command number first second }
{
    match number {
        0 => first_special(first, second),
        2 => Meaning::AtOnce(Once::DirectWriteMemory(first, second)),
        3 => Meaning::AtOnce(Once::SetDtrs(0, first, second)),
        4 => Meaning::AtOnce(Once::SetDtrs(1, first, second)),
        _ => Meaning::NotObeyed,
    }
}
