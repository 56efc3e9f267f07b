// What a frame makes happen now; nothing is changed here.
ghost use Rattle.std.specs.Prelude.{◌≡◌, ◌+◌};
ghost use Rattle.records.specs.Map.{records_of};
ghost use Rattle.rooms.specs.Due.{dtr_of, with_dtr, group_byte, group_word, in_groups, short_due};
ghost use Rattle.rooms.specs.Due.{write_due, read_due, once_due, pair_due, due_by};

use crate::state::{Registers, State};
use hearing::{Heard, Meaning, Once, Twice, Who};
use records::Map;

#[derive(Clone, Copy, PartialEq, Eq)]
pub enum Due {
    Nothing,
    Waits,
    Opens,
    Resets(u8),
    Becomes(Who),
    Loads(Registers),
    Answers(u8),
    Writes(u8, u8, u8, bool),
    Reads(u8, u8),
}

// DTR number k.
// Kept: a number: what may not change (`rooms:dtr_of` and `with_dtr` answer for every one).
#[tactic(auto, unfolding(crate::specs::Due::dtr_of))]
fn dtr_of(registers: Registers, k: u8) -> u8
    ensures { result ≡ dtr_of registers k }
{
    match k {
        0 => registers.dtr0,
        1 => registers.dtr1,
        _ => registers.dtr2,
    }
}

#[tactic(auto, unfolding(crate::specs::Due::with_dtr))]
pub fn with_dtr(registers: Registers, k: u32, byte: u8) -> Registers
    ensures { result ≡ with_dtr registers k byte }
{
    match k {
        0 => Registers {
            dtr0: byte,
            ..registers
        },
        1 => Registers {
            dtr1: byte,
            ..registers
        },
        _ => Registers {
            dtr2: byte,
            ..registers
        },
    }
}

// DTR k + 1, then DTR k.
fn with_dtrs(registers: Registers, k: u8, high: u8, low: u8) -> Registers
    ensures { result ≡ with_dtr (with_dtr registers (k + 1) high) k low }
{
    let k = u32::from(k);
    with_dtr(with_dtr(registers, k + 1, high), k, low)
}

// Byte number k of the groups, the low one first.
#[tactic(auto, using(crate::proofs::Groups::none_behind), unfolding(crate::specs::Due::group_byte))]
fn group_byte(groups: u32, k: u8) -> u8
    ensures { result ≡ group_byte groups k }
{
    if k < 4 {
        groups.to_le_bytes()[k as usize]
    } else {
        0
    }
}

// DTR2 and DTR1, at the groups 0-15 or at the groups 16-31.
#[tactic(auto, unfolding(crate::specs::Due::group_word))]
fn group_word(registers: Registers, half: u8) -> u32
    ensures { result ≡ group_word registers half }
{
    let word = u32::from(u16::from_be_bytes([registers.dtr2, registers.dtr1]));
    if half == 0 { word } else { word << 16 }
}

fn in_groups(who: Who, groups: u32) -> Who
    ensures { result ≡ in_groups who groups }
{
    Who { groups, ..who }
}

#[tactic(auto, unfolding(crate::specs::Due::short_due))]
fn short_due(who: Who, dtr0: u8) -> Due
    ensures { result ≡ short_due who dtr0 }
{
    if dtr0 < 0x40 || dtr0 == 255 {
        Due::Becomes(Who {
            address: dtr0,
            ..who
        })
    } else {
        Due::Nothing
    }
}

// A write, if it executes.
// Kept: two flags: what may not change (`rooms:write_due` takes both, the door's and the command's own).
#[tactic(auto, unfolding(crate::specs::Due::write_due))]
fn write_due(
    map: Map<'_>,
    enabled: bool,
    registers: Registers,
    location: u8,
    byte: u8,
    replies: bool,
) -> Due
    ensures { result ≡ write_due (records_of map.entry.bytes.now) enabled registers location byte replies }
{
    if enabled && map.is_mapped(registers.dtr1) {
        Due::Writes(registers.dtr1, location, byte, replies)
    } else {
        Due::Nothing
    }
}

// A READ, if the bank is mapped.
#[tactic(auto, unfolding(crate::specs::Due::read_due))]
fn read_due(map: Map<'_>, registers: Registers) -> Due
    ensures { result ≡ read_due (records_of map.entry.bytes.now) registers }
{
    if map.is_mapped(registers.dtr1) {
        Due::Reads(registers.dtr1, registers.dtr0)
    } else {
        Due::Nothing
    }
}

// A command obeyed at once.
#[tactic(auto, unfolding(crate::specs::Due::once_due))]
fn once_due(map: Map<'_>, state: State, once: Once) -> Due
    ensures { result ≡ once_due (records_of map.entry.bytes.now) state once }
{
    let d = state.registers;
    let enabled = state.door.enabled;
    match once {
        Once::QueryMissingShortAddress => {
            if state.who.address == 255 {
                Due::Answers(0xFF)
            } else {
                Due::Nothing
            }
        }
        Once::QueryContentDtr(k) => Due::Answers(dtr_of(d, k)),
        Once::ReadMemoryLocation => read_due(map, d),
        Once::QueryDeviceGroups(k) => Due::Answers(group_byte(state.who.groups, k)),
        Once::WriteMemoryLocation(byte, replies) => write_due(
            map, enabled, d, d.dtr0, byte, replies,
        ),
        Once::DirectWriteMemory(offset, byte) => write_due(map, enabled, d, offset, byte, true),
        Once::SetDtr(k, byte) => Due::Loads(with_dtr(d, u32::from(k), byte)),
        Once::SetDtrs(k, high, low) => Due::Loads(with_dtrs(d, k, high, low)),
    }
}

// A pair that executes.
#[tactic(auto, unfolding(crate::specs::Due::pair_due))]
fn pair_due(state: State, twice: Twice) -> Due
    ensures { result ≡ pair_due state twice }
{
    let who = state.who;
    let d = state.registers;
    match twice {
        Twice::ResetMemoryBank => Due::Resets(d.dtr0),
        Twice::SetShortAddress => short_due(who, d.dtr0),
        Twice::EnableWriteMemory => Due::Opens,
        Twice::AddToDeviceGroups(half) => {
            Due::Becomes(in_groups(who, who.groups | group_word(d, half)))
        }
        Twice::RemoveFromDeviceGroups(half) => {
            Due::Becomes(in_groups(who, who.groups & !group_word(d, half)))
        }
    }
}

// What is due by a meaning. A foreign frame looks at no map.
#[tactic(auto, unfolding(crate::specs::Due::due_by))]
pub fn due_by(map: Map<'_>, state: State, heard: Heard, meaning: Meaning) -> Due
    ensures { result ≡ due_by (records_of map.entry.bytes.now) state heard meaning }
{
    match meaning {
        Meaning::Foreign | Meaning::NotObeyed => Due::Nothing,
        Meaning::AtOnce(once) => once_due(map, state, once),
        Meaning::NeedsPair(twice) => {
            if hearing::completes(state.waiting, heard) {
                pair_due(state, twice)
            } else {
                Due::Waits
            }
        }
    }
}
