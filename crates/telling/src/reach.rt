// Where a read or a write of memory goes, and why nothing stands there.
ghost use Rattle.std.specs.Prelude.{◌≤◌};

use crate::column::tell;
use finds::Finding;
use hearing::{Meaning, Once, Who};
use places::Standing;
use rooms::Registers;
use text::Line;

fn location_of(dtr0: u8, once: Once) -> Option<u8> {
    match once {
        Once::ReadMemoryLocation | Once::WriteMemoryLocation(_, _) => Some(dtr0),
        Once::DirectWriteMemory(location, _) => Some(location),
        _ => None,
    }
}

// The location at which a frame reads or writes memory of the unit, if it does.
fn reach_of(who: Who, dtr0: u8, frame: u32) -> Option<u8> {
    match hearing::meaning_of(who, frame) {
        Meaning::AtOnce(once) => location_of(dtr0, once),
        _ => None,
    }
}

// Of a frame that reads or writes memory, why nothing stands there, if nothing does.
pub fn say_missed(line: Line, map: &[u8], who: Who, registers: Registers, frame: u32) -> Line
    ensures { line.length ≤ result.length }
{
    let bank = registers.dtr1;
    let Some(location) = reach_of(who, registers.dtr0, frame) else {
        return line;
    };
    match finds::find(map, bank, location) {
        Ok(Finding { found, .. }) if found.is_err() => {
            tell(
                line,
                Standing {
                    bank,
                    location,
                    found,
                },
            )
        }
        _ => line,
    }
}
