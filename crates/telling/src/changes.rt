// What changed from one state to the next, and what that means.
ghost use Rattle.std.specs.Prelude.{◌≤◌};

use crate::column::{tell, tell_if};
use hearing::{Waiting, Who};
use memory::Staged;
use rooms::{Registers, State};
use text::Line;

// A frame that waits afterwards is the one that was heard: any frame clears the one before it.
fn say_waiting(line: Line, was: Waiting, is: Waiting, frame: u32) -> Line
    ensures { line.length ≤ result.length }
{
    let over = was.held & !is.held;
    let second = was.frame == frame;
    let waits = tell_if(line, is.held, "waits for its second half");
    let complete = tell_if(waits, over & second, "pair complete");
    tell_if(complete, over & !second, "the half before it is dropped")
}

fn say_enabled(line: Line, was: bool, is: bool) -> Line
    ensures { line.length ≤ result.length }
{
    let opens = tell_if(line, is & !was, "write-enable opens");
    tell_if(opens, was & !is, "write-enable closes")
}

// The bytes that are staged now, of a value of that width, where they are others than before.
fn say_staged(line: Line, was: Staged, is: Staged, width: Option<u8>) -> Line
    ensures { line.length ≤ result.length }
{
    if is.count == 0 || was == is {
        return line;
    }
    let count = is.count;
    let width = width.unwrap_or(0);
    tell(line, format_args!("bytes staged: {count} of {width}"))
}

// What became of the bytes that were staged, where they are no more: a write right behind them has completed the value,
// or else they are dropped.
fn say_unstaged(line: Line, was: Staged, is: Staged, enabled: bool, registers: Registers) -> Line
    ensures { line.length ≤ result.length }
{
    let kept = (was.bank == is.bank) & (was.first == is.first) & (was.count <= is.count);
    let behind = was.first as usize + was.count as usize + 1;
    let follows = (registers.dtr1 == was.bank) & (registers.dtr0 as usize == behind);
    let over = (was.count > 0) & !kept;
    let whole = enabled & follows & (is.count == 0);
    let completed = tell_if(line, over & whole, "the value is whole");
    tell_if(completed, over & !whole, "staged bytes dropped")
}

fn say_register(line: Line, name: &str, was: u8, is: u8) -> Line
    ensures { line.length ≤ result.length }
{
    if was == is {
        return line;
    }
    tell(line, format_args!("{name} {is:02X}"))
}

fn say_registers(line: Line, was: Registers, is: Registers) -> Line
    ensures { line.length ≤ result.length }
{
    let second = say_register(line, "DTR2", was.dtr2, is.dtr2);
    let first = say_register(second, "DTR1", was.dtr1, is.dtr1);
    say_register(first, "DTR0", was.dtr0, is.dtr0)
}

fn say_address(line: Line, address: u8) -> Line
    ensures { line.length ≤ result.length }
{
    if address == 255 {
        return tell(line, "no short address");
    }
    tell(line, format_args!("short address {address}"))
}

// The unit's address and its 32 group bits, as unit.adr has them.
pub fn say_who(line: Line, who: Who) -> Line
    ensures { line.length ≤ result.length }
{
    let groups = who.groups;
    tell(
        say_address(line, who.address),
        format_args!("groups {groups:08X}"),
    )
}

fn say_named(line: Line, was: Who, is: Who) -> Line
    ensures { line.length ≤ result.length }
{
    if was == is {
        return line;
    }
    say_who(line, is)
}

fn say_door(line: Line, was: State, is: State, width: Option<u8>) -> Line
    ensures { line.length ≤ result.length }
{
    let left = was.door.staged;
    let staged = is.door.staged;
    let enabled = say_enabled(line, was.door.enabled, is.door.enabled);
    let unstaged = say_unstaged(enabled, left, staged, is.door.enabled, is.registers);
    say_staged(unstaged, left, staged, width)
}

// All that a record did, by the states before and after it, and whether the store is the same. A line that has not come
// to that column tells of nothing.
pub fn say_changes(
    line: Line,
    was: State,
    is: State,
    frame: u32,
    width: Option<u8>,
    same: bool,
) -> Line
    ensures { line.length ≤ result.length }
{
    let paired = say_waiting(line, was.waiting, is.waiting, frame);
    let named = say_named(paired, was.who, is.who);
    let opened = say_door(named, was, is, width);
    let loaded = say_registers(opened, was.registers, is.registers);
    tell_if(loaded, same & (loaded.length < 70), "no effect")
}
