// A record in words, with who it is for and what was answered; and a value that changed.
ghost use Rattle.std.specs.Prelude.{◌≤◌};

use crate::changes::say_changes;
use crate::column::tell;
use crate::reach::say_missed;
use entries::{Entry, entry_at, four_bytes};
use hearing::{Meaning, Who};
use records::Record;
use rooms::State;
use text::{Bytes, Frame, Line, Value};

// What a record came to: the state after it, the answer, if there is one, and the width of the value whose bytes are staged.
#[derive(Clone, Copy)]
pub struct Step {
    pub state: State,
    pub answer: Option<u8>,
    pub width: Option<u8>,
}

// The clock of a record, with which its line begins.
fn say_clock(line: Line, record: &[u8; 8]) -> Line
    ensures { line.length ≤ result.length }
{
    let clock = four_bytes(record[0], record[1], record[2], record[3]);
    line.and(format_args!("{clock:>8} ms  "))
}

// Who the frame is for, where it is not this unit, and what it asks, where that is nothing.
fn say_meaning(line: Line, meaning: Meaning) -> Line
    ensures { line.length ≤ result.length }
{
    match meaning {
        Meaning::Foreign => tell(line, "not for this unit"),
        Meaning::NotObeyed => tell(line, "not obeyed"),
        Meaning::AtOnce(_) | Meaning::NeedsPair(_) => line,
    }
}

fn say_heard(line: Line, who: Who, frame: u32) -> Line
    ensures { line.length ≤ result.length }
{
    let words = Frame(frame);
    let said = line.and(format_args!("{frame:06X}  {words}"));
    say_meaning(said, hearing::meaning_of(who, frame))
}

// The record's words, and who it is for.
fn say_entry(line: Line, who: Who, entry: Entry) -> Line
    ensures { line.length ≤ result.length }
{
    match entry {
        Entry::Frame(_, frame) => say_heard(line, who, frame),
        Entry::PowerOn => line.and("        power-on"),
        Entry::Broken => line,
    }
}

fn say_answer(line: Line, answer: Option<u8>) -> Line
    ensures { line.length ≤ result.length }
{
    match answer {
        Some(byte) => tell(line, format_args!("answered {byte:02X}")),
        None => line,
    }
}

fn say_record(line: Line, record: &[u8; 8], who: Who) -> Line
    ensures { line.length ≤ result.length }
{
    let entry = entry_at(record, 0);
    say_entry(say_clock(line, record), who, entry)
}

// The frame, with the kind above it: a power-on's is no frame.
fn frame_of(record: &[u8; 8]) -> u32 {
    four_bytes(record[4], record[5], record[6], record[7])
}

// A record, what was answered, and what it did to a unit in that state: by its step, and whether the store is the same. Last, of
// a read or a write that was not answered, why nothing stands there.
pub fn say_step(
    line: Line,
    map: &[u8],
    record: &[u8; 8],
    was: State,
    step: Step,
    same: bool,
) -> Line
    ensures { line.length ≤ result.length }
{
    let is = step.state;
    let said = say_record(line, record, was.who);
    let answered = say_answer(said, step.answer);
    let told = say_changes(answered, was, is, frame_of(record), step.width, same);
    if step.answer.is_some() {
        return told;
    }
    say_missed(told, map, was.who, was.registers, frame_of(record))
}

fn value_of(value: Record, bytes: &[u8]) -> Value {
    Value {
        bank: value.bank,
        first: value.first,
        bytes: Bytes(bytes),
    }
}

// A value that is the same now.
pub fn say_same(line: Line, value: Record, bytes: &[u8]) -> Line
    ensures { line.length ≤ result.length }
{
    line.and(format_args!("{} unchanged", value_of(value, bytes)))
}

// A value that is another one now.
pub fn say_change(line: Line, value: Record, before: &[u8], after: &[u8]) -> Line
    ensures { line.length ≤ result.length }
{
    let was = value_of(value, before);
    line.and(format_args!("{was} before, {} after", Bytes(after)))
}
