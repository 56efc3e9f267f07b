// The counts as a table: a line for each class, with a bar; the sum of them, and the power-on
// records apart.
ghost use Rattle.std.specs.Prelude.{◌≤◌};

use crate::bars::bar;
use crate::input::frame_records;
use std::io;

// The classes, in the order of their numbers.
const NAMES: [&str; 15] = [
    "commands to a short address",
    "commands to a device group",
    "commands to all without an address",
    "commands to all",
    "special commands",
    "reserved address bytes",
    "reserved instance bytes",
    "events, scheme 0: instance type, instance number",
    "events, scheme 1: short address, instance type",
    "events, scheme 2: short address, instance number",
    "events, scheme 3: device group, instance type",
    "events, scheme 4: instance group, instance type",
    "power cycles",
    "malformed power events",
    "reserved events",
];

fn digits(number: u64) -> usize
    ensures { result ≤ 20 }
{
    number
        .checked_ilog10()
        .map_or(1, |power| power as usize + 1)
}

// A bar, behind two spaces; nothing for nothing.
fn write_bar(rt: &HostRuntime, count: u64, largest: u64) -> io::Result<()> {
    if count == 0 {
        return Ok(());
    }
    let long = bar(count, largest);
    print!(rt; "  {:#<long$}", "")
}

// A number, behind the spaces up to its first digit.
fn write_number(rt: &HostRuntime, number: u64, width: usize) -> io::Result<()> {
    let spaces = width.saturating_sub(digits(number));
    if spaces > 0 {
        print!(rt; "{:spaces$}", "")?;
    }
    print!(rt; "{number}")
}

// Kept: in parts: what may not change: an output that takes no more has the parts before it whole.
fn write_row(rt: &HostRuntime, name: &str, number: u64, width: usize) -> io::Result<()> {
    print!(rt; "{name:<50}")?;
    write_number(rt, number, width)
}

fn write_classes(rt: &HostRuntime, counts: &[u64], largest: u64, width: usize) -> io::Result<()> {
    for (name, count) in NAMES.iter().zip(counts) {
        write_row(rt, name, *count, width)?;
        write_bar(rt, *count, largest)?;
        println!(rt; "")?;
    }
    Ok(())
}

pub fn write_table(rt: &HostRuntime, counts: &[u64; 16]) -> io::Result<()> {
    let classes = &counts[..15];
    let power_ons = counts[15];
    let largest = classes.iter().fold(0, |most, count| most.max(*count));
    let frames = frame_records(counts);
    let width = digits(largest.max(frames).max(power_ons));
    write_classes(rt, classes, largest, width)?;
    write_row(rt, "frame records", frames, width)?;
    println!(rt; "")?;
    write_row(rt, "power-on records", power_ons, width)?;
    println!(rt; "")
}
