// Which value of a map holds a location, or why none does, and how many records were examined, in words. On standard input the
// bank and the location, two bytes each, high first, and the map behind them.
#![tactic(auto)]

ghost use Rattle.std.specs.Prelude.{◌≡◌};
ghost use Rattle.refusals.specs.Numbers.{number_in};
ghost use Rattle.finds.specs.Find.{find_number};

use finds::Finding;
use places::{Examined, Standing};
use records::record_count;
use refusals::Refusal;
use std::io;
use std::io::Read;
use streams::{read_full, say_lost, say_refused};

// Both lines are tried, whatever became of the first.
fn write(
    rt: &HostRuntime,
    bank: u8,
    location: u8,
    finding: Finding,
    records: usize,
) -> io::Result<()> {
    let Finding { found, count } = finding;
    let standing = Standing {
        bank,
        location,
        found,
    };
    let examined = Examined { count, records };
    let there = println!(rt; "{standing}");
    let behind = println!(rt; "{examined}");
    there.and(behind)
}

fn find_byte(rt: &HostRuntime, map: &[u8], bank: u8, location: u8) {
    match finds::find(map, bank, location) {
        Ok(finding) => {
            if write(rt, bank, location, finding, record_count(map)).is_err() {
                say_lost(rt, "find");
            }
        }
        Err(refusal) => say_refused(rt, refusal),
    }
}

// A bank and location of any size: 7, 8, 9, then 6 for what is no byte.
fn find_any(map: &[u8], bank: u16, location: u16) -> Result<Finding, Refusal>
    ensures { number_in result ≡ find_number map.now bank location }
{
    finds::find_wide(map, u32::from(bank), u32::from(location))
}

fn refuse_over(rt: &HostRuntime, map: &[u8], bank: u16, location: u16, words: &str) {
    match find_any(map, bank, location) {
        Err(Refusal::OutOfRange) => {
            let _ = eprintln!(rt; "6: {words}");
        }
        Err(refusal) => say_refused(rt, refusal),
        Ok(_) => {}
    }
}

fn find(rt: &HostRuntime, map: &[u8], bank: u16, location: u16) {
    match (u8::try_from(bank), u8::try_from(location)) {
        (Ok(bank), Ok(location)) => find_byte(rt, map, bank, location),
        (Err(_), _) => refuse_over(rt, map, bank, location, "the bank is over 255"),
        _ => refuse_over(rt, map, bank, location, "the location is over 255"),
    }
}

// One byte more than the longest map has, so that a longer one is seen to be longer.
fn answer(rt: &HostRuntime) -> io::Result<()> {
    let mut asked = [0u8; 4];
    let mut map = [0u8; 513];
    let mut input = rt.stdin();
    input.read_exact(&mut asked)?;
    let length = read_full(&mut input, &mut map);
    let bank = u16::from_be_bytes([asked[0], asked[1]]);
    let location = u16::from_be_bytes([asked[2], asked[3]]);
    find(rt, &map[..length], bank, location);
    Ok(())
}

fn main(rt: HostRuntime) {
    if answer(&rt).is_err() {
        let _ = rt.eprintln("find: bank and location are missing on standard input");
    }
}
