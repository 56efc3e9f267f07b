// For the bench: look-ups without checks. Every location of each record's bank, 64 times over, in the map on standard input;
// writes how many were found, and a checksum of what was found.
#![tactic(auto)]

use records::{Map, Record, Why, records};
use std::io;
use streams::{read_full, say_lost};

// How many were found, and the checksum: three times the one before, and the offset found.
#[derive(Clone, Copy)]
struct Tally {
    found: u64,
    checksum: u64,
}

impl Tally {
    fn with(self, found: Result<Record, Why>) -> Tally {
        let thrice = self.checksum.wrapping_mul(3);
        match found {
            Ok(r) => Tally {
                found: self.found.wrapping_add(1),
                checksum: thrice.wrapping_add(u64::from(r.offset)),
            },
            Err(_) => Tally {
                checksum: thrice,
                ..self
            },
        }
    }
}

fn seek(map: Map) -> Tally {
    let mut tally = Tally {
        found: 0,
        checksum: 0,
    };
    for _ in 0..64 {
        for r in records(map.bytes) {
            for location in 0..255 {
                tally = tally.with(map.lookup(r.bank, location));
            }
        }
    }
    tally
}

// Kept: in parts: what may not change: an output that takes no more has the parts before it whole.
fn write_line(rt: &HostRuntime, name: &str, number: u64) -> io::Result<()> {
    print!(rt; "{name}")?;
    print!(rt; " ")?;
    print!(rt; "{number}")?;
    println!(rt; "")
}

fn write(rt: &HostRuntime, tally: Tally) -> io::Result<()> {
    write_line(rt, "found", tally.found)?;
    write_line(rt, "checksum", tally.checksum)
}

// One byte more than the longest map, so that a longer one is seen to be longer.
fn main(rt: HostRuntime) {
    let mut map = [0u8; 513];
    let length = read_full(&mut rt.stdin(), &mut map);
    match Map::new(&map[..length]) {
        Ok(map) => {
            if write(&rt, seek(map)).is_err() {
                say_lost(&rt, "seek");
            }
        }
        Err(_) => {
            let _ = rt.eprintln("seek: the map breaks rule 7, 8 or 9");
        }
    }
}
