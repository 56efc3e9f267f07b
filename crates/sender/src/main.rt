// The frames that write a value to a unit, in words or as trace records. On standard input a byte,
// 0 for words and 1 for records; the unit's short address, the bank, the value's first location,
// the length of the map and the number of the value's bytes, two bytes each, high first; the map;
// and the bytes.
#![tactic(auto)]

mod frame; // a frame, as a line or as a record

use frame::write_frame;
use session::Session;
use std::io;
use std::io::Read;
use streams::{Form, read_part, say_lost, say_refused};

// The value that is written: the unit's short address, the bank, the value's first location.
#[derive(Clone, Copy)]
struct Asked {
    address: u32,
    bank: u32,
    location: u32,
}

// The frames, 1 ms apart, from clock 0 on.
fn write(rt: &HostRuntime, form: Form, session: Session) -> io::Result<()> {
    for (clock, frame) in (0..session.count).zip(session.frames) {
        write_frame(rt, form, clock, frame)?;
    }
    Ok(())
}

fn send(rt: &HostRuntime, form: Form, map: &[u8], value: Asked, bytes: &[u8]) {
    match session::session(map, value.address, value.bank, value.location, bytes) {
        Ok(session) => {
            if write(rt, form, session).is_err() {
                say_lost(rt, "sender");
            }
        }
        Err(refusal) => say_refused(rt, refusal),
    }
}

fn two_bytes(high: u8, low: u8) -> u32 {
    u32::from(u16::from_be_bytes([high, low]))
}

// Rooms of one byte more than the limits, so that a longer one is seen to be longer.
fn answer(rt: &HostRuntime) -> io::Result<()> {
    let mut asked = [0u8; 11];
    let (mut map, mut bytes) = ([0u8; 513], [0u8; 9]);
    let mut input = rt.stdin();
    input.read_exact(&mut asked)?;
    let value = Asked {
        address: two_bytes(asked[1], asked[2]),
        bank: two_bytes(asked[3], asked[4]),
        location: two_bytes(asked[5], asked[6]),
    };
    let map = read_part(&mut input, [asked[7], asked[8]], &mut map)?;
    let bytes = read_part(&mut input, [asked[9], asked[10]], &mut bytes)?;
    send(rt, Form::from(asked[0]), map, value, bytes);
    Ok(())
}

fn main(rt: HostRuntime) {
    if answer(&rt).is_err() {
        let _ = rt.eprintln("sender: map and bytes are not whole on standard input");
    }
}
