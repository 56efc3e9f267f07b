// What the wire carried: the records of a capture on standard input, counted by class. The first
// byte of the input says how they are written, 0 in words and 1 as bytes; the capture is all that
// stands behind it.
#![tactic(auto)]

mod bars; // a count, as a part of the largest
mod input; // slice after slice
mod table; // the counts in words

use input::Broken;
use std::fmt::Display;
use std::io;
use std::io::Read;
use streams::{Form, say_lost};

// Kept: in parts: what may not change: each is tried, whatever became of the one before.
fn say<D: Display + Drop>(rt: &HostRuntime, part: D) {
    let _ = rt.eprint(part);
}

// The record that ended the count stands behind all that were counted.
fn say_record(rt: &HostRuntime, counts: &[u64; 16]) {
    say(rt, "13: record ");
    say(rt, input::records(counts).wrapping_add(1));
    say(rt, " of the input is ");
}

fn say_broken(rt: &HostRuntime, counts: &[u64; 16], why: Broken) {
    match why {
        Broken::Unknown(kind) => {
            say_record(rt, counts);
            say(rt, "of unknown kind ");
            say(rt, kind);
            say(rt, "; nothing behind it was read\n");
        }
        Broken::Unfinished(length) => {
            say_record(rt, counts);
            say(rt, "unfinished, with ");
            say(rt, length);
            say(rt, " of its 8 bytes\n");
        }
        Broken::Unread => {
            say(
                rt,
                "ledger: standard input cannot be read: what is behind is not counted\n",
            );
        }
    }
}

// Each count, as eight bytes, high first.
fn write_bytes(rt: &HostRuntime, counts: &[u64; 16]) -> io::Result<()> {
    for count in counts {
        rt.write_all(&count.to_be_bytes())?;
    }
    Ok(())
}

fn write(rt: &HostRuntime, form: Form, counts: &[u64; 16]) -> io::Result<()> {
    match form {
        Form::Words => table::write_table(rt, counts),
        Form::Bytes => write_bytes(rt, counts),
    }
}

// The counts so far stand, however the count ended.
fn ledger(rt: &HostRuntime, form: Form) {
    let mut counts = [0u64; 16];
    let ended = input::count_all(rt, &mut counts);
    if write(rt, form, &counts).is_err() {
        say_lost(rt, "ledger");
    }
    if let Err(why) = ended {
        say_broken(rt, &counts, why);
    }
}

fn main(rt: HostRuntime) {
    let mut first = [0u8; 1];
    if rt.stdin().read_exact(&mut first).is_err() {
        let _ = rt.eprintln(
            "ledger: standard input does not say whether words or bytes are wanted",
        );
        return;
    }
    ledger(&rt, Form::from(first[0]));
}
