// Which values of a map differ between two stores, in words or as the list's bytes. On standard
// input a byte, 0 for words and 1 for bytes; the lengths of map, old store and new store, two bytes
// each, high first; and the three themselves.
#![tactic(auto)]

mod words; // a difference, and how many there are

use std::io;
use std::io::Read;
use streams::{Form, read_part, say_lost, say_refused};
use words::{Count, Difference};

// A line for each difference of the list, and the count behind them.
fn write_words(rt: &HostRuntime, list: &[u8], count: u8) -> io::Result<()> {
    let (differences, _) = list.as_chunks::<24>();
    for difference in differences {
        println!(rt; "{}", Difference(difference))?;
    }
    println!(rt; "{}", Count(count))
}

fn write(rt: &HostRuntime, form: Form, list: &[u8], count: u8) -> io::Result<()> {
    match form {
        Form::Words => write_words(rt, list, count),
        Form::Bytes => rt.write_all(list),
    }
}

// The list has room for 64 differences of 24 bytes: a map has no more values.
// Kept: a rule of the project (no heap): `compare` puts the list into lent bytes and counts it.
#[tactic(auto, using(crate::proofs::Few::few))]
fn differ(rt: &HostRuntime, form: Form, map: &[u8], old: &[u8], new: &[u8]) {
    let mut list = [0u8; 1536];
    match compare::compare(map, old, new, &mut list) {
        Ok(count) => {
            if write(rt, form, &list[0..24 * usize::from(count)], count).is_err() {
                say_lost(rt, "differ");
            }
        }
        Err(refusal) => say_refused(rt, refusal),
    }
}

// Rooms of one byte more than the limits, so that a longer one is seen to be longer.
fn answer(rt: &HostRuntime) -> io::Result<()> {
    let mut asked = [0u8; 7];
    let (mut map, mut old, mut new) = ([0u8; 513], [0u8; 4097], [0u8; 4097]);
    let mut input = rt.stdin();
    input.read_exact(&mut asked)?;
    let map = read_part(&mut input, [asked[1], asked[2]], &mut map)?;
    let old = read_part(&mut input, [asked[3], asked[4]], &mut old)?;
    let new = read_part(&mut input, [asked[5], asked[6]], &mut new)?;
    differ(rt, Form::from(asked[0]), map, old, new);
    Ok(())
}

fn main(rt: HostRuntime) {
    if answer(&rt).is_err() {
        let _ = rt.eprintln("differ: map and stores are not whole on standard input");
    }
}
