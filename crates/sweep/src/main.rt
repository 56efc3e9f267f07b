// Reads all 16,777,216 frames in order, and writes how many there are of each class, and a checksum of their words.
#![tactic(auto)]

ghost use Rattle.std.specs.Prelude.{◌≡◌, ◌<◌};
ghost use Rattle.sweep.specs.Mixed.{mixed};

use refusals::Refusal;
use std::io;

// The classes of frames, in the order of their numbers.
const NAMES: [&str; 15] = [
    "short",
    "group",
    "unaddressed",
    "broadcast",
    "special",
    "reserved-address",
    "reserved-instance",
    "event-0",
    "event-1",
    "event-2",
    "event-3",
    "event-4",
    "power",
    "malformed-power",
    "reserved-event",
];

// Internal: one more of a class; there are far fewer frames than the counter can hold.
fn count_one(counts: &mut [u64; 16], class: usize)
    requires { class < 16 }
{
    counts[class] = counts[class].wrapping_add(1);
}

// Internal: a checksum so far is below the modulus.
#[tactic(auto, unfolding(crate::specs::Mixed::mixed))]
fn mix(checksum: u64, word: u64) -> u64
    requires { checksum < 4294967291 }
    ensures same { result ≡ mixed checksum word }
    ensures small { result < 4294967291 }
{
    (31 * checksum + word % 4294967291) % 4294967291
}

fn sweep(counts: &mut [u64; 16]) -> u64 {
    let mut checksum: u64 = 0;
    for frame in 0..16777216 {
        let reading = frames::read(frame).map_err(Refusal::number);
        count_one(counts, census::class_of(reading));
        checksum = mix(checksum, words::word_of(reading));
    }
    checksum
}

// Kept: in parts: what may not change: an output that takes no more has the parts before it whole.
fn write_line(rt: &HostRuntime, name: &str, number: u64) -> io::Result<()> {
    print!(rt; "{name}")?;
    print!(rt; " ")?;
    print!(rt; "{number}")?;
    println!(rt; "")
}

fn write(rt: &HostRuntime, counts: &[u64; 16], checksum: u64) -> io::Result<()> {
    for (name, count) in NAMES.iter().zip(counts) {
        write_line(rt, name, *count)?;
    }
    write_line(rt, "checksum", checksum)
}

fn main(rt: HostRuntime) {
    let mut counts = [0u64; 16];
    let checksum = sweep(&mut counts);
    if write(&rt, &counts, checksum).is_err() {
        streams::say_lost(&rt, "sweep");
    }
}
