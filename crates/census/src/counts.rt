// The census so far, and one record more.
ghost use Rattle.std.specs.Prelude.{◌≡◌, ◌^◌, ◌<◌, length};
ghost use Rattle.census.specs.Census.{nothing as nothingOf, sum, one_more, with_frame, with_power_on};
ghost use Rattle.census.specs.Census.{ended as ended_of, counted as countedOf, HasRoom};

use crate::classes::class_of;
use entries::Entry;
use refusals::Refusal;

// How many frame records there are of each class, power-on records apart, and how the count ended: by 13, or at the capture's end.
#[derive(Clone, Copy, Debug, PartialEq, Eq)]
pub struct Census {
    pub counts: [u64; 15],
    pub power_ons: u64,
    pub end: Result<(), Refusal>,
}

pub fn nothing() -> Census
    ensures { result ≡ nothingOf }
{
    Census {
        counts: [0; 15],
        power_ons: 0,
        end: Ok(()),
    }
}

// Internal: one more of a class, and every other count as it was. Every count is written anew: measured, that takes less time
// than to write the one (docs/DECISIONS.md, 95).
// Kept: by number: tried `array::from_fn`, the proof didn't close (`from_fn-requires`, `returns`).
#[tactic(auto, using(crate::proofs::Room::one_fits, crate::proofs::Filled::filled_none, crate::proofs::Filled::filled_more, crate::proofs::Filled::filled_all, crate::proofs::Filled::more_is))]
fn one_more(counts: [u64; 15], class: usize) -> [u64; 15]
    requires { (length counts ≡ 15) × (sum counts < 2 ^ 61) }
    ensures { result ≡ one_more class counts }
{
    let mut after = [0; 15];
    for k in 0..15 {
        after[k] = counts[k] + u64::from(class == k);
    }
    after
}

// Internal: a frame more, in its class.
#[tactic(auto, using(crate::proofs::Room::counts_fit, crate::proofs::Room::in_class))]
fn with_frame(census: Census, frame: u32) -> Census
    requires { HasRoom census }
    ensures { result ≡ with_frame census frame }
{
    let reading = frames::read(frame).map_err(Refusal::number);
    Census {
        counts: one_more(census.counts, class_of(reading)),
        ..census
    }
}

// Internal: a power-on record more.
fn with_power_on(census: Census) -> Census
    requires { HasRoom census }
    ensures { result ≡ with_power_on census }
{
    Census {
        power_ons: census.power_ons + 1,
        ..census
    }
}

pub fn ended(census: Census) -> Census
    ensures { result ≡ ended_of census }
{
    Census {
        end: Err(Refusal::BrokenRecord),
        ..census
    }
}

// Internal: one record more.
// Kept, here and in `with_frame`, `with_power_on` and `count_next`: the new form is no plainer: `HasRoom` is no invariant of a census,
// for each record takes of the room: only the capture's length bounds it.
pub fn counted(census: Census, entry: Entry) -> Census
    requires { HasRoom census }
    ensures { result ≡ countedOf census entry }
{
    match entry {
        Entry::Frame(_, frame) => with_frame(census, frame),
        Entry::PowerOn => with_power_on(census),
        Entry::Broken => ended(census),
    }
}
