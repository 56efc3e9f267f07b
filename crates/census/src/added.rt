// The census of a capture, added to 16 counts.
ghost use Rattle.std.specs.Prelude.{◌≡◌};
ghost use Rattle.refusals.specs.Numbers.{number_in};
ghost use Rattle.census.specs.Census.{count_at, added_to};
ghost use Rattle.census.specs.Promises.{AddCensusPromise};

use crate::captures::census;
use crate::counts::Census;
use refusals::Refusal;

// The 15 classes, and as the sixteenth the power-on records.
#[tactic(auto, using(laws::proofs::Tests::tests))]
fn count_at(census: Census, k: usize) -> u64
    ensures { result ≡ count_at census k }
{
    if k < 15 {
        census.counts[k]
    } else {
        census.power_ons
    }
}

// Each added to what stands there, modulo 2^64.
// Kept: by number: tried `array::from_fn`, the proof didn't close (`from_fn-requires`, `returns`).
#[tactic(auto, using(crate::proofs::Filled::filled_none, crate::proofs::Filled::filled_more))]
fn added_to(counts: [u64; 16], census: Census) -> [u64; 16]
    ensures { result ≡ added_to counts census }
{
    let mut sums = [0; 16];
    for k in 0..16 {
        sums[k] = counts[k].wrapping_add(count_at(census, k));
    }
    sums
}

// The counts are added where 13 ended the count too.
pub fn add_census(capture: &[u8], counts: &mut [u64; 16]) -> Result<(), Refusal>
    ensures { AddCensusPromise capture.now counts.old (number_in result) counts.new }
{
    let census = census(capture);
    *counts = added_to(*counts, census);
    census.end
}
