// The plain counter: a slice, and a number.
ghost use Rattle.census.specs.Promises.{CountFromPromise};

use crate::counts::{Census, nothing};
use crate::next::{count_next, goes_on, next_at, place_after, rest_at};

// The records from a place on, counted.
// Kept: what may not change: paper 01 names a plain counter by slice and number, before the reader (docs/DECISIONS.md, 94).
#[tactic(auto, using(crate::proofs::Going::going_start, crate::proofs::Going::inside, crate::proofs::Going::has_room))]
pub fn count_from(capture: &[u8], at: usize) -> Census
    ensures { CountFromPromise capture.now at result }
{
    let long = capture.len();
    let mut census = nothing();
    let mut place = at;
    while goes_on(census, rest_at(long, place)) {
        census = count_next(census, next_at(capture, place));
        place = place_after(long, place);
    }
    census
}
