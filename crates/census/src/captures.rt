// The census of a capture, counted through a reader.
ghost use Rattle.census.specs.Promises.{CensusPromise};

use crate::counts::{Census, nothing};
use crate::next::{count_next, goes_on};
use crate::reader::Reader;

// Kept: what may not change: paper 01 names a reader of few thin functions, after the plain counter (docs/DECISIONS.md, 94).
#[tactic(auto, using(crate::proofs::Going::going_start))]
pub fn census(capture: &[u8]) -> Census
    ensures { CensusPromise capture.now result }
{
    let mut reader = Reader::new(capture);
    let mut census = nothing();
    while goes_on(census, reader.rest()) {
        census = count_next(census, reader.entry());
        reader = reader.moved();
    }
    census
}
