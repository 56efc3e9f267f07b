// What stands at a place of a capture, and the place behind it.
ghost use Rattle.std.specs.Prelude.{◌≡◌};
ghost use Rattle.census.specs.Reader.{rest_at, next_at, place_after, goes_on, counted_next};
ghost use Rattle.census.specs.Census.{HasRoom, end_number};

use crate::counts::{Census, counted, ended};
use entries::{Entry, entry_at};

// A whole record, fewer than 8 bytes, or nothing more.
// Kept: the new form, `Option<Result<Entry, Refusal>>`, is no plainer: `census:ReaderReads` says which of the three comes.
#[derive(Clone, Copy, Debug, PartialEq, Eq)]
pub enum Next {
    Whole(Entry),
    Unfinished,
    End,
}

// How many bytes stand from a place on.
pub fn rest_at(long: usize, at: usize) -> usize
    ensures { result ≡ rest_at long at }
{
    long.saturating_sub(at)
}

#[tactic(auto, unfolding(crate::specs::Reader::next_at))]
pub fn next_at(capture: &[u8], at: usize) -> Next
    ensures { result ≡ next_at capture.now at }
{
    match rest_at(capture.len(), at) {
        0 => Next::End,
        1..8 => Next::Unfinished,
        _ => Next::Whole(entry_at(&capture[at..], 0)),
    }
}

#[tactic(auto, unfolding(crate::specs::Reader::place_after))]
pub fn place_after(long: usize, at: usize) -> usize
    ensures { result ≡ place_after long at }
{
    at + rest_at(long, at).min(8)
}

// Whether the count goes on: no number has ended it, and something stands there.
#[tactic(auto, using(laws::proofs::Tests::tests))]
pub fn goes_on(census: Census, rest: usize) -> bool
    ensures { result ≡ goes_on (end_number census) rest }
{
    census.end.is_ok() && 0 < rest
}

// Internal: what stands there, counted.
pub fn count_next(census: Census, next: Next) -> Census
    requires { HasRoom census }
    ensures { result ≡ counted_next census next }
{
    match next {
        Next::Whole(entry) => counted(census, entry),
        Next::Unfinished => ended(census),
        Next::End => census,
    }
}
