// The capture on standard input, slice after slice, and its census so far.
ghost use Rattle.std.specs.Prelude.{◌<◌, ◌≤◌, length, IfOk, IfSome};

use std::io::Read;

// Why the count ended before the input did: by a record of unknown kind, or by one of which only
// some bytes are there; or because nothing more can be read.
#[derive(Clone, Copy, Debug, PartialEq, Eq)]
pub enum Broken {
    Unknown(u8),
    Unfinished(u8),
    Unread,
}

fn sum(counts: &[u64]) -> u64 {
    counts.iter().fold(0, |sum, count| sum.wrapping_add(*count))
}

// The frame records: the 15 classes.
pub fn frame_records(counts: &[u64; 16]) -> u64 {
    sum(&counts[..15])
}

// All that were counted; power-on records too.
pub fn records(counts: &[u64; 16]) -> u64 {
    sum(counts)
}

// The kind of a record of a slice, by how many are before it; 0 past the last.
fn kind_of(slice: &[u8], record: u64) -> u8 {
    let (records, _) = slice.as_chunks::<8>();
    records.get(record as usize).map_or(0, |bytes| bytes[4])
}

// Internal: the input has ended, and what waits is a record that is not finished, or nothing.
fn count_tail(counts: &mut [u64; 16], tail: &[u8]) -> Result<(), Broken>
    requires { length tail.now < 8 }
{
    census::add_census(tail, counts).map_err(|_| Broken::Unfinished(tail.len() as u8))
}

// Internal: counts the whole records of a slice, and keeps the rest: so many bytes. The one that
// ends the count is behind those that were counted.
fn count_whole(counts: &mut [u64; 16], input: &mut [u8], filled: usize) -> Result<usize, Broken>
    requires { filled ≤ length input.old }
    ensures { IfOk result (λ kept. kept < 8) }
{
    let whole = filled - filled % 8;
    let before = records(counts);
    if census::add_census(&input[..whole], counts).is_err() {
        let counted = records(counts).wrapping_sub(before);
        return Err(Broken::Unknown(kind_of(&input[..whole], counted)));
    }
    Ok(entries::keep_rest(input, filled))
}

// Internal: reads once, and counts what is whole then. Answers how many bytes of an unfinished
// record wait, and None where the input has ended.
fn count_some(
    rt: &HostRuntime,
    counts: &mut [u64; 16],
    input: &mut [u8],
    kept: usize,
) -> Result<Option<usize>, Broken>
    requires { (kept < 8) × (8 ≤ length input.old) }
    ensures { IfOk result (λ more. IfSome more (λ kept. kept < 8)) }
{
    let n = rt
        .stdin()
        .read(&mut input[kept..])
        .map_err(|_| Broken::Unread)?;
    if n == 0 {
        count_tail(counts, &input[..kept])?;
        return Ok(None);
    }
    Ok(Some(count_whole(counts, input, kept + n)?))
}

// Adds the capture's census to the counts. A proved loop has to end, and nothing says that the
// input does: so its turns have a number that no run uses up.
pub fn count_all(rt: &HostRuntime, counts: &mut [u64; 16]) -> Result<(), Broken> {
    let mut input = [0u8; 65536];
    let mut kept = 0;
    for _ in 0..u64::MAX {
        match count_some(rt, counts, &mut input, kept)? {
            Some(more) => kept = more,
            None => break,
        }
    }
    Ok(())
}
