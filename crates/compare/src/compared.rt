// The comparison: the tests, the count, and the list over the output.
ghost use Rattle.compare.specs.Promises.{ComparePromise};

use crate::differing::Both;
use refusals::Refusal;

// The list of the values that differ, over the output, and how many they are; the count is known before anything is written.
#[tactic(auto, using(crate::proofs::Numbered::at_most_64))]
pub fn compare(map: &[u8], old: &[u8], new: &[u8], output: &mut [u8]) -> Result<u8, Refusal>
    ensures { ComparePromise map.now old.now new.now output.old
        result output.new }
{
    let both = Both::new(map, old, new)?;
    let count = both.count();
    if output.len() < 24 * count {
        return Err(Refusal::RoomTooSmall);
    }
    both.put_list(output);
    Ok(count as u8)
}
