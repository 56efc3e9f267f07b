// The comparison as one number.
ghost use Rattle.compare.specs.Promises.{CompareWordPromise};

use crate::compared::compare;

// number | count << 8; a refusal is its number alone.
// Kept: one number, for the C interface (`mf_compare`).
#[tactic(auto, unfolding(crate::specs::Compare::compare_word))]
pub fn compare_word(map: &[u8], old: &[u8], new: &[u8], output: &mut [u8]) -> u32
    ensures { CompareWordPromise map.now old.now new.now output.old
        result output.new }
{
    match compare(map, old, new, output) {
        Ok(count) => u32::from_le_bytes([0, count, 0, 0]),
        Err(refusal) => u32::from(refusal.number()),
    }
}
