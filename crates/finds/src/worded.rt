// The find call as one number, for banks and locations of any size.
ghost use Rattle.std.specs.Prelude.{◌≡◌, ◌≤◌, ◌<◌, IfOk, MatchResult};
ghost use Rattle.refusals.specs.Numbers.{number_in, number_of};
ghost use Rattle.finds.specs.Find.{accepted_find, answer_word, find_number};
ghost use Rattle.finds.specs.Promises.{FindWordPromise};

use crate::found::{Finding, find_in};
use records::{Map, Why};
use refusals::Refusal;

// 6 is for what is no byte.
fn byte(n: u32) -> Result<u8, Refusal>
    ensures { MatchResult result (λ b. (n ≤ 255) × (b ≡ n)) (λ refusal. (255 < n) × (number_of refusal ≡ 6)) }
{
    u8::try_from(n).map_err(|_| Refusal::OutOfRange)
}

// 7, 8, 9, then 6. Bank and location are wider than bytes, so that neither is cut to fit.
#[tactic(auto, using(crate::proofs::Finds::number_refused, crate::proofs::Finds::bank_over, crate::proofs::Finds::location_over, crate::proofs::Finds::number_none))]
pub fn find_wide(map: &[u8], bank: u32, location: u32) -> Result<Finding, Refusal>
    ensures number { number_in result ≡ find_number map.now bank location }
    ensures found { IfOk result (λ finding. finding ≡ accepted_find map.now bank location) }
{
    let map = Map::new(map)?;
    let bank = byte(bank)?;
    let location = byte(location)?;
    Ok(find_in(map, bank, location))
}

// what << 8 | location << 16 | width << 24 | count << 32.
#[tactic(auto, unfolding(crate::specs::Find::found_word))]
fn answer_word(finding: Finding) -> u64
    ensures { result ≡ answer_word finding }
{
    let (what, place, width) = match finding.found {
        Ok(r) => (0, r.first, r.width),
        Err(Why::Absent) => (1, 0, 0),
        Err(Why::Hole(next)) => (2, next, 0),
        Err(Why::Past) => (3, 0, 0),
    };
    u64::from_le_bytes([0, what, place, width, finding.count, 0, 0, 0])
}

// What stands there and the count; a refusal is its number alone.
// Kept: one number, for the C interface (`mf_find`).
#[tactic(auto, using(crate::proofs::Finds::word_found, crate::proofs::Finds::word_refused))]
pub fn find_word(map: &[u8], bank: u32, location: u32) -> u64
    ensures { FindWordPromise map.now bank location result }
{
    match find_wide(map, bank, location) {
        Ok(finding) => answer_word(finding),
        Err(refusal) => u64::from(refusal.number()),
    }
}
