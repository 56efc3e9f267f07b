// The find call: 7, 8, 9, then the look-up's answer and how many records it examined.
ghost use Rattle.std.specs.Prelude.{◌≡◌};
ghost use Rattle.finds.specs.Find.{accepted_find};
ghost use Rattle.finds.specs.Promises.{FindPromise};

use records::{Map, Record, Sought, Why};
use refusals::Refusal;

#[derive(Clone, Copy, Debug, PartialEq, Eq)]
pub struct Finding {
    pub found: Result<Record, Why>,
    pub count: u8,
}

// Internal: of a map that has passed 7, 8 and 9.
#[tactic(auto, using(crate::proofs::Finds::sought_is, crate::proofs::Finds::sought_fits))]
pub fn find_in(map: Map, bank: u8, location: u8) -> Finding
    ensures { result ≡ accepted_find map.entry.bytes.now bank location }
{
    let Sought { found, count } = map.halve(bank, location);
    Finding {
        found,
        count: count as u8,
    }
}

// Which value holds the location, or why none does; and how many records the look-up examined.
#[tactic(auto, using(crate::proofs::Finds::find_found))]
pub fn find(map: &[u8], bank: u8, location: u8) -> Result<Finding, Refusal>
    ensures { FindPromise map.now bank location result }
{
    let map = Map::new(map)?;
    Ok(find_in(map, bank, location))
}
