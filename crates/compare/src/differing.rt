// Two stores of one map, and which values differ between them.
ghost use Rattle.std.specs.Prelude.{◌≡◌, IfOk, length};
ghost use Rattle.laws.specs.Numbers.{first_failing};
ghost use Rattle.records.specs.Facts.{Member};
ghost use Rattle.refusals.specs.Numbers.{number_in};
ghost use Rattle.compare.specs.Compare.{both_tests, differs, differing, BothPlaced};

use banks::check;
use records::{Record, records};
use refusals::Refusal;

// Map and first store have passed 7 to 10, and the second is as long.
#[derive(Clone, Copy)]
pub struct Both<'a> {
    pub map: &'a [u8],
    pub old: &'a [u8],
    pub new: &'a [u8],
    pub ghost placed: { BothPlaced map.now old.now new.now },
}

impl<'a> Both<'a> {
    // 7 to 11 for the first store, then for the second, each with the other in the image's place.
    #[tactic(auto, using(crate::proofs::Numbered::first_refuses, crate::proofs::Numbered::second_says, crate::proofs::Numbered::zero_both_placed))]
    pub fn new(map: &'a [u8], old: &'a [u8], new: &'a [u8]) -> Result<Both<'a>, Refusal>
        ensures number { number_in result ≡ first_failing (both_tests map.now old.now new.now) }
        ensures same { IfOk result (λ both. (both.map.now ≡ map.now) × (both.old.now ≡ old.now) × (both.new.now ≡ new.now)) }
    {
        check(map, old, new)?;
        check(map, new, old)?;
        Ok(Both { map, old, new })
    }

    // Internal: a value of the map.
    // Kept, here and in `listing`: the new form is no plainer: that a record is the map's is asked by a clause: a record is plain bytes.
    #[tactic(auto, using(crate::proofs::Listed::compared), unfolding(crate::specs::Compare::differs, banks::specs::Values::value_of))]
    pub fn is_different(self, r: Record) -> bool
        requires { Member r self.map.now }
        ensures { result ≡ differs self.entry.old.now self.entry.new.now r }
    {
        let at = r.offset as usize;
        let end = r.places_end();
        self.old[at..end] != self.new[at..end]
    }

    // How many values differ.
    // Kept: a loop that counts; tried `filter(..).count()`, the proof didn't close at `count-requires-clause-can` and `returns`.
    #[tactic(auto, using(crate::proofs::Listed::counted_all, crate::proofs::Numbered::at_most_64))]
    pub fn count(self) -> usize
        ensures { result ≡ length (differing self.entry.map.now self.entry.old.now self.entry.new.now) }
    {
        let mut count = 0;
        for r in records(self.map) {
            if self.is_different(r) {
                count += 1;
            }
        }
        count
    }
}
