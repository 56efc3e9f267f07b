// The list of the values that differ, 24 bytes for each.
ghost use Rattle.std.specs.Prelude.{◌≡◌, ◌+◌, ◌*◌, ◌≤◌, length};
ghost use Rattle.laws.specs.Parts.{put};
ghost use Rattle.banks.specs.Values.{value_of, padded};
ghost use Rattle.records.specs.Facts.{Member};
ghost use Rattle.records.specs.Map.{places_end};
ghost use Rattle.compare.specs.Compare.{differing, difference_of, difference_if, list_of, listed_over};

use crate::differing::Both;
use banks::padded_part;
use records::{Record, records};

// Internal: the value's bytes, zero filled at the end.
#[tactic(auto, using(laws::proofs::Copies::lent), unfolding(banks::specs::Values::value_of))]
fn value_bytes(store: &[u8], r: Record) -> [u8; 8]
    requires { (places_end r ≤ length store.now) × (r.width ≤ 8) }
    ensures { result ≡ padded (value_of r store.now) }
{
    let at = r.offset as usize;
    let end = r.places_end();
    padded_part(&store[at..end])
}

impl Both<'_> {
    // Internal: bank, first location, width, kind, four zeros, old bytes, new bytes.
    #[tactic(auto, using(crate::proofs::Listed::in_both))]
    fn put_difference(self, output: &mut [u8], at: usize, r: Record)
        requires room { at + 24 ≤ length output.old }
        requires member { Member r self.map.now }
        ensures { output.new ≡ put at (difference_of self.entry.old.now self.entry.new.now r) output.old }
    {
        output[at..at + 8].copy_from_slice(&[r.bank, r.first, r.width, r.kind, 0, 0, 0, 0]);
        output[at + 8..at + 16].copy_from_slice(&value_bytes(self.old, r));
        output[at + 16..at + 24].copy_from_slice(&value_bytes(self.new, r));
    }

    // Internal: the difference of the value, if it differs. Answers the place behind what is written.
    #[tactic(auto, using(crate::proofs::Listed::one_value), unfolding(laws::specs::Parts::put))]
    fn put_if(self, output: &mut [u8], at: usize, r: Record) -> usize
        requires room { at + length (difference_if self.old.now self.new.now r) ≤ length output.old }
        requires member { Member r self.map.now }
        ensures end { result ≡ at + length (difference_if self.entry.old.now self.entry.new.now r) }
        ensures bytes { output.new ≡ put at (difference_if self.entry.old.now self.entry.new.now r) output.old }
    {
        if !self.is_different(r) {
            return at;
        }
        self.put_difference(output, at, r);
        at + 24
    }

    // Internal: the list, over the output, which has room for it.
    pub fn put_list(self, output: &mut [u8])
        requires { 24 * length (differing self.map.now self.old.now self.new.now) ≤ length output.old }
        ensures { output.new ≡ listed_over (list_of self.entry.map.now self.entry.old.now self.entry.new.now) output.old }
    {
        let mut at = 0;
        for r in records(self.map) {
            at = self.put_if(output, at, r);
        }
    }
}
