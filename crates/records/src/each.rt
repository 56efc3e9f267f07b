// The records of a map, one after the other.
ghost use Rattle.std.specs.Prelude.{◌≡◌};
ghost use Rattle.std.specs.Iterator.{YieldsFirst, item_count};
ghost use Rattle.records.specs.Map.{records_of};

use crate::record::{Record, record_at};

#[derive(Clone, Copy)]
pub struct RecordIter<'a> {
    bytes: &'a [u8],
}

pub fn records(map: &[u8]) -> RecordIter<'_>
    ensures { result.bytes.now ≡ map.now }
{
    RecordIter { bytes: map }
}

impl Iterator for RecordIter<'_> {
    type Item = Record;

    ghost next_gives = { YieldsFirst (λ s. records_of s.bytes.now) };

    ghost remaining = { item_count (λ s. records_of s.bytes.now) };

    #[tactic(auto, using(crate::proofs::Walk::first_of, crate::proofs::Walk::none_of))]
    fn next(&mut self) -> Option<Record> {
        let (first, rest) = self.bytes.split_at_checked(8)?;
        self.bytes = rest;
        Some(record_at(first, 0))
    }
}
