// The records from number low up to number high, high left out, and their halves.
ghost use Rattle.std.specs.Prelude.{◌≡◌, ◌+◌, ◌/◌, ◌≤◌, ◌<◌, length, MatchOption};
ghost use Rattle.records.specs.Map.{record_at};

use crate::record::{Record, record_at, record_count};

#[derive(Clone, Copy)]
pub struct Span<'a> {
    map: &'a [u8],
    low: usize,
    high: usize,
    ghost within: { high ≤ length map.now / 8 },
}

impl<'a> Span<'a> {
    ghost use Rattle.records.specs.Halving.{middle};

    // All records of the map.
    pub fn all(map: &'a [u8]) -> Span<'a>
        ensures { (result.map.now ≡ map.now) × (result.low ≡ 0) × (result.high ≡ length map.now / 8) }
    {
        Span {
            map,
            low: 0,
            high: record_count(map),
        }
    }

    // The records left of the middle one, the middle one, and those right of it; nothing where there is no record.
    pub fn halved(self) -> Option<(Span<'a>, Record, Span<'a>)>
        ensures { MatchOption result (self.entry.high ≤ self.entry.low) (λ p. (self.entry.low < self.entry.high)
            × (p.0.map.now ≡ self.entry.map.now) × (p.0.low ≡ self.entry.low) × (p.0.high ≡ middle self.entry.low self.entry.high)
            × (p.1 ≡ record_at self.entry.map.now (middle self.entry.low self.entry.high))
            × (p.2.map.now ≡ self.entry.map.now) × (p.2.low ≡ middle self.entry.low self.entry.high + 1) × (p.2.high ≡ self.entry.high)) }
    {
        if self.high <= self.low {
            return None;
        }
        let middle = self.low + (self.high - self.low) / 2;
        let left = Span {
            map: self.map,
            low: self.low,
            high: middle,
        };
        let right = Span {
            map: self.map,
            low: middle + 1,
            high: self.high,
        };
        Some((left, record_at(self.map, middle), right))
    }
}
