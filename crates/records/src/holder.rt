// Which record holds a location, or why none does; and which value begins there.
ghost use Rattle.std.specs.Prelude.{◌≡◌};
ghost use Rattle.records.specs.Map.{records_of, mapped};
ghost use Rattle.records.specs.Lookup.{holds, holder, beginner};
ghost use Rattle.records.specs.Halving.{at_location, beside, sought, halved_bank};

use crate::map::Map;
use crate::record::Record;
use crate::span::Span;

// Why no record holds a location: the bank is absent; a hole, with the next mapped location in that bank; or past the
// bank's last one.
#[derive(Clone, Copy, Debug, PartialEq, Eq)]
pub enum Why {
    Absent,
    Hole(u8),
    Past,
}

// What halving finds, and how many records it examines for that.
#[derive(Clone, Copy, Debug, PartialEq, Eq)]
pub struct Sought {
    pub found: Result<Record, Why>,
    pub count: usize,
}

// The location lies in the record.
// Kept: tried, misses a speed bar (docs/DECISIONS.md, 77): its end is summed up here, a call that hands the record on is dearer.
fn holds_location(r: Record, bank: u8, location: u8) -> bool
    ensures { result ≡ holds r bank location }
{
    let end = r.first as usize + r.width as usize;
    (r.bank == bank) & ((r.first <= location) & ((location as usize) < end))
}

// The bank and location lie left of the record's own.
// Kept: tried, misses a speed bar (docs/DECISIONS.md, 70): as (bank, location) < (r.bank, r.first) `seek` takes 173 million
// instructions, and so 164.
fn lies_left(r: Record, bank: u8, location: u8) -> bool
    ensures { result ≡ (at_location bank location).left r }
{
    (bank < r.bank) | ((bank == r.bank) & (location < r.first))
}

// Why no record holds a location, by the neighbours of the gap: the bank below it, the bank above it and the first location
// there. 256 is no bank.
#[tactic(auto, unfolding(crate::specs::Halving::beside))]
fn reason(bank: u8, below: usize, above: usize, next: u8) -> Why
    ensures { result ≡ beside bank below above next }
{
    if above == bank as usize {
        return Why::Hole(next);
    }
    if below == bank as usize {
        return Why::Past;
    }
    Why::Absent
}

// Halving by the bank alone, of any map.
#[tactic(auto, using(crate::proofs::Turns::mapped_starts, crate::proofs::Turns::mapped_ends))]
fn halve_bank(map: &[u8], bank: u8) -> bool
    ensures { result ≡ halved_bank map.now bank }
{
    let mut span = Span::all(map);
    while let Some((left, r, right)) = span.halved() {
        if r.bank == bank {
            return true;
        }
        span = if bank < r.bank { left } else { right };
    }
    false
}

impl<'a> Map<'a> {
    // Internal: halving. The reason is carried on the way: the last record that lay right of the location and the last that lay
    // left of it are the neighbours of the gap. Both answers are made in one place, `found`: a caller that does not ask for
    // reason or count then pays for neither.
    // Kept: 256 for no bank, and not an Option: what may not change, the definition `beside`, takes it so.
    #[tactic(auto, using(crate::proofs::Neighbours::starts_between))]
    pub fn halve(self, bank: u8, location: u8) -> Sought
        ensures { result ≡ sought self.entry.bytes.now bank location }
    {
        let mut span = Span::all(self.bytes);
        let mut count = 0;
        let mut below = 256;
        let mut above = 256;
        let mut next = 0;
        let found;
        while let Some((left, r, right)) = span.halved() {
            count += 1;
            if holds_location(r, bank, location) {
                found = Ok(r);
                return Sought { found, count };
            }
            if lies_left(r, bank, location) {
                span = left;
                above = r.bank as usize;
                next = r.first;
            } else {
                span = right;
                below = r.bank as usize;
            }
        }
        found = Err(reason(bank, below, above, next));
        Sought { found, count }
    }

    // Internal: the record that holds the location, or why none does.
    #[tactic(auto, using(crate::proofs::Halving::halving_finds), unfolding(crate::specs::Halving::sought))]
    pub fn lookup(self, bank: u8, location: u8) -> Result<Record, Why>
        ensures { result ≡ holder (records_of self.entry.bytes.now) bank location }
    {
        self.halve(bank, location).found
    }

    // Internal: the value that begins at the bank and location.
    #[tactic(auto, unfolding(crate::specs::Lookup::beginner, crate::specs::Lookup::if_first))]
    pub fn value_at(self, bank: u8, location: u8) -> Option<Record>
        ensures { result ≡ beginner (records_of self.entry.bytes.now) bank location }
    {
        match self.lookup(bank, location) {
            Ok(r) => if r.first == location { Some(r) } else { None },
            Err(_) => None,
        }
    }

    // Internal: some record has that bank.
    #[tactic(auto, using(crate::proofs::Halving::halving_maps))]
    pub fn is_mapped(self, bank: u8) -> bool
        ensures { result ≡ mapped (records_of self.entry.bytes.now) bank }
    {
        halve_bank(self.bytes, bank)
    }
}
