// A record of the map: eight bytes.
ghost use Rattle.std.specs.Prelude.{◌≡◌, ◌+◌, ◌*◌, ◌/◌, ◌≤◌, length};
ghost use Rattle.records.specs.Map.{record_at, writable, locations_end, places_end};

// Kept: kind and lockable as numbers: what may not change, a record is any eight bytes, and `fields_hold` refuses a kind of 5.
#[derive(Clone, Copy, Debug, PartialEq, Eq)]
pub struct Record {
    pub bank: u8,
    pub first: u8,
    pub width: u8,
    pub kind: u8,
    pub lockable: u8,
    pub zero: u8,
    pub offset: u16,
}

// How many records the map has.
pub fn record_count(map: &[u8]) -> usize
    ensures { result ≡ length map.now / 8 }
{
    map.len() / 8
}

// Internal: record number i.
#[tactic(auto, unfolding(crate::specs::Map::record_at))]
pub fn record_at(map: &[u8], i: usize) -> Record
    requires { 8 * i + 8 ≤ length map.now }
    ensures { result ≡ record_at map.now i }
{
    let at = 8 * i;
    Record {
        bank: map[at],
        first: map[at + 1],
        width: map[at + 2],
        kind: map[at + 3],
        lockable: map[at + 4],
        zero: map[at + 5],
        offset: u16::from_be_bytes([map[at + 6], map[at + 7]]),
    }
}

impl Record {
    pub fn is_writable(self) -> bool
        ensures { result ≡ writable self }
    {
        (self.kind == 2) | (self.kind == 4)
    }

    // The location after its last one.
    pub fn locations_end(self) -> usize
        ensures { result ≡ locations_end self }
    {
        self.first as usize + self.width as usize
    }

    // The store place after its last one.
    pub fn places_end(self) -> usize
        ensures { result ≡ places_end self }
    {
        self.offset as usize + self.width as usize
    }
}
