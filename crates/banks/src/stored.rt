// A map and a store that have passed 7 to 10: what a touch of the store rests on.
ghost use Rattle.std.specs.Prelude.{◌≡◌, true, length};
ghost use Rattle.banks.specs.Rules.{placed};

use records::Map;

#[derive(Clone, Copy)]
pub struct Stored<'a> {
    pub map: &'a [u8],
    pub store: &'a [u8],
    pub ghost placed: { placed map.now (length store.now) ≡ true },
}

impl<'a> Stored<'a> {
    // Its map has passed 7 to 9.
    #[tactic(auto, using(crate::proofs::Places::placed_ordered))]
    pub fn map(self) -> Map<'a>
        ensures { result.bytes.now ≡ self.entry.map.now }
    {
        Map { bytes: self.map }
    }
}
