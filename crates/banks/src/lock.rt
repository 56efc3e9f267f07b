// A bank's lock byte.
ghost use Rattle.std.specs.Prelude.{◌≡◌};
ghost use Rattle.records.specs.Map.{records_of};
ghost use Rattle.banks.specs.Values.{lock_byte};

use crate::stored::Stored;

impl<'a> Stored<'a> {
    // Internal: a bank's lock byte, the stored byte at 0x02.
    #[tactic(auto, unfolding(crate::specs::Values::lock_byte, crate::specs::Values::byte_at))]
    pub fn lock_byte(self, bank: u8) -> u8
        ensures { result ≡ lock_byte (records_of self.entry.map.now) self.entry.store.now bank }
    {
        match self.map().lookup(bank, 0x02) {
            Ok(r) => self.store[r.offset as usize],
            Err(_) => 0,
        }
    }
}
