// RESET MEMORY BANK and power-on, for the store: which values are put anew, and with what.
ghost use Rattle.std.specs.Prelude.{◌≡◌, true, ◌≤◌, length};
ghost use Rattle.records.specs.Map.{records_of, places_end};
ghost use Rattle.banks.specs.Rules.{placed};
ghost use Rattle.banks.specs.Values.{put_value};
ghost use Rattle.memory.specs.Filled.{selects, chosen, fresh, Picked, filled_of};

use banks::{Stored, is_lock, put_value};
use records::{Record, record_at, record_count};

#[derive(Clone, Copy, PartialEq, Eq)]
pub enum Filling {
    PowerOn,
    Reset(u8),
}

// The bank is one that a reset with this DTR0 selects.
#[tactic(auto, unfolding(crate::specs::Filled::selects))]
fn selects_bank(dtr0: u8, bank: u8) -> bool
    ensures { result ≡ selects dtr0 bank }
{
    if dtr0 == 0 { 1 <= bank } else { bank == dtr0 }
}

// The value is one that takes its fresh bytes.
#[tactic(auto, unfolding(crate::specs::Filled::chosen))]
fn is_chosen(stored: Stored<'_>, filling: Filling, r: Record) -> bool
    ensures { result ≡ chosen (records_of stored.entry.map.now) stored.entry.store.now filling r }
{
    match filling {
        Filling::PowerOn => r.kind == 2,
        Filling::Reset(dtr0) => {
            r.is_writable() && selects_bank(dtr0, r.bank) && stored.lock_byte(r.bank) == 0x55
        }
    }
}

// Internal: the value takes its fresh bytes.
#[tactic(auto, using(laws::proofs::Copies::lent_whole), unfolding(crate::specs::Filled::fresh, banks::specs::Values::value_of, banks::specs::Values::put_value, laws::specs::Parts::put))]
fn freshen(store: &mut [u8], image: &[u8], r: Record)
    requires { (1 ≤ r.width) × (places_end r ≤ length store.old) × (places_end r ≤ length image.now) }
    ensures { store.new ≡ put_value r (fresh image.now r) store.old }
{
    let at = r.offset as usize;
    if is_lock(r) {
        store[at] = 0xFF;
        return;
    }
    let end = r.places_end();
    put_value(store, r, &image[at..end]);
}

// Which records are chosen, by their numbers.
// Kept: a rule of the project (no heap): 64 places. And by number: tried `picks.iter_mut().zip(..)`, the proof didn't close, since inside
// the loop nothing is known of what is lent.
#[tactic(auto, using(crate::proofs::Fillings::few))]
fn choices(stored: Stored<'_>, filling: Filling) -> [bool; 64]
    ensures { Picked stored.entry.map.now stored.entry.store.now filling result }
{
    let mut picks = [false; 64];
    for i in 0..record_count(stored.map) {
        picks[i] = is_chosen(stored, filling, record_at(stored.map, i));
    }
    picks
}

// Internal: each value that is chosen takes its fresh bytes. Map, store and image have passed 7 to 10.
// Kept: map and store apart, for the reason at `write_byte`; by number: the new form is no plainer, since it goes from the last record
// down, as the definition does (docs/DECISIONS.md, 16), and the iterator goes forwards only.
#[tactic(auto, using(crate::proofs::Fillings::few))]
pub fn fill_store(map: &[u8], store: &mut [u8], image: &[u8], filling: Filling)
    requires { (placed map.now (length store.old) ≡ true) × (length image.now ≡ length store.old) }
    ensures { store.new
        ≡ filled_of (records_of map.now) store.old image.now filling }
{
    let picks = choices(Stored { map, store }, filling);
    for i in (0..record_count(map)).rev() {
        if picks[i] {
            freshen(store, image, record_at(map, i));
        }
    }
}
