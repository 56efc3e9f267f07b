// The rules 10 and 11 of map, store and reset image, each over everything, and the number of all three.
ghost use Rattle.std.specs.Prelude.{◌≡◌, ◌≤◌, length};
ghost use Rattle.laws.specs.Lists.{every};
ghost use Rattle.laws.specs.Numbers.{first_failing};
ghost use Rattle.refusals.specs.Numbers.{number_in};
ghost use Rattle.records.specs.Map.{records_of, places_end};
ghost use Rattle.banks.specs.Rules.{lengths_hold, inside, clear, disjoint, places_hold};
ghost use Rattle.banks.specs.Rules.{is_head, is_lock, bank_has, bank_holds, banks_hold};
ghost use Rattle.banks.specs.Rules.{ends_by, head_byte_holds, head_holds, head_bytes_hold};
ghost use Rattle.banks.specs.Rules.{place_tests, bank_tests, check_number};
ghost use Rattle.banks.specs.Promises.{CheckPromise};

use crate::stored::Stored;
use records::{Map, Record, RecordIter, check_order, records};
use refusals::Refusal;

// 10, of the lengths of store and image.
#[tactic(auto, unfolding(crate::specs::Rules::lengths_hold))]
fn lengths_hold(n: usize, size: usize) -> bool
    ensures { result ≡ lengths_hold n size }
{
    (n == size) & (n <= 4096)
}

// 10, of one place in a store of n bytes.
fn is_inside(r: Record, n: usize) -> bool
    ensures { result ≡ inside n r }
{
    r.places_end() <= n
}

// 10.
fn all_inside(map: &[u8], n: usize) -> bool
    ensures { result ≡ every (inside n) (records_of map.now) }
{
    records(map).all(|r| is_inside(r, n))
}

// 10, of two places.
fn are_clear(p: Record, r: Record) -> bool
    ensures { result ≡ clear p r }
{
    (p.places_end() <= r.offset as usize) | (r.places_end() <= p.offset as usize)
}

// 10, of the place of p and those of the records that are left.
fn is_clear_of(p: Record, mut rest: RecordIter<'_>) -> bool
    ensures { result ≡ every (clear p) (records_of rest.entry.bytes.now) }
{
    rest.all(|r| are_clear(p, r))
}

// 10.
fn are_disjoint(map: &[u8]) -> bool
    ensures { result ≡ disjoint (records_of map.now) }
{
    let mut rest = records(map);
    while let Some(r) = rest.next() {
        if !is_clear_of(r, rest) {
            return false;
        }
    }
    true
}

// 10.
#[tactic(auto, unfolding(crate::specs::Rules::places_hold))]
fn places_hold(map: &[u8], n: usize, size: usize) -> bool
    ensures { result ≡ places_hold (records_of map.now) n size }
{
    lengths_hold(n, size) && all_inside(map, n) && are_disjoint(map)
}

fn is_head(r: Record) -> bool
    ensures { result ≡ is_head r }
{
    (r.first == 0x00) & (r.width == 1) & (r.kind == 0)
}

pub fn is_lock(r: Record) -> bool
    ensures { result ≡ is_lock r }
{
    (r.first == 0x02) & (r.width == 1) & (r.kind == 2) & (r.lockable == 0)
}

// 11, the record at 0x00. The look-up finds the one record that can be it.
// Kept, beside the next: the new form is no plainer: each is a line over `lookup`; one for both takes location, test and their law.
#[tactic(auto, using(crate::proofs::HeadsAndLocks::single_head, crate::proofs::HeadsAndLocks::has_at, crate::proofs::HeadsAndLocks::has_none))]
fn has_head(map: Map<'_>, bank: u8) -> bool
    ensures { result ≡ bank_has is_head (records_of map.entry.bytes.now) bank }
{
    map.lookup(bank, 0x00).is_ok_and(is_head)
}

// 11, the lock byte, as above.
#[tactic(auto, using(crate::proofs::HeadsAndLocks::single_lock, crate::proofs::HeadsAndLocks::has_at, crate::proofs::HeadsAndLocks::has_none))]
fn has_lock(map: Map<'_>, bank: u8) -> bool
    ensures { result ≡ bank_has is_lock (records_of map.entry.bytes.now) bank }
{
    map.lookup(bank, 0x02).is_ok_and(is_lock)
}

// 11, what the map itself must have, for the bank of one record.
#[tactic(auto, unfolding(crate::specs::Rules::bank_holds))]
fn bank_holds(map: Map<'_>, r: Record) -> bool
    ensures { result ≡ bank_holds (records_of map.entry.bytes.now) r }
{
    has_head(map, r.bank)
        && if r.bank == 0 {
            !r.is_writable()
        } else {
            has_lock(map, r.bank)
        }
}

// 11, what the map itself must have.
fn banks_hold(map: Map<'_>) -> bool
    ensures { result ≡ banks_hold (records_of map.entry.bytes.now) }
{
    records(map.bytes).all(|r| bank_holds(map, r))
}

fn ends_by(r: Record, bank: u8, last: u8) -> bool
    ensures { result ≡ ends_by bank last r }
{
    (r.bank != bank) | (r.locations_end() <= last as usize + 1)
}

fn all_end_by(map: &[u8], bank: u8, last: u8) -> bool
    ensures { result ≡ every (ends_by bank last) (records_of map.now) }
{
    records(map).all(|r| ends_by(r, bank, last))
}

// 11, of a bank's stored byte at 0x00.
#[tactic(auto, unfolding(crate::specs::Rules::head_byte_holds))]
fn head_byte_holds(map: &[u8], bank: u8, byte: u8) -> bool
    ensures { result ≡ head_byte_holds (records_of map.now) bank byte }
{
    (3 <= byte) & (byte <= 254) && all_end_by(map, bank, byte)
}

// 11, of one record. Where 10 has passed, its place lies in the store.
#[tactic(auto, unfolding(crate::specs::Rules::head_holds))]
fn head_holds(map: &[u8], store: &[u8], r: Record) -> bool
    ensures { result ≡ head_holds (records_of map.now) store.now r }
{
    let byte = store.get(r.offset as usize).copied().unwrap_or(0);
    !is_head(r) || head_byte_holds(map, r.bank, byte)
}

// 11, the stored bytes at 0x00.
fn head_bytes_hold(map: &[u8], store: &[u8]) -> bool
    ensures { result ≡ head_bytes_hold (records_of map.now) store.now }
{
    records(map).all(|r| head_holds(map, store, r))
}

// 10, or nothing.
#[tactic(auto, unfolding(laws::specs::Numbers::first_failing))]
fn check_places(map: &[u8], n: usize, size: usize) -> Result<(), Refusal>
    ensures { number_in result ≡ first_failing (place_tests map.now n size) }
{
    if !places_hold(map, n, size) {
        return Err(Refusal::StorePlaces);
    }
    Ok(())
}

// 11, or nothing.
#[tactic(auto, unfolding(laws::specs::Numbers::first_failing))]
fn check_banks(stored: Stored<'_>) -> Result<(), Refusal>
    ensures { number_in result ≡ first_failing (bank_tests stored.entry.map.now stored.entry.store.now) }
{
    if banks_hold(stored.map()) && head_bytes_hold(stored.map, stored.store) {
        Ok(())
    } else {
        Err(Refusal::BankRules)
    }
}

// Internal: map, store and an image of `size` bytes, for those who have no image at hand: the first of 7 to 11 that they break.
#[tactic(auto, using(records::proofs::Ordered::zero_ordered, crate::proofs::Standing::zero_placed, crate::proofs::Standing::order_first, crate::proofs::Standing::place_next, crate::proofs::Standing::bank_last))]
pub fn check_sizes(map: &[u8], store: &[u8], size: usize) -> Result<(), Refusal>
    ensures { number_in result ≡ check_number map.now store.now size }
{
    check_order(map)?;
    check_places(map, store.len(), size)?;
    check_banks(Stored { map, store })
}

// Map, store and reset image: the first of 7 to 11 that they break.
pub fn check(map: &[u8], store: &[u8], image: &[u8]) -> Result<(), Refusal>
    ensures { CheckPromise map.now store.now image.now (number_in result) }
{
    check_sizes(map, store, image.len())
}
