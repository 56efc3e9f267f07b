// An executed write: the byte that is taken, the bytes that are staged, the whole value in the store.
ghost use Rattle.std.specs.Prelude.{◌≡◌, true, false, ◌+◌, ◌<◌, ◌≤◌, length};
ghost use Rattle.laws.specs.Outcome.{Gives};
ghost use Rattle.records.specs.Map.{records_of};
ghost use Rattle.banks.specs.Rules.{placed};
ghost use Rattle.memory.specs.Reach.{Reaches};
ghost use Rattle.memory.specs.Staged.{none_staged, is_next, unlocked, taken, bytes_with, wrote, take_byte};
ghost use Rattle.memory.specs.Staged.{write_found, write_byte};

use banks::{Stored, put_value};
use records::{Map, Record};

// Some bytes of a value; none, where the count is 0.
// Kept: what may not change: rule 12 of paper 01 (`staged_holds`) says that what is not in use is zero, and so do C's 96 bytes.
#[derive(Clone, Copy, PartialEq, Eq)]
pub struct Staged {
    pub count: u8,
    pub bank: u8,
    pub first: u8,
    pub bytes: [u8; 8],
}

// Whether the byte is taken, and what is staged then, be it taken or not.
// Kept: the flag does not say whether `staged` is there; what may not change: `memory:wrote` names both.
#[derive(Clone, Copy, PartialEq, Eq)]
pub struct Wrote {
    pub taken: bool,
    pub staged: Staged,
}

// Nothing is staged.
pub fn none_staged() -> Staged
    ensures { result ≡ none_staged }
{
    Staged {
        count: 0,
        bank: 0,
        first: 0,
        bytes: [0; 8],
    }
}

// The location is that of the next byte of the value that is staged.
fn is_next(g: Staged, r: Record, location: u8) -> bool
    ensures { result ≡ is_next g r location }
{
    let at = r.first as usize + g.count as usize;
    1 <= g.count && g.bank == r.bank && g.first == r.first && location as usize == at
}

// The bank's lock byte is 0x55 where the value is lockable.
#[tactic(auto, unfolding(crate::specs::Staged::unlocked))]
pub fn is_unlocked(stored: Stored<'_>, r: Record) -> bool
    ensures { result ≡ unlocked (records_of stored.entry.map.now) stored.entry.store.now r }
{
    r.lockable == 0 || stored.lock_byte(r.bank) == 0x55
}

// The byte is taken.
#[tactic(auto, unfolding(crate::specs::Staged::taken))]
fn is_taken(stored: Stored<'_>, g: Staged, r: Record, location: u8) -> bool
    ensures { result ≡ taken (records_of stored.entry.map.now) stored.entry.store.now g r location }
{
    r.is_writable() && is_unlocked(stored, r) && (location == r.first || is_next(g, r, location))
}

// Internal: the staged bytes, with byte number k.
#[tactic(auto, unfolding(crate::specs::Staged::bytes_with))]
fn bytes_with(g: Staged, k: usize, byte: u8) -> [u8; 8]
    requires { k < 8 }
    ensures { result ≡ bytes_with g k byte }
{
    let mut bytes = if k == 0 { [0; 8] } else { g.bytes };
    bytes[k] = byte;
    bytes
}

// The byte is taken, and this is staged then.
fn taken_with(staged: Staged) -> Wrote
    ensures { result ≡ wrote true staged }
{
    Wrote {
        taken: true,
        staged,
    }
}

// Nothing is taken, and nothing stays staged.
fn dropped() -> Wrote
    ensures { result ≡ wrote false none_staged }
{
    Wrote {
        taken: false,
        staged: none_staged(),
    }
}

// Internal: byte number k of the value is taken.
#[tactic(auto, unfolding(crate::specs::Staged::take_byte))]
fn take_byte(store: &mut [u8], g: Staged, r: Record, k: u8, byte: u8) -> Wrote
    requires { (k < r.width) × (r.width ≤ 8) × (r.offset + r.width ≤ length store.old) }
    ensures { Gives result store.new (take_byte store.old g r k byte) }
{
    let bytes = bytes_with(g, k as usize, byte);
    if k + 1 == r.width {
        put_value(store, r, &bytes);
        return taken_with(none_staged());
    }
    taken_with(Staged {
        count: k + 1,
        bank: r.bank,
        first: r.first,
        bytes,
    })
}

// Internal: an executed write at a location of the value.
// Kept: map and store apart, for the reason at `write_byte`.
#[tactic(auto, unfolding(crate::specs::Staged::write_found))]
fn write_found(map: &[u8], store: &mut [u8], g: Staged, r: Record, location: u8, byte: u8) -> Wrote
    requires { (placed map.now (length store.old) ≡ true) × Reaches (length store.old) location r }
    ensures { Gives result store.new (write_found (records_of map.now) store.old g r location byte) }
{
    if is_taken(Stored { map, store }, g, r, location) {
        take_byte(store, g, r, location - r.first, byte)
    } else {
        dropped()
    }
}

// Internal: an executed write of the byte at the bank and location.
// Kept: a type that holds the lent store: tried, the proof didn't close (what its maker's store became is lost).
#[tactic(auto, using(banks::proofs::Places::placed_ordered, crate::proofs::Reaching::reaches), unfolding(crate::specs::Staged::write_byte, crate::specs::Staged::write_at))]
pub fn write_byte(
    map: &[u8],
    store: &mut [u8],
    staged: Staged,
    bank: u8,
    location: u8,
    byte: u8,
) -> Wrote
    requires { placed map.now (length store.old) ≡ true }
    ensures { Gives result store.new
        (write_byte (records_of map.now) store.old staged bank location byte) }
{
    match (Map { bytes: map }).lookup(bank, location) {
        Ok(r) => write_found(map, store, staged, r, location, byte),
        Err(_) => dropped(),
    }
}
