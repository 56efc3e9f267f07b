// READ in a mapped bank, and the latch.
ghost use Rattle.std.specs.Prelude.{◌≡◌, ◌-◌, ◌<◌, ◌≤◌, length};
ghost use Rattle.records.specs.Map.{records_of};
ghost use Rattle.banks.specs.Values.{value_of};
ghost use Rattle.memory.specs.Reach.{Reaches};
ghost use Rattle.memory.specs.Latched.{none_latched, latches, latch_from, shown, show_byte, read_byte};

use banks::{Stored, padded_part};
use records::Record;

// Kept: what may not change: rule 12 of paper 01 (`latch_holds`) says that what is not in use is zero, and so do C's 96 bytes.
#[derive(Clone, Copy, PartialEq, Eq)]
pub struct Latch {
    pub held: bool,
    pub bank: u8,
    pub first: u8,
    pub bytes: [u8; 8],
}

// What is latched after a READ, and the byte that it answers, if it answers.
#[derive(Clone, Copy, PartialEq, Eq)]
pub struct Shown {
    pub latch: Latch,
    pub answer: Option<u8>,
}

// Nothing is latched.
pub fn none_latched() -> Latch
    ensures { result ≡ none_latched }
{
    Latch {
        held: false,
        bank: 0,
        first: 0,
        bytes: [0; 8],
    }
}

// The latch holds this value's bytes.
fn is_latched(l: Latch, r: Record) -> bool
    ensures { result ≡ latches l r }
{
    l.held && l.bank == r.bank && l.first == r.first
}

// Internal: the latch after the first or single byte of the value was read, whose part of the store this is.
#[tactic(auto, unfolding(crate::specs::Latched::latch_from))]
fn latch_from(part: &[u8], r: Record) -> Latch
    requires { length part.now ≤ 8 }
    ensures { result ≡ latch_from r part.now }
{
    if r.width < 2 {
        return none_latched();
    }
    Latch {
        held: true,
        bank: r.bank,
        first: r.first,
        bytes: padded_part(part),
    }
}

fn shown_as(latch: Latch, byte: u8) -> Shown
    ensures { result ≡ shown latch byte }
{
    Shown {
        latch,
        answer: Some(byte),
    }
}

// Internal: byte number k of the value, whose part of the store this is.
#[tactic(auto, unfolding(crate::specs::Latched::show_byte))]
fn show_byte(part: &[u8], l: Latch, r: Record, k: usize) -> Shown
    requires { (k < length part.now) × (length part.now ≤ 8) }
    ensures { result ≡ show_byte l r part.now k }
{
    if k == 0 {
        return shown_as(latch_from(part, r), part[0]);
    }
    if is_latched(l, r) {
        return shown_as(l, l.bytes[k]);
    }
    shown_as(l, part[k])
}

// Internal: the byte at a location of the value.
#[tactic(auto, using(laws::proofs::Copies::lent), unfolding(banks::specs::Values::value_of))]
fn show_value(store: &[u8], l: Latch, r: Record, location: u8) -> Shown
    requires { Reaches (length store.now) location r }
    ensures { result ≡ show_byte l r (value_of r store.now) (location - r.first) }
{
    let at = r.offset as usize;
    let end = r.places_end();
    let k = location - r.first;
    show_byte(&store[at..end], l, r, k as usize)
}

// READ at a location of a mapped bank.
#[tactic(auto, using(crate::proofs::Reaching::reaches), unfolding(crate::specs::Latched::read_byte, crate::specs::Latched::read_at))]
pub fn read_byte(stored: Stored<'_>, latch: Latch, bank: u8, location: u8) -> Shown
    ensures { result ≡ read_byte (records_of stored.entry.map.now) stored.entry.store.now latch bank location }
{
    match stored.map().lookup(bank, location) {
        Ok(r) => show_value(stored.store, latch, r, location),
        Err(_) => Shown {
            latch,
            answer: None,
        },
    }
}
