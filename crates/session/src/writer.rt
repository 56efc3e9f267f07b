// The session of a value: the tests, and the frames one after the other.
ghost use Rattle.std.specs.Prelude.{◌≡◌, ◌+◌, ◌≤◌, ◌<◌, length, Some};
ghost use Rattle.records.specs.Map.{records_of, locations_end};
ghost use Rattle.records.specs.Lookup.{beginner};
ghost use Rattle.session.specs.Session.{opening, byte_writes, lock_writes, messages_of, without_frames, session_with};
ghost use Rattle.session.specs.Session.{fits, sent_all, value_session};
ghost use Rattle.session.specs.Promises.{SessionPromise};

use crate::answer::{Session, without_frames};
use crate::messages::{direct_write, enable_write, set_bank};
use records::{Map, Record};
use refusals::Refusal;

// Internal: for a lockable value a write of its bank's lock byte.
#[tactic(auto, unfolding(crate::specs::Session::lock_writes))]
fn lock_sent(session: Session, r: Record, byte: u8) -> Session
    requires { session.count < 13 }
    ensures { result ≡ sent_all session (lock_writes r byte) }
{
    if r.lockable == 0 {
        return session;
    }
    session.sent(direct_write(0x02, byte))
}

// Internal: the bytes in order, from the first location on.
#[tactic(auto, using(crate::proofs::Growing::byte_sent, crate::proofs::Growing::bytes_all), unfolding(crate::specs::Session::sent))]
fn bytes_sent(session: Session, first: u8, bytes: &[u8]) -> Session
    requires { (session.count + length bytes.now ≤ 13) × (first + length bytes.now ≤ 255) }
    ensures { result ≡ sent_all session (byte_writes first bytes.now) }
{
    let mut next = session;
    for (i, byte) in bytes.iter().enumerate() {
        next = next.sent(direct_write(first + i as u8, *byte));
    }
    next
}

// DTR1, the ENABLE pair.
#[tactic(auto, unfolding(crate::specs::Session::sent))]
fn opened(address: u8, bank: u8) -> Session
    ensures { result ≡ sent_all without_frames (opening address bank) }
{
    let dtr1 = set_bank(bank);
    let enable = enable_write(address);
    without_frames().sent(dtr1).sent(enable).sent(enable)
}

// Internal: the frames that write a value: DTR1, the ENABLE pair, the bytes, and round them the lock byte.
#[tactic(auto, using(crate::proofs::Growing::opened_count, crate::proofs::Growing::all_sent))]
fn written(address: u8, r: Record, bytes: &[u8]) -> Session
    requires { (length bytes.now ≤ 8) × (r.first + length bytes.now ≤ 255) }
    ensures { result ≡ session_with (messages_of address r bytes.now) }
{
    let unlocked = lock_sent(opened(address, r.bank), r, 0x55);
    let whole = bytes_sent(unlocked, r.first, bytes);
    lock_sent(whole, r, 0xFF)
}

// 6: as many bytes as the value has, and an address 0..63.
fn is_fit(address: u32, r: Record, count: usize) -> bool
    ensures { result ≡ fits (Some r) address count }
{
    (count == r.width as usize) & (address <= 63)
}

// Internal: 16, 6, then the frames.
#[tactic(auto, using(laws::proofs::Sides::failed, laws::proofs::Sides::passed, crate::proofs::Numbered::fit_count, crate::proofs::Numbered::value_none, crate::proofs::Numbered::value_closed, crate::proofs::Numbered::value_unfit, crate::proofs::Numbered::value_written))]
fn for_value(address: u32, r: Record, bytes: &[u8]) -> Result<Session, Refusal>
    requires { (r.width ≤ 8) × (locations_end r ≤ 255) }
    ensures { result ≡ value_session address r bytes.now }
{
    if !r.is_writable() {
        return Err(Refusal::NotWritable);
    }
    if !is_fit(address, r, bytes.len()) {
        return Err(Refusal::OutOfRange);
    }
    Ok(written(address as u8, r, bytes))
}

// Internal: the value that begins at the bank and location, which are wider than bytes, so that neither is cut to fit:
// none begins at one over 255.
#[tactic(auto, using(crate::proofs::Numbered::no_byte))]
fn begins_at(map: Map, bank: u32, location: u32) -> Option<Record>
    ensures { result ≡ beginner (records_of map.entry.bytes.now) bank location }
{
    let bank = u8::try_from(bank).ok()?;
    let location = u8::try_from(location).ok()?;
    map.value_at(bank, location)
}

// The frames that write the bytes to the value that begins at the bank and location, in the unit of that short address.
#[tactic(auto, using(crate::proofs::Numbered::map_refused, crate::proofs::Numbered::none_refused, crate::proofs::Numbered::session_value))]
pub fn session(
    map: &[u8],
    address: u32,
    bank: u32,
    location: u32,
    bytes: &[u8],
) -> Result<Session, Refusal>
    ensures { SessionPromise map.now address bank location bytes.now result }
{
    let map = Map::new(map)?;
    let r = begins_at(map, bank, location).ok_or(Refusal::NoValue)?;
    for_value(address, r, bytes)
}
