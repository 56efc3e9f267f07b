// The look calls: the stored bytes of a value that begins at a given bank and location. They have no image: the store
// stands for it.
ghost use Rattle.std.specs.Prelude.{◌≡◌};
ghost use Rattle.looks.specs.Promises.{LookAtPromise, LookNumberPromise, LookPromise};

use banks::check_sizes;
use records::Map;
use refusals::Refusal;

// The place of a value in the store.
#[derive(Clone, Copy, Debug, PartialEq, Eq)]
pub struct Place {
    pub width: u8,
    pub offset: u16,
}

// Width and offset of the value that begins at the bank and location.
#[tactic(auto, using(banks::proofs::Standing::stands, crate::proofs::Looks::look_sound))]
pub fn look_at(map: &[u8], store: &[u8], bank: u8, location: u8) -> Result<Place, Refusal>
    ensures { LookAtPromise map.now store.now bank location result }
{
    check_sizes(map, store, store.len())?;
    match (Map { bytes: map }).value_at(bank, location) {
        Some(r) => Ok(Place {
            width: r.width,
            offset: r.offset,
        }),
        None => Err(Refusal::NoValue),
    }
}

// The number of a look: 7 to 11, then 14, or 0.
// Kept: a number; what may not change (`looks:LookNumberPromise`: the companion call gives the number).
#[tactic(auto, using(crate::proofs::Looks::look_0, crate::proofs::Looks::look_some))]
pub fn look_number(map: &[u8], store: &[u8], bank: u8, location: u8) -> u8
    ensures { LookNumberPromise map.now store.now bank location result }
{
    match look_at(map, store, bank, location) {
        Ok(_) => 0,
        Err(refusal) => refusal.number(),
    }
}

// The stored bytes themselves, no copy: a part of the lent store, and the empty part on refusal.
#[tactic(auto, using(crate::proofs::Looks::look_inside, crate::proofs::Looks::look_part, crate::proofs::Looks::look_none))]
pub fn look<'a>(map: &[u8], store: &'a [u8], bank: u8, location: u8) -> &'a [u8]
    ensures { LookPromise map.now store.now bank location result.now }
{
    match look_at(map, store, bank, location) {
        Ok(place) => {
            let offset = place.offset as usize;
            &store[offset..offset + place.width as usize]
        }
        Err(_) => &store[..0],
    }
}
