// What a start, a power-on and a frame step refuse: the first test that fails.
ghost use Rattle.std.specs.Prelude.{◌≡◌, length};
ghost use Rattle.refusals.specs.Numbers.{number_in};
ghost use Rattle.numbers.specs.Promises.{CheckStartPromise, CheckPowerPromise};
ghost use Rattle.numbers.specs.Promises.{CheckHeardPromise, CheckStepPromise};

use banks::Stored;
use hearing::{Heard, Who};
use refusals::Refusal;
use rooms::{State, address_holds, state_holds};

// A power-on: 7 to 11, then 12.
#[tactic(auto, using(crate::proofs::Behind::power_first, crate::proofs::Behind::power_then, crate::proofs::Behind::checked))]
pub fn check_power(map: &[u8], store: &[u8], image: &[u8], state: State) -> Result<(), Refusal>
    ensures { CheckPowerPromise map.now store.now image.now state (number_in result) }
{
    banks::check(map, store, image)?;
    if !state_holds(Stored { map, store }, state) {
        return Err(Refusal::StateRules);
    }
    Ok(())
}

// What is heard: 1. Map, store and state have passed 7 to 12.
#[tactic(auto, unfolding(crate::specs::Numbers::heard_number, laws::specs::Numbers::first_failing))]
pub fn check_heard(stored: Stored<'_>, state: State, heard: Heard) -> Result<(), Refusal>
    ensures { CheckHeardPromise stored.entry.map.now stored.entry.store.now state heard (number_in result) }
{
    if heard.frame >= 16777216 {
        return Err(Refusal::FrameTooLarge);
    }
    Ok(())
}

// A frame step: 7 to 12, then what is heard.
#[tactic(auto, using(crate::proofs::Behind::step_first, crate::proofs::Behind::step_then, crate::proofs::Behind::powered))]
pub fn check_step(
    map: &[u8],
    store: &[u8],
    image: &[u8],
    state: State,
    heard: Heard,
) -> Result<(), Refusal>
    ensures { CheckStepPromise map.now store.now image.now state heard (number_in result) }
{
    check_power(map, store, image, state)?;
    check_heard(Stored { map, store }, state, heard)
}

// A start: 7 to 11, then 6.
#[tactic(auto, using(crate::proofs::Behind::start_first, crate::proofs::Behind::start_then))]
pub fn check_start(map: &[u8], store: &[u8], image: &[u8], who: Who) -> Result<(), Refusal>
    ensures { CheckStartPromise map.now store.now image.now who (number_in result) }
{
    banks::check(map, store, image)?;
    if !address_holds(who.address) {
        return Err(Refusal::OutOfRange);
    }
    Ok(())
}
