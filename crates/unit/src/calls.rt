// Start, power-on and a frame step.
ghost use Rattle.std.specs.Prelude.{◌≡◌, true, length};
ghost use Rattle.laws.specs.Outcome.{Gives};
ghost use Rattle.records.specs.Map.{records_of};
ghost use Rattle.banks.specs.Rules.{placed};
ghost use Rattle.unit.specs.Step.{frame_step, power_step};
ghost use Rattle.unit.specs.Promises.{StartPromise, PowerOnPromise, StepPromise};

use crate::acts::{act, hear};
use banks::Stored;
use hearing::{Heard, Who};
use memory::Filling;
use numbers::{check_power, check_start, check_step};
use rooms::{State, Stepped, due_by, powered_on, quiet, refusing, with_who, zero_state};

// Internal: a frame step on a map, store and state that keep the rules. Whoever runs many frames checks once, and then
// calls this. A reserved frame goes straight to clearing the waiting one.
// Kept: map and store apart, for the reason at `memory::write_byte`.
#[tactic(auto, using(banks::proofs::Places::placed_ordered), unfolding(crate::specs::Step::frame_step, rooms::specs::Due::due_of, hearing::specs::Meaning::meaning_of, rooms::specs::Due::due_by, crate::specs::Step::done))]
pub fn frame_step(map: &[u8], store: &mut [u8], image: &[u8], state: State, heard: Heard) -> Stepped
    requires { (placed map.now (length store.old) ≡ true) × (length image.now ≡ length store.old) }
    ensures { Gives result store.new
        (frame_step (records_of map.now) store.old image.now state heard) }
{
    let Ok(message) = frames::read(heard.frame) else {
        return quiet(hear(state, false));
    };
    let meaning = hearing::message_meaning(state.who, message);
    let due = due_by(Stored { map, store }.map(), state, heard, meaning);
    act(
        map,
        store,
        image,
        hear(state, hearing::closes(meaning)),
        heard,
        due,
    )
}

// Internal: a power-on on a map and store that keep the rules.
// Kept: map and store apart, as above.
#[tactic(auto, unfolding(crate::specs::Step::power_step))]
pub fn power_step(map: &[u8], store: &mut [u8], image: &[u8], state: State) -> Stepped
    requires { (placed map.now (length store.old) ≡ true) × (length image.now ≡ length store.old) }
    ensures { Gives result store.new
        (power_step (records_of map.now) store.old image.now state) }
{
    memory::fill_store(map, store, image, Filling::PowerOn);
    quiet(powered_on(state))
}

#[tactic(auto, using(crate::proofs::Refusing::refused, numbers::proofs::Behind::stepped), unfolding(crate::specs::Step::step_of))]
pub fn step(map: &[u8], store: &mut [u8], image: &[u8], state: State, heard: Heard) -> Stepped
    ensures { StepPromise map.now store.old image.now state heard result store.new }
{
    match check_step(map, store, image, state, heard) {
        Ok(()) => frame_step(map, store, image, state, heard),
        Err(refusal) => refusing(state, refusal),
    }
}

// A later power-on: address and groups stay.
#[tactic(auto, using(crate::proofs::Refusing::refused, numbers::proofs::Behind::powered), unfolding(crate::specs::Step::power_on_of))]
pub fn power_on(map: &[u8], store: &mut [u8], image: &[u8], state: State) -> Stepped
    ensures { PowerOnPromise map.now store.old image.now state result store.new }
{
    match check_power(map, store, image, state) {
        Ok(()) => power_step(map, store, image, state),
        Err(refusal) => refusing(state, refusal),
    }
}

// Address and groups as given, then as a power-on; a refused start's state is all zeros.
#[tactic(auto, using(crate::proofs::Refusing::refused, numbers::proofs::Behind::started), unfolding(crate::specs::Step::start_of))]
pub fn start(map: &[u8], store: &mut [u8], image: &[u8], who: Who) -> Stepped
    ensures { StartPromise map.now store.old image.now who result store.new }
{
    let zeros = zero_state();
    match check_start(map, store, image, who) {
        Ok(()) => power_step(map, store, image, with_who(zeros, who)),
        Err(refusal) => refusing(zeros, refusal),
    }
}
