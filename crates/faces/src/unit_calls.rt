// The calls of the unit: on a map, a store, a reset image and a state of 96 bytes.
ghost use Rattle.std.specs.Prelude.{◌≡◌, true, false, length, MatchResult};
ghost use Rattle.refusals.specs.Numbers.{number_of};
ghost use Rattle.rooms.specs.Rules.{address_holds};
ghost use Rattle.packing.specs.StateBytes.{state_bytes, state_of, shape_holds};
ghost use Rattle.faces.specs.Answers.{reply_word};
ghost use Rattle.faces.specs.Face.{then_number, shape_number};
ghost use Rattle.faces.specs.Promises.{CheckFacePromise, LookFacePromise, FindFacePromise, StartFacePromise};
ghost use Rattle.faces.specs.Promises.{CompareFacePromise, SessionFacePromise};
ghost use Rattle.faces.specs.Promises.{FrameFacePromise, PowerOnFacePromise, RunFacePromise};

use crate::answers::{look_word, reply_word};
use hearing::Who;
use packing::{pack, shape_holds, unpack};
use refusals::{Refusal, number_in};
use rooms::{State, Stepped};

// The number of map, store and reset image: 7 to 11, or 0.
pub fn check_face(map: &[u8], store: &[u8], image: &[u8]) -> u32
    ensures { CheckFacePromise map.now store.now image.now result }
{
    u32::from(number_in(banks::check(map, store, image)))
}

// 7 to 11, then a refusal that the call gives in any case.
#[tactic(auto, using(crate::proofs::Faced::then_first, crate::proofs::Faced::then_own))]
fn refusal_then(map: &[u8], store: &[u8], image: &[u8], own: Refusal) -> Refusal
    ensures { number_of result ≡ then_number map.now store.now (length image.now) (number_of own) }
{
    match banks::check(map, store, image) {
        Ok(()) => own,
        Err(refusal) => refusal,
    }
}

// Number, width and store offset of the value that begins at the bank and location. They are wider than bytes, so that
// neither is cut to fit: no value begins at one over 255.
#[tactic(auto, using(crate::proofs::NoByte::look_over))]
pub fn look_face(map: &[u8], store: &[u8], bank: u32, location: u32) -> u32
    ensures { LookFacePromise map.now store.now bank location result }
{
    let (Ok(bank), Ok(location)) = (u8::try_from(bank), u8::try_from(location)) else {
        return look_word(Err(refusal_then(map, store, store, Refusal::NoValue)));
    };
    look_word(looks::look_at(map, store, bank, location))
}

// Which value holds the location, or why none does. They are wider than bytes, as above: 6.
pub fn find_face(map: &[u8], bank: u32, location: u32) -> u64
    ensures { FindFacePromise map.now bank location result }
{
    finds::find_word(map, bank, location)
}

// The list of the values that differ between two stores, over the output.
pub fn compare_face(map: &[u8], old: &[u8], new: &[u8], output: &mut [u8]) -> u32
    ensures { CompareFacePromise map.now old.now new.now output.old
        result output.new }
{
    compare::compare_word(map, old, new, output)
}

// The frames that write a value. They are wider than bytes, as above: 14, and 6 for the address.
pub fn session_face(
    map: &[u8],
    address: u32,
    bank: u32,
    location: u32,
    bytes: &[u8],
    frames: &mut [u32; 13],
) -> u32
    ensures { SessionFacePromise map.now address bank location bytes.now result frames.new }
{
    session::session_word(map, address, bank, location, bytes, frames)
}

// What a step leaves: the state's bytes, and the reply as one number.
fn told(stepped: Stepped, state: &mut [u8; 96]) -> u32
    ensures state_is { state.new ≡ state_bytes stepped.state }
    ensures answers { result ≡ reply_word stepped.reply }
{
    *state = pack(stepped.state);
    reply_word(stepped.reply)
}

// A state is made, and the store as a power-on leaves it. The address is wider than a byte, so that it is not cut to
// fit: one over 255 is refused as any other that is out of range, with a state of all zeros.
#[tactic(auto, using(crate::proofs::Faced::faced, crate::proofs::NoByte::start_over), unfolding(crate::specs::Face::start_face))]
pub fn start_face(
    map: &[u8],
    store: &mut [u8],
    image: &[u8],
    address: u32,
    groups: u32,
    state: &mut [u8; 96],
) -> u32
    ensures { StartFacePromise map.now store.old image.now
        address groups result state.new store.new }
{
    let Ok(address) = u8::try_from(address) else {
        *state = [0; 96];
        return reply_word(Err(refusal_then(map, store, image, Refusal::OutOfRange)));
    };
    told(
        unit::start(map, store, image, Who { address, groups }),
        state,
    )
}

// The state that the bytes say. Bytes that are no state's are refused like a state that breaks a rule: 7 to 11, then 12.
fn state_in(map: &[u8], store: &[u8], image: &[u8], bytes: [u8; 96]) -> Result<State, Refusal>
    ensures { MatchResult result
        (λ state. (shape_holds bytes ≡ true) × (state ≡ state_of bytes))
        (λ refusal. (shape_holds bytes ≡ false)
        × (number_of refusal ≡ shape_number map.now store.now (length image.now))) }
{
    if shape_holds(bytes) {
        Ok(unpack(bytes))
    } else {
        Err(refusal_then(map, store, image, Refusal::StateRules))
    }
}

// A frame, heard at a clock.
// Kept: this and a power-on apart, as the C interface has them; what both do stands in `state_in` and `told`.
#[tactic(auto, using(crate::proofs::Faced::unshaped, crate::proofs::Faced::shaped_as), unfolding(crate::specs::Face::frame_face))]
pub fn frame_face(
    map: &[u8],
    store: &mut [u8],
    image: &[u8],
    state: &mut [u8; 96],
    frame: u32,
    clock: u32,
) -> u32
    ensures { FrameFacePromise map.now store.old image.now state.old
        frame clock result state.new store.new }
{
    match state_in(map, store, image, *state) {
        Ok(before) => {
            let heard = hearing::heard_at(clock, frame);
            told(unit::step(map, store, image, before, heard), state)
        }
        Err(refusal) => reply_word(Err(refusal)),
    }
}

// A later power-on.
#[tactic(auto, using(crate::proofs::Faced::unshaped, crate::proofs::Faced::shaped_as), unfolding(crate::specs::Face::power_on_face))]
pub fn power_on_face(map: &[u8], store: &mut [u8], image: &[u8], state: &mut [u8; 96]) -> u32
    ensures { PowerOnFacePromise map.now store.old image.now state.old
        result state.new store.new }
{
    match state_in(map, store, image, *state) {
        Ok(before) => told(unit::power_on(map, store, image, before), state),
        Err(refusal) => reply_word(Err(refusal)),
    }
}

// A state that breaks the rule of the address.
fn unfit(state: State) -> State
    ensures { address_holds result.who.address ≡ false }
{
    State {
        who: Who {
            address: 64,
            ..state.who
        },
        ..state
    }
}

// Many records, with one check. Bytes that are no state's are refused like a state that breaks a rule.
// Kept: two runs: one, over the one state or the other, is no plainer, since what goes back has to ask the same again.
#[tactic(auto, using(crate::proofs::Run::run_unshaped, crate::proofs::Run::run_shaped))]
pub fn run_face(
    map: &[u8],
    store: &mut [u8],
    image: &[u8],
    state: &mut [u8; 96],
    records: &[u8],
    output: &mut [u8],
) -> usize
    ensures { RunFacePromise map.now store.old image.now state.old
        records.now output.old
        result state.new store.new output.new }
{
    let kept = unpack(*state);
    if !shape_holds(*state) {
        return tracing::run(map, store, image, unfit(kept), records, output).count;
    }
    let ran = tracing::run(map, store, image, kept, records, output);
    *state = pack(ran.state);
    ran.count
}
