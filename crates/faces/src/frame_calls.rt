// The calls on frames alone.
ghost use Rattle.std.specs.Prelude.{◌≡◌, true, IfOk, OnErr};
ghost use Rattle.frames.specs.Values.{writing_word};
ghost use Rattle.faces.specs.Answers.{out_of_range, source, FieldsHeld};
ghost use Rattle.faces.specs.Promises.{ReadFacePromise, WriteFacePromise};
ghost use Rattle.faces.specs.Promises.{ComposeEventFacePromise, ComposePowerFacePromise};

use crate::answers::writing_word;
use composing::Source;
use refusals::Refusal;
use std::num::TryFromIntError;

// The message word of a frame.
pub fn read_face(frame: u32) -> u64
    ensures { ReadFacePromise frame result }
{
    words::word_of(frames::read(frame).map_err(Refusal::number))
}

// 6: out of range.
fn out_of_range() -> u32
    ensures { result ≡ writing_word out_of_range }
{
    writing_word(Err(Refusal::OutOfRange))
}

// The frame of a message word.
#[tactic(auto, using(frames::proofs::Round::writings_fit))]
pub fn write_face(word: u64) -> u32
    ensures { WriteFacePromise word result }
{
    match words::message_of(word) {
        Ok(message) => writing_word(frames::write(message)),
        Err(_) => out_of_range(),
    }
}

// The fields of an event, each in its type; one that is too large for it is out of its range too.
fn source(
    sort: u32,
    number: u32,
    primary: u32,
    short: u32,
    groups: u32,
    information: u32,
    scheme: u32,
) -> Result<Source, TryFromIntError>
    ensures held { IfOk result (λ e. e ≡ source sort number primary short groups information scheme) }
    ensures too_large { OnErr result (FieldsHeld sort number primary short information scheme → ⊥) }
{
    Ok(Source {
        sort: u8::try_from(sort)?,
        number: u8::try_from(number)?,
        primary: u8::try_from(primary)?,
        short: u8::try_from(short)?,
        groups,
        information: u16::try_from(information)?,
        scheme: u8::try_from(scheme)?,
    })
}

// Kept: seven numbers: the C interface (`mf_compose_event`).
// The frame of an event. The fields are wider than their ranges, so that none is cut to fit.
#[tactic(auto, using(crate::proofs::Composed::not_held, crate::proofs::Composed::composed_fits))]
pub fn compose_event_face(
    sort: u32,
    number: u32,
    primary: u32,
    short: u32,
    groups: u32,
    information: u32,
    scheme: u32,
) -> u32
    ensures { ComposeEventFacePromise sort number primary short groups information scheme result }
{
    match source(sort, number, primary, short, groups, information, scheme) {
        Ok(source) => writing_word(composing::compose_event(source)),
        Err(_) => out_of_range(),
    }
}

// The frame of a power event.
#[tactic(auto, using(crate::proofs::Composed::power_not_held, crate::proofs::Composed::power_fits_lem))]
pub fn compose_power_face(short: u32, groups: u32) -> u32
    ensures { ComposePowerFacePromise short groups result }
{
    match u8::try_from(short) {
        Ok(short) => writing_word(composing::compose_power(short, groups)),
        Err(_) => out_of_range(),
    }
}
