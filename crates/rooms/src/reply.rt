// What a call hands back: its reply, and the state.
ghost use Rattle.std.specs.Prelude.{◌≡◌};
ghost use Rattle.rooms.specs.Reply.{quiet, answering, refusing};

use crate::state::State;
use refusals::Refusal;

// A refusal, or the answer if there is one.
pub type Reply = Result<Option<u8>, Refusal>;

#[derive(Clone, Copy, PartialEq, Eq)]
pub struct Stepped {
    pub reply: Reply,
    pub state: State,
}

// Accepted; answered or not.
#[tactic(auto, unfolding(crate::specs::Reply::answering))]
pub fn answering(state: State, answer: Option<u8>) -> Stepped
    ensures { result ≡ answering state answer }
{
    Stepped {
        reply: Ok(answer),
        state,
    }
}

// Accepted, and no answer.
#[tactic(auto, unfolding(crate::specs::Reply::quiet, crate::specs::Reply::answering))]
pub fn quiet(state: State) -> Stepped
    ensures { result ≡ quiet state }
{
    answering(state, None)
}

// Refused, with the state that was handed in.
#[tactic(auto, unfolding(crate::specs::Reply::refusing))]
pub fn refusing(state: State, refusal: Refusal) -> Stepped
    ensures { result ≡ refusing state refusal }
{
    Stepped {
        reply: Err(refusal),
        state,
    }
}
