// An answer as one number.
ghost use Rattle.std.specs.Prelude.{◌≡◌};
ghost use Rattle.frames.specs.Values.{writing_word, WritingFits};
ghost use Rattle.faces.specs.Answers.{reply_word, look_word};

use looks::Place;
use refusals::Refusal;
use rooms::Reply;

#[tactic(auto, unfolding(crate::specs::Answers::reply_word))]
pub fn reply_word(reply: Reply) -> u32
    ensures { result ≡ reply_word reply }
{
    match reply {
        Ok(None) => 0,
        Ok(Some(byte)) => u32::from_le_bytes([0, 1, byte, 0]),
        Err(refused) => u32::from(refused.number()),
    }
}

#[tactic(auto, unfolding(crate::specs::Answers::look_word))]
pub fn look_word(looked: Result<Place, Refusal>) -> u32
    ensures { result ≡ look_word looked }
{
    match looked {
        Ok(place) => {
            let [low, high] = place.offset.to_le_bytes();
            u32::from_le_bytes([0, place.width, low, high])
        }
        Err(refusal) => u32::from(refusal.number()),
    }
}

// Internal: a frame has 24 bits.
// Kept: the new form is no plainer: three bytes of a frame would be taken out to be put together again.
pub fn writing_word(writing: Result<u32, Refusal>) -> u32
    requires { WritingFits writing }
    ensures { result ≡ writing_word writing }
{
    match writing {
        Ok(frame) => frame * 256,
        Err(refusal) => u32::from(refusal.number()),
    }
}
