// The session as one number, with its frames in a lent array.
ghost use Rattle.session.specs.Promises.{SessionWordPromise};

use crate::answer::without_frames;
use crate::writer::session;

// number | count << 8; all 13 places are always written.
#[tactic(auto, unfolding(crate::specs::Session::session_word))]
pub fn session_word(
    map: &[u8],
    address: u32,
    bank: u32,
    location: u32,
    bytes: &[u8],
    frames: &mut [u32; 13],
) -> u32
    ensures { SessionWordPromise map.now address bank location bytes.now result frames.new }
{
    let (number, handed) = match session(map, address, bank, location, bytes) {
        Ok(session) => (0, session),
        Err(refusal) => (refusal.number(), without_frames()),
    };
    let all = handed.frames;
    *frames = all;
    u32::from_le_bytes([number, handed.count, 0, 0])
}
