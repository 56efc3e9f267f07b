// The unit's own start and steps: nothing that is told is worked out a second time.
ghost use Rattle.std.specs.Prelude.{◌≡◌, not};
ghost use Rattle.entries.specs.Entry.{entry_at, is_broken};
ghost use Rattle.unit.specs.Step.{start_of};
ghost use Rattle.showing.specs.Taken.{Begun, Taken, Next, one_of};

use entries::{entry_at, is_broken};
use hearing::Who;
use refusals::Refusal;
use rooms::State;
use telling::Step;

// The state that a start leaves.
pub fn begin(map: &[u8], store: &mut [u8], image: &[u8], who: Who) -> State
    ensures { Begun result store.new
        (start_of map.now store.old image.now who) }
{
    unit::start(map, store, image, who).state
}

// The width of the value whose bytes are staged, if one begins there.
fn staged_width(map: &[u8], store: &[u8], state: State) -> Option<u8> {
    let staged = state.door.staged;
    let place = looks::look_at(map, store, staged.bank, staged.first).ok()?;
    Some(place.width)
}

// The step that a record makes the unit take.
fn take_step(map: &[u8], store: &mut [u8], image: &[u8], was: State, bytes: &[u8; 8]) -> Step
    ensures { Taken result.state store.new
        (one_of map.now image.now store.old was bytes.now) }
{
    let mut reply = [0u8; 4];
    let ran = tracing::run(map, store, image, was, bytes, &mut reply);
    let state = ran.state;
    Step {
        state,
        answer: (reply[1] == 1).then_some(reply[2]),
        width: staged_width(map, store, state),
    }
}

fn is_known(bytes: &[u8; 8]) -> bool
    ensures { result ≡ not (is_broken (entry_at bytes.now 0)) }
{
    !is_broken(entry_at(bytes, 0))
}

// What was read, so many bytes of a record: its step; none where the capture ends before it; or 13, where it ends within
// it or the record is of unknown kind.
// Kept: the bytes and how many came: what may not change (`showing:Next` speaks of both).
pub fn take_next(
    map: &[u8],
    store: &mut [u8],
    image: &[u8],
    was: State,
    bytes: &[u8; 8],
    n: usize,
) -> Result<Option<Step>, Refusal>
    ensures { Next result store.new bytes.now n store.old
        (one_of map.now image.now store.old was bytes.now) }
{
    match n {
        8 if is_known(bytes) => Ok(Some(take_step(map, store, image, was, bytes))),
        0 => Ok(None),
        _ => Err(Refusal::BrokenRecord),
    }
}
