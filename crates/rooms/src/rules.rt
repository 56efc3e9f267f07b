// 12: the rules of a state.
ghost use Rattle.std.specs.Prelude.{◌≡◌};
ghost use Rattle.records.specs.Map.{records_of};
ghost use Rattle.rooms.specs.Rules.{address_holds, needs_pair, waiting_holds, door_holds, state_holds};

use crate::state::State;
use banks::Stored;
use hearing::Meaning;

// The address is 0..63 or 255.
pub fn address_holds(address: u8) -> bool
    ensures { result ≡ address_holds address }
{
    address <= 63 || address == 255
}

fn needs_pair(meaning: Meaning) -> bool
    ensures { result ≡ needs_pair meaning }
{
    matches!(meaning, Meaning::NeedsPair(_))
}

// A waiting frame is a pair command for the unit, and write-enable is then closed.
#[tactic(auto, unfolding(crate::specs::Rules::waiting_holds))]
fn waiting_holds(state: State) -> bool
    ensures { result ≡ waiting_holds state }
{
    if state.waiting.held {
        return needs_pair(hearing::meaning_of(state.who, state.waiting.frame))
            && !state.door.enabled;
    }
    state.waiting.frame == 0 && state.waiting.clock == 0
}

// Staged bytes exist only while enabled, and keep their own rule.
#[tactic(auto, unfolding(crate::specs::Rules::door_holds))]
fn door_holds(stored: Stored<'_>, state: State) -> bool
    ensures { result ≡ door_holds (records_of stored.entry.map.now) stored.entry.store.now state }
{
    let door = state.door;
    (door.enabled || door.staged.count == 0) && memory::staged_holds(stored, door.staged)
}

// All of them.
#[tactic(auto, unfolding(crate::specs::Rules::state_holds))]
pub fn state_holds(stored: Stored<'_>, state: State) -> bool
    ensures { result ≡ state_holds (records_of stored.entry.map.now) stored.entry.store.now state }
{
    address_holds(state.who.address)
        && waiting_holds(state)
        && door_holds(stored, state)
        && memory::latch_holds(stored.map(), state.latch)
}
