// The state, in rooms.
ghost use Rattle.std.specs.Prelude.{◌≡◌};
ghost use Rattle.rooms.specs.State.{with_who, with_registers, with_waiting, with_door, with_latch};
ghost use Rattle.rooms.specs.State.{zero_registers, empty_door, powered_on, zero_state};

use hearing::{Waiting, Who};
use memory::{Latch, Staged};

// The data transfer registers DTR0..2.
#[derive(Clone, Copy, PartialEq, Eq)]
pub struct Registers {
    pub dtr0: u8,
    pub dtr1: u8,
    pub dtr2: u8,
}

// Write-enable, and the bytes that are staged while it is open.
#[derive(Clone, Copy, PartialEq, Eq)]
pub struct Door {
    pub enabled: bool,
    pub staged: Staged,
}

#[derive(Clone, Copy, PartialEq, Eq)]
pub struct State {
    pub who: Who,
    pub registers: Registers,
    pub waiting: Waiting,
    pub door: Door,
    pub latch: Latch,
}

// A setter for each room.
// Kept: the new form is no plainer: they differ in a field's name, which no type parameter or constant can stand for.
#[tactic(auto, unfolding(crate::specs::State::with_who))]
pub fn with_who(state: State, who: Who) -> State
    ensures { result ≡ with_who state who }
{
    State { who, ..state }
}

#[tactic(auto, unfolding(crate::specs::State::with_registers))]
pub fn with_registers(state: State, registers: Registers) -> State
    ensures { result ≡ with_registers state registers }
{
    State { registers, ..state }
}

#[tactic(auto, unfolding(crate::specs::State::with_waiting))]
pub fn with_waiting(state: State, waiting: Waiting) -> State
    ensures { result ≡ with_waiting state waiting }
{
    State { waiting, ..state }
}

#[tactic(auto, unfolding(crate::specs::State::with_door))]
pub fn with_door(state: State, door: Door) -> State
    ensures { result ≡ with_door state door }
{
    State { door, ..state }
}

#[tactic(auto, unfolding(crate::specs::State::with_latch))]
pub fn with_latch(state: State, latch: Latch) -> State
    ensures { result ≡ with_latch state latch }
{
    State { latch, ..state }
}

// Open or shut, and nothing staged.
pub fn empty_door(enabled: bool) -> Door
    ensures { result ≡ empty_door enabled }
{
    Door {
        enabled,
        staged: memory::none_staged(),
    }
}

fn zero_registers() -> Registers
    ensures { result ≡ zero_registers }
{
    Registers {
        dtr0: 0,
        dtr1: 0,
        dtr2: 0,
    }
}

// All zeros: the one whole state that is spelled out.
#[tactic(auto, unfolding(crate::specs::State::zero_state))]
pub fn zero_state() -> State
    ensures { result ≡ zero_state }
{
    State {
        who: Who {
            address: 0,
            groups: 0,
        },
        registers: zero_registers(),
        waiting: hearing::none_waits(),
        door: empty_door(false),
        latch: memory::none_latched(),
    }
}

// Address and groups stay; DTRs 0; nothing waiting, enabled, staged or latched.
#[tactic(auto, unfolding(crate::specs::State::powered_on, crate::specs::State::zero_state, crate::specs::State::with_registers, crate::specs::State::with_waiting, crate::specs::State::with_door, crate::specs::State::with_latch))]
pub fn powered_on(state: State) -> State
    ensures { result ≡ powered_on state }
{
    State {
        who: state.who,
        ..zero_state()
    }
}
