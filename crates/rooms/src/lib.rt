// The unit's state in rooms, its rules, and what a frame makes happen.
#![tactic(auto)]

mod state; // the rooms, one setter for each
mod reply; // what a call hands back
mod rules; // 12: the rules of a state
mod due; // what a frame makes happen now

pub use due::{Due, due_by, with_dtr};
pub use reply::{Reply, Stepped, answering, quiet, refusing};
pub use rules::{address_holds, state_holds};
pub use state::{
    Door, Registers, State, empty_door, powered_on, with_door, with_latch, with_registers,
    with_waiting, with_who, zero_state,
};
