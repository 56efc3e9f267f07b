// What the C calls do, on numbers and byte slices, and a state as 96 bytes. `mirtofalko` exports these under C names.
#![tactic(auto)]

mod answers; // an answer as one number
mod unit_calls; // the calls of the unit
mod frame_calls; // the calls on frames alone
mod record_calls; // the call on trace records alone

pub use frame_calls::{compose_event_face, compose_power_face, read_face, write_face};
pub use record_calls::census_face;
pub use unit_calls::{
    check_face, compare_face, find_face, frame_face, look_face, power_on_face, run_face,
    session_face, start_face,
};
