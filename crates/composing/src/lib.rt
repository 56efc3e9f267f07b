// Events and power events, composed.
#![tactic(auto)]

mod source; // what an event is composed from
mod composer; // from a source to a frame

pub use composer::{compose_event, compose_power};
pub use source::Source;
