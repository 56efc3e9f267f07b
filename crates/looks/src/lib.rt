// The look calls: the stored bytes of a value.
#![tactic(auto)]

mod looked; // number, place and bytes

pub use looked::{Place, look, look_at, look_number};
