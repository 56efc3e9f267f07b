// The face to C: each call forwards to the call of `faces` that does its work, since an archive exports only its own
// crate's functions.
#![tactic(auto)]

mod unit_calls; // the calls of the unit
mod frame_calls; // the calls on frames alone
mod record_calls; // the call on trace records alone

pub use frame_calls::{mf_compose_event, mf_compose_power, mf_read, mf_write};
pub use record_calls::mf_census;
pub use unit_calls::{
    mf_check, mf_compare, mf_find, mf_frame, mf_look, mf_power_on, mf_run, mf_session, mf_start,
};
