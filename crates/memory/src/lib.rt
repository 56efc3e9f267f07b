// One value at a time: an executed write with staging, READ with the latch, reset and power-on of the store.
#![tactic(auto)]

mod staged; // an executed write
mod latched; // READ and the latch
mod filled; // reset and power-on
mod rules; // rules of a state

pub use filled::{Filling, fill_store};
pub use latched::{Latch, Shown, none_latched, read_byte};
pub use rules::{latch_holds, staged_holds};
pub use staged::{Staged, Wrote, none_staged, write_byte};
