// What a record of a capture says, asks and did, in words, as the unit's states before and after it show.
#![tactic(auto)]

mod column; // what it did has a column of its own
mod changes; // room by room
mod reach; // where a read or a write goes, and why nothing stands there
mod told; // a record, and a value

pub use changes::say_who;
pub use told::{Step, say_change, say_same, say_step};
