// Who a frame is for, what it asks, and what makes a pair.
#![tactic(auto)]

mod heard; // the types of what is heard
mod meaning; // the types of what it means
mod listed; // the listed commands, by their numbers
mod asked; // from a frame to what it asks of the unit
mod pairs; // the pair rule

pub use asked::{closes, meaning_of, message_meaning};
pub use heard::{Heard, Waiting, Who, heard_at};
pub use meaning::{Meaning, Once, Twice};
pub use pairs::{completes, none_waits, waits_for};
