// What 24 bits say: forward frames and events, read and written.
#![tactic(auto)]

mod message; // the types
mod values; // the number of a target, and the target and the scheme of a number
mod kinds; // the table of kinds
mod places; // the bits of a number
mod reader; // from a frame to a message
mod writer; // from a message to a frame

pub use message::{Address, Message, Scheme, Target};
pub use reader::{aimed_at, read};
pub use values::{scheme_at, target_at, target_number};
pub use writer::write;
