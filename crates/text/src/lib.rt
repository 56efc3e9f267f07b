// What a frame, a refusal and a value say, as text: the programs write it.
#![tactic(auto)]

mod line; // a line, written piece by piece
mod messages; // what a frame says
mod values; // a value's place and bytes

pub use line::Line;
pub use messages::Frame;
pub use values::{Bytes, Hex, Value};
