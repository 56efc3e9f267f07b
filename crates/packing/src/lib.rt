// A state as 96 bytes, and back.
#![tactic(auto)]

mod state_bytes; // out and in, and which bytes are a state's

pub use state_bytes::{flag, pack, shape_holds, unpack};
