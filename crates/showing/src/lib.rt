// A capture in lines: the unit's own start and steps, and the lines that say what each came to.
#![tactic(auto)]

mod seen; // the store as it was
mod taken; // a start and a step, by the unit
mod values; // before and after
mod shown; // a start, a step and the end of a capture, as values with Display

pub use seen::seen_of;
pub use shown::{Ends, Start, Turn};
pub use taken::{begin, take_next};
