// What stands at a location, in words: the value that holds it, or why none does; and how many records were examined.
#![tactic(auto)]

mod placed; // a sentence for each answer
mod examined; // and for its count

pub use examined::Examined;
pub use placed::{Standing, Width};
