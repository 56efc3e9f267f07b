// The find calls: which value holds a location, or why none does, and how many records were examined.
#![tactic(auto)]

mod found; // the answer and its count
mod worded; // as one number, for banks and locations of any size

pub use found::{Finding, find};
pub use worded::{find_wide, find_word};
