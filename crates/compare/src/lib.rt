// Compare two images: one map, two stores, and a list of the values that differ.
#![tactic(auto)]

mod differing; // two stores of one map, which values differ, and how many
mod listing; // the list, 24 bytes for each
mod compared; // the tests, the count, and the list over the output
mod worded; // as one number

pub use compared::compare;
pub use worded::compare_word;
