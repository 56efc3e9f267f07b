// A trace: records of 8 bytes in, 4 bytes out for each, and the store at the end.
#![tactic(auto)]

mod files; // what a trace starts from
mod flows; // the input as it is read
mod runs; // many records, checked once

pub use files::{check_files, who_of};
pub use flows::{Flow, begin, go_on};
pub use runs::{Ran, run};
