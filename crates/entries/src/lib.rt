// A trace record's bytes, and the records of a slice of the input.
#![tactic(auto)]

mod entry; // one record
mod slices; // what goes from one slice of the input to the next

pub use entry::{Entry, entry_at, four_bytes, is_broken};
pub use slices::keep_rest;
