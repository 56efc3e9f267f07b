// The refusals of papers 01 and 02: each has its number there, and its sentence.
#![tactic(auto)]

mod refusal; // the numbers and the sentences

pub use refusal::{Refusal, UnknownNumber, number_in};
