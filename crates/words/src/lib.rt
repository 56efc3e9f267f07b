// A reading as one number, and back.
#![tactic(auto)]

mod values; // the number and the value of each case that only a word needs
mod word; // the word of a reading, and the message of a word

pub use word::{message_of, word_of};
