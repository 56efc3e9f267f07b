// A map with its store and reset image: the rules 10 and 11, a value's part, lock bytes.
#![tactic(auto)]

mod rules; // the rules 10 and 11, and what is checked
mod stored; // a map and a store that have passed them
mod lock; // a bank's lock byte
mod parts; // a value's part of the store

pub use parts::{padded_part, put_value};
pub use rules::{check, check_sizes, is_lock};
pub use stored::Stored;
