// A map by itself: its records, the rules 7 to 9, look-up.
#![tactic(auto)]

mod record; // a record of the map
mod each; // the records, one after the other
mod order; // the rules 7 to 9
mod map; // a map that has passed them
mod span; // a part of the records, and its halves
mod holder; // which record holds a location or why none does, which value begins there

pub use each::{RecordIter, records};
pub use holder::{Sought, Why};
pub use map::Map;
pub use order::check_order;
pub use record::{Record, record_at, record_count};
