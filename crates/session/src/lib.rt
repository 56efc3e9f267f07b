// A session: the frames that write a value.
#![tactic(auto)]

mod answer; // count and frames
mod messages; // the three messages, as frames
mod writer; // the tests, and the frames one after the other
mod worded; // as one number, with the frames in a lent array

pub use answer::Session;
pub use worded::session_word;
pub use writer::session;
