// Count what the wire carried: the records of a capture, by class.
#![tactic(auto)]

mod classes; // the class of a frame
mod counts; // the census so far, and one record more
mod next; // what stands at a place of a capture
mod counter; // the plain counter, over slice and number
mod reader; // the capture and its place together
mod captures; // the census of a capture, through a reader
mod added; // added to 16 counts

pub use added::add_census;
pub use captures::census;
pub use classes::class_of;
pub use counter::count_from;
pub use counts::Census;
pub use next::Next;
pub use reader::Reader;
