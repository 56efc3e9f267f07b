// The reader keeps the capture and its place together.
ghost use Rattle.census.specs.Promises.{NewPromise, EntryPromise, MovedPromise, RestPromise};

use crate::next::{Next, next_at, place_after, rest_at};

#[derive(Clone, Copy)]
pub struct Reader<'a> {
    pub capture: &'a [u8],
    pub at: usize,
}

impl<'a> Reader<'a> {
    // At the capture's begin.
    pub fn new(capture: &'a [u8]) -> Reader<'a>
        ensures { NewPromise capture.entry result }
    {
        Reader { capture, at: 0 }
    }

    // What stands at its place.
    pub fn entry(self) -> Next
        ensures { EntryPromise self.entry result }
    {
        next_at(self.capture, self.at)
    }

    // Behind what stands at its place.
    pub fn moved(self) -> Reader<'a>
        ensures { MovedPromise self.entry result }
    {
        Reader {
            at: place_after(self.capture.len(), self.at),
            ..self
        }
    }

    // How many bytes stand from its place on.
    pub fn rest(self) -> usize
        ensures { RestPromise self.entry result }
    {
        rest_at(self.capture.len(), self.at)
    }
}
