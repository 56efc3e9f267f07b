// What a record came to, to be written whole: lines, one after the other.
ghost use Rattle.std.specs.Prelude.{◌≤◌, ◌≡◌, take};

use std::fmt;
use std::fmt::Write;

// The most bytes of a page: a line and one for each value of a map are 65 of at most 255, and so less. What does not fit any more
// is left out.
const MOST: usize = 65535;

// The end is a number of two bytes, so that it always lies within the room.
// Kept: a rule of the project (no heap); the kit's `InlineText` fills its whole room anew for each page: tried, and three times the instructions.
#[derive(Drop)]
pub struct Page {
    bytes: [u8; 65536],
    end: u16,
}

impl Write for Page {
    ghost write_str_gives = { λ before _ after. before.end ≤ after.end };

    fn write_str(&mut self, words: &str) -> fmt::Result {
        self.append(words.as_bytes());
        Ok(())
    }
}

impl Page {
    pub fn new() -> Page
        ensures { result.end ≡ 0 }
    {
        Page {
            bytes: [0; 65536],
            end: 0,
        }
    }

    // Nothing stands there any more.
    pub fn clear(&mut self)
        ensures { self.new.end ≡ 0 }
    {
        self.end = 0;
    }

    // Bytes behind those that are there, as many as there is room for.
    fn append(&mut self, bytes: &[u8])
        ensures { self.old.end ≤ self.new.end }
    {
        let at = self.end as usize;
        let n = bytes.len().min(MOST.saturating_sub(at));
        self.bytes[at..at + n].copy_from_slice(&bytes[..n]);
        self.end += n as u16;
    }

    // What is written so far.
    pub fn as_bytes(&self) -> &[u8]
        ensures { result.now ≡ take self.now.end self.now.bytes }
    {
        &self.bytes[..usize::from(self.end)]
    }
}
