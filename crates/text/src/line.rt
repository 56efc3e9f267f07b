// A line of text, written piece by piece. No piece takes away what is there: that the length never falls is all that
// is promised of most; tests/30-words holds the words to what they are.
ghost use Rattle.std.specs.Prelude.{◌≤◌, ◌≡◌, take};

use std::fmt;
use std::fmt::{Display, Write};

// The most bytes of a line. What does not fit any more is left out.
const MOST: usize = 254;

// The length is a byte, so that it always lies within the text.
// Kept: a rule of the project (no heap), and what the programs print: the kit's `InlineText` ends in dots what it cuts.
#[derive(Clone, Copy)]
pub struct Line {
    text: [u8; 256],
    pub length: u8,
}

impl Write for Line {
    ghost write_str_gives = { λ before _ after. before.length ≤ after.length };

    fn write_str(&mut self, words: &str) -> fmt::Result {
        self.append(words.as_bytes());
        Ok(())
    }
}

impl Display for Line {
    fn fmt<W: Write>(&self, f: &mut fmt::Formatter<W>) -> fmt::Result {
        let words = str::from_utf8(self.as_bytes()).map_err(|_| fmt::Error)?;
        f.write_str(words)
    }
}

impl Line {
    pub fn new() -> Line
        ensures { result.length ≡ 0 }
    {
        Line {
            text: [0; 256],
            length: 0,
        }
    }

    // Bytes behind those that are there, as many as there is room for.
    fn append(&mut self, bytes: &[u8])
        ensures { self.old.length ≤ self.new.length }
    {
        let at = self.length as usize;
        let n = bytes.len().min(MOST.saturating_sub(at));
        self.text[at..at + n].copy_from_slice(&bytes[..n]);
        self.length += n as u8;
    }

    // What is written so far.
    pub fn as_bytes(&self) -> &[u8]
        ensures { result.now ≡ take self.now.length self.now.text }
    {
        &self.text[..usize::from(self.length)]
    }

    // Words, written by themselves and put behind what is there.
    pub fn and<D: Display + Drop>(mut self, words: D) -> Line
        ensures { self.length ≤ result.length }
    {
        let mut piece = Line::new();
        let _ = piece.write(words);
        self.append(piece.as_bytes());
        self
    }

    // Spaces, up to the column.
    pub fn column(self, column: usize) -> Line
        ensures { self.length ≤ result.length }
    {
        let width = column.saturating_sub(self.length as usize);
        self.and(format_args!("{:width$}", ""))
    }
}
