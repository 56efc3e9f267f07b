// What a record did stands behind its words, in a column of its own. As in `text`, promised is that a line never gets
// shorter.
// Kept, with every `say_` of this crate: the new form is no plainer: a piece stands in column 69 of its own line, so it has to know how
// long the line is, which a `Display` does not. That a line never gets shorter is a relation of two lines, no invariant of one.
ghost use Rattle.std.specs.Prelude.{◌≤◌};

use std::fmt::Display;
use text::Line;

pub fn tell<D: Display + Drop>(line: Line, words: D) -> Line
    ensures { line.length ≤ result.length }
{
    line.column(69).and("  ").and(words)
}

pub fn tell_if(line: Line, holds: bool, words: &str) -> Line
    ensures { line.length ≤ result.length }
{
    if holds {
        return tell(line, words);
    }
    line
}
