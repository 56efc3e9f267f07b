// The values of the map, before and after.
use records::records;
use std::fmt;
use telling::{say_change, say_same};
use text::Line;

// In map order, from a column on, each that is another one now in a line; if all are to be shown, each writable one that
// is the same too.
// Kept: a flag: the new form is no plainer: what it adds stands between the others, in map order, and two walks would part them.
#[derive(Clone, Copy)]
pub struct Values<'a> {
    pub map: &'a [u8],
    pub before: &'a [u8],
    pub after: &'a [u8],
    pub all: bool,
    pub column: usize,
}

impl fmt::Display for Values<'_> {
    fn fmt<W: fmt::Write>(&self, f: &mut fmt::Formatter<W>) -> fmt::Result {
        for r in records(self.map) {
            let before = looks::look(self.map, self.before, r.bank, r.first);
            let after = looks::look(self.map, self.after, r.bank, r.first);
            let line = Line::new().column(self.column);
            if before != after {
                f.writeln(say_change(line, r, before, after))?;
            } else if self.all && r.is_writable() {
                f.writeln(say_same(line, r, before))?;
            }
        }
        Ok(())
    }
}
