// What a start, a step and a whole capture came to, in lines.
use crate::values::Values;
use hearing::Who;
use rooms::State;
use std::fmt;
use telling::{Step, say_step, say_who};
use text::Line;

// Who the unit is, and what the start changed.
#[derive(Clone, Copy)]
pub struct Start<'a> {
    pub map: &'a [u8],
    pub seen: &'a [u8],
    pub store: &'a [u8],
    pub who: Who,
}

impl fmt::Display for Start<'_> {
    fn fmt<W: fmt::Write>(&self, f: &mut fmt::Formatter<W>) -> fmt::Result {
        f.writeln(say_who(Line::new().column(21).and("start"), self.who))?;
        f.write(changed(self.map, self.seen, self.store))
    }
}

// What a record did, and the values that it changed.
#[derive(Clone, Copy)]
pub struct Turn<'a> {
    pub map: &'a [u8],
    pub seen: &'a [u8],
    pub store: &'a [u8],
    pub bytes: &'a [u8; 8],
    pub was: State,
    pub step: Step,
}

impl fmt::Display for Turn<'_> {
    fn fmt<W: fmt::Write>(&self, f: &mut fmt::Formatter<W>) -> fmt::Result {
        let same = self.seen.starts_with(self.store);
        let line = say_step(Line::new(), self.map, self.bytes, self.was, self.step, same);
        f.writeln(line)?;
        if same {
            return Ok(());
        }
        f.write(changed(self.map, self.seen, self.store))
    }
}

// The values that were there first, and those that are there in the end, behind an empty line.
#[derive(Clone, Copy)]
pub struct Ends<'a> {
    pub map: &'a [u8],
    pub first: &'a [u8],
    pub store: &'a [u8],
}

impl fmt::Display for Ends<'_> {
    fn fmt<W: fmt::Write>(&self, f: &mut fmt::Formatter<W>) -> fmt::Result {
        f.writeln("")?;
        f.write(Values {
            map: self.map,
            before: self.first,
            after: self.store,
            all: true,
            column: 0,
        })
    }
}

fn changed<'a>(map: &'a [u8], before: &'a [u8], after: &'a [u8]) -> Values<'a> {
    Values {
        map,
        before,
        after,
        all: false,
        column: 21,
    }
}
