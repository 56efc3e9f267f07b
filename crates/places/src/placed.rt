// What stands at a location, as a sentence.
ghost use Rattle.std.specs.Prelude.{Some, ◌++◌, codes, decimal};
ghost use Rattle.places.specs.Words.{width_text, held_text, why_text, found_text};

use records::{Record, Why};
use std::fmt;
use text::Hex;

// A width in words.
#[derive(Clone, Copy)]
pub struct Width(pub u8);

impl fmt::Display for Width {
    ghost output = { λ width. Some (width_text width.0) };

    fn fmt<W: fmt::Write>(&self, f: &mut fmt::Formatter<W>) -> fmt::Result {
        match self.0 {
            1 => f.write_str("1 byte"),
            width => write!(f, "{width} bytes"),
        }
    }
}

// A bank and location, and what was found there.
#[derive(Clone, Copy)]
pub struct Standing {
    pub bank: u8,
    pub location: u8,
    pub found: Result<Record, Why>,
}

impl fmt::Display for Standing {
    ghost output = { λ s. Some (codes "bank " ++ decimal s.bank ++ found_text s.location s.found) };

    fn fmt<W: fmt::Write>(&self, f: &mut fmt::Formatter<W>) -> fmt::Result {
        let Standing {
            bank,
            location,
            found,
        } = *self;
        write!(f, "bank {bank}")?;
        match found {
            Ok(r) => f.write(Held(location, r)),
            Err(why) => f.write(Reason(location, why)),
        }
    }
}

#[derive(Drop)]
struct Held(u8, Record);

impl fmt::Display for Held {
    ghost output = { λ held. Some (held_text held.0 held.1) };

    fn fmt<W: fmt::Write>(&self, f: &mut fmt::Formatter<W>) -> fmt::Result {
        let Held(location, r) = *self;
        let here = Hex(location);
        let first = Hex(r.first);
        let width = Width(r.width);
        if r.first == location {
            return write!(f, ", location 0x{here}: a value begins there, {width}");
        }
        write!(
            f,
            ", location 0x{here}: inside the value at 0x{first}, {width}"
        )
    }
}

#[derive(Drop)]
struct Reason(u8, Why);

impl fmt::Display for Reason {
    ghost output = { λ reason. Some (why_text reason.0 reason.1) };

    fn fmt<W: fmt::Write>(&self, f: &mut fmt::Formatter<W>) -> fmt::Result {
        let here = Hex(self.0);
        match self.1 {
            Why::Absent => f.write_str(" is absent: no value lies in it"),
            Why::Hole(next) => {
                let next = Hex(next);
                write!(
                    f,
                    " has a hole at 0x{here}; the next mapped location is 0x{next}"
                )
            }
            Why::Past => write!(
                f,
                " has nothing at 0x{here}: that is past its last mapped location"
            ),
        }
    }
}
