// How many records a look-up examined, as a sentence.
ghost use Rattle.std.specs.Prelude.{Some};
ghost use Rattle.places.specs.Words.{examined_text};

use std::fmt;

// So many, of a map of so many records.
#[derive(Clone, Copy)]
pub struct Examined {
    pub count: u8,
    pub records: usize,
}

impl fmt::Display for Examined {
    ghost output = { λ x. Some (examined_text x.count x.records) };

    fn fmt<W: fmt::Write>(&self, f: &mut fmt::Formatter<W>) -> fmt::Result {
        let Examined { count, records } = *self;
        match records {
            1 => write!(f, "examined {count} of 1 record"),
            _ => write!(f, "examined {count} of {records} records"),
        }
    }
}
