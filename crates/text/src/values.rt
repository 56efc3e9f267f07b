// A value: where it is, and its bytes.
ghost use Rattle.std.specs.Prelude.{Some};
ghost use Rattle.text.specs.Words.{in_hex};

use std::fmt;

// A byte in two hexadecimal digits.
#[derive(Clone, Copy)]
pub struct Hex(pub u8);

impl fmt::Display for Hex {
    ghost output = { λ byte. Some (in_hex byte.0) };

    #[tactic(auto, using(std::proofs::lemmas::Fmt::hex_byte))]
    fn fmt<W: fmt::Write>(&self, f: &mut fmt::Formatter<W>) -> fmt::Result {
        let byte = self.0;
        write!(f, "{byte:02X}")
    }
}

// Each byte in two digits, with spaces between.
#[derive(Clone, Copy)]
pub struct Bytes<'a>(pub &'a [u8]);

impl fmt::Display for Bytes<'_> {
    fn fmt<W: fmt::Write>(&self, f: &mut fmt::Formatter<W>) -> fmt::Result {
        f.write_joined(self.0.iter().map(|byte| Hex(*byte)), " ")
    }
}

// The place of a value and its bytes.
#[derive(Clone, Copy)]
pub struct Value<'a> {
    pub bank: u8,
    pub first: u8,
    pub bytes: Bytes<'a>,
}

impl fmt::Display for Value<'_> {
    fn fmt<W: fmt::Write>(&self, f: &mut fmt::Formatter<W>) -> fmt::Result {
        let Value { bank, first, bytes } = *self;
        write!(f, "bank {bank} location {first:02X}: {bytes}")
    }
}
