// A difference in words, and how many there are.
use places::Width;
use std::fmt;
use text::{Bytes, Hex};

// 24 bytes of the list: bank, first location, width, kind, four zeros, the old bytes and the new ones, 8 each.
#[derive(Drop)]
pub struct Difference<'a>(pub &'a [u8; 24]);

// Kind 4 is the last: no map that is accepted has another.
// Kept: a number: what may not change: it is a byte of the list (`compare:difference_of`).
fn name(kind: u8) -> &'static str {
    match kind {
        0 => "ROM",
        1 => "RAM-RO",
        2 => "RAM-RW",
        3 => "NVM-RO",
        _ => "NVM-RW",
    }
}

// The value, and its bytes in the two stores, without the zeros behind them.
impl fmt::Display for Difference<'_> {
    fn fmt<W: fmt::Write>(&self, f: &mut fmt::Formatter<W>) -> fmt::Result {
        let bytes = self.0;
        let width = bytes[2];
        let end = usize::from(width).min(8);
        let (old, new) = (Bytes(&bytes[8..8 + end]), Bytes(&bytes[16..16 + end]));
        write!(
            f,
            "bank {}, location 0x{}, {}, {}: {old} -> {new}",
            bytes[0],
            Hex(bytes[1]),
            Width(width),
            name(bytes[3])
        )
    }
}

// How many values differ.
#[derive(Drop)]
pub struct Count(pub u8);

impl fmt::Display for Count {
    fn fmt<W: fmt::Write>(&self, f: &mut fmt::Formatter<W>) -> fmt::Result {
        match self.0 {
            0 => f.write_str("no value differs"),
            1 => f.write_str("1 value differs"),
            count => write!(f, "{count} values differ"),
        }
    }
}
