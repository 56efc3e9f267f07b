// Why a call refuses.
ghost use Rattle.std.specs.Prelude.{◌≡◌};
ghost use Rattle.refusals.specs.Numbers.{number_of, number_in, Numbered};

use std::error::Error;
use std::fmt;

// Each is its number in paper 01, "Refusal numbers", or paper 02.
#[derive(Clone, Copy, Debug, PartialEq, Eq)]
pub enum Refusal {
    FrameTooLarge = 1,
    ReservedAddress,
    ReservedInstance,
    ReservedEvent,
    BlankNotZero,
    OutOfRange,
    MapSize,
    RecordFields,
    RecordOrder,
    StorePlaces,
    BankRules,
    StateRules,
    BrokenRecord,
    NoValue,
    RoomTooSmall,
    NotWritable,
}

impl Refusal {
    pub fn number(self) -> u8
        ensures { result ≡ number_of self }
    {
        self as u8
    }
}

// The number of a refusal, and 0 where nothing is refused: as C is told it.
pub fn number_in(said: Result<(), Refusal>) -> u8
    ensures { result ≡ number_in said }
{
    match said {
        Ok(()) => 0,
        Err(refusal) => refusal.number(),
    }
}

// A number that no refusal has.
#[derive(Clone, Copy, Debug, PartialEq, Eq)]
pub struct UnknownNumber(pub u8);

impl TryFrom<u8> for Refusal {
    type Error = UnknownNumber;

    ghost try_from_gives = { Numbered };

    fn try_from(number: u8) -> Result<Self, UnknownNumber> {
        match number {
            1 => Ok(Refusal::FrameTooLarge),
            2 => Ok(Refusal::ReservedAddress),
            3 => Ok(Refusal::ReservedInstance),
            4 => Ok(Refusal::ReservedEvent),
            5 => Ok(Refusal::BlankNotZero),
            6 => Ok(Refusal::OutOfRange),
            7 => Ok(Refusal::MapSize),
            8 => Ok(Refusal::RecordFields),
            9 => Ok(Refusal::RecordOrder),
            10 => Ok(Refusal::StorePlaces),
            11 => Ok(Refusal::BankRules),
            12 => Ok(Refusal::StateRules),
            13 => Ok(Refusal::BrokenRecord),
            14 => Ok(Refusal::NoValue),
            15 => Ok(Refusal::RoomTooSmall),
            16 => Ok(Refusal::NotWritable),
            _ => Err(UnknownNumber(number)),
        }
    }
}

impl fmt::Display for Refusal {
    fn fmt<W: fmt::Write>(&self, f: &mut fmt::Formatter<W>) -> fmt::Result {
        f.write_str(match self {
            Refusal::FrameTooLarge => "frame 16,777,216 or more",
            Refusal::ReservedAddress => "reserved address byte",
            Refusal::ReservedInstance => "reserved instance byte",
            Refusal::ReservedEvent => "reserved event",
            Refusal::BlankNotZero => "power event with a non-zero blank field",
            Refusal::OutOfRange => "field out of range: writer, composer, start",
            Refusal::MapSize => "map not a multiple of 8 bytes, or over 512",
            Refusal::RecordFields => "a record's own fields break the rules",
            Refusal::RecordOrder => "records out of order or overlapping",
            Refusal::StorePlaces =>
                "store and image lengths differ, exceed 4,096, or a place is outside or shared",
            Refusal::BankRules => "a bank rule of 0x00, 0x02 or bank 0 broken",
            Refusal::StateRules => "a rule of a state broken",
            Refusal::BrokenRecord => "trace record unfinished or of unknown kind",
            Refusal::NoValue => "no value begins there",
            Refusal::RoomTooSmall => "output room too small for the whole list",
            Refusal::NotWritable => "the value is not writable",
        })
    }
}

impl fmt::Display for UnknownNumber {
    fn fmt<W: fmt::Write>(&self, f: &mut fmt::Formatter<W>) -> fmt::Result {
        write!(f, "no refusal has number {}", self.0)
    }
}

impl Error for Refusal {}

impl Error for UnknownNumber {}
