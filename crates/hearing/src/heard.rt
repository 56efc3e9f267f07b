// What is heard, who the unit is, and the frame that waits.
ghost use Rattle.std.specs.Prelude.{◌≡◌};
ghost use Rattle.hearing.specs.Pairs.{heard_at};

// The unit's short address (0..63, or 255 for none) and its 32 group bits.
// Kept: 255 for none, and not an Option: the C interface (`mf_start` takes 255) and rule 12 of paper 01 (`address_holds`).
#[derive(Clone, Copy, PartialEq, Eq)]
pub struct Who {
    pub address: u8,
    pub groups: u32,
}

// A frame, and the clock at which it was heard.
#[derive(Clone, Copy, PartialEq, Eq)]
pub struct Heard {
    pub clock: u32,
    pub frame: u32,
}

// The one place where a Heard is made.
pub fn heard_at(clock: u32, frame: u32) -> Heard
    ensures { result ≡ heard_at clock frame }
{
    Heard { clock, frame }
}

// One waiting frame with its clock; zero where none is held.
// Kept: what may not change: rule 12 of paper 01 (`waiting_holds`) says that what is not in use is zero, and so do C's 96 bytes.
#[derive(Clone, Copy, PartialEq, Eq)]
pub struct Waiting {
    pub held: bool,
    pub frame: u32,
    pub clock: u32,
}
