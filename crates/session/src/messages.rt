// The messages of a session, each as its frame.
ghost use Rattle.std.specs.Prelude.{◌≡◌};
ghost use Rattle.session.specs.Session.{set_bank, enable_write, direct_write, framed};

use frames::{Address, Message, Target, write};

// The frame that a message is written as, or 0.
#[tactic(auto, unfolding(crate::specs::Session::framed))]
fn framed(message: Message) -> u32
    ensures { result ≡ framed message }
{
    write(message).unwrap_or(0)
}

// DTR1.
pub fn set_bank(bank: u8) -> u32
    ensures { result ≡ framed (set_bank bank) }
{
    framed(Message::Special(0, 0x31, bank))
}

// ENABLE WRITE MEMORY.
pub fn enable_write(address: u8) -> u32
    ensures { result ≡ framed (enable_write address) }
{
    framed(Message::Command(Address::Short(address), Target::Device, 0x15))
}

// DIRECT WRITE MEMORY.
pub fn direct_write(offset: u8, byte: u8) -> u32
    ensures { result ≡ framed (direct_write offset byte) }
{
    framed(Message::Special(2, offset, byte))
}
