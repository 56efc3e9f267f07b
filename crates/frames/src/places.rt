// Places: the bits of a number.
ghost use Rattle.std.specs.Prelude.{◌≡◌, ◌<◌, ◌≤◌, ◌+◌, ◌-◌, ◌^◌};
ghost use Rattle.laws.specs.Bits.{bits};

// Bits high..low of a number: `bits(frame, 22, 17)` is bits 22..17, as in specs/.
#[tactic(auto, unfolding(laws::specs::Bits::bits))]
pub fn bits(number: u32, high: u32, low: u32) -> u32
    requires { (low ≤ high) × (high < 31) }
    ensures same { result ≡ bits number high low }
    ensures small { result < 2 ^ (high + 1 - low) }
{
    (number >> low) % (1 << (high + 1 - low))
}
