// The pair rule.
ghost use Rattle.std.specs.Prelude.{◌≡◌};
ghost use Rattle.hearing.specs.Pairs.{completes, none_waits, waits_for};

use crate::heard::{Heard, Waiting};

// Whether the frame that is heard is the second of a pair; the clock runs over.
#[tactic(auto, unfolding(crate::specs::Pairs::completes, crate::specs::Pairs::in_time, crate::specs::Pairs::passed))]
pub fn completes(waiting: Waiting, heard: Heard) -> bool
    ensures { result ≡ completes waiting heard }
{
    let passed = heard.clock.wrapping_sub(waiting.clock);
    waiting.held && waiting.frame == heard.frame && passed <= 100
}

// Kept, as `none_staged`, `none_latched`, `zero_registers` and the others: the new form, a derived Default, is no plainer: it takes these
// names away, which the definitions have.
pub fn none_waits() -> Waiting
    ensures { result ≡ none_waits }
{
    Waiting {
        held: false,
        frame: 0,
        clock: 0,
    }
}

pub fn waits_for(heard: Heard) -> Waiting
    ensures { result ≡ waits_for heard }
{
    Waiting {
        held: true,
        frame: heard.frame,
        clock: heard.clock,
    }
}
