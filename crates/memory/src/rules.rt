// The rules of a state that concern its staged and latched bytes.
ghost use Rattle.std.specs.Prelude.{◌≡◌, ◌==◌, drop};
ghost use Rattle.laws.specs.Lists.{every};
ghost use Rattle.records.specs.Map.{records_of};
ghost use Rattle.memory.specs.Rules.{staged_in, staged_holds, latched_in, latch_holds};

use crate::latched::Latch;
use crate::staged::{Staged, is_unlocked};
use banks::Stored;
use records::{Map, Record};

// The bytes are zero from number `used` on.
fn is_zero_from(bytes: [u8; 8], used: usize) -> bool
    ensures { result ≡ every (λ b. b == 0) (drop used bytes) }
{
    bytes.iter().skip(used).all(|b| *b == 0)
}

// The staged bytes are some of this value's.
#[tactic(auto, unfolding(crate::specs::Rules::staged_in, crate::specs::Rules::zero_from))]
fn staged_in(stored: Stored<'_>, g: Staged, value: Option<Record>) -> bool
    ensures { result ≡ staged_in (records_of stored.entry.map.now) stored.entry.store.now g value }
{
    match value {
        Some(r) => {
            g.count < r.width
                && r.is_writable()
                && 2 <= r.width
                && is_unlocked(stored, r)
                && is_zero_from(g.bytes, g.count as usize)
        }
        None => false,
    }
}

// The rule of staged bytes.
#[tactic(auto, unfolding(crate::specs::Rules::staged_holds, crate::specs::Rules::zero_from))]
pub fn staged_holds(stored: Stored<'_>, staged: Staged) -> bool
    ensures { result ≡ staged_holds (records_of stored.entry.map.now) stored.entry.store.now staged }
{
    if staged.count == 0 {
        return staged.bank == 0 && staged.first == 0 && is_zero_from(staged.bytes, 0);
    }
    staged_in(
        stored,
        staged,
        stored.map().value_at(staged.bank, staged.first),
    )
}

// The latched bytes are this value's.
#[tactic(auto, unfolding(crate::specs::Rules::latched_in, crate::specs::Rules::zero_from))]
fn latched_in(l: Latch, value: Option<Record>) -> bool
    ensures { result ≡ latched_in l value }
{
    value.is_some_and(|r| 2 <= r.width && is_zero_from(l.bytes, r.width as usize))
}

// The rule of latched bytes.
#[tactic(auto, using(laws::proofs::Choosing::if_yes, laws::proofs::Choosing::if_no), unfolding(crate::specs::Rules::latch_holds, crate::specs::Rules::zero_from))]
pub fn latch_holds(map: Map<'_>, latch: Latch) -> bool
    ensures { result ≡ latch_holds (records_of map.entry.bytes.now) latch }
{
    if latch.held {
        return latched_in(latch, map.value_at(latch.bank, latch.first));
    }
    latch.bank == 0 && latch.first == 0 && is_zero_from(latch.bytes, 0)
}
