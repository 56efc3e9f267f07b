// A count as a bar: its part of the largest one, in fortieths.
ghost use Rattle.std.specs.Prelude.{◌<◌, ◌≤◌};
ghost use Rattle.ledger.specs.Bar.{RoundedUp};

// Internal: a part of the whole, in fortieths, rounded up.
fn fortieths(part: u64, whole: u64) -> usize
    requires { part < whole }
    ensures { RoundedUp part whole result }
{
    (40 * u128::from(part)).div_ceil(u128::from(whole)) as usize
}

// The largest count has 40.
pub fn bar(count: u64, largest: u64) -> usize
    ensures { result ≤ 40 }
{
    if count < largest {
        fortieths(count, largest)
    } else {
        40
    }
}
