// The rules 7 to 9 of a map, each over everything.
ghost use Rattle.std.specs.Prelude.{◌≡◌};
ghost use Rattle.laws.specs.Lists.{every};
ghost use Rattle.refusals.specs.Numbers.{number_in};
ghost use Rattle.records.specs.Map.{records_of};
ghost use Rattle.records.specs.Order.{size_holds, lockable_holds, fields_hold, before, rising};
ghost use Rattle.records.specs.Promises.{CheckOrderPromise};

use crate::each::records;
use crate::record::Record;
use refusals::Refusal;

// 7, of a map of n bytes.
#[tactic(auto, unfolding(crate::specs::Order::size_holds))]
fn size_holds(n: usize) -> bool
    ensures { result ≡ size_holds n }
{
    (n % 8 == 0) & (n <= 512)
}

fn lockable_holds(r: Record) -> bool
    ensures { result ≡ lockable_holds r }
{
    let writes = r.is_writable();
    (r.lockable == 0) | ((r.lockable == 1) & writes)
}

// 8, of one record.
fn fields_hold(r: Record) -> bool
    ensures { result ≡ fields_hold r }
{
    let width = (1 <= r.width) & (r.width <= 8);
    let end = r.locations_end();
    let locks = lockable_holds(r);
    (r.bank <= 199) & width & (end <= 0xFE + 1) & (r.kind <= 4) & locks & (r.zero == 0)
}

// 8.
fn all_fields_hold(map: &[u8]) -> bool
    ensures { result ≡ every fields_hold (records_of map.now) }
{
    records(map).all(fields_hold)
}

// 9, of a record and the next.
fn stands_before(p: Record, r: Record) -> bool
    ensures { result ≡ before p r }
{
    let end = p.locations_end();
    (p.bank < r.bank) | ((p.bank == r.bank) & (end <= r.first as usize))
}

// 9.
fn is_rising(map: &[u8]) -> bool
    ensures { result ≡ rising (records_of map.now) }
{
    records(map).is_sorted_by(|p, r| stands_before(*p, *r))
}

// A map by itself: the first of 7, 8 and 9 that it breaks.
#[tactic(auto, unfolding(crate::specs::Order::order_number, laws::specs::Numbers::first_failing))]
pub fn check_order(map: &[u8]) -> Result<(), Refusal>
    ensures { CheckOrderPromise map.now (number_in result) }
{
    if !size_holds(map.len()) {
        return Err(Refusal::MapSize);
    }
    if !all_fields_hold(map) {
        return Err(Refusal::RecordFields);
    }
    if !is_rising(map) {
        return Err(Refusal::RecordOrder);
    }
    Ok(())
}
