// A map that has passed 7, 8 and 9: what a look-up rests on.
ghost use Rattle.std.specs.Prelude.{◌≡◌, true};
ghost use Rattle.records.specs.Order.{ordered};

use crate::order::check_order;
use refusals::Refusal;

#[derive(Clone, Copy)]
pub struct Map<'a> {
    pub bytes: &'a [u8],
    pub ghost in_order: { ordered bytes.now ≡ true },
}

impl<'a> Map<'a> {
    ghost use Rattle.std.specs.Prelude.{IfOk};
    ghost use Rattle.refusals.specs.Numbers.{number_in};
    ghost use Rattle.records.specs.Order.{order_number};

    // The map of these bytes, or the first of 7, 8 and 9 that they break.
    #[tactic(auto, using(crate::proofs::Ordered::zero_ordered))]
    pub fn new(bytes: &'a [u8]) -> Result<Map<'a>, Refusal>
        ensures number { number_in result ≡ order_number bytes.now }
        ensures same { IfOk result (λ map. map.bytes.now ≡ bytes.now) }
    {
        check_order(bytes)?;
        Ok(Map { bytes })
    }
}
