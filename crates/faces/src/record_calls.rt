// The call on trace records alone.
ghost use Rattle.faces.specs.Promises.{CensusFacePromise};

use refusals::number_in;

// The records, counted by class, added to 16 counts.
pub fn census_face(records: &[u8], counts: &mut [u64; 16]) -> u32
    ensures { CensusFacePromise records.now counts.old result counts.new }
{
    u32::from(number_in(census::add_census(records, counts)))
}
