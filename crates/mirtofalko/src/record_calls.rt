// The call on trace records alone.
ghost use Rattle.faces.specs.Promises.{CensusFacePromise};

// The records, counted by class, added to 16 counts.
#[unsafe(no_mangle)]
pub extern "C" fn mf_census(records: &[u8], counts: &mut [u64; 16]) -> u32
    ensures { CensusFacePromise records.now counts.old result counts.new }
{
    faces::census_face(records, counts)
}
