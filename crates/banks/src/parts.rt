// A value's part of the store: bytes put there, and bytes copied from there.
ghost use Rattle.std.specs.Prelude.{◌≡◌, ◌+◌, ◌≤◌, length, take};
ghost use Rattle.banks.specs.Values.{put_value, padded};

use records::Record;

// Internal: the part takes the bytes, as many as it has room for.
// Kept: by number: the C interface: `copy_from_slice` of two lent slices would make the archive need `memmove` beside `memcpy`.
#[tactic(auto, using(laws::proofs::Copies::copy_more, laws::proofs::Copies::copy_full))]
fn put_part(part: &mut [u8], bytes: &[u8])
    requires { length part.old ≤ length bytes.now }
    ensures { part.new ≡ take (length part.old) bytes.now }
{
    for i in 0..part.len() {
        part[i] = bytes[i];
    }
}

// Internal: the value's bytes are put at its place in the store.
#[tactic(auto, using(laws::proofs::Copies::put_back), unfolding(crate::specs::Values::put_value))]
pub fn put_value(store: &mut [u8], r: Record, bytes: &[u8])
    requires { (r.offset + r.width ≤ length store.old) × (r.width ≤ length bytes.now) }
    ensures { store.new ≡ put_value r (take r.width bytes.now) store.old }
{
    put_part(&mut store[r.offset as usize..r.places_end()], bytes);
}

// Internal: the bytes of the part, and zeros behind them.
pub fn padded_part(part: &[u8]) -> [u8; 8]
    requires { length part.now ≤ 8 }
    ensures { result ≡ padded part.now }
{
    let mut bytes = [0u8; 8];
    bytes[..part.len()].copy_from_slice(part);
    bytes
}
