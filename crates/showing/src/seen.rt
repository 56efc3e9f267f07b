// The store as it was seen, to be held against what it is a step later.
ghost use Rattle.std.specs.Prelude.{◌≡◌, length};
ghost use Rattle.showing.specs.Seen.{Seen};

// The store, and zeros behind it.
// Kept: a rule of the project (no heap): the room of the longest store.
pub fn seen_of(store: &[u8]) -> [u8; 4096]
    ensures long { 4096 ≡ length result }
    ensures same { Seen result store.now }
{
    let mut seen = [0u8; 4096];
    let n = store.len().min(4096);
    seen[..n].copy_from_slice(&store[..n]);
    seen
}
