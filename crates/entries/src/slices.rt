// The input in slices: what is read of an unfinished record waits for its other bytes.
ghost use Rattle.std.specs.Prelude.{◌≤◌, length};
ghost use Rattle.entries.specs.Promises.{KeepRestPromise};

// Internal: of the first `filled` bytes those behind the whole records go to the front. It answers how many they are.
// Kept: what may not change: RestKept and KeepsRest speak of the buffer and of how far it is filled, so both are handed in.
#[tactic(auto, unfolding(laws::specs::Parts::part))]
pub fn keep_rest(input: &mut [u8], filled: usize) -> usize
    requires { filled ≤ length input.old }
    ensures { KeepRestPromise input.old filled result input.new }
{
    let kept = filled % 8;
    input.copy_within(filled - kept..filled, 0);
    kept
}
