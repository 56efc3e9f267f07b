// The input as it is read, slice after slice: what stands between two reads, and what one more makes of it.
ghost use Rattle.std.specs.Prelude.{◌≡◌};
ghost use Rattle.tracing.specs.Flow.{begun_flow, Runnable, GoOnPromise};

use crate::runs::run;
use rooms::State;

// Between two reads: the state; how many bytes of an unfinished record wait at the front of the input; how many records
// of the last slice were answered; whether 13 ended the input; whether an unfinished record is left, which is 13 if no
// more comes; and whether more is to be read.
// Kept: none of the three says whether a value beside it is there; what may not change: `tracing:GoOnPromise` names each.
#[derive(Clone, Copy)]
pub struct Flow {
    pub state: State,
    pub kept: usize,
    pub count: usize,
    pub ended: bool,
    pub unfinished: bool,
    pub more: bool,
}

// Nothing is read yet.
#[tactic(auto, unfolding(crate::specs::Flow::begun_flow))]
pub fn begin(state: State) -> Flow
    ensures { result ≡ begun_flow state }
{
    Flow {
        state,
        kept: 0,
        count: 0,
        ended: false,
        unfinished: false,
        more: true,
    }
}

// Internal: the first `filled` bytes of the input are a slice, in front of it what was kept. Its whole records are run,
// and what is behind them goes to the front.
// Kept: what may not change: GoOnReads speaks of the whole buffer and of how far it is filled, so both are handed in.
pub fn go_on(
    map: &[u8],
    store: &mut [u8],
    image: &[u8],
    flow: Flow,
    input: &mut [u8],
    filled: usize,
    output: &mut [u8],
) -> Flow
    requires { Runnable flow input.old filled output.old }
    ensures { GoOnPromise map.now image.now flow result store.old store.new
        input.old input.new filled output.old output.new }
{
    let ran = run(map, store, image, flow.state, &input[..filled], output);
    let kept = entries::keep_rest(input, filled);
    Flow {
        state: ran.state,
        kept,
        count: ran.count,
        ended: ran.ended,
        unfinished: (kept > 0) & !ran.ended,
        more: (filled > flow.kept) & !ran.ended,
    }
}
