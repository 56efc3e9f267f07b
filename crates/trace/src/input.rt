// Records on standard input, as they come, and what is written for them.
ghost use Rattle.std.specs.Prelude.{◌≡◌, false, ◌≤◌, length, take, OnOk, IfOk};
ghost use Rattle.tracing.specs.Flow.{Flows};

use rooms::State;
use std::io;
use std::io::{Print, Read};
use tracing::Flow;

// Internal: reads once, behind the bytes that are kept, and answers where the input ends then. A read that fails ends it.
// Kept: a rule of the project (no heap): one buffer, and how far it is filled, as `tracing::go_on` takes them.
fn read_more(rt: &HostRuntime, input: &mut [u8], kept: usize) -> usize
    requires { kept ≤ length input.old }
    ensures within { result ≤ length input.new }
    ensures part { result ≡ length (take result input.new) }
{
    match rt.stdin().read(&mut input[kept..]) {
        Ok(got) => kept + got,
        Err(_) => {
            let _ = eprintln!(rt; "trace: standard input cannot be read");
            kept
        }
    }
}

// Internal: reads once, and writes what the records answer that are whole then. A record cut by the read waits.
#[tactic(auto, using(tracing::proofs::Flowing::flows_again))]
fn trace_some(
    rt: &HostRuntime,
    map: &[u8],
    store: &mut [u8],
    image: &[u8],
    flow: Flow,
    input: &mut [u8],
    output: &mut [u8],
) -> io::Result<Flow>
    requires { (flow.ended ≡ false) × (flow.kept ≤ length input.old) × (length input.old ≤ length output.old) }
    ensures { IfOk result Flows }
{
    let filled = read_more(rt, input, flow.kept);
    let next = tracing::go_on(map, store, image, flow, input, filled, output);
    rt.write_all(&output[..4 * next.count])?;
    Ok(next)
}

// A proved loop has to end, and nothing says that the input does: so it counts its turns, up to a number that no run
// uses up. An unfinished record at the end is 13.
#[tactic(auto, using(tracing::proofs::Flowing::flows_first))]
fn trace_all(
    rt: &HostRuntime,
    map: &[u8],
    store: &mut [u8],
    image: &[u8],
    state: State,
) -> io::Result<()> {
    let mut input = [0u8; 65536];
    let mut output = [0u8; 65536];
    let mut flow = tracing::begin(state);
    for _ in 0..u64::MAX {
        if !flow.more {
            break;
        }
        flow = trace_some(rt, map, store, image, flow, &mut input, &mut output)?;
    }
    if flow.unfinished {
        rt.write_all(&[13, 0, 0, 0])?;
    }
    Ok(())
}

// A refused start writes its 4 bytes only. Last the store is written.
pub fn trace(
    rt: &HostRuntime,
    map: &[u8],
    store: &mut [u8],
    image: &[u8],
    adr: &[u8],
) -> io::Result<()> {
    if let Err(refusal) = tracing::check_files(map, store, image, adr) {
        return rt.write_all(&[refusal.number(), 0, 0, 0]);
    }
    let started = unit::start(map, store, image, tracing::who_of(adr));
    trace_all(rt, map, store, image, started.state)?;
    rt.write_all(store)
}
