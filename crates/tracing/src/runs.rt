// A run of records: map, store, image and state are checked once; then each record's step, and its four bytes.
ghost use Rattle.std.specs.Prelude.{◌≡◌, ◌+◌, ◌≤◌, length};
ghost use Rattle.laws.specs.Outcome.{Gives};
ghost use Rattle.laws.specs.Parts.{put};
ghost use Rattle.refusals.specs.Numbers.{number_in};
ghost use Rattle.numbers.specs.Numbers.{power_number};
ghost use Rattle.unit.specs.Run.{output_of};
ghost use Rattle.tracing.specs.Run.{turn_of, Begins, Turns, room_for};
ghost use Rattle.tracing.specs.Promises.{RunPromise};

use banks::Stored;
use entries::{Entry, entry_at, is_broken};
use refusals::Refusal;
use rooms::{Reply, State, Stepped, refusing};

// How far a run has come: the state, the records answered, and whether 13 ended it.
// Kept: state and count stand where 13 ended it too; what may not change: `tracing:RunPromise` names each.
#[derive(Clone, Copy)]
pub struct Ran {
    pub state: State,
    pub count: usize,
    pub ended: bool,
}

// Number or 0, answered 0/1, answer or 0, zero.
#[tactic(auto, unfolding(unit::specs::Run::output_of))]
fn four_bytes_of(reply: Reply) -> [u8; 4]
    ensures { result ≡ output_of reply }
{
    match reply {
        Ok(None) => [0; 4],
        Ok(Some(byte)) => [0, 1, byte, 0],
        Err(refusal) => [refusal.number(), 0, 0, 0],
    }
}

// Internal: the reply's four bytes, put from place `at` on.
#[tactic(auto, using(crate::proofs::Written::put_back))]
fn write_reply(output: &mut [u8], at: usize, reply: Reply)
    requires { at + 4 ≤ length output.old }
    ensures { output.new ≡ put at (output_of reply) output.old }
{
    output[at..at + 4].copy_from_slice(&four_bytes_of(reply));
}

// Internal: what the record's public call would do. What a power-on is refused with is known from the one check.
#[tactic(auto, using(crate::proofs::Checks::turn_refused, crate::proofs::Checks::stands_there, crate::proofs::Checks::turn_powers, crate::proofs::Checks::turn_unheard, crate::proofs::Checks::turn_hears), unfolding(crate::specs::Run::turn_of))]
fn step_entry(
    map: &[u8],
    store: &mut [u8],
    image: &[u8],
    state: State,
    checked: Result<(), Refusal>,
    entry: Entry,
) -> Stepped
    requires { number_in checked ≡ power_number map.now store.old (length image.now) state }
    ensures { Gives result store.new (turn_of map.now image.now store.old state entry) }
{
    match entry {
        Entry::Frame(clock, frame) => {
            if let Err(refusal) = checked {
                return refusing(state, refusal);
            }
            let heard = hearing::heard_at(clock, frame);
            match numbers::check_heard(Stored { map, store }, state, heard) {
                Ok(()) => unit::frame_step(map, store, image, state, heard),
                Err(refusal) => refusing(state, refusal),
            }
        }
        Entry::PowerOn => match checked {
            Ok(()) => unit::power_step(map, store, image, state),
            Err(refusal) => refusing(state, refusal),
        },
        Entry::Broken => refusing(state, Refusal::BrokenRecord),
    }
}

// Internal: one turn of a run: the next record's step, and its four bytes.
fn turn(
    map: &[u8],
    store: &mut [u8],
    image: &[u8],
    ran: Ran,
    checked: Result<(), Refusal>,
    records: &[u8],
    output: &mut [u8],
) -> Ran
    requires { Begins ran map.now store.old image.now records.now output.old (number_in checked) }
    ensures { Turns ran result map.now store.old store.new image.now
        records.now output.old output.new (number_in checked) }
{
    let entry = entry_at(records, ran.count);
    let stepped = step_entry(map, store, image, ran.state, checked, entry);
    write_reply(output, 4 * ran.count, stepped.reply);
    Ran {
        state: stepped.state,
        count: ran.count + 1,
        ended: is_broken(entry),
    }
}

#[tactic(auto, unfolding(crate::specs::Run::room_for))]
fn room_for(records: usize, output: usize) -> usize
    ensures { result ≡ room_for records output }
{
    (records / 8).min(output / 4)
}

// Runs the whole records, as many as the output has room for.
// Kept: by number: the new form is no plainer: records and output are cut by one count, `ran.count`, which the caller is told.
pub fn run(
    map: &[u8],
    store: &mut [u8],
    image: &[u8],
    state: State,
    records: &[u8],
    output: &mut [u8],
) -> Ran
    ensures { RunPromise map.now store.old image.now state records.now
        output.old result store.new output.new }
{
    let n = room_for(records.len(), output.len());
    let checked = numbers::check_power(map, store, image, state);
    let mut ran = Ran {
        state,
        count: 0,
        ended: false,
    };
    for _ in 0..n {
        if ran.ended {
            break;
        }
        ran = turn(map, store, image, ran, checked, records, output);
    }
    ran
}
