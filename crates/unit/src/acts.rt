// What is due is done: each function with the rooms and the store that it may touch.
ghost use Rattle.std.specs.Prelude.{◌≡◌, true, length};
ghost use Rattle.laws.specs.Outcome.{Gives};
ghost use Rattle.records.specs.Map.{records_of};
ghost use Rattle.banks.specs.Rules.{placed};
ghost use Rattle.memory.specs.Staged.{write_byte};
ghost use Rattle.memory.specs.Latched.{read_byte};
ghost use Rattle.unit.specs.Step.{cleared, raised, written, read_by, done};

use banks::Stored;
use hearing::Heard;
use memory::Filling;
use rooms::{
    Door, Due, State, Stepped, answering, empty_door, quiet, with_door, with_dtr, with_latch,
    with_registers, with_waiting, with_who,
};

// Any frame clears the waiting one; what closes write-enable drops staging.
// Kept: what may not change: `unit:cleared` takes whether it closes, as `hearing:closes` answers it.
#[tactic(auto, unfolding(rooms::specs::State::with_door, rooms::specs::State::with_waiting, crate::specs::Step::cleared))]
pub fn hear(state: State, closing: bool) -> State
    ensures { result ≡ cleared state closing }
{
    let none_waiting = with_waiting(state, hearing::none_waits());
    if closing {
        with_door(none_waiting, empty_door(false))
    } else {
        none_waiting
    }
}

// DTR0 rises by one unless 0xFF.
#[tactic(auto, unfolding(crate::specs::Step::raised))]
fn raise(state: State, location: u8) -> State
    ensures { result ≡ raised state location }
{
    let next = location.saturating_add(1);
    with_registers(state, with_dtr(state.registers, 0, next))
}

// Internal: an executed write.
// Kept: map and store apart, for the reason at `memory::write_byte`; seven parameters, four of them as `Due::Writes` hands them on.
#[tactic(auto, unfolding(crate::specs::Step::written))]
fn write_at(
    map: &[u8],
    store: &mut [u8],
    state: State,
    bank: u8,
    location: u8,
    byte: u8,
    replying: bool,
) -> Stepped
    requires { placed map.now (length store.old) ≡ true }
    ensures { Gives result store.new (written state location byte replying
        (write_byte (records_of map.now) store.old state.door.staged bank location byte)) }
{
    let wrote = memory::write_byte(map, store, state.door.staged, bank, location, byte);
    let door = Door {
        staged: wrote.staged,
        ..state.door
    };
    answering(
        with_door(raise(state, location), door),
        (wrote.taken && replying).then_some(byte),
    )
}

// A READ in a mapped bank.
#[tactic(auto, unfolding(crate::specs::Step::read_by))]
fn read_at(stored: Stored<'_>, state: State, bank: u8, location: u8) -> Stepped
    ensures { result ≡ read_by state location
        (read_byte (records_of stored.entry.map.now) stored.entry.store.now state.latch bank location) }
{
    let shown = memory::read_byte(stored, state.latch, bank, location);
    answering(
        with_latch(raise(state, location), shown.latch),
        shown.answer,
    )
}

// Internal: what is due. Map, store and image have passed 7 to 10.
// Kept: map and store apart, for the reason at `memory::write_byte`; and what may not change: the match is the paper's list of what a
// frame makes happen, an arm for each case of `done`.
#[tactic(auto, unfolding(crate::specs::Step::done))]
pub fn act(
    map: &[u8],
    store: &mut [u8],
    image: &[u8],
    state: State,
    heard: Heard,
    due: Due,
) -> Stepped
    requires { (placed map.now (length store.old) ≡ true) × (length image.now ≡ length store.old) }
    ensures { Gives result store.new
        (done (records_of map.now) store.old image.now state heard due) }
{
    match due {
        Due::Nothing => quiet(state),
        Due::Waits => quiet(with_waiting(state, hearing::waits_for(heard))),
        Due::Opens => quiet(with_door(state, empty_door(true))),
        Due::Resets(dtr0) => {
            memory::fill_store(map, store, image, Filling::Reset(dtr0));
            quiet(state)
        }
        Due::Becomes(who) => quiet(with_who(state, who)),
        Due::Loads(registers) => quiet(with_registers(state, registers)),
        Due::Answers(byte) => answering(state, Some(byte)),
        Due::Writes(bank, location, byte, replying) => {
            write_at(map, store, state, bank, location, byte, replying)
        }
        Due::Reads(bank, location) => read_at(Stored { map, store }, state, bank, location),
    }
}
