// A state as 96 bytes, high bytes first, and back.
ghost use Rattle.std.specs.Prelude.{◌≡◌, ◌+◌, ◌≤◌, eqb, length};
ghost use Rattle.laws.specs.Lists.{every};
ghost use Rattle.laws.specs.Parts.{part, put};
ghost use Rattle.packing.specs.StateBytes.{flag, four_at};
ghost use Rattle.packing.specs.StateBytes.{who_at, registers_at, waiting_at, door_at, latch_at};
ghost use Rattle.packing.specs.Promises.{PackPromise, UnpackPromise, ShapeHoldsPromise};

use hearing::{Waiting, Who};
use memory::{Latch, Staged};
use rooms::{
    Door, Registers, State, with_door, with_latch, with_registers, with_waiting, with_who,
    zero_state,
};

// Where the bytes in use end.
const USED: usize = 40;

pub fn flag(b: bool) -> u8
    ensures { result ≡ flag b }
{
    u8::from(b)
}

// Internal: the N bytes from place i on.
#[tactic(auto, unfolding(laws::specs::Parts::part))]
fn part_at<const N: usize>(bytes: [u8; 96], i: usize) -> [u8; N]
    requires { i + N ≤ 96 }
    ensures { result ≡ part i N bytes }
{
    let mut part = [0; N];
    part.copy_from_slice(&bytes[i..i + N]);
    part
}

// Internal: the four bytes from place i on, as a number.
#[tactic(auto, using(crate::proofs::Spelled::four_part))]
fn four_at(bytes: [u8; 96], i: usize) -> u32
    requires { i + 4 ≤ 96 }
    ensures { result ≡ four_at bytes i }
{
    u32::from_be_bytes(part_at(bytes, i))
}

fn who_at(bytes: [u8; 96]) -> Who
    ensures { result ≡ who_at bytes }
{
    Who {
        address: bytes[0],
        groups: four_at(bytes, 1),
    }
}

fn registers_at(bytes: [u8; 96]) -> Registers
    ensures { result ≡ registers_at bytes }
{
    Registers {
        dtr0: bytes[5],
        dtr1: bytes[6],
        dtr2: bytes[7],
    }
}

fn waiting_at(bytes: [u8; 96]) -> Waiting
    ensures { result ≡ waiting_at bytes }
{
    Waiting {
        held: bytes[8] == 1,
        frame: four_at(bytes, 9),
        clock: four_at(bytes, 13),
    }
}

fn door_at(bytes: [u8; 96]) -> Door
    ensures { result ≡ door_at bytes }
{
    Door {
        enabled: bytes[17] == 1,
        staged: Staged {
            count: bytes[18],
            bank: bytes[19],
            first: bytes[20],
            bytes: part_at(bytes, 21),
        },
    }
}

fn latch_at(bytes: [u8; 96]) -> Latch
    ensures { result ≡ latch_at bytes }
{
    Latch {
        held: bytes[29] == 1,
        bank: bytes[30],
        first: bytes[31],
        bytes: part_at(bytes, 32),
    }
}

// The state that the bytes say. It goes by setters, so that a room without places of its own is zero.
#[tactic(auto, unfolding(crate::specs::StateBytes::state_of))]
pub fn unpack(bytes: [u8; 96]) -> State
    ensures { UnpackPromise bytes result }
{
    let named = with_who(zero_state(), who_at(bytes));
    let loaded = with_registers(named, registers_at(bytes));
    let waits = with_waiting(loaded, waiting_at(bytes));
    with_latch(with_door(waits, door_at(bytes)), latch_at(bytes))
}

fn is_zero(bytes: &[u8]) -> bool
    ensures { result ≡ every (λ x. eqb x 0) bytes.now }
{
    bytes.iter().all(|byte| *byte == 0)
}

// No flag over 1, and zero behind the bytes in use.
#[tactic(auto, unfolding(crate::specs::StateBytes::shape_holds))]
pub fn shape_holds(bytes: [u8; 96]) -> bool
    ensures { ShapeHoldsPromise bytes result }
{
    (bytes[8] <= 1) & (bytes[17] <= 1) & (bytes[29] <= 1) & is_zero(&bytes[USED..])
}

// Internal: bytes, put from place i on.
#[tactic(auto, using(crate::proofs::Spelled::put_back))]
fn put(bytes: &mut [u8; 96], i: usize, part: &[u8])
    requires { i + length part.now ≤ 96 }
    ensures { bytes.new ≡ put i part.now bytes.old }
{
    bytes[i..i + part.len()].copy_from_slice(part);
}

// The bytes of a state.
pub fn pack(state: State) -> [u8; 96]
    ensures { PackPromise state result }
{
    let mut b = [0; 96];
    b[0] = state.who.address;
    put(&mut b, 1, &state.who.groups.to_be_bytes());
    b[5] = state.registers.dtr0;
    b[6] = state.registers.dtr1;
    b[7] = state.registers.dtr2;
    b[8] = flag(state.waiting.held);
    put(&mut b, 9, &state.waiting.frame.to_be_bytes());
    put(&mut b, 13, &state.waiting.clock.to_be_bytes());
    let staged = state.door.staged;
    b[17] = flag(state.door.enabled);
    b[18] = staged.count;
    b[19] = staged.bank;
    b[20] = staged.first;
    put(&mut b, 21, &staged.bytes);
    let latch = state.latch;
    b[29] = flag(latch.held);
    b[30] = latch.bank;
    b[31] = latch.first;
    put(&mut b, 32, &latch.bytes);
    b
}
