// Standard input and files, a whole buffer at a time; and what a program says on standard error of what it could not do. What
// it writes goes to the kit's `Print`.
#![tactic(auto)]

ghost use Rattle.std.specs.Prelude.{◌≡◌, ◌==◌, ◌≤◌, ◌+◌, ◌*◌, if◌then◌else◌, IfOk, length, min, slice_index, take};
ghost use Rattle.streams.specs.declared.Form.TheVariants.{Bytes, Words};

use refusals::Refusal;
use std::io::Read;
use std::rt::Files;
use std::{fs, io};

// How a program writes what it has: in words, or as bytes for another program to read.
#[derive(Clone, Copy, Debug, PartialEq, Eq)]
pub enum Form {
    Words,
    Bytes,
}

// 1 asks for bytes, and every other byte for words.
impl From<u8> for Form {
    ghost from_gives = { λ asked form. form ≡ (if asked == 1 then Bytes else Words) };

    fn from(asked: u8) -> Form {
        if asked == 1 { Form::Bytes } else { Form::Words }
    }
}

// Reads until the room is full, the input ends or a read fails. Answers how many bytes came, at the room's start: the
// second clause says no more than the first, and spares a caller that cuts the room there a proof.
// Kept: the new form is no plainer: `read_exact` doesn't say how many bytes came, which the callers need.
pub fn read_full<R: Read>(input: &mut R, room: &mut [u8]) -> usize
    ensures within { result ≤ length room.new }
    ensures part { result ≡ length (take result room.new) }
{
    let mut filled = 0;
    while filled < room.len() {
        let n = input.read(&mut room[filled..]).unwrap_or(0);
        if n == 0 {
            break;
        }
        filled += n;
    }
    filled
}

// A file that is missing counts as empty: nothing is read from what could not be opened.
pub fn read_file(rt: &impl Files, name: &str, room: &mut [u8]) -> usize
    ensures within { result ≤ length room.new }
    ensures part { result ≡ length (take result room.new) }
{
    match fs::open(rt, name) {
        Ok(mut file) => read_full(&mut file, room),
        Err(_) => 0,
    }
}

// The four files of a unit's folder, the working folder, handed to what a program does with them: map, store, image and address. Rooms
// of one byte more than the limits, so that a longer file is seen to be longer.
pub fn with_unit<F: FnOnce(&[u8], &mut [u8], &[u8], &[u8]) -> io::Result<()>>(
    rt: &impl Files,
    run: F,
) -> io::Result<()>
    requires { F.IsAlwaysCallable run }
{
    let mut map = [0u8; 513];
    let mut store = [0u8; 4097];
    let mut image = [0u8; 4097];
    let mut adr = [0u8; 6];
    let mapped = read_file(rt, "unit.map", &mut map);
    let stored = read_file(rt, "unit.sto", &mut store);
    let kept = read_file(rt, "unit.rst", &mut image);
    let addressed = read_file(rt, "unit.adr", &mut adr);
    run(
        &map[..mapped],
        &mut store[..stored],
        &image[..kept],
        &adr[..addressed],
    )
}

// Fills the first bytes of a room, as many as two bytes say, high first; where they say more than the room has, all of it.
pub fn read_part<'a, R: Read>(
    input: &mut R,
    size: [u8; 2],
    room: &'a mut [u8],
) -> io::Result<&'a [u8]>
    ensures { IfOk result (λ part. length part.now ≡ min (256 * slice_index size 0 + slice_index size 1) (length room.old)) }
{
    let n = usize::from(u16::from_be_bytes(size)).min(room.len());
    let part = &mut room[..n];
    input.read_exact(part)?;
    Ok(part)
}

// A program's status is 0 whatever happens: what it could not do it says on standard error.
pub fn say_lost(rt: &impl Eprint, program: &str) {
    let _ = eprintln!(rt; "{program}: standard output cannot be written: the rest is lost");
}

// A refusal, as the papers number it.
pub fn say_refused(rt: &impl Eprint, refusal: Refusal) {
    let _ = eprintln!(rt; "{}: {refusal}", refusal.number());
}
