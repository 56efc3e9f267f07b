// One record of a trace.
ghost use Rattle.std.specs.Prelude.{◌≡◌, ◌+◌, ◌*◌, ◌≤◌, length};
ghost use Rattle.entries.specs.Entry.{entry_of, is_broken};
ghost use Rattle.entries.specs.Promises.{FourBytesPromise, EntryAtPromise};

// A frame record has its clock and its frame.
// Kept: a `Result<Entry, Refusal>` is no plainer: all definitions over records would speak of 15 refusals that none has; and
// `entries:BrokenIs13` and `OneEntry` give the broken one its number beside the others'.
#[derive(Clone, Copy, Debug, PartialEq, Eq)]
pub enum Entry {
    Frame(u32, u32),
    PowerOn,
    Broken,
}

// Four bytes, high first.
pub fn four_bytes(a: u8, b: u8, c: u8, d: u8) -> u32
    ensures { FourBytesPromise a b c d result }
{
    u32::from_be_bytes([a, b, c, d])
}

#[tactic(auto, unfolding(crate::specs::Entry::entry_of))]
fn entry_of(kind: u8, clock: u32, frame: u32) -> Entry
    ensures { result ≡ entry_of kind clock frame }
{
    match kind {
        0 => Entry::Frame(clock, frame),
        1 => Entry::PowerOn,
        _ => Entry::Broken,
    }
}

// Internal: record number i, which is there as a whole.
#[tactic(auto, unfolding(crate::specs::Entry::entry_at))]
pub fn entry_at(records: &[u8], i: usize) -> Entry
    requires { 8 * i + 8 ≤ length records.now }
    ensures { EntryAtPromise records.now i result }
{
    let at = 8 * i;
    let clock = four_bytes(
        records[at],
        records[at + 1],
        records[at + 2],
        records[at + 3],
    );
    let frame = four_bytes(0, records[at + 5], records[at + 6], records[at + 7]);
    entry_of(records[at + 4], clock, frame)
}

pub fn is_broken(entry: Entry) -> bool
    ensures { result ≡ is_broken entry }
{
    matches!(entry, Entry::Broken)
}
