// A frame of a session, as a line of words or as a trace record.
use std::io;
use streams::Form;
use text::Frame;

// 8 bytes: the clock, 4 of them, high first; kind 0; the frame, 3, high first.
fn record(clock: u8, frame: u32) -> [u8; 8] {
    let [_, high, middle, low] = frame.to_be_bytes();
    [0, 0, 0, clock, 0, high, middle, low]
}

// In words its six digits, and what it says.
pub fn write_frame(rt: &HostRuntime, form: Form, clock: u8, frame: u32) -> io::Result<()> {
    match form {
        Form::Words => {
            let words = Frame(frame);
            println!(rt; "{frame:06X}  {words}")
        }
        Form::Bytes => rt.write_all(&record(clock, frame)),
    }
}
