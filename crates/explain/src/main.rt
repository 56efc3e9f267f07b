// Shows a capture of the unit of the working folder in words: each record, what it did, and the values that it changed;
// last the values before and after. What it refuses, it leaves to the trace program to say.
#![tactic(auto)]

mod capture; // record by record
mod page; // what a record came to, written whole

use streams::{say_lost, with_unit};

fn main(rt: HostRuntime) {
    let shown = with_unit(
        &rt,
        |map, store, image, adr| capture::show(&rt, map, store, image, adr),
    );
    if shown.is_err() {
        say_lost(&rt, "explain");
    }
}
