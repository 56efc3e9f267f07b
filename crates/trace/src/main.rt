// Traces the unit of the working folder: reads its files, and records on standard input; writes what it answers, and
// the store.
#![tactic(auto)]

mod input; // record after record

use streams::{say_lost, with_unit};

fn main(rt: HostRuntime) {
    let traced = with_unit(
        &rt,
        |map, store, image, adr| input::trace(&rt, map, store, image, adr),
    );
    if traced.is_err() {
        say_lost(&rt, "trace");
    }
}
