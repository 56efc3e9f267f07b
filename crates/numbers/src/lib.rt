// What a start, a power-on and a frame step refuse: nothing, or the first test that fails.
#![tactic(auto)]

mod given; // the tests of each call, in order

pub use given::{check_heard, check_power, check_start, check_step};
