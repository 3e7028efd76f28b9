#![tactic(auto)]

use std::thread;
use std::time::{Clock, Duration};

// Sleeps for 10 milliseconds.
pub fn pause(clock: &impl Clock) {
    thread::sleep(clock, Duration::from_millis(10));
}
