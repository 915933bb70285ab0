//! The gates of a run that nobody holds up.

use sharc_rounds::Gate;
use std::time::Clock;

/// Lets each step through at once.
pub struct OpenGate;

impl Gate for OpenGate {
    fn step(&self, _worker: u32, _thread: u32) {}
}

/// Lets each step through at once, and tells the time.
#[derive(Drop)]
pub struct TimedGate<'a, C> {
    pub clock: &'a C,
}

impl<'a, C: Clock> Gate for TimedGate<'a, C> {
    fn step(&self, _worker: u32, _thread: u32) {}

    fn nanoseconds(&self) -> Option<u64> {
        match self.clock.monotonic() {
            Ok(time) => u64::try_from(time.as_nanos()).ok(),
            Err(_) => None,
        }
    }
}
