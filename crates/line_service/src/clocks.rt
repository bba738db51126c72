//! The clock of a server, for requests that are tried again.
use crate::stopwatches::Stopwatch;
use change_core::Moment;
use peer_core::Clock;
use std::sync::Wait;
use std::time::Duration;
use std::{thread, time};

/// A server's clock: it counts the milliseconds since the server's start by the system's monotonic clock, and waits by
/// sleeping.
#[derive(Clone, Copy)]
pub struct ServerClock<R> {
    rt: R,
    stopwatch: Stopwatch,
}

impl<R> ServerClock<R> {
    /// The clock that counts as the stopwatch does.
    pub fn new(rt: R, stopwatch: Stopwatch) -> Self {
        ServerClock { rt, stopwatch }
    }
}

impl<R: time::Clock> Clock for ServerClock<R> {
    // The behaviour of the system's clock is unknown.
    ghost time = { record { told = λ _. Unit {0}; waited = λ _. Unit {0} } };

    fn now(&self) -> Moment {
        self.stopwatch.moment(&self.rt)
    }

    fn wait_until<W: Wait>(&self, rt: &W, moment: u64) {
        for _ in rt.forever() {
            let now = self.now().number();
            if now >= moment {
                return;
            }
            thread::sleep(&self.rt, Duration::from_millis(moment - now));
        }
        unreachable!()
    }
}
