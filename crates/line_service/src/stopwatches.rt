//! The time of a server.
ghost use Rattle.std.specs.Prelude.{◌≡◌, ◌≤◌, ◌/◌, ◌^◌, min};
ghost use Rattle.std.specs.Duration.{as_nanos};
ghost use Rattle.change_core.specs.Numbers.{greatest_number};

use change_core::{MAX_NUMBER, Moment};
use std::time::{Clock, Duration, Instant};

/// Returns the whole milliseconds of a time, 2^53 - 1 at most.
pub fn millis_of(spent: Duration) -> u64
    ensures millis { result ≡ min (as_nanos spent / 10 ^ 6) greatest_number }
    ensures few { result ≤ greatest_number }
{
    spent.as_millis().min(MAX_NUMBER as u128) as u64
}

/// The start of a server's time, from which its moments count. If the clock fails, time does not pass.
#[derive(Clone, Copy, Debug)]
pub struct Stopwatch {
    start: Option<Instant>,
}

impl Stopwatch {
    /// Starts the time now.
    pub fn start<C: Clock>(clock: &C) -> Self {
        Stopwatch {
            start: Instant::now(clock).ok(),
        }
    }

    /// Returns the milliseconds since the start, 2^53 - 1 at most.
    fn millis<C: Clock>(&self, clock: &C) -> u64
        ensures { result ≤ greatest_number }
    {
        let Some(start) = self.start else {
            return 0;
        };
        match start.elapsed(clock) {
            Ok(spent) => millis_of(spent),
            Err(_) => 0,
        }
    }

    /// The moment that it is now.
    pub fn moment<C: Clock>(&self, clock: &C) -> Moment {
        let Some(moment) = Moment::new(self.millis(clock)) else {
            unreachable!()
        };
        moment
    }
}
