//! The clock of a server's rounds.
ghost use Rattle.std.specs.Prelude.{IsTrue};

use crate::servers::Server;
use change_core::Moment;
use hash_ring::PointHash;
use line_service::Stopwatch;
use std::sync::Wait;
use std::time::{Clock, Duration};

/// A clock that reports the moments of a server's rounds, and rests between them.
pub trait RoundClock: Wait + Clock {
    ghost use Rattle.server.specs.Working.{RoundTimes};

    /// The moments that may be reported after another, and after a rest since then; code over any clock can show either only by
    /// calling.
    ghost times: { RoundTimes };

    /// Returns the moment that it is by a stopwatch, but not before `last`, which was reported before.
    fn moment(&self, stopwatch: &Stopwatch, last: Moment) -> Moment
        ensures { times.told last result };

    /// Rests for this number of milliseconds after `last`, which was reported before, or until the server ends. Returns whether
    /// it goes on.
    fn rest<H: PointHash, A>(&self, server: &Server<H, A>, last: Moment, period: u64) -> bool
        ensures { IsTrue result → times.rested last period };
}

impl<R: Wait + Clock> RoundClock for R {
    ghost use Rattle.server.specs.Working.{any_times};

    // Whether the system's clock rests as asked is unknown.
    ghost times = { any_times };

    fn moment(&self, stopwatch: &Stopwatch, last: Moment) -> Moment {
        let now = stopwatch.moment(self);
        if now.number() < last.number() {
            last
        } else {
            now
        }
    }

    fn rest<H: PointHash, A>(&self, server: &Server<H, A>, _last: Moment, period: u64) -> bool {
        server.rest(self, Duration::from_millis(period))
    }
}
