//! The clock of a request that is tried again.
use change_core::Moment;
use std::sync::Wait;

/// A clock that reports the moment, and waits. Moments are milliseconds, from 0 on, since a start that the caller
/// chooses, and never go back.
pub trait Clock {
    ghost use Rattle.peer_core.specs.Forwarding.{Times};

    /// The moments that may be reported, and those until which a wait may have lasted; code over any clock can show
    /// either only by calling.
    ghost time: { Times };

    /// The moment that it is. It does not block.
    fn now(&self) -> Moment
        ensures { time.told result };

    /// Waits until the moment of this number, or longer, and blocks its caller until then. If it returns too early it
    /// is called again, as often as that happens. A number past the greatest moment, 2^53 - 1, is never reached.
    fn wait_until<R: Wait>(&self, rt: &R, moment: u64)
        ensures { time.waited moment };
}
