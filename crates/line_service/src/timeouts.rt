//! The time limits for which a server waits for others.
ghost use Rattle.line_service.specs.Timeouts.{AreStandardTimeouts};

use std::time::Duration;
use transport::Limits;

/// The time limits for which a server waits for others.
#[derive(Clone, Copy, Debug, PartialEq, Eq)]
pub struct Timeouts {
    /// For a whole line to arrive, and for its answer's line to be taken, each from its start.
    pub line: Duration,
    /// For the answers of other nodes.
    pub links: Limits,
}

impl Timeouts {
    /// 500 milliseconds for a line, and the standard limits of a link.
    pub fn standard() -> Self
        ensures standard { AreStandardTimeouts result }
    {
        Timeouts {
            line: Duration::from_millis(500),
            links: Limits::standard(),
        }
    }
}
