//! Theorems about the definitions, each the contract of a function that does nothing; `limits` alone returns the
//! constant.
ghost use Rattle.std.specs.Prelude.{◌≡◌};
ghost use Rattle.forward_core.specs.Attempts.{most_sends};
ghost use Rattle.forward_core.specs.Decided.{FailuresAreOne, RoutesAreOne, StepsAreOne};
ghost use Rattle.forward_core.specs.Schedule.{KeepsSchedule};

use crate::attempts::MAX_SENDS;
use hash_ring::PointHash;

/// Whatever the calls of an attempt, its sends and failures alternate, at most four of each, the first send whenever it
/// may be, and each further one no earlier than 3,000, 6,000 or 12,000 milliseconds after the failure before it.
pub fn schedule<H: PointHash>()
    ensures { KeepsSchedule H.hash_of }
{}

/// The results are determined: a request has one route by a view or has diverged, an attempt has one next step by a
/// view and at a moment, and a failure leaves one attempt.
pub fn decided<H: PointHash>()
    ensures routes { RoutesAreOne H.hash_of }
    ensures steps { StepsAreOne H.hash_of }
    ensures failures { FailuresAreOne }
{}

/// The constant of this crate is the limit that contracts name: the greatest number of sends of an attempt.
pub fn limits() -> u32
    ensures { result ≡ most_sends }
{
    MAX_SENDS
}
