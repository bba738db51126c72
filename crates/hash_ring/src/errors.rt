//! Errors of this crate.
ghost use Rattle.std.specs.Prelude.{◌≡◌};
ghost use Rattle.hash_ring.specs.declared.errors.RingError.TheVariants.{Memory};

use std::alloc::{AllocError, AllocFailed};
use thiserror::Error;

/// An error of this crate. A call that fails leaves servers and points unchanged.
#[derive(Clone, Copy, Debug, PartialEq, Eq, Error)]
pub enum RingError {
    /// `replicas`, the number of points for each unit of a server's weight, is not from 1 to 1,000.
    #[error("bad replicas")]
    BadReplicas,
    /// Out of memory.
    #[error("out of memory")]
    Memory,
}

impl From<AllocError> for RingError {
    ghost from_gives = { λ _ e. e ≡ Memory };

    fn from(_: AllocError) -> RingError {
        RingError::Memory
    }
}

impl<T: Drop> From<AllocFailed<T>> for RingError {
    ghost from_gives = { λ _ e. e ≡ Memory };

    fn from(_refused: AllocFailed<T>) -> RingError {
        RingError::Memory
    }
}
