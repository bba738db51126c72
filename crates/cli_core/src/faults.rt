//! The errors of a run.
ghost use Rattle.std.specs.Prelude.{◌≡◌};
ghost use Rattle.cli_core.specs.declared.faults.RunError.TheVariants.{OutOfMemory};

use message_core::WireError;
use std::alloc::AllocError;
use thiserror::Error;

/// An error of a line of the input.
#[derive(Clone, Copy, Debug, PartialEq, Eq, Error)]
pub enum LineError {
    /// It is not the line of a change.
    #[error("{0}")]
    Wire(WireError),
    /// Its address would be one too many.
    #[error("too many members")]
    TooManyMembers,
    /// The reader failed.
    #[error("read failed")]
    ReadFailed,
    /// Out of memory, for the line or for its change.
    #[error("out of memory")]
    OutOfMemory,
}

/// The errors of a run.
#[derive(Clone, Copy, Debug, PartialEq, Eq, Error)]
pub enum RunError {
    /// The line with this number, from 1, has this error.
    #[error("line {0}: {1}")]
    AtLine(u64, LineError),
    /// Out of memory for something else than a line.
    #[error("out of memory")]
    OutOfMemory,
    /// The writer failed.
    #[error("cannot write")]
    CannotWrite,
}

impl From<WireError> for LineError {
    ghost use Rattle.cli_core.specs.Faults.{fault_of_wire};

    ghost from_gives = { λ e f. f ≡ fault_of_wire e };

    fn from(error: WireError) -> LineError {
        match error {
            WireError::Io => LineError::ReadFailed,
            WireError::Memory => LineError::OutOfMemory,
            other => LineError::Wire(other),
        }
    }
}

impl From<AllocError> for RunError {
    ghost from_gives = { λ _ f. f ≡ OutOfMemory };

    fn from(_refused: AllocError) -> RunError {
        RunError::OutOfMemory
    }
}
