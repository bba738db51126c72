//! The errors of a script.
ghost use Rattle.std.specs.Prelude.{◌≡◌};
ghost use Rattle.cli_core.specs.declared.scripts.faults.ScriptError.TheVariants.{OutOfMemory};

use std::alloc::{AllocError, AllocFailed};
use thiserror::Error;

/// An error of a line of a script.
#[derive(Clone, Copy, Debug, PartialEq, Eq, Error)]
pub enum ScriptError {
    /// The reader failed.
    #[error("read failed")]
    ReadFailed,
    /// It has more than 1,048,576 bytes.
    #[error("line too long")]
    LineTooLong,
    /// Out of memory, for the line or for its command.
    #[error("out of memory")]
    OutOfMemory,
    /// It is no command.
    #[error("bad command")]
    BadCommand,
    /// No node has the address.
    #[error("unknown node")]
    UnknownNode,
    /// A node has the address already.
    #[error("node exists")]
    NodeExists,
    /// There are as many nodes as may be.
    #[error("too many nodes")]
    TooManyNodes,
    /// No message has the number.
    #[error("unknown message")]
    UnknownMessage,
    /// There are as many messages as may be.
    #[error("too many messages")]
    TooManyMessages,
    /// The node holds itself at that incarnation or a greater one.
    #[error("incarnation not greater")]
    IncarnationNotGreater,
}

/// The errors of a script.
#[derive(Clone, Copy, Debug, PartialEq, Eq, Error)]
pub enum SimError {
    /// The line with this number, from 1, has this error.
    #[error("line {0}: {1}")]
    AtLine(u64, ScriptError),
    /// The writer failed.
    #[error("cannot write")]
    CannotWrite,
}

impl From<AllocError> for ScriptError {
    ghost from_gives = { λ _ f. f ≡ OutOfMemory };

    fn from(_refused: AllocError) -> ScriptError {
        ScriptError::OutOfMemory
    }
}

impl<T: Drop> From<AllocFailed<T>> for ScriptError {
    ghost from_gives = { λ _ f. f ≡ OutOfMemory };

    fn from(_refused: AllocFailed<T>) -> ScriptError {
        ScriptError::OutOfMemory
    }
}
