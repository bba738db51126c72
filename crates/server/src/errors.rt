//! The errors of a server's start, and of its end.
ghost use Rattle.std.specs.Prelude.{◌≡◌};
ghost use Rattle.server.specs.declared.errors.ServerError.TheVariants.{Memory};

use std::alloc::AllocError;
use thiserror::Error;

/// The errors of a server's start. None of its threads is left.
#[derive(Clone, Copy, Debug, PartialEq, Eq, Error)]
pub enum ServerError {
    /// The system gave no thread.
    #[error("no thread")]
    NoThread,
    /// An allocation failed.
    #[error("out of memory")]
    Memory,
}

impl From<AllocError> for ServerError {
    ghost from_gives = { λ _ e. e ≡ Memory };

    fn from(_: AllocError) -> ServerError {
        ServerError::Memory
    }
}

/// The errors of closing the node of a server whose threads have ended. The node is dropped.
#[derive(Clone, Copy, Debug, PartialEq, Eq, Error)]
pub enum EndError {
    /// A handle has another node's name.
    #[error("foreign pass")]
    ForeignPass,
    /// There are fewer handles than were made.
    #[error("missing pass")]
    MissingPass,
    /// Another owner still holds the server.
    #[error("a node is still held")]
    StillHeld,
    /// An allocation failed.
    #[error("out of memory")]
    Memory,
}
