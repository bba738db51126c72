//! The errors of a lock.
use crate::kept::Kept;
use crate::lock::TurnLock;
use crate::pass::Pass;
use std::alloc::AllocError;
use thiserror::Error;

/// The errors of entering a lock.
#[derive(Clone, Copy, Debug, PartialEq, Eq, Error)]
pub enum LockError {
    /// The pass has the name of another lock.
    #[error("foreign pass")]
    ForeignPass,
    /// The pass has entered as often as it may.
    #[error("pass spent")]
    PassSpent,
}

/// The errors of making a lock.
#[derive(Debug, Drop, Error)]
pub enum NewError<S> {
    /// There is no pass, or more than `MAX_PASSES`, or no turn. The state is returned.
    #[error("bad count")]
    BadCount(S),
    /// Out of memory. The state is dropped.
    #[error("out of memory")]
    Memory,
}

impl<S> From<AllocError> for NewError<S> {
    ghost use Rattle.std.specs.Prelude.{◌≡◌};
    ghost use Rattle.turn_lock.specs.declared.errors.NewError.TheVariants.{Memory};

    ghost from_gives = { λ _ e. e ≡ Memory };

    fn from(_: AllocError) -> NewError<S> {
        NewError::Memory
    }
}

/// The errors of closing a lock.
#[derive(Clone, Copy, Debug, PartialEq, Eq, Error)]
pub enum CloseError {
    /// Some pass has the name of another lock.
    #[error("foreign pass")]
    ForeignPass,
    /// There are fewer passes than were made.
    #[error("missing pass")]
    MissingPass,
}

/// A lock that was not closed, with the passes that were given.
#[derive(Debug, Drop, Error)]
#[error("{cause}")]
pub struct CloseRefused<S: Kept> {
    pub lock: TurnLock<S>,
    pub passes: Vec<Pass<S>>,
    pub cause: CloseError,
}
