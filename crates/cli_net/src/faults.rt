//! The errors of commands.
ghost use Rattle.std.specs.Prelude.{◌≡◌};
ghost use Rattle.cli_net.specs.declared.faults.AskError.TheVariants as ask;
ghost use Rattle.cli_net.specs.declared.faults.ServeError.TheVariants as serve;
ghost use Rattle.cli_net.specs.declared.faults.TellError.TheVariants as tell;

use cli_core::LineError;
use message_core::Reason;
use std::alloc::AllocError;
use thiserror::Error;

/// The error of a question to a running node.
#[derive(Clone, Copy, Debug, PartialEq, Eq, Error)]
pub enum AskError {
    /// Nothing came that is a message.
    #[error("no answer")]
    NoAnswer,
    /// The node does not own the key.
    #[error("not owner")]
    NotOwner,
    /// The node refused the question.
    #[error("refused {}", .0.word())]
    Refused(Reason),
    /// A message came that answers another question.
    #[error("unexpected answer")]
    Unexpected,
    /// The writer failed.
    #[error("cannot write")]
    CannotWrite,
    /// Out of memory.
    #[error("out of memory")]
    OutOfMemory,
}

impl From<AllocError> for AskError {
    ghost from_gives = { λ _ f. f ≡ ask.OutOfMemory };

    fn from(_refused: AllocError) -> AskError {
        AskError::OutOfMemory
    }
}

/// The errors of a server.
#[derive(Clone, Copy, Debug, PartialEq, Eq, Error)]
pub enum ServeError {
    /// Hosts were named, and none of them admitted the node.
    #[error("no host joined")]
    NoneJoined,
    /// The address can't be listened at.
    #[error("cannot listen")]
    CannotListen,
    /// A thread was refused.
    #[error("no thread")]
    NoThread,
    /// The node is still held after all threads have ended. No run meets it.
    #[error("a node is still held")]
    StillHeld,
    /// Another number of connections than asked for was served when all threads have ended. No run meets it.
    #[error("connections miscounted")]
    Miscounted,
    /// The writer failed.
    #[error("cannot write")]
    CannotWrite,
    /// Out of memory.
    #[error("out of memory")]
    OutOfMemory,
}

/// The errors of passing changes to a node and writing how many members it then holds.
#[derive(Clone, Copy, Debug, PartialEq, Eq, Error)]
pub enum TellError {
    /// The line with this number, from 1 to 4,097, has an error: the node was not asked.
    #[error("line {0}: {1}")]
    AtLine(u64, LineError),
    /// Line 4,097 is a change, and a message has at most 4,096: the node was not asked.
    #[error("line 4097: too many changes")]
    TooManyChanges,
    /// The node was asked to process the changes, or was to be.
    #[error("{0}")]
    Asked(AskError),
}

impl From<AskError> for TellError {
    ghost from_gives = { λ e f. f ≡ tell.Asked e };

    fn from(fault: AskError) -> TellError {
        TellError::Asked(fault)
    }
}

impl From<AllocError> for ServeError {
    ghost from_gives = { λ _ f. f ≡ serve.OutOfMemory };

    fn from(_refused: AllocError) -> ServeError {
        ServeError::OutOfMemory
    }
}
