//! The errors of links, of handlers and of this crate's calls.
ghost use Rattle.std.specs.Prelude.{◌≡◌};
ghost use Rattle.peer_core.specs.Errors.{error_of_forward, error_of_lock, error_of_node};

use forward_core::ForwardError;
use message_core::WireError;
use node_core::{ConfigField, NodeError};
use std::fmt;
use thiserror::Error;
use turn_lock::LockError;

/// The errors of a link.
#[derive(Clone, Copy, Debug, PartialEq, Eq, Error)]
pub enum LinkError {
    /// Connecting, sending or receiving failed.
    Io,
    /// The other side ended without an answer, or is no longer there.
    Closed,
    /// The bytes received are not a message, or the message to send has no line.
    Wire(WireError),
    /// The link has counted as many failures as it can, and sends nothing more.
    Spent,
    /// Out of memory.
    Memory,
}

impl fmt::Display for LinkError {
    fn fmt<W: fmt::Write>(&self, f: &mut fmt::Formatter<W>) -> fmt::Result {
        let text = match self {
            LinkError::Io => "the link failed",
            LinkError::Closed => "the link is closed",
            LinkError::Wire(error) => return write!(f, "{error}"),
            LinkError::Spent => "the link is spent",
            LinkError::Memory => "out of memory",
        };
        f.write_str(text)
    }
}

/// The errors of a handler.
#[derive(Clone, Copy, Debug, PartialEq, Eq, Error)]
pub enum HandlerFault {
    /// The request was not done.
    #[error("the handler failed")]
    Failed,
    /// Out of memory.
    #[error("out of memory")]
    Memory,
}

/// The errors of this crate's calls. The effect of a call before its error stays.
#[derive(Clone, Copy, Debug, PartialEq, Eq, Error)]
pub enum ClusterError {
    /// No node of the cluster has the address.
    NoNode,
    /// No host answered that the node has joined.
    NoneJoined,
    /// Two of the keys of a request have different owners.
    Diverged,
    /// No member serves, so no key has an owner.
    Nobody,
    /// The last send that the schedule allows has failed.
    RetriesSpent,
    /// A send is on its way, and has not been noted as failed.
    InFlight,
    /// No send is in flight.
    NotInFlight,
    /// The handler failed.
    HandlerFault,
    /// The pass has the name of another node.
    ForeignPass,
    /// The pass has made as many calls as it may.
    PassSpent,
    /// The first field of a configuration that is out of its range.
    BadConfig(ConfigField),
    /// No incarnation is left for the entry that the node would have to assert.
    Exhausted,
    /// An address is unknown, and as many members are held as may be.
    Full,
    /// The node has left already.
    AlreadyLeft,
    /// The node has not left.
    NotLeft,
    /// A probe is running.
    Busy,
    /// No probe number is left.
    Spent,
    /// The probe is not the running one, or its helpers were asked already.
    StaleProbe,
    /// The helper was not asked, or has answered.
    NotAsked,
    /// Out of memory.
    Memory,
}

impl fmt::Display for ClusterError {
    fn fmt<W: fmt::Write>(&self, f: &mut fmt::Formatter<W>) -> fmt::Result {
        let text = match self {
            ClusterError::NoNode => "no node has the address",
            ClusterError::NoneJoined => "no host joined",
            ClusterError::Diverged => "the keys have different owners",
            ClusterError::Nobody => "nobody serves",
            ClusterError::RetriesSpent => "no retry is left",
            ClusterError::InFlight => "a send is in flight",
            ClusterError::NotInFlight => "no send is in flight",
            ClusterError::HandlerFault => "the handler failed",
            ClusterError::ForeignPass => "foreign pass",
            ClusterError::PassSpent => "pass spent",
            ClusterError::BadConfig(field) => return write!(f, "bad configuration: {field}"),
            ClusterError::Exhausted => "no incarnation is left",
            ClusterError::Full => "too many members",
            ClusterError::AlreadyLeft => "the node has left already",
            ClusterError::NotLeft => "the node has not left",
            ClusterError::Busy => "a probe is running",
            ClusterError::Spent => "no probe number is left",
            ClusterError::StaleProbe => "the probe does not run",
            ClusterError::NotAsked => "the helper was not asked",
            ClusterError::Memory => "out of memory",
        };
        f.write_str(text)
    }
}

impl From<LockError> for ClusterError {
    ghost from_gives = { λ refused e. e ≡ error_of_lock refused };

    fn from(refused: LockError) -> ClusterError {
        match refused {
            LockError::ForeignPass => ClusterError::ForeignPass,
            LockError::PassSpent => ClusterError::PassSpent,
        }
    }
}

impl From<NodeError> for ClusterError {
    ghost from_gives = { λ refused e. e ≡ error_of_node refused };

    fn from(refused: NodeError) -> ClusterError {
        match refused {
            NodeError::BadConfig(field) => ClusterError::BadConfig(field),
            NodeError::Exhausted => ClusterError::Exhausted,
            NodeError::Full => ClusterError::Full,
            NodeError::AlreadyLeft => ClusterError::AlreadyLeft,
            NodeError::NotLeft => ClusterError::NotLeft,
            NodeError::Busy => ClusterError::Busy,
            NodeError::Spent => ClusterError::Spent,
            NodeError::StaleProbe => ClusterError::StaleProbe,
            NodeError::NotAsked => ClusterError::NotAsked,
            NodeError::Memory => ClusterError::Memory,
        }
    }
}

impl From<ForwardError> for ClusterError {
    ghost from_gives = { λ refused e. e ≡ error_of_forward refused };

    fn from(refused: ForwardError) -> ClusterError {
        match refused {
            ForwardError::Diverged => ClusterError::Diverged,
            ForwardError::Nobody => ClusterError::Nobody,
            ForwardError::RetriesSpent => ClusterError::RetriesSpent,
            ForwardError::InFlight => ClusterError::InFlight,
            ForwardError::NotInFlight => ClusterError::NotInFlight,
        }
    }
}
