//! The errors of a node's calls.
ghost use Rattle.std.specs.Prelude.{◌≡◌};
ghost use Rattle.node_core.specs.declared.errors.NodeError.TheVariants.{Memory as want_of_memory};
ghost use Rattle.node_core.specs.Errors.{error_of_members, error_of_ring, error_of_gossip, error_of_detector};

use crate::configs::ConfigField;
use detector_core::DetectorError;
use gossip_core::GossipError;
use hash_ring::RingError;
use member_core::MemberError;
use std::alloc::AllocError;
use std::fmt;
use thiserror::Error;

/// The errors of a node's calls.
#[derive(Clone, Copy, Debug, PartialEq, Eq, Error)]
pub enum NodeError {
    /// The first field of the configuration that is out of its range.
    BadConfig(ConfigField),
    /// No incarnation is left for what the node would have to assert.
    Exhausted,
    /// The address is unknown, and as many members are held as may be.
    Full,
    /// The node has left already.
    AlreadyLeft,
    /// The node has not left.
    NotLeft,
    /// A probe is running.
    Busy,
    /// No probe number is left.
    Spent,
    /// The probe is not the running one, or its helpers were asked already.
    StaleProbe,
    /// The helper was not asked, or has answered.
    NotAsked,
    /// Out of memory.
    Memory,
}

impl fmt::Display for NodeError {
    fn fmt<W: fmt::Write>(&self, f: &mut fmt::Formatter<W>) -> fmt::Result {
        let text = match self {
            NodeError::BadConfig(field) => return write!(f, "bad configuration: {field}"),
            NodeError::Exhausted => "no incarnation is left",
            NodeError::Full => "too many members",
            NodeError::AlreadyLeft => "the node has left already",
            NodeError::NotLeft => "the node has not left",
            NodeError::Busy => "a probe is running",
            NodeError::Spent => "no probe number is left",
            NodeError::StaleProbe => "the probe does not run",
            NodeError::NotAsked => "the helper was not asked",
            NodeError::Memory => "out of memory",
        };
        f.write_str(text)
    }
}

impl From<AllocError> for NodeError {
    ghost from_gives = { λ _ e. e ≡ want_of_memory };

    fn from(_refused: AllocError) -> NodeError {
        NodeError::Memory
    }
}

impl From<MemberError> for NodeError {
    ghost from_gives = { λ refused e. e ≡ error_of_members refused };

    fn from(refused: MemberError) -> NodeError {
        match refused {
            MemberError::BadLimit => NodeError::BadConfig(ConfigField::MaxMembers),
            MemberError::Full => NodeError::Full,
            MemberError::Memory => NodeError::Memory,
        }
    }
}

impl From<RingError> for NodeError {
    ghost from_gives = { λ refused e. e ≡ error_of_ring refused };

    fn from(refused: RingError) -> NodeError {
        match refused {
            RingError::BadReplicas => NodeError::BadConfig(ConfigField::Replicas),
            RingError::Memory => NodeError::Memory,
        }
    }
}

impl From<GossipError> for NodeError {
    ghost from_gives = { λ refused e. e ≡ error_of_gossip refused };

    fn from(refused: GossipError) -> NodeError {
        match refused {
            GossipError::BadFactor => NodeError::BadConfig(ConfigField::Piggyback),
            GossipError::Memory => NodeError::Memory,
        }
    }
}

impl From<DetectorError> for NodeError {
    ghost from_gives = { λ refused e. e ≡ error_of_detector refused };

    fn from(refused: DetectorError) -> NodeError {
        match refused {
            DetectorError::Busy => NodeError::Busy,
            DetectorError::Spent => NodeError::Spent,
            DetectorError::StaleProbe => NodeError::StaleProbe,
            DetectorError::NotAsked => NodeError::NotAsked,
            DetectorError::Memory => NodeError::Memory,
        }
    }
}
