//! The replies of a run of calls.
ghost use Rattle.std.specs.Prelude.{◌≡◌};

use crate::events::Reply;
use crate::node::NodeState;
use hash_ring::PointHash;
use std::marker::Model;
use thiserror::Error;

/// Replies, in the order of their calls. Contracts see the list.
#[derive(Debug, Drop)]
pub struct Replies {
    replies: Vec<Reply>,
}

impl Model for Replies {
    ghost use Rattle.std.specs.Prelude.{List};
    ghost use Rattle.node_core.specs.declared.events.Reply.{Reply};

    ghost Value = { List Reply };

    ghost view = { λ a. a.replies.items };
}

impl Replies {
    /// The list of these replies.
    pub fn from_vec(replies: Vec<Reply>) -> Self
        ensures { result ≡ replies.items }
    {
        Replies { replies }
    }

    /// The replies, in their order.
    pub fn as_slice(&self) -> &[Reply]
        ensures { result.now ≡ self.now }
    {
        self.replies.as_slice()
    }
}

/// A node after a run of calls, and what they answered.
#[derive(Debug, Drop)]
pub struct Run<H: PointHash> {
    pub node: NodeState<H>,
    pub replies: Replies,
}

/// A run without memory for its replies: no call was made, and the node is unchanged.
#[derive(Debug, Drop, Error)]
#[error("out of memory")]
pub struct RunRefused<H: PointHash> {
    pub node: NodeState<H>,
}
