//! The node as the lock keeps it.
use hash_ring::PointHash;
use node_core::NodeState;
use std::convert::Infallible;
use std::marker::{Model, PhantomData};
use turn_lock::Kept;

/// The node that a lock keeps.
#[derive(Drop)]
pub struct Held<H: PointHash> {
    pub(crate) node: NodeState<H>,
}

/// One call of the node, its reply, and the node after it, in contracts alone. No value of it is made.
pub struct NodeCall<H: PointHash> {
    never: Infallible,
    hash: PhantomData<H>,
}

impl<H: PointHash> Model for NodeCall<H> {
    ghost use Rattle.locked_node.specs.History.{CallEntry};

    ghost Value = { CallEntry H };

    ghost view = { λ a. elim a.never [ ] };
}

impl<H: PointHash> Kept for Held<H> {
    ghost use Rattle.locked_node.specs.History.{StandsFor};

    type Entry = NodeCall<H>;

    ghost stands_for = { λ opening history now. StandsFor H.hash_of opening.node history now.node };
}
