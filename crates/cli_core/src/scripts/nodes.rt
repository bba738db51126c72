//! The nodes of a script, in the order of their making.
ghost use Rattle.std.specs.Prelude.{◌≡◌, ◌<◌, ◌≤◌, ◌⊎◌, None, IfOk, IfErr, IfSome, OnErr};
ghost use Rattle.hash_ring.specs.Points.{IsReplicas};
ghost use Rattle.node_core.specs.Node.{own_change};
ghost use Rattle.cli_core.specs.Simulated.{GoesOn, IsPlace, NodeAnswers, NodeLacks, Pings, Receives, created, node_at, nodes_in, with_node};

use crate::scripts::answers::Answer;
use crate::scripts::asked::ask;
use crate::scripts::faults::ScriptError;
use crate::scripts::lines::{Birth, Question};
use change_core::{Address, Incarnation, Moment};
use hash_ring::PointHash;
use message_core::Message;
use node_core::{Config, NodeState, Received};
use std::alloc::Global;

/// Returns the place of the node of an address.
pub fn place_of<H: PointHash>(nodes: &[NodeState<H>], address: Address) -> Option<usize>
    ensures place { IfSome result (λ i. IsPlace nodes.now address i) }
    ensures none { result ≡ None → node_at (nodes_in nodes.now) address ≡ None }
{
    'nodes: for (place, node) in nodes.iter().enumerate() {
        let own = node.own();
        if own.address == address {
            return Some(place);
        }
    }
    None
}

/// Makes a call of the node of an address, at a moment.
///
/// # Errors
///
/// - `UnknownNode`: there is no node of this address.
/// - `OutOfMemory`: out of memory.
pub fn ask_at<H: PointHash>(
    nodes: &mut Vec<NodeState<H>>,
    address: Address,
    moment: Moment,
    question: &Question<'_>,
) -> Result<Answer, ScriptError>
    ensures answer { IfOk result (λ answer. GoesOn (nodes_in nodes.old.items) address
        (λ before after. NodeAnswers H.hash_of moment before question.now answer after) (nodes_in nodes.new.items)) }
    ensures fault { IfErr result (λ f. (f ≡ ScriptError.OutOfMemory)
        ⊎ ((f ≡ ScriptError.UnknownNode) × (node_at (nodes_in nodes.old.items) address ≡ None))) }
    ensures memory { IfErr result (λ f. f ≡ ScriptError.OutOfMemory → GoesOn (nodes_in nodes.old.items) address
        (λ before after. NodeLacks H.hash_of moment before question.now after) (nodes_in nodes.new.items)) }
{
    let Some(place) = place_of(nodes.as_slice(), address) else {
        return Err(ScriptError::UnknownNode);
    };
    ask(&mut nodes[place], moment, question)
}

/// Makes the ping of the node at a place.
///
/// # Errors
///
/// - `OutOfMemory`: out of memory.
pub fn ping_at<H: PointHash>(
    nodes: &mut Vec<NodeState<H>>,
    place: usize,
    address: Address,
    target: Address,
) -> Result<Message, ScriptError>
    requires { IsPlace nodes.old.items address place }
    ensures message { IfOk result (λ message. GoesOn (nodes_in nodes.old.items) address
        (Pings H.hash_of target message) (nodes_in nodes.new.items)) }
    ensures fault { IfErr result (λ f. f ≡ ScriptError.OutOfMemory) }
{
    match nodes[place].ping_to(target) {
        Ok(message) => Ok(message),
        Err(_) => Err(ScriptError::OutOfMemory),
    }
}

/// The node at a place receives a message.
pub fn receive_at<H: PointHash>(
    nodes: &mut Vec<NodeState<H>>,
    place: usize,
    address: Address,
    message: &Message,
    moment: Moment,
) -> Received
    requires { IsPlace nodes.old.items address place }
    ensures { GoesOn (nodes_in nodes.old.items) address
        (Receives H.hash_of moment message.now result) (nodes_in nodes.new.items) }
{
    nodes[place].receive(message, moment)
}

/// The incarnation that the node at a place holds of itself.
pub fn incarnation_at<H: PointHash>(
    nodes: &[NodeState<H>],
    place: usize,
    address: Address,
) -> Incarnation
    requires { IsPlace nodes.now address place }
    ensures { IfSome (node_at (nodes_in nodes.now) address) (λ n. result ≡ (own_change n).incarnation) }
{
    nodes[place].own().incarnation
}

/// Replaces a node by another.
pub fn put_at<H: PointHash>(
    nodes: &mut Vec<NodeState<H>>,
    place: usize,
    address: Address,
    node: NodeState<H>,
)
    requires { IsPlace nodes.old.items address place }
    ensures { nodes_in nodes.new.items ≡ with_node (nodes_in nodes.old.items) address node.node }
{
    nodes[place] = node;
}

/// Makes a node alone in its cluster, at a moment.
///
/// # Errors
///
/// - `OutOfMemory`: out of memory.
pub fn initial_node<H: PointHash>(
    alloc: Global,
    hash: H,
    replicas: u32,
    moment: Moment,
    birth: &Birth,
) -> Result<NodeState<H>, ScriptError>
    requires { IsReplicas replicas }
    ensures created { IfOk result (λ n. n.node ≡ created hash replicas moment birth.now) }
    ensures fault { IfErr result (λ f. f ≡ ScriptError.OutOfMemory) }
{
    let mut config = Config::standard();
    config.replicas = replicas;
    config.weight = birth.weight;
    match NodeState::new(
        alloc,
        config,
        hash,
        birth.address,
        birth.incarnation,
        0,
        moment,
    ) {
        Ok(node) => Ok(node),
        Err(_) => Err(ScriptError::OutOfMemory),
    }
}
