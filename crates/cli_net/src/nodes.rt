//! The node of a server, and its passes.
ghost use Rattle.std.specs.Prelude.{◌≡◌, ◌≢◌, ◌⊎◌, ◌<◌, ◌^◌, ◌++◌, ◌∷◌, [], Some, None, Err, length, IfOk, IfErr, IsOk, IsOkUnless, MatchResult};
ghost use Rattle.std.specs.List.{All};
ghost use Rattle.locked_node.specs.Passes.{AreAll, AreFresh, Fits, opening_of};
ghost use Rattle.cli_net.specs.Service.{IsCreated, IsJoinedTo, join_fault};

use crate::faults::ServeError;
use change_core::{Address, Moment};
use cli_core::ServeWords;
use hash_ring::PointHash;
use locked_node::{LockedNode, NodePass};
use node_core::{Config, NodeError, NodeState};
use peer_core::{ClusterError, Link, join};
use std::alloc::Global;
use std::sync::Wait;

/// Makes the node of the arguments.
fn node_of<H: PointHash>(
    alloc: Global,
    hash: H,
    words: &ServeWords,
) -> Result<NodeState<H>, ServeError>
    ensures created { IfOk result (IsCreated H.hash_of hash words.now) }
    ensures refusal { IsOkUnless result ServeError.OutOfMemory }
{
    let mut config = Config::standard();
    config.replicas = words.replicas;
    config.weight = words.weight;
    config.per_message = words.per_message;
    config.piggyback = words.piggyback;
    let seed = words.incarnation.number();
    let made = NodeState::new(
        alloc,
        config,
        hash,
        words.address,
        words.incarnation,
        seed,
        Moment::beginning(),
    );
    match made {
        Ok(node) => Ok(node),
        Err(NodeError::Memory) => Err(ServeError::OutOfMemory),
        Err(_) => unreachable!(),
    }
}

/// Makes the node of the arguments, shared: with the pass of its rounds, and those of its workers before it.
///
/// # Errors
///
/// - `OutOfMemory`: out of memory.
pub fn shared_node<H: PointHash>(
    alloc: Global,
    hash: H,
    words: &ServeWords,
) -> Result<(LockedNode<H>, NodePass<H>, Vec<NodePass<H>>), ServeError>
    ensures created { IfOk result (λ r. IsCreated H.hash_of hash words.now (opening_of r.0)) }
    ensures fits { IfOk result (λ r. Fits r.0 r.1 × All (Fits r.0) r.2.items) }
    ensures count { IfOk result (λ r. length r.2.items ≡ words.now.workers) }
    ensures all { IfOk result (λ r. AreAll r.0 (r.2.items ++ r.1 ∷ [])) }
    ensures fresh { IfOk result (λ r. AreFresh r.0 (r.2.items ++ r.1 ∷ [])) }
    ensures refusal { IsOkUnless result ServeError.OutOfMemory }
{
    let node = node_of(alloc, hash, words)?;
    match LockedNode::share(alloc, node, words.workers) {
        Ok(shared) => Ok(shared),
        Err(_) => Err(ServeError::OutOfMemory),
    }
}

/// Returns a server's error for an error of its join.
fn fault_of(error: ClusterError) -> ServeError
    ensures is { Some result ≡ join_fault (Err error) }
    ensures named { (result ≡ ServeError.NoneJoined) ⊎ (result ≡ ServeError.OutOfMemory) }
{
    match error {
        ClusterError::Memory => ServeError::OutOfMemory,
        _ => ServeError::NoneJoined,
    }
}

/// Joins the hosts in their order at a moment, if there are any.
///
/// # Errors
///
/// - `OutOfMemory`: out of memory, here or in the link.
/// - `NoneJoined`: none of them admitted the node.
pub fn join_hosts<R: Wait, H: PointHash, L: Link>(
    rt: &R,
    alloc: Global,
    node: &LockedNode<H>,
    pass: &mut NodePass<H>,
    link: &mut L,
    hosts: &[Address],
    now: Moment,
) -> Result<(), ServeError>
    requires fits { Fits node.now pass.old }
    requires few { length hosts.now < 2 ^ 32 }
    ensures alone { hosts.now ≡ [] → IsOk result × (pass.new ≡ pass.old) }
    ensures joined { hosts.now ≢ [] → MatchResult result
        (λ _. IsJoinedTo L.may_answer node.now hosts.now now None pass.old pass.new)
        (λ e. IsJoinedTo L.may_answer node.now hosts.now now (Some e) pass.old pass.new) }
    ensures named { IfErr result (λ e. (e ≡ ServeError.NoneJoined) ⊎ (e ≡ ServeError.OutOfMemory)) }
    ensures fits { Fits node.now pass.new }
{
    if hosts.is_empty() {
        return Ok(());
    }
    match join(rt, alloc, node, pass, link, hosts, now) {
        Ok(_) => Ok(()),
        Err(error) => Err(fault_of(error)),
    }
}
