//! Joins of a node with others.
ghost use Rattle.std.specs.Prelude.{◌≡◌, ◌+◌, ◌-◌, ◌<◌, ◌^◌, [], ◌∷◌, length, IfErr};
ghost use Rattle.locked_node.specs.Passes.{Fits};
ghost use Rattle.node_core.specs.Log.{one_if};
ghost use Rattle.peer_core.specs.Acts.{Makes};
ghost use Rattle.peer_core.specs.Asking.{Applied};
ghost use Rattle.peer_core.specs.Errors.{IsJoinRefusal};
ghost use Rattle.peer_core.specs.Exchanges.{Sent, SendsTo};
ghost use Rattle.peer_core.specs.Joining.{HearsHost, IsJoin, JoinsHost, JoinsHosts};
ghost use Rattle.peer_core.specs.Parts.{Asks, Does};

use crate::asking::{Peers, send_join};
use crate::errors::ClusterError;
use crate::hearing::Heard;
use crate::links::Link;
use crate::steps::{let_in, take};
use change_core::{Address, Moment};
use hash_ring::PointHash;
use locked_node::{LockedNode, NodePass};
use std::alloc::Global;
use std::sync::Wait;

/// Sends a Join to a host, as a step of a join.
fn ask_to_join<R: Wait, H: PointHash, L: Link>(
    node: &LockedNode<H>,
    pass: &mut NodePass<H>,
    peers: &mut Peers<'_, R, L>,
    host: Address,
) -> Result<Heard, ClusterError>
    requires { Fits node.now pass.old }
    ensures did { Does node.now (Asks (Applied L.may_answer host)) result pass.old pass.new }
    ensures sent { Sent L.went node.now (host ∷ []) pass.old pass.new peers.old.link peers.new.link }
    ensures fits { Fits node.now pass.new }
    ensures named { IfErr result IsJoinRefusal }
{
    let heard = send_join(node, pass, peers, host);
    let_in(heard)
}

/// Processes the answer of a node, if it is the expected one. Returns whether it is.
pub(crate) fn take_joined<R: Wait, H: PointHash>(
    rt: &R,
    node: &LockedNode<H>,
    pass: &mut NodePass<H>,
    now: Moment,
    heard: &Heard,
) -> Result<bool, ClusterError>
    requires { Fits node.now pass.old }
    ensures did { Does node.now (HearsHost now heard.now) result pass.old pass.new }
    ensures fits { Fits node.now pass.new }
    ensures named { IfErr result IsJoinRefusal }
{
    match heard {
        Heard::Answer(joined) => {
            take(rt, node, pass, now, joined)?;
            Ok(true)
        }
        Heard::Other => Ok(false),
        Heard::OutOfMemory => Err(ClusterError::Memory),
    }
}

/// Sends a Join to one host and takes its Joined. Whether there was one.
pub(crate) fn join_host<R: Wait, H: PointHash, L: Link>(
    node: &LockedNode<H>,
    pass: &mut NodePass<H>,
    peers: &mut Peers<'_, R, L>,
    now: Moment,
    host: Address,
) -> Result<bool, ClusterError>
    requires { Fits node.now pass.old }
    ensures did { Does node.now (JoinsHost L.may_answer now host) result pass.old pass.new }
    ensures sent { Sent L.went node.now (host ∷ []) pass.old pass.new peers.old.link peers.new.link }
    ensures fits { Fits node.now pass.new }
    ensures named { IfErr result IsJoinRefusal }
{
    let heard = ask_to_join(node, pass, peers, host)?;
    take_joined(peers.rt, node, pass, now, &heard)
}

fn counted(count: u32, joined: bool) -> u32
    requires { count < 2 ^ 32 - 1 }
    ensures { result ≡ count + one_if joined }
{
    if joined { count + 1 } else { count }
}

/// Sends a Join to each host in turn. How many answered by a Joined.
fn join_all<R: Wait, H: PointHash, L: Link>(
    node: &LockedNode<H>,
    pass: &mut NodePass<H>,
    peers: &mut Peers<'_, R, L>,
    now: Moment,
    hosts: &[Address],
) -> Result<u32, ClusterError>
    requires fits { Fits node.now pass.old }
    requires few { length hosts.now < 2 ^ 32 }
    ensures did { Does node.now (JoinsHosts L.may_answer now 0 hosts.now) result pass.old pass.new }
    ensures sent { Sent L.went node.now hosts.now pass.old pass.new peers.old.link peers.new.link }
    ensures fits { Fits node.now pass.new }
    ensures named { IfErr result IsJoinRefusal }
{
    let mut count = 0u32;
    for host in hosts {
        let joined = join_host(node, pass, peers, now, *host)?;
        count = counted(count, joined);
    }
    Ok(count)
}

/// Sends a Join to each host, fewer than 2^32, in their order, and processes each Joined at a moment. Returns how many
/// hosts answered by a Joined; an error in processing one changes nothing of that.
///
/// # Errors
///
/// The effect of the calls before stays.
///
/// - `ForeignPass`: the pass has another node's name.
/// - `PassSpent`: the pass has made all its calls.
/// - `Memory`: out of memory, here or in the link.
/// - `NoneJoined`: no host answered by a Joined.
pub fn join<R: Wait, H: PointHash, L: Link>(
    rt: &R,
    alloc: Global,
    node: &LockedNode<H>,
    pass: &mut NodePass<H>,
    link: &mut L,
    hosts: &[Address],
    now: Moment,
) -> Result<u32, ClusterError>
    requires fits { Fits node.now pass.old }
    requires few { length hosts.now < 2 ^ 32 }
    ensures joined { Does node.now (IsJoin L.may_answer now hosts.now) result pass.old pass.new }
    ensures sent { Makes node.now (SendsTo L.went hosts.now link.old link.new) pass.old pass.new }
    ensures fits { Fits node.now pass.new }
    ensures named { IfErr result IsJoinRefusal }
{
    let mut peers = Peers::new(rt, alloc, link);
    let count = join_all(node, pass, &mut peers, now, hosts)?;
    if count == 0 {
        return Err(ClusterError::NoneJoined);
    }
    Ok(count)
}
