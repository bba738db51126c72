//! Meetings with other members, outside of rounds and whatever status they have.
ghost use Rattle.std.specs.Prelude.{◌≡◌, ◌==◌, ◌&&◌, not, [], ◌∷◌};
ghost use Rattle.std.specs.List.{list_any};
ghost use Rattle.locked_node.specs.Passes.{Fits};
ghost use Rattle.peer_core.specs.Exchanges.{Sent};
ghost use Rattle.peer_core.specs.Meeting.{Corrects, CorrectsIf, Meets, TakesAndCorrects, differs_from, is_misnamed, misnames};
ghost use Rattle.peer_core.specs.Parts.{Does};

use crate::asking::Peers;
use crate::errors::ClusterError;
use crate::hearing::Heard;
use crate::joining::{join_host, take_joined};
use crate::links::Link;
use crate::probing::ping_target;
use crate::steps::find_own;
use change_core::{Address, Change, Moment, Sourced};
use hash_ring::PointHash;
use locked_node::{LockedNode, NodePass};
use message_core::Content;
use std::sync::Wait;

/// Returns whether a change gives the node of this entry another incarnation or status.
fn differs_from(own: &Change, change: &Change) -> bool
    ensures { result ≡ differs_from own.now change.now }
{
    change.address == own.address
        && !(change.incarnation == own.incarnation && change.status.rank() == own.status.rank())
}

/// Returns whether one of these changes does.
fn any_differs(own: &Change, changes: &[Sourced]) -> bool
    ensures { result ≡ list_any (λ s. differs_from own.now s.change) changes.now }
{
    changes
        .iter()
        .any(|sourced| differs_from(own, &sourced.change))
}

/// Returns whether an Ack has such a change.
fn misnames(own: &Change, content: &Content) -> bool
    ensures { result ≡ misnames own.now content.now }
{
    match content {
        Content::Ack(news) => any_differs(own, news.changes.as_slice()),
        _ => false,
    }
}

/// Returns whether an answer is such an Ack.
fn is_misnamed(own: &Change, heard: &Heard) -> bool
    ensures { result ≡ is_misnamed own.now heard.now }
{
    match heard {
        Heard::Answer(message) => misnames(own, &message.content),
        Heard::Other | Heard::OutOfMemory => false,
    }
}

/// Sends a member a Join if its Ack had another incarnation or status of the node.
fn correct_if<R: Wait, H: PointHash, L: Link>(
    node: &LockedNode<H>,
    pass: &mut NodePass<H>,
    peers: &mut Peers<'_, R, L>,
    now: Moment,
    member: Address,
    is_misnamed: bool,
) -> Result<bool, ClusterError>
    requires { Fits node.now pass.old }
    ensures did { Does node.now (CorrectsIf L.may_answer now is_misnamed member) result pass.old pass.new }
    ensures sent { Sent L.went node.now (member ∷ []) pass.old pass.new peers.old.link peers.new.link }
    ensures fits { Fits node.now pass.new }
{
    if is_misnamed {
        join_host(node, pass, peers, now, member)
    } else {
        Ok(false)
    }
}

/// Sends a member a Join if its answer has another incarnation or status of the node than the node's own entry.
pub(crate) fn correct<R: Wait, H: PointHash, L: Link>(
    node: &LockedNode<H>,
    pass: &mut NodePass<H>,
    peers: &mut Peers<'_, R, L>,
    now: Moment,
    member: Address,
    heard: &Heard,
) -> Result<bool, ClusterError>
    requires { Fits node.now pass.old }
    ensures did { Does node.now (Corrects L.may_answer now member heard.now) result pass.old pass.new }
    ensures sent { Sent L.went node.now (member ∷ []) pass.old pass.new peers.old.link peers.new.link }
    ensures fits { Fits node.now pass.new }
{
    let own = find_own(peers.rt, node, pass)?;
    correct_if(node, pass, peers, now, member, is_misnamed(&own, heard))
}

/// Processes the answer of a member, and corrects the member.
fn take_and_correct<R: Wait, H: PointHash, L: Link>(
    node: &LockedNode<H>,
    pass: &mut NodePass<H>,
    peers: &mut Peers<'_, R, L>,
    now: Moment,
    member: Address,
    heard: &Heard,
) -> Result<bool, ClusterError>
    requires { Fits node.now pass.old }
    ensures did { Does node.now (TakesAndCorrects L.may_answer now member heard.now) result pass.old pass.new }
    ensures sent { Sent L.went node.now (member ∷ []) pass.old pass.new peers.old.link peers.new.link }
    ensures fits { Fits node.now pass.new }
{
    take_joined(peers.rt, node, pass, now, heard)?;
    correct(node, pass, peers, now, member, heard)
}

/// Pings a member, whatever its status, and processes its Ack. If that has another incarnation or status of the node than
/// its own entry, the member gets a Join, and its Joined is processed. No probe starts or ends. Returns whether the member
/// answered by a Joined.
pub(crate) fn meet<R: Wait, H: PointHash, L: Link>(
    node: &LockedNode<H>,
    pass: &mut NodePass<H>,
    peers: &mut Peers<'_, R, L>,
    now: Moment,
    member: Address,
) -> Result<bool, ClusterError>
    requires { Fits node.now pass.old }
    ensures did { Does node.now (Meets L.may_answer now member) result pass.old pass.new }
    ensures sent { Sent L.went node.now (member ∷ []) pass.old pass.new peers.old.link peers.new.link }
    ensures fits { Fits node.now pass.new }
{
    let heard = ping_target(node, pass, peers, member)?;
    take_and_correct(node, pass, peers, now, member, &heard)
}
