//! Rounds of gossip that tell their target what the node is, if it holds the node as something else.
ghost use Rattle.std.specs.Prelude.{[], ◌∷◌, IfErr};
ghost use Rattle.locked_node.specs.Passes.{Fits};
ghost use Rattle.peer_core.specs.Acts.{Makes};
ghost use Rattle.peer_core.specs.Correcting.{CorrectsAfter, HearsAndCorrects, IsCorrectingRound, ProbesAndCorrects};
ghost use Rattle.peer_core.specs.Errors.{IsRoundRefusal};
ghost use Rattle.peer_core.specs.Exchanges.{Sent, SentAs, SendsToPinged};
ghost use Rattle.peer_core.specs.Parts.{Does};

use crate::asking::Peers;
use crate::errors::ClusterError;
use crate::gossiping::{expire_all, start_probe};
use crate::hearing::Heard;
use crate::links::Link;
use crate::meeting::correct;
use crate::probing::{hear_target, ping_target};
use crate::rounds::Round;
use change_core::{Address, Moment};
use detector_core::Probe;
use hash_ring::PointHash;
use locked_node::{LockedNode, NodePass};
use std::alloc::Global;
use std::sync::Wait;

/// Corrects the target of a round that has ended, and returns how the round ended.
fn correct_after<R: Wait, H: PointHash, L: Link>(
    node: &LockedNode<H>,
    pass: &mut NodePass<H>,
    peers: &mut Peers<'_, R, L>,
    now: Moment,
    target: Address,
    heard: &Heard,
    round: Round,
) -> Result<Round, ClusterError>
    requires { Fits node.now pass.old }
    ensures did { Does node.now (CorrectsAfter L.may_answer now target heard.now round) result pass.old pass.new }
    ensures sent { Sent L.went node.now (target ∷ []) pass.old pass.new peers.old.link peers.new.link }
    ensures fits { Fits node.now pass.new }
    ensures named { IfErr result IsRoundRefusal }
{
    correct(node, pass, peers, now, target, heard)?;
    Ok(round)
}

/// Completes a probe by what was heard of its target, and corrects the target.
fn hear_and_correct<R: Wait, H: PointHash, L: Link>(
    node: &LockedNode<H>,
    pass: &mut NodePass<H>,
    peers: &mut Peers<'_, R, L>,
    now: Moment,
    probe: &Probe,
    heard: &Heard,
) -> Result<Round, ClusterError>
    requires { Fits node.now pass.old }
    ensures did { Does node.now (HearsAndCorrects L.may_answer now probe.now heard.now) result pass.old pass.new }
    ensures sent { Sent L.went node.now (probe.now.target ∷ []) pass.old pass.new peers.old.link peers.new.link }
    ensures fits { Fits node.now pass.new }
    ensures named { IfErr result IsRoundRefusal }
{
    let round = hear_target(node, pass, peers, now, probe, heard)?;
    correct_after(node, pass, peers, now, probe.target, heard, round)
}

/// Pings the target of a running probe, completes the probe, and corrects the target.
fn probe_and_correct<R: Wait, H: PointHash, L: Link>(
    node: &LockedNode<H>,
    pass: &mut NodePass<H>,
    peers: &mut Peers<'_, R, L>,
    now: Moment,
    probe: &Probe,
) -> Result<Round, ClusterError>
    requires { Fits node.now pass.old }
    ensures did { Does node.now (ProbesAndCorrects L.may_answer now probe.now) result pass.old pass.new }
    ensures sent { SentAs (SendsToPinged L.went) node.now pass.old pass.new peers.old.link peers.new.link }
    ensures fits { Fits node.now pass.new }
    ensures named { IfErr result IsRoundRefusal }
{
    let heard = ping_target(node, pass, peers, probe.target)?;
    hear_and_correct(node, pass, peers, now, probe, &heard)
}

/// Makes one round of gossip at a moment, as [`gossip_round`](crate::gossip_round) does, and corrects its target: if the
/// target's Ack has another incarnation or status of the node than the node's own entry after the round, the target gets
/// a Join, whose one change is that entry, and its Joined is processed. So members that hold a node wrongly, because it was
/// paused or cut off, learn of it when it pings them. If the Ack has no such change, the round sends the same messages as
/// `gossip_round`. Returns how the round ended.
///
/// # Errors
///
/// The effect of the calls before stays.
///
/// - `ForeignPass`: the pass has another node's name.
/// - `PassSpent`: the pass has made all its calls.
/// - `Memory`: out of memory, here or in the link.
/// - `Busy`: a probe still runs after the one that ran was completed.
/// - `Spent`: no probe number is left.
/// - `StaleProbe`, `NotAsked`: another pass ended the probe, or answered for its helper, in the meantime.
pub fn correcting_round<R: Wait, H: PointHash, L: Link>(
    rt: &R,
    alloc: Global,
    node: &LockedNode<H>,
    pass: &mut NodePass<H>,
    link: &mut L,
    now: Moment,
) -> Result<Round, ClusterError>
    requires { Fits node.now pass.old }
    ensures round { Does node.now (IsCorrectingRound L.may_answer now) result pass.old pass.new }
    ensures sent { Makes node.now (SendsToPinged L.went link.old link.new) pass.old pass.new }
    ensures fits { Fits node.now pass.new }
    ensures named { IfErr result IsRoundRefusal }
{
    let mut peers = Peers::new(rt, alloc, link);
    expire_all(rt, node, pass, now)?;
    let probe = start_probe(node, pass, &mut peers, now)?;
    match probe {
        None => Ok(Round::Idle),
        Some(probe) => probe_and_correct(node, pass, &mut peers, now, &probe),
    }
}
