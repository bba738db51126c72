//! One round of gossip.
ghost use Rattle.std.specs.Prelude.{◌≡◌, [], IfErr};
ghost use Rattle.locked_node.specs.Passes.{Fits};
ghost use Rattle.peer_core.specs.Acts.{Makes};
ghost use Rattle.peer_core.specs.Errors.{IsRoundRefusal};
ghost use Rattle.peer_core.specs.Exchanges.{Sent, SendsTo};
ghost use Rattle.peer_core.specs.Parts.{Does};
ghost use Rattle.peer_core.specs.Rounds.{Begins, BeginsAgain, Expires, FailsFrom, FailsOne, Finishes, IsRound, waited_for};

use crate::asking::Peers;
use crate::errors::ClusterError;
use crate::links::Link;
use crate::probing::run_probe;
use crate::rounds::Round;
use crate::steps::{ask_for_probe, begin_probe, expire, find_running, tell_word};
use change_core::{Address, Moment};
use detector_core::{Probe, Running, Said};
use hash_ring::PointHash;
use locked_node::{LockedNode, NodePass};
use node_core::{NodeError, NodeOutcome};
use std::alloc::Global;
use std::sync::Wait;

/// Brings every entry that is due to its next status.
pub(crate) fn expire_all<R: Wait, H: PointHash>(
    rt: &R,
    node: &LockedNode<H>,
    pass: &mut NodePass<H>,
    now: Moment,
) -> Result<(), ClusterError>
    requires { Fits node.now pass.old }
    ensures did { Does node.now (Expires now) result pass.old pass.new }
    ensures fits { Fits node.now pass.new }
    ensures named { IfErr result IsRoundRefusal }
{
    for _ in rt.forever() {
        let expired = expire(rt, node, pass, now)?;
        if expired.is_none() {
            return Ok(());
        }
    }
    unreachable!()
}

/// The helper that the probe of this number waits for, if it is the one that runs.
fn waited_for(number: u64, running: Option<Running>) -> Option<Address>
    ensures { result ≡ waited_for number running }
{
    match running {
        Some(running) => {
            if running.number == number {
                running.waiting
            } else {
                None
            }
        }
        None => None,
    }
}

/// Reports a helper that a probe waits for as failed. Returns the next helper that it waits for, if the probe has not
/// ended.
fn fail_one<R: Wait, H: PointHash>(
    rt: &R,
    node: &LockedNode<H>,
    pass: &mut NodePass<H>,
    now: Moment,
    number: u64,
    helper: Address,
) -> Result<Option<Address>, ClusterError>
    requires { Fits node.now pass.old }
    ensures did { Does node.now (FailsOne now number helper) result pass.old pass.new }
    ensures fits { Fits node.now pass.new }
    ensures named { IfErr result IsRoundRefusal }
{
    let outcome = tell_word(rt, node, pass, now, number, helper, Said::Failed)?;
    match outcome {
        NodeOutcome::Waiting => {
            let running = find_running(rt, node, pass)?;
            Ok(waited_for(number, running))
        }
        NodeOutcome::Reached | NodeOutcome::Suspect(_) | NodeOutcome::Inconclusive => Ok(None),
    }
}

/// Reports each helper that a probe still waits for as failed, this one first, until the probe has ended.
fn fail_waiting<R: Wait, H: PointHash>(
    rt: &R,
    node: &LockedNode<H>,
    pass: &mut NodePass<H>,
    now: Moment,
    number: u64,
    first: Address,
) -> Result<(), ClusterError>
    requires { Fits node.now pass.old }
    ensures did { Does node.now (FailsFrom now number first) result pass.old pass.new }
    ensures fits { Fits node.now pass.new }
    ensures named { IfErr result IsRoundRefusal }
{
    let mut helper = first;
    for _ in rt.forever() {
        let next = fail_one(rt, node, pass, now, number, helper)?;
        let Some(waiting) = next else {
            return Ok(());
        };
        helper = waiting;
    }
    unreachable!()
}

/// Completes the probe that was found running: if no helper was asked its target is pinged again, else the helpers that
/// have not answered have failed.
fn finish_stale_probe<R: Wait, H: PointHash, L: Link>(
    node: &LockedNode<H>,
    pass: &mut NodePass<H>,
    peers: &mut Peers<'_, R, L>,
    now: Moment,
    running: Option<Running>,
) -> Result<(), ClusterError>
    requires { Fits node.now pass.old }
    ensures did { Does node.now (Finishes L.may_answer now running) result pass.old pass.new }
    ensures sent { Sent L.went node.now [] pass.old pass.new peers.old.link peers.new.link }
    ensures fits { Fits node.now pass.new }
    ensures named { IfErr result IsRoundRefusal }
{
    let Some(running) = running else {
        return Ok(());
    };
    if let Some(helper) = running.waiting {
        return fail_waiting(peers.rt, node, pass, now, running.number, helper);
    }
    let probe = Probe {
        number: running.number,
        target: running.target,
    };
    let _round = run_probe(node, pass, peers, now, &probe)?;
    Ok(())
}

/// Completes the probe that runs, and starts another.
fn restart_probe<R: Wait, H: PointHash, L: Link>(
    node: &LockedNode<H>,
    pass: &mut NodePass<H>,
    peers: &mut Peers<'_, R, L>,
    now: Moment,
) -> Result<Option<Probe>, ClusterError>
    requires { Fits node.now pass.old }
    ensures did { Does node.now (BeginsAgain L.may_answer now) result pass.old pass.new }
    ensures sent { Sent L.went node.now [] pass.old pass.new peers.old.link peers.new.link }
    ensures fits { Fits node.now pass.new }
    ensures named { IfErr result IsRoundRefusal }
{
    let running = find_running(peers.rt, node, pass)?;
    finish_stale_probe(node, pass, peers, now, running)?;
    begin_probe(peers.rt, node, pass)
}

/// Starts a probe. One that runs is completed first.
pub(crate) fn start_probe<R: Wait, H: PointHash, L: Link>(
    node: &LockedNode<H>,
    pass: &mut NodePass<H>,
    peers: &mut Peers<'_, R, L>,
    now: Moment,
) -> Result<Option<Probe>, ClusterError>
    requires { Fits node.now pass.old }
    ensures did { Does node.now (Begins L.may_answer now) result pass.old pass.new }
    ensures sent { Sent L.went node.now [] pass.old pass.new peers.old.link peers.new.link }
    ensures fits { Fits node.now pass.new }
    ensures named { IfErr result IsRoundRefusal }
{
    let first = ask_for_probe(peers.rt, node, pass)?;
    match first {
        Ok(probe) => Ok(probe),
        Err(NodeError::Busy) => restart_probe(node, pass, peers, now),
        Err(refused) => Err(ClusterError::from(refused)),
    }
}

/// Makes one round of gossip at a moment: due entries expire, the next member in turn is pinged, and if it does not
/// answer others are asked to ping it. A probe that an earlier round left running is completed first. Returns how the
/// round ended. An error in processing a received message changes nothing else of the round.
///
/// # Errors
///
/// The effect of the calls before stays.
///
/// - `ForeignPass`: the pass has another node's name.
/// - `PassSpent`: the pass has made all its calls.
/// - `Memory`: out of memory, here or in the link.
/// - `Busy`: a probe still runs after the one that ran was completed.
/// - `Spent`: no probe number is left.
/// - `StaleProbe`, `NotAsked`: another pass ended the probe, or answered for its helper, in the meantime.
pub fn gossip_round<R: Wait, H: PointHash, L: Link>(
    rt: &R,
    alloc: Global,
    node: &LockedNode<H>,
    pass: &mut NodePass<H>,
    link: &mut L,
    now: Moment,
) -> Result<Round, ClusterError>
    requires { Fits node.now pass.old }
    ensures round { Does node.now (IsRound L.may_answer now) result pass.old pass.new }
    ensures sent { Makes node.now (SendsTo L.went [] link.old link.new) pass.old pass.new }
    ensures fits { Fits node.now pass.new }
    ensures named { IfErr result IsRoundRefusal }
{
    let mut peers = Peers::new(rt, alloc, link);
    expire_all(rt, node, pass, now)?;
    let probe = start_probe(node, pass, &mut peers, now)?;
    match probe {
        None => Ok(Round::Idle),
        Some(probe) => run_probe(node, pass, &mut peers, now, &probe),
    }
}
