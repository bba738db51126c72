//! The steps of a probe that runs: its target is pinged, and if it does not answer helpers are asked. Each step makes
//! calls of the node, and at most one of the link.
ghost use Rattle.std.specs.Prelude.{◌≡◌, [], IfErr};
ghost use Rattle.locked_node.specs.Passes.{Fits};
ghost use Rattle.peer_core.specs.Asking.{Asked, Pinged};
ghost use Rattle.peer_core.specs.Errors.{IsRoundRefusal};
ghost use Rattle.peer_core.specs.Exchanges.{Sent};
ghost use Rattle.peer_core.specs.Parts.{Asks, Does};
ghost use Rattle.peer_core.specs.Rounds.{Acknowledges, AsksHelper, AsksHelpers, GivesUp, HearsHelper, HearsTarget, LosesOnce, Probes, end_by, said_by};

use crate::asking::{Peers, ping, send_ping_req};
use crate::errors::ClusterError;
use crate::hearing::{Heard, word_on_target};
use crate::links::Link;
use crate::rounds::Round;
use crate::steps::{acked, let_in, lose, take, tell_word};
use change_core::{Address, Moment};
use detector_core::{Probe, Said};
use hash_ring::PointHash;
use locked_node::{LockedNode, NodePass};
use message_core::Message;
use node_core::{NodeLost, NodeOutcome};
use std::sync::Wait;

/// Returns the report for a helper that answered this about a target.
fn said_by(word: Option<bool>) -> Said
    ensures { result ≡ said_by word }
{
    match word {
        Some(true) => Said::Reached,
        Some(false) => Said::NotReached,
        None => Said::Failed,
    }
}

/// Returns how a round ends by the result of a helper's report, if that ends it.
fn end_by(target: Address, outcome: NodeOutcome) -> Option<Round>
    ensures { result ≡ end_by target outcome }
{
    match outcome {
        NodeOutcome::Waiting => None,
        NodeOutcome::Reached => Some(Round::Reached(target)),
        NodeOutcome::Suspect(_) => Some(Round::Suspected(target)),
        NodeOutcome::Inconclusive => Some(Round::Inconclusive(target)),
    }
}

/// Pings a target, as a step of a round or of a meeting.
pub(crate) fn ping_target<R: Wait, H: PointHash, L: Link>(
    node: &LockedNode<H>,
    pass: &mut NodePass<H>,
    peers: &mut Peers<'_, R, L>,
    target: Address,
) -> Result<Heard, ClusterError>
    requires { Fits node.now pass.old }
    ensures did { Does node.now (Asks (Pinged L.may_answer target)) result pass.old pass.new }
    ensures sent { Sent L.went node.now [] pass.old pass.new peers.old.link peers.new.link }
    ensures fits { Fits node.now pass.new }
    ensures named { IfErr result IsRoundRefusal }
{
    let heard = ping(node, pass, peers, target);
    let_in(heard)
}

/// Asks a helper about a target, as a step of a round.
fn ask_about<R: Wait, H: PointHash, L: Link>(
    node: &LockedNode<H>,
    pass: &mut NodePass<H>,
    peers: &mut Peers<'_, R, L>,
    helper: Address,
    target: Address,
) -> Result<Heard, ClusterError>
    requires { Fits node.now pass.old }
    ensures did { Does node.now (Asks (Asked L.may_answer helper target)) result pass.old pass.new }
    ensures sent { Sent L.went node.now [] pass.old pass.new peers.old.link peers.new.link }
    ensures fits { Fits node.now pass.new }
    ensures named { IfErr result IsRoundRefusal }
{
    let heard = send_ping_req(node, pass, peers, helper, target);
    let_in(heard)
}

/// Processes a helper's answer, and passes its report to the node.
fn take_word<R: Wait, H: PointHash>(
    rt: &R,
    node: &LockedNode<H>,
    pass: &mut NodePass<H>,
    now: Moment,
    probe: &Probe,
    helper: Address,
    message: &Message,
) -> Result<NodeOutcome, ClusterError>
    requires { Fits node.now pass.old }
    ensures did { Does node.now (HearsHelper now probe.now helper (Heard.Answer message.now)) result pass.old pass.new }
    ensures fits { Fits node.now pass.new }
    ensures named { IfErr result IsRoundRefusal }
{
    take(rt, node, pass, now, message)?;
    let word = word_on_target(&message.content, probe.target);
    let said = said_by(word);
    tell_word(rt, node, pass, now, probe.number, helper, said)
}

/// Asks one helper about the target, and passes its report to the node.
fn ask_helper<R: Wait, H: PointHash, L: Link>(
    node: &LockedNode<H>,
    pass: &mut NodePass<H>,
    peers: &mut Peers<'_, R, L>,
    now: Moment,
    probe: &Probe,
    helper: Address,
) -> Result<NodeOutcome, ClusterError>
    requires { Fits node.now pass.old }
    ensures did { Does node.now (AsksHelper L.may_answer now probe.now helper) result pass.old pass.new }
    ensures sent { Sent L.went node.now [] pass.old pass.new peers.old.link peers.new.link }
    ensures fits { Fits node.now pass.new }
    ensures named { IfErr result IsRoundRefusal }
{
    let heard = ask_about(node, pass, peers, helper, probe.target)?;
    match heard {
        Heard::Answer(message) => take_word(peers.rt, node, pass, now, probe, helper, &message),
        Heard::Other => tell_word(
            peers.rt,
            node,
            pass,
            now,
            probe.number,
            helper,
            Said::Failed,
        ),
        Heard::OutOfMemory => Err(ClusterError::Memory),
    }
}

/// Asks the helpers in turn, until the probe has ended; None if it has not.
fn ask_helpers<R: Wait, H: PointHash, L: Link>(
    node: &LockedNode<H>,
    pass: &mut NodePass<H>,
    peers: &mut Peers<'_, R, L>,
    now: Moment,
    probe: &Probe,
    helpers: &[Address],
) -> Result<Option<Round>, ClusterError>
    requires { Fits node.now pass.old }
    ensures did { Does node.now (AsksHelpers L.may_answer now probe.now helpers.now) result pass.old pass.new }
    ensures sent { Sent L.went node.now [] pass.old pass.new peers.old.link peers.new.link }
    ensures fits { Fits node.now pass.new }
    ensures named { IfErr result IsRoundRefusal }
{
    for helper in helpers {
        let outcome = ask_helper(node, pass, peers, now, probe, *helper)?;
        let end = end_by(probe.target, outcome);
        if end.is_some() {
            return Ok(end);
        }
    }
    Ok(None)
}

/// Reports that a probe was lost, and asks the helpers that the node names; None if the probe has not ended.
fn give_up_once<R: Wait, H: PointHash, L: Link>(
    node: &LockedNode<H>,
    pass: &mut NodePass<H>,
    peers: &mut Peers<'_, R, L>,
    now: Moment,
    probe: &Probe,
) -> Result<Option<Round>, ClusterError>
    requires { Fits node.now pass.old }
    ensures did { Does node.now (LosesOnce L.may_answer now probe.now) result pass.old pass.new }
    ensures sent { Sent L.went node.now [] pass.old pass.new peers.old.link peers.new.link }
    ensures fits { Fits node.now pass.new }
    ensures named { IfErr result IsRoundRefusal }
{
    let lost = lose(peers.rt, node, pass, now, probe.number)?;
    match lost {
        NodeLost::Ask(helpers) => {
            let helpers = helpers.as_slice();
            ask_helpers(node, pass, peers, now, probe, helpers)
        }
        NodeLost::Suspect(_) => Ok(Some(Round::Suspected(probe.target))),
    }
}

/// Ends a probe whose target did not answer. If its helpers have all been asked and it has not ended, the node decides
/// it.
fn give_up<R: Wait, H: PointHash, L: Link>(
    node: &LockedNode<H>,
    pass: &mut NodePass<H>,
    peers: &mut Peers<'_, R, L>,
    now: Moment,
    probe: &Probe,
) -> Result<Round, ClusterError>
    requires { Fits node.now pass.old }
    ensures did { Does node.now (GivesUp L.may_answer now probe.now) result pass.old pass.new }
    ensures sent { Sent L.went node.now [] pass.old pass.new peers.old.link peers.new.link }
    ensures fits { Fits node.now pass.new }
    ensures named { IfErr result IsRoundRefusal }
{
    for _ in peers.rt.forever() {
        let end = give_up_once(node, pass, peers, now, probe)?;
        if let Some(round) = end {
            return Ok(round);
        }
    }
    unreachable!()
}

/// Takes the Ack of a probe's target, and ends the probe.
fn acknowledge<R: Wait, H: PointHash>(
    rt: &R,
    node: &LockedNode<H>,
    pass: &mut NodePass<H>,
    now: Moment,
    probe: &Probe,
    ack: &Message,
) -> Result<Round, ClusterError>
    requires { Fits node.now pass.old }
    ensures did { Does node.now (Acknowledges now probe.now ack.now) result pass.old pass.new }
    ensures fits { Fits node.now pass.new }
    ensures named { IfErr result IsRoundRefusal }
{
    take(rt, node, pass, now, ack)?;
    acked(rt, node, pass, probe.number)?;
    Ok(Round::Reached(probe.target))
}

/// Completes a probe by what was heard of its target.
pub(crate) fn hear_target<R: Wait, H: PointHash, L: Link>(
    node: &LockedNode<H>,
    pass: &mut NodePass<H>,
    peers: &mut Peers<'_, R, L>,
    now: Moment,
    probe: &Probe,
    heard: &Heard,
) -> Result<Round, ClusterError>
    requires { Fits node.now pass.old }
    ensures did { Does node.now (HearsTarget L.may_answer now probe.now heard.now) result pass.old pass.new }
    ensures sent { Sent L.went node.now [] pass.old pass.new peers.old.link peers.new.link }
    ensures fits { Fits node.now pass.new }
    ensures named { IfErr result IsRoundRefusal }
{
    match heard {
        Heard::Answer(ack) => acknowledge(peers.rt, node, pass, now, probe, ack),
        Heard::Other => give_up(node, pass, peers, now, probe),
        Heard::OutOfMemory => Err(ClusterError::Memory),
    }
}

/// Pings the target of a running probe, and completes the probe.
pub(crate) fn run_probe<R: Wait, H: PointHash, L: Link>(
    node: &LockedNode<H>,
    pass: &mut NodePass<H>,
    peers: &mut Peers<'_, R, L>,
    now: Moment,
    probe: &Probe,
) -> Result<Round, ClusterError>
    requires { Fits node.now pass.old }
    ensures did { Does node.now (Probes L.may_answer now probe.now) result pass.old pass.new }
    ensures sent { Sent L.went node.now [] pass.old pass.new peers.old.link peers.new.link }
    ensures fits { Fits node.now pass.new }
    ensures named { IfErr result IsRoundRefusal }
{
    let heard = ping_target(node, pass, peers, probe.target)?;
    hear_target(node, pass, peers, now, probe, &heard)
}
