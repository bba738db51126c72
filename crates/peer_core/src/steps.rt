//! Single calls of a node, as steps of a round or of a join: the answer, or what refused it.
ghost use Rattle.std.specs.Prelude.{◌≡◌, IfOk, IfErr};
ghost use Rattle.node_core.specs.declared.events.Event.TheVariants as call;
ghost use Rattle.node_core.specs.declared.events.Reply.TheVariants as reply;
ghost use Rattle.locked_node.specs.Passes.{Fits};
ghost use Rattle.peer_core.specs.Errors.{IsHealRefusal, IsJoinRefusal, IsRoundRefusal, error_of_node};
ghost use Rattle.peer_core.specs.Parts.{Calls, Does, Tries, allowed, let_in};
ghost use Rattle.peer_core.specs.Rounds.{Takes, TellsWord};

use crate::errors::ClusterError;
use change_core::{Address, Change, Moment};
use detector_core::{Probe, Running, Said};
use hash_ring::PointHash;
use locked_node::{LockedNode, NodePass};
use message_core::Message;
use node_core::{ChangeList, NodeError, NodeLost, NodeOutcome, Received};
use std::sync::Wait;
use turn_lock::LockError;

/// Returns the answer to a call of a node.
///
/// # Errors
///
/// - `ForeignPass`, `PassSpent`: the lock refused the call.
pub fn let_in<T>(answer: Result<T, LockError>) -> Result<T, ClusterError>
    ensures { result ≡ let_in answer }
{
    match answer {
        Ok(value) => Ok(value),
        Err(refused) => Err(ClusterError::from(refused)),
    }
}

/// Returns the answer to a call that a node may refuse.
///
/// # Errors
///
/// - `ForeignPass`, `PassSpent`: the lock refused the call.
/// - The node's error.
pub fn allowed<T>(answer: Result<Result<T, NodeError>, LockError>) -> Result<T, ClusterError>
    ensures { result ≡ allowed answer }
{
    match answer {
        Ok(Ok(value)) => Ok(value),
        Ok(Err(refused)) => Err(ClusterError::from(refused)),
        Err(refused) => Err(ClusterError::from(refused)),
    }
}

/// Receives a message at a moment, and returns the result.
fn receive<R: Wait, H: PointHash>(
    rt: &R,
    node: &LockedNode<H>,
    pass: &mut NodePass<H>,
    now: Moment,
    message: &Message,
) -> Result<Received, ClusterError>
    requires { Fits node.now pass.old }
    ensures did { Does node.now (Calls (call.Receive message.now now) reply.Receive) result pass.old pass.new }
    ensures fits { Fits node.now pass.new }
    ensures named { IfErr result IsRoundRefusal }
    ensures named_joining { IfErr result IsJoinRefusal }
{
    let answer = node.receive(rt, pass, message, now);
    let_in(answer)
}

/// Receives a message at a moment, whatever the result.
pub(crate) fn take<R: Wait, H: PointHash>(
    rt: &R,
    node: &LockedNode<H>,
    pass: &mut NodePass<H>,
    now: Moment,
    message: &Message,
) -> Result<(), ClusterError>
    requires { Fits node.now pass.old }
    ensures did { Does node.now (Takes now message.now) result pass.old pass.new }
    ensures fits { Fits node.now pass.new }
    ensures named { IfErr result IsRoundRefusal }
    ensures named_joining { IfErr result IsJoinRefusal }
{
    let _received = receive(rt, node, pass, now, message)?;
    Ok(())
}

/// Brings the entry that is due, if one is, to its next status.
pub(crate) fn expire<R: Wait, H: PointHash>(
    rt: &R,
    node: &LockedNode<H>,
    pass: &mut NodePass<H>,
    now: Moment,
) -> Result<Option<Change>, ClusterError>
    requires { Fits node.now pass.old }
    ensures did { Does node.now (Tries (call.Expire now) reply.Expire) result pass.old pass.new }
    ensures fits { Fits node.now pass.new }
    ensures named { IfErr result IsRoundRefusal }
{
    let answer = node.expire(rt, pass, now);
    allowed(answer)
}

/// Asks for the next probe, and returns the node's reply.
pub(crate) fn ask_for_probe<R: Wait, H: PointHash>(
    rt: &R,
    node: &LockedNode<H>,
    pass: &mut NodePass<H>,
) -> Result<Result<Option<Probe>, NodeError>, ClusterError>
    requires { Fits node.now pass.old }
    ensures did { Does node.now (Calls call.Probe reply.Probe) result pass.old pass.new }
    ensures fits { Fits node.now pass.new }
    ensures named { IfErr result IsRoundRefusal }
    ensures answered { IfOk result (λ answer. IfErr answer (λ n. IsRoundRefusal (error_of_node n))) }
{
    let answer = node.probe(rt, pass);
    let_in(answer)
}

/// Starts the next probe, if a member can be probed.
pub(crate) fn begin_probe<R: Wait, H: PointHash>(
    rt: &R,
    node: &LockedNode<H>,
    pass: &mut NodePass<H>,
) -> Result<Option<Probe>, ClusterError>
    requires { Fits node.now pass.old }
    ensures did { Does node.now (Tries call.Probe reply.Probe) result pass.old pass.new }
    ensures fits { Fits node.now pass.new }
    ensures named { IfErr result IsRoundRefusal }
{
    let answer = node.probe(rt, pass);
    allowed(answer)
}

/// The probe that runs, if one does.
pub(crate) fn find_running<R: Wait, H: PointHash>(
    rt: &R,
    node: &LockedNode<H>,
    pass: &mut NodePass<H>,
) -> Result<Option<Running>, ClusterError>
    requires { Fits node.now pass.old }
    ensures did { Does node.now (Calls call.Running reply.Running) result pass.old pass.new }
    ensures fits { Fits node.now pass.new }
    ensures named { IfErr result IsRoundRefusal }
{
    let answer = node.running(rt, pass);
    let_in(answer)
}

/// Ends a probe whose target was reached.
pub(crate) fn acked<R: Wait, H: PointHash>(
    rt: &R,
    node: &LockedNode<H>,
    pass: &mut NodePass<H>,
    number: u64,
) -> Result<(), ClusterError>
    requires { Fits node.now pass.old }
    ensures did { Does node.now (Tries (call.Acked number) reply.Acked) result pass.old pass.new }
    ensures fits { Fits node.now pass.new }
    ensures named { IfErr result IsRoundRefusal }
{
    let answer = node.acked(rt, pass, number);
    allowed(answer)
}

/// Reports that the target of a probe did not answer.
pub(crate) fn lose<R: Wait, H: PointHash>(
    rt: &R,
    node: &LockedNode<H>,
    pass: &mut NodePass<H>,
    now: Moment,
    number: u64,
) -> Result<NodeLost, ClusterError>
    requires { Fits node.now pass.old }
    ensures did { Does node.now (Tries (call.Lost number now) reply.Lost) result pass.old pass.new }
    ensures fits { Fits node.now pass.new }
    ensures named { IfErr result IsRoundRefusal }
{
    let answer = node.lost(rt, pass, number, now);
    allowed(answer)
}

/// Passes a helper's report to the node.
pub(crate) fn tell_word<R: Wait, H: PointHash>(
    rt: &R,
    node: &LockedNode<H>,
    pass: &mut NodePass<H>,
    now: Moment,
    number: u64,
    helper: Address,
    said: Said,
) -> Result<NodeOutcome, ClusterError>
    requires { Fits node.now pass.old }
    ensures did { Does node.now (TellsWord now number helper said) result pass.old pass.new }
    ensures fits { Fits node.now pass.new }
    ensures named { IfErr result IsRoundRefusal }
{
    let answer = node.helper_said(rt, pass, number, helper, said, now);
    allowed(answer)
}

/// The node's own entry.
pub(crate) fn find_own<R: Wait, H: PointHash>(
    rt: &R,
    node: &LockedNode<H>,
    pass: &mut NodePass<H>,
) -> Result<Change, ClusterError>
    requires { Fits node.now pass.old }
    ensures did { Does node.now (Calls call.Own reply.Own) result pass.old pass.new }
    ensures fits { Fits node.now pass.new }
    ensures named { IfErr result IsHealRefusal }
{
    let answer = node.own(rt, pass);
    let_in(answer)
}

/// The members that the node holds.
pub(crate) fn list_members<R: Wait, H: PointHash>(
    rt: &R,
    node: &LockedNode<H>,
    pass: &mut NodePass<H>,
) -> Result<ChangeList, ClusterError>
    requires { Fits node.now pass.old }
    ensures did { Does node.now (Tries call.Members reply.Members) result pass.old pass.new }
    ensures fits { Fits node.now pass.new }
    ensures named { IfErr result IsHealRefusal }
{
    let answer = node.members(rt, pass);
    allowed(answer)
}
