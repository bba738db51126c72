//! The probes of a locked node.
ghost use Rattle.std.specs.Prelude.{◌≡◌, IfOk, IfErr};
ghost use Rattle.node_core.specs.Calls.{OfEvent, WithReply};
ghost use Rattle.node_core.specs.declared.events.Event.TheVariants as event;
ghost use Rattle.node_core.specs.declared.events.Reply.TheVariants as reply;

use crate::node::{LockedNode, NodePass};
use crate::turns::LockedCall;
use change_core::{Address, Moment};
use detector_core::{Probe, Running, Said};
use hash_ring::PointHash;
use node_core::{NodeError, NodeLost, NodeOutcome, NodeState};
use std::sync::Wait;
use turn_lock::LockError;

#[derive(Clone, Copy)]
struct NextProbe;

impl<H: PointHash> LockedCall<H> for NextProbe {
    type Reply = Result<Option<Probe>, NodeError>;

    ghost call = { λ _. OfEvent event.Probe };

    ghost answer = { λ r. WithReply (reply.Probe r) };

    fn perform(&self, node: &mut NodeState<H>) -> Result<Option<Probe>, NodeError> {
        node.probe()
    }
}

#[derive(Clone, Copy)]
struct Acked(u64);

impl<H: PointHash> LockedCall<H> for Acked {
    type Reply = Result<(), NodeError>;

    ghost call = { λ a. OfEvent (event.Acked a.0) };

    ghost answer = { λ r. WithReply (reply.Acked r) };

    fn perform(&self, node: &mut NodeState<H>) -> Result<(), NodeError> {
        node.acked(self.0)
    }
}

#[derive(Clone, Copy)]
struct Lost(u64, Moment);

impl<H: PointHash> LockedCall<H> for Lost {
    type Reply = Result<NodeLost, NodeError>;

    ghost call = { λ a. OfEvent (event.Lost a.0 a.1) };

    ghost answer = { λ r. WithReply (reply.Lost r) };

    fn perform(&self, node: &mut NodeState<H>) -> Result<NodeLost, NodeError> {
        node.lost(self.0, self.1)
    }
}

#[derive(Clone, Copy)]
struct HelperSaid(u64, Address, Said, Moment);

impl<H: PointHash> LockedCall<H> for HelperSaid {
    type Reply = Result<NodeOutcome, NodeError>;

    ghost call = { λ a. OfEvent (event.HelperSaid a.0 a.1 a.2 a.3) };

    ghost answer = { λ r. WithReply (reply.HelperSaid r) };

    fn perform(&self, node: &mut NodeState<H>) -> Result<NodeOutcome, NodeError> {
        node.helper_said(self.0, self.1, self.2, self.3)
    }
}

#[derive(Clone, Copy)]
struct RunningProbe;

impl<H: PointHash> LockedCall<H> for RunningProbe {
    type Reply = Option<Running>;

    ghost call = { λ _. OfEvent event.Running };

    ghost answer = { λ r. WithReply (reply.Running r) };

    fn perform(&self, node: &mut NodeState<H>) -> Option<Running> {
        node.running()
    }
}

impl<H: PointHash> LockedNode<H> {
    ghost use Rattle.locked_node.specs.Passes.{Fits, IsAnswered, IsBarred};

    /// Starts a probe of the next member in turn. The reply is None if no member is pingable, and may be `Busy`,
    /// `Spent` or `Memory`.
    ///
    /// # Errors
    ///
    /// The call is not made, and the pass is unchanged.
    ///
    /// - `ForeignPass`: the pass has another node's name. This is checked first.
    /// - `PassSpent`: the pass has made all its calls.
    pub fn probe<R: Wait>(
        &self,
        rt: &R,
        pass: &mut NodePass<H>,
    ) -> Result<Result<Option<Probe>, NodeError>, LockError>
        requires { Fits self.now pass.old }
        ensures called { IfOk result (IsAnswered H.hash_of self.now pass.old pass.new event.Probe reply.Probe) }
        ensures refused { IfErr result (IsBarred self.now pass.old pass.new) }
        ensures fits { Fits self.now pass.new }
    {
        self.turn(rt, pass, &NextProbe)
    }

    /// Ends a probe whose target was reached. The reply may be `StaleProbe`.
    ///
    /// # Errors
    ///
    /// The call is not made, and the pass is unchanged.
    ///
    /// - `ForeignPass`: the pass has another node's name. This is checked first.
    /// - `PassSpent`: the pass has made all its calls.
    pub fn acked<R: Wait>(
        &self,
        rt: &R,
        pass: &mut NodePass<H>,
        number: u64,
    ) -> Result<Result<(), NodeError>, LockError>
        requires { Fits self.now pass.old }
        ensures called { IfOk result (IsAnswered H.hash_of self.now pass.old pass.new (event.Acked number) reply.Acked) }
        ensures refused { IfErr result (IsBarred self.now pass.old pass.new) }
        ensures fits { Fits self.now pass.new }
    {
        self.turn(rt, pass, &Acked(number))
    }

    /// Ends the direct ping of a probe as lost: others have to be asked about its target, or it is suspect. The reply
    /// may be `StaleProbe` or `Memory`.
    ///
    /// # Errors
    ///
    /// The call is not made, and the pass is unchanged.
    ///
    /// - `ForeignPass`: the pass has another node's name. This is checked first.
    /// - `PassSpent`: the pass has made all its calls.
    pub fn lost<R: Wait>(
        &self,
        rt: &R,
        pass: &mut NodePass<H>,
        number: u64,
        moment: Moment,
    ) -> Result<Result<NodeLost, NodeError>, LockError>
        requires { Fits self.now pass.old }
        ensures called { IfOk result (IsAnswered H.hash_of self.now pass.old pass.new (event.Lost number moment) reply.Lost) }
        ensures refused { IfErr result (IsBarred self.now pass.old pass.new) }
        ensures fits { Fits self.now pass.new }
    {
        self.turn(rt, pass, &Lost(number, moment))
    }

    /// Records, at a moment, a helper's report on a target. If the verdict is that the target is suspect, the node
    /// holds it so. The reply may be `StaleProbe`, `NotAsked` or `Memory`.
    ///
    /// # Errors
    ///
    /// The call is not made, and the pass is unchanged.
    ///
    /// - `ForeignPass`: the pass has another node's name. This is checked first.
    /// - `PassSpent`: the pass has made all its calls.
    pub fn helper_said<R: Wait>(
        &self,
        rt: &R,
        pass: &mut NodePass<H>,
        number: u64,
        helper: Address,
        said: Said,
        moment: Moment,
    ) -> Result<Result<NodeOutcome, NodeError>, LockError>
        requires { Fits self.now pass.old }
        ensures called { IfOk result (IsAnswered H.hash_of self.now pass.old pass.new (event.HelperSaid number helper said moment) reply.HelperSaid) }
        ensures refused { IfErr result (IsBarred self.now pass.old pass.new) }
        ensures fits { Fits self.now pass.new }
    {
        self.turn(rt, pass, &HelperSaid(number, helper, said, moment))
    }

    /// Returns the probe that runs, with the helper of least address that was asked and has not answered.
    ///
    /// # Errors
    ///
    /// The call is not made, and the pass is unchanged.
    ///
    /// - `ForeignPass`: the pass has another node's name. This is checked first.
    /// - `PassSpent`: the pass has made all its calls.
    pub fn running<R: Wait>(
        &self,
        rt: &R,
        pass: &mut NodePass<H>,
    ) -> Result<Option<Running>, LockError>
        requires { Fits self.now pass.old }
        ensures called { IfOk result (IsAnswered H.hash_of self.now pass.old pass.new event.Running reply.Running) }
        ensures refused { IfErr result (IsBarred self.now pass.old pass.new) }
        ensures fits { Fits self.now pass.new }
    {
        self.turn(rt, pass, &RunningProbe)
    }
}
