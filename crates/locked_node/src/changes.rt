//! Changes that a locked node takes, by themselves or in messages, and those that it says itself.
ghost use Rattle.std.specs.Prelude.{◌≡◌, ◌≤◌, length, IfOk, IfErr};
ghost use Rattle.change_core.specs.Numbers.{most_members};
ghost use Rattle.node_core.specs.Calls.{OfEvent, WithReply};
ghost use Rattle.node_core.specs.declared.events.Event.TheVariants as event;
ghost use Rattle.node_core.specs.declared.events.Reply.TheVariants as reply;

use crate::node::{LockedNode, NodePass};
use crate::turns::LockedCall;
use change_core::{Change, Moment, Sourced};
use hash_ring::PointHash;
use message_core::Message;
use node_core::{NodeError, NodeState, Received, Stopped, Taken};
use std::sync::Wait;
use turn_lock::LockError;

#[derive(Clone, Copy)]
struct Take<'a> {
    changes: &'a [Sourced],
    moment: Moment,
    ghost few: { length changes.now ≤ most_members },
}

impl<'a, H: PointHash> LockedCall<H> for Take<'a> {
    type Reply = Result<Taken, Stopped>;

    ghost call = { λ a. OfEvent (event.Take a.changes.now a.moment) };

    ghost answer = { λ r. WithReply (reply.Take r) };

    fn perform(&self, node: &mut NodeState<H>) -> Result<Taken, Stopped> {
        node.take(self.changes, self.moment)
    }
}

#[derive(Clone, Copy)]
struct Receive<'a>(&'a Message, Moment);

impl<'a, H: PointHash> LockedCall<H> for Receive<'a> {
    type Reply = Received;

    ghost call = { λ a. OfEvent (event.Receive a.0.now a.1) };

    ghost answer = { λ r. WithReply (reply.Receive r) };

    fn perform(&self, node: &mut NodeState<H>) -> Received {
        node.receive(self.0, self.1)
    }
}

#[derive(Clone, Copy)]
struct Leave;

impl<H: PointHash> LockedCall<H> for Leave {
    type Reply = Result<Change, NodeError>;

    ghost call = { λ _. OfEvent event.Leave };

    ghost answer = { λ r. WithReply (reply.Leave r) };

    fn perform(&self, node: &mut NodeState<H>) -> Result<Change, NodeError> {
        node.leave()
    }
}

#[derive(Clone, Copy)]
struct Rejoin;

impl<H: PointHash> LockedCall<H> for Rejoin {
    type Reply = Result<Change, NodeError>;

    ghost call = { λ _. OfEvent event.Rejoin };

    ghost answer = { λ r. WithReply (reply.Rejoin r) };

    fn perform(&self, node: &mut NodeState<H>) -> Result<Change, NodeError> {
        node.rejoin()
    }
}

#[derive(Clone, Copy)]
struct Expire(Moment);

impl<H: PointHash> LockedCall<H> for Expire {
    type Reply = Result<Option<Change>, NodeError>;

    ghost call = { λ a. OfEvent (event.Expire a.0) };

    ghost answer = { λ r. WithReply (reply.Expire r) };

    fn perform(&self, node: &mut NodeState<H>) -> Result<Option<Change>, NodeError> {
        node.expire(self.0)
    }
}

impl<H: PointHash> LockedNode<H> {
    ghost use Rattle.locked_node.specs.Passes.{Fits, IsAnswered, IsBarred};

    /// Processes at most 4,096 changes one after another, at a moment. If one of them fails, the reply has the number
    /// of those processed before it, and the cause.
    ///
    /// # Errors
    ///
    /// The call is not made, and the pass is unchanged.
    ///
    /// - `ForeignPass`: the pass has another node's name. This is checked first.
    /// - `PassSpent`: the pass has made all its calls.
    pub fn take<R: Wait>(
        &self,
        rt: &R,
        pass: &mut NodePass<H>,
        changes: &[Sourced],
        moment: Moment,
    ) -> Result<Result<Taken, Stopped>, LockError>
        requires fits { Fits self.now pass.old }
        requires few { length changes.now ≤ most_members }
        ensures called { IfOk result (IsAnswered H.hash_of self.now pass.old pass.new (event.Take changes.now moment) reply.Take) }
        ensures refused { IfErr result (IsBarred self.now pass.old pass.new) }
        ensures fits { Fits self.now pass.new }
    {
        self.turn(rt, pass, &Take { changes, moment })
    }

    /// Processes the changes of a message, at a moment, and makes its answer.
    ///
    /// # Errors
    ///
    /// The call is not made, and the pass is unchanged.
    ///
    /// - `ForeignPass`: the pass has another node's name. This is checked first.
    /// - `PassSpent`: the pass has made all its calls.
    pub fn receive<R: Wait>(
        &self,
        rt: &R,
        pass: &mut NodePass<H>,
        message: &Message,
        moment: Moment,
    ) -> Result<Received, LockError>
        requires { Fits self.now pass.old }
        ensures called { IfOk result (IsAnswered H.hash_of self.now pass.old pass.new (event.Receive message.now moment) reply.Receive) }
        ensures refused { IfErr result (IsBarred self.now pass.old pass.new) }
        ensures fits { Fits self.now pass.new }
    {
        self.turn(rt, pass, &Receive(message, moment))
    }

    /// Leaves the cluster. The reply may be `AlreadyLeft` or `Memory`.
    ///
    /// # Errors
    ///
    /// The call is not made, and the pass is unchanged.
    ///
    /// - `ForeignPass`: the pass has another node's name. This is checked first.
    /// - `PassSpent`: the pass has made all its calls.
    pub fn leave<R: Wait>(
        &self,
        rt: &R,
        pass: &mut NodePass<H>,
    ) -> Result<Result<Change, NodeError>, LockError>
        requires { Fits self.now pass.old }
        ensures called { IfOk result (IsAnswered H.hash_of self.now pass.old pass.new event.Leave reply.Leave) }
        ensures refused { IfErr result (IsBarred self.now pass.old pass.new) }
        ensures fits { Fits self.now pass.new }
    {
        self.turn(rt, pass, &Leave)
    }

    /// Comes back after leaving. The reply may be `NotLeft`, `Exhausted` or `Memory`.
    ///
    /// # Errors
    ///
    /// The call is not made, and the pass is unchanged.
    ///
    /// - `ForeignPass`: the pass has another node's name. This is checked first.
    /// - `PassSpent`: the pass has made all its calls.
    pub fn rejoin<R: Wait>(
        &self,
        rt: &R,
        pass: &mut NodePass<H>,
    ) -> Result<Result<Change, NodeError>, LockError>
        requires { Fits self.now pass.old }
        ensures called { IfOk result (IsAnswered H.hash_of self.now pass.old pass.new event.Rejoin reply.Rejoin) }
        ensures refused { IfErr result (IsBarred self.now pass.old pass.new) }
        ensures fits { Fits self.now pass.new }
    {
        self.turn(rt, pass, &Rejoin)
    }

    /// Applies one change that is due at a moment, that of the least address. The reply is None if none is due, and may
    /// be `Memory`.
    ///
    /// # Errors
    ///
    /// The call is not made, and the pass is unchanged.
    ///
    /// - `ForeignPass`: the pass has another node's name. This is checked first.
    /// - `PassSpent`: the pass has made all its calls.
    pub fn expire<R: Wait>(
        &self,
        rt: &R,
        pass: &mut NodePass<H>,
        moment: Moment,
    ) -> Result<Result<Option<Change>, NodeError>, LockError>
        requires { Fits self.now pass.old }
        ensures called { IfOk result (IsAnswered H.hash_of self.now pass.old pass.new (event.Expire moment) reply.Expire) }
        ensures refused { IfErr result (IsBarred self.now pass.old pass.new) }
        ensures fits { Fits self.now pass.new }
    {
        self.turn(rt, pass, &Expire(moment))
    }
}
