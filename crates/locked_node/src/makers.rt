//! The messages that a locked node makes.
ghost use Rattle.std.specs.Prelude.{◌≡◌, IfOk, IfErr};
ghost use Rattle.node_core.specs.Calls.{OfEvent, WithReply};
ghost use Rattle.node_core.specs.declared.events.Event.TheVariants as event;
ghost use Rattle.node_core.specs.declared.events.Reply.TheVariants as reply;

use crate::node::{LockedNode, NodePass};
use crate::turns::LockedCall;
use change_core::Address;
use hash_ring::PointHash;
use message_core::Message;
use node_core::{NodeError, NodeState};
use std::sync::Wait;
use turn_lock::LockError;

#[derive(Clone, Copy)]
struct JoinMessage;

impl<H: PointHash> LockedCall<H> for JoinMessage {
    type Reply = Result<Message, NodeError>;

    ghost call = { λ _. OfEvent event.JoinMessage };

    ghost answer = { λ r. WithReply (reply.JoinMessage r) };

    fn perform(&self, node: &mut NodeState<H>) -> Result<Message, NodeError> {
        node.join_message()
    }
}

#[derive(Clone, Copy)]
struct PingTo(Address);

impl<H: PointHash> LockedCall<H> for PingTo {
    type Reply = Result<Message, NodeError>;

    ghost call = { λ a. OfEvent (event.PingTo a.0) };

    ghost answer = { λ r. WithReply (reply.PingTo r) };

    fn perform(&self, node: &mut NodeState<H>) -> Result<Message, NodeError> {
        node.ping_to(self.0)
    }
}

#[derive(Clone, Copy)]
struct PingReqTo(Address, Address);

impl<H: PointHash> LockedCall<H> for PingReqTo {
    type Reply = Result<Message, NodeError>;

    ghost call = { λ a. OfEvent (event.PingReqTo a.0 a.1) };

    ghost answer = { λ r. WithReply (reply.PingReqTo r) };

    fn perform(&self, node: &mut NodeState<H>) -> Result<Message, NodeError> {
        node.ping_req_to(self.0, self.1)
    }
}

#[derive(Clone, Copy)]
struct PingReqAckTo(Address, Address, bool);

impl<H: PointHash> LockedCall<H> for PingReqAckTo {
    type Reply = Result<Message, NodeError>;

    ghost call = { λ a. OfEvent (event.PingReqAckTo a.0 a.1 a.2) };

    ghost answer = { λ r. WithReply (reply.PingReqAckTo r) };

    fn perform(&self, node: &mut NodeState<H>) -> Result<Message, NodeError> {
        node.ping_req_ack_to(self.0, self.1, self.2)
    }
}

impl<H: PointHash> LockedNode<H> {
    ghost use Rattle.locked_node.specs.Passes.{Fits, IsAnswered, IsBarred};

    /// Makes the message that a node sends to a host to join. The reply may be `Memory`.
    ///
    /// # Errors
    ///
    /// The call is not made, and the pass is unchanged.
    ///
    /// - `ForeignPass`: the pass has another node's name. This is checked first.
    /// - `PassSpent`: the pass has made all its calls.
    pub fn join_message<R: Wait>(
        &self,
        rt: &R,
        pass: &mut NodePass<H>,
    ) -> Result<Result<Message, NodeError>, LockError>
        requires { Fits self.now pass.old }
        ensures called { IfOk result (IsAnswered H.hash_of self.now pass.old pass.new event.JoinMessage reply.JoinMessage) }
        ensures refused { IfErr result (IsBarred self.now pass.old pass.new) }
        ensures fits { Fits self.now pass.new }
    {
        self.turn(rt, pass, &JoinMessage)
    }

    /// Makes a ping of a target, with the changes to pass on to it. The reply may be `Memory`.
    ///
    /// # Errors
    ///
    /// The call is not made, and the pass is unchanged.
    ///
    /// - `ForeignPass`: the pass has another node's name. This is checked first.
    /// - `PassSpent`: the pass has made all its calls.
    pub fn ping_to<R: Wait>(
        &self,
        rt: &R,
        pass: &mut NodePass<H>,
        target: Address,
    ) -> Result<Result<Message, NodeError>, LockError>
        requires { Fits self.now pass.old }
        ensures called { IfOk result (IsAnswered H.hash_of self.now pass.old pass.new (event.PingTo target) reply.PingTo) }
        ensures refused { IfErr result (IsBarred self.now pass.old pass.new) }
        ensures fits { Fits self.now pass.new }
    {
        self.turn(rt, pass, &PingTo(target))
    }

    /// Makes a request to a helper to ping a target, with the changes to pass on to the helper. The reply may be
    /// `Memory`.
    ///
    /// # Errors
    ///
    /// The call is not made, and the pass is unchanged.
    ///
    /// - `ForeignPass`: the pass has another node's name. This is checked first.
    /// - `PassSpent`: the pass has made all its calls.
    pub fn ping_req_to<R: Wait>(
        &self,
        rt: &R,
        pass: &mut NodePass<H>,
        helper: Address,
        target: Address,
    ) -> Result<Result<Message, NodeError>, LockError>
        requires { Fits self.now pass.old }
        ensures called { IfOk result (IsAnswered H.hash_of self.now pass.old pass.new (event.PingReqTo helper target) reply.PingReqTo) }
        ensures refused { IfErr result (IsBarred self.now pass.old pass.new) }
        ensures fits { Fits self.now pass.new }
    {
        self.turn(rt, pass, &PingReqTo(helper, target))
    }

    /// Makes a report to a requester on whether a target was reached, with the changes to pass on to the requester. The
    /// reply may be `Memory`.
    ///
    /// # Errors
    ///
    /// The call is not made, and the pass is unchanged.
    ///
    /// - `ForeignPass`: the pass has another node's name. This is checked first.
    /// - `PassSpent`: the pass has made all its calls.
    pub fn ping_req_ack_to<R: Wait>(
        &self,
        rt: &R,
        pass: &mut NodePass<H>,
        requester: Address,
        target: Address,
        reached: bool,
    ) -> Result<Result<Message, NodeError>, LockError>
        requires { Fits self.now pass.old }
        ensures called { IfOk result (IsAnswered H.hash_of self.now pass.old pass.new (event.PingReqAckTo requester target reached) reply.PingReqAckTo) }
        ensures refused { IfErr result (IsBarred self.now pass.old pass.new) }
        ensures fits { Fits self.now pass.new }
    {
        self.turn(rt, pass, &PingReqAckTo(requester, target, reached))
    }
}
