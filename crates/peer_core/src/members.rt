//! A member of a cluster, by which a thread of a service makes its calls.
ghost use Rattle.std.specs.Prelude.{◌≡◌, ◌<◌, ◌^◌, [], length};
ghost use Rattle.node_core.specs.Calls.{OfView, WithView};
ghost use Rattle.node_core.specs.declared.events.Event.TheVariants as event;
ghost use Rattle.node_core.specs.declared.events.Reply.TheVariants as reply;
ghost use Rattle.locked_node.specs.Passes.{Fits};
ghost use Rattle.peer_core.specs.Correcting.{IsCorrectingRound};
ghost use Rattle.peer_core.specs.Exchanges.{SendsByDraws, SendsTo, SendsToPinged};
ghost use Rattle.peer_core.specs.Forwarding.{IsRequest};
ghost use Rattle.peer_core.specs.Handling.{between};
ghost use Rattle.peer_core.specs.Healing.{IsHealing, after_round};
ghost use Rattle.peer_core.specs.Joining.{IsJoin};
ghost use Rattle.peer_core.specs.MemberErrors.{answer_of_call, answer_of_leave, answer_of_rejoin, error_of_call, error_of_join, error_of_request, error_of_round, widened};
ghost use Rattle.peer_core.specs.Members.{Called, Done, Over, Replied};
ghost use Rattle.peer_core.specs.Parts.{let_in};
ghost use Rattle.peer_core.specs.Resending.{SendsRequest};
ghost use Rattle.peer_core.specs.Rounds.{IsRound};
ghost use Rattle.peer_core.specs.Serving.{Refuses, Serves};

use crate::clocks::Clock;
use crate::correcting::correcting_round;
use crate::forwarding::handle_or_forward;
use crate::gossiping::gossip_round;
use crate::handlers::HandlerMut;
use crate::healing::{Healing, heal};
use crate::joining::join;
use crate::links::Link;
use crate::member_errors::{
    CallError, JoinError, LeaveError, RejoinError, RequestError, RoundError, copied, heal_error,
    join_error, left, rejoined, request_error, round_error,
};
use crate::rounds::Round;
use crate::serving::{refuse, serve_one};
use change_core::{Address, Change, Moment};
use hash_ring::PointHash;
use locked_node::{LockedNode, NodePass};
use message_core::{Keys, Message, Reason, Text};
use node_core::{ChangeList, View};
use std::alloc::Global;
use std::marker::Model;
use std::sync::Wait;
use turn_lock::LockError;

/// A member of a cluster as one thread calls it: a node, the thread's pass of it, the link by which it asks the other
/// nodes, and where its memory comes from.
///
/// A node that several threads share has a member for each: they borrow one node, and each has its own pass and link.
/// While a member lives its pass and its link are used by it alone; `into_pass` ends it. Each call waits for the turns
/// of the node that it takes, and holds none while the link, the handler or the clock is called.
///
/// A call that is refused by `ForeignPass` or `PassSpent` is refused by the node's lock: the pass has the name of
/// another node, or else has made as many calls as it may. What the call did before stays.
#[derive(Drop)]
pub struct Member<'m, H: PointHash, L: Link> {
    node: &'m LockedNode<H>,
    pass: &'m mut NodePass<H>,
    link: &'m mut L,
    alloc: Global,
}

impl<'m, H: PointHash, L: Link> Model for Member<'m, H, L> {
    ghost use Rattle.locked_node.specs.Passes.{Fits};
    ghost use Rattle.peer_core.specs.Members.{Caller};

    ghost Value = { Caller H L };

    ghost view = { λ m. record { node = m.node.now; pass = m.pass; link = m.link } };

    ghost invariant = { λ m. Fits m.node.now m.pass.now };
}

impl<'m, H: PointHash, L: Link> Member<'m, H, L> {
    /// A member that calls this node by this pass and asks others over this link.
    pub fn new(
        node: &'m LockedNode<H>,
        pass: &'m mut NodePass<H>,
        link: &'m mut L,
        alloc: Global,
    ) -> Self
        requires { Fits node.now pass.old }
        ensures node { result.node ≡ node.now }
        ensures pass { result.pass ≡ pass.entry }
        ensures link { result.link ≡ link.entry }
    {
        Member {
            node,
            pass,
            link,
            alloc,
        }
    }

    /// Returns the pass, which can be used again.
    pub fn into_pass(self) -> &'m mut NodePass<H>
        ensures pass { result ≡ self.entry.pass }
        ensures fits { Fits self.entry.node result.now }
    {
        let Member { pass, .. } = self;
        pass
    }

    /// Sends a Join to each host, fewer than 2^32, in their order, and processes each Joined at a moment. Returns the
    /// number of hosts that answered by a Joined. It is [`join`].
    ///
    /// # Errors
    ///
    /// - `NoneJoined`: no host answered by a Joined.
    /// - `Memory`: the node or the link ran out of memory.
    /// - `ForeignPass`, `PassSpent`: the lock refused the pass.
    pub fn join<R: Wait>(
        &mut self,
        rt: &R,
        hosts: &[Address],
        now: Moment,
    ) -> Result<u32, JoinError>
        requires { length hosts.now < 2 ^ 32 }
        ensures done { Done (IsJoin L.may_answer now hosts.now) (widened error_of_join result) self.old self.new }
        ensures sent { Over (SendsTo L.went hosts.now) self.old self.new }
    {
        join(rt, self.alloc, self.node, self.pass, self.link, hosts, now).map_err(join_error)
    }

    /// Makes one round of gossip at a moment: due entries expire, the next member in turn is pinged, and if it does not
    /// answer others are asked to ping it. Returns how the round ended. It is [`gossip_round`].
    ///
    /// # Errors
    ///
    /// - `Memory`: the node or the link ran out of memory.
    /// - `Busy`: a probe still runs after the one that was found running has ended.
    /// - `Spent`: no probe number is left.
    /// - `StaleProbe` or `NotAsked`: another pass ended the probe, or answered for its helper, in the meantime.
    /// - `ForeignPass`, `PassSpent`: the lock refused the pass.
    pub fn round<R: Wait>(&mut self, rt: &R, now: Moment) -> Result<Round, RoundError>
        ensures done { Done (IsRound L.may_answer now) (widened error_of_round result) self.old self.new }
        ensures sent { Over (SendsTo L.went []) self.old self.new }
    {
        gossip_round(rt, self.alloc, self.node, self.pass, self.link, now).map_err(round_error)
    }

    /// Makes one round of gossip at a moment, and corrects its target: if the target's Ack has another incarnation or
    /// status of the node than the node's own entry, the target gets a Join, whose one change is that entry. Returns how
    /// the round ended. It is [`correcting_round`].
    ///
    /// # Errors
    ///
    /// - `Memory`: the node or the link ran out of memory.
    /// - `Busy`: a probe still runs after the one that was found running has ended.
    /// - `Spent`: no probe number is left.
    /// - `StaleProbe` or `NotAsked`: another pass ended the probe, or answered for its helper, in the meantime.
    /// - `ForeignPass`, `PassSpent`: the lock refused the pass.
    pub fn correcting_round<R: Wait>(&mut self, rt: &R, now: Moment) -> Result<Round, RoundError>
        ensures done { Done (IsCorrectingRound L.may_answer now) (widened error_of_round result) self.old self.new }
        ensures sent { Over (SendsToPinged L.went) self.old self.new }
    {
        correcting_round(rt, self.alloc, self.node, self.pass, self.link, now).map_err(round_error)
    }

    /// Heals a cluster whose members parted; to be called after each round, at its moment. After each tenth round the node
    /// pings one member at random, also a faulty one, and sends a Join to one of the hosts of `healing`, at random, if it
    /// does not hold that host as serving; after the others it does nothing. Returns whether a host answered by a Joined.
    /// It is [`heal`].
    ///
    /// # Errors
    ///
    /// - `Memory`: the node or the link ran out of memory.
    /// - `ForeignPass`, `PassSpent`: the lock refused the pass.
    pub fn heal<R: Wait>(
        &mut self,
        rt: &R,
        healing: &mut Healing<'_>,
        now: Moment,
    ) -> Result<bool, CallError>
        ensures healed { Done (IsHealing L.may_answer now healing.old.hosts (after_round healing.old).0) (widened error_of_call result) self.old self.new }
        ensures sent { Over (SendsByDraws L.went healing.old.hosts (after_round healing.old).0) self.old self.new }
        ensures healing { healing.new ≡ (after_round healing.old).1 }
    {
        heal(
            rt, self.alloc, self.node, self.pass, self.link, now, healing,
        )
        .map_err(heal_error)
    }

    /// Answers a message of another node, or of a client, at a moment. A Forward is answered by the handler if the node
    /// owns all its keys. A refusal by the node is an answer too: `Refused` with its reason. It is [`serve_one`].
    ///
    /// # Errors
    ///
    /// - `ForeignPass`, `PassSpent`: the lock refused the pass.
    pub fn serve<R: Wait, A: HandlerMut>(
        &mut self,
        rt: &R,
        handler: &mut A,
        now: Moment,
        message: &Message,
    ) -> Result<Message, LockError>
        ensures done { Done (Serves H.hash_of L.may_answer (between A.handled handler.old handler.new) message.now now message.now.content) (let_in result) self.old self.new }
        ensures sent { Over (SendsTo L.went []) self.old self.new }
    {
        serve_one(
            rt, self.alloc, self.node, self.pass, self.link, handler, now, message,
        )
    }

    /// A refusal for a reason, as a message of the node: the answer to a line that cannot be read as a message. It is [`refuse`].
    ///
    /// # Errors
    ///
    /// - `ForeignPass`, `PassSpent`: the lock refused the pass.
    pub fn refuse<R: Wait>(&mut self, rt: &R, reason: Reason) -> Result<Message, LockError>
        ensures done { Done (Refuses reason) (let_in result) self.old self.new }
        ensures link { self.new.link ≡ self.old.link }
    {
        refuse(rt, self.node, self.pass, reason)
    }

    /// Answers a request of these keys, 1 to 256, with this body: by the handler if this node owns all of them, else by
    /// the Reply of the node that does. A send that fails is tried again, at the owner of that time, 3,000, 6,000 and
    /// 12,000 milliseconds after the first, second and third failure; `clock` gives the time. It is
    /// [`handle_or_forward`].
    ///
    /// # Errors
    ///
    /// - `Diverged`: two of the keys have different owners.
    /// - `Nobody`: no member serves.
    /// - `RetriesSpent`: the fourth send failed too.
    /// - `HandlerFault`: the handler failed.
    /// - `Memory`: the node, the handler or the link ran out of memory.
    /// - `ForeignPass`, `PassSpent`: the lock refused the pass.
    pub fn request<R: Wait, A: HandlerMut, C: Clock>(
        &mut self,
        rt: &R,
        handler: &mut A,
        clock: &C,
        keys: Keys,
        body: Text,
    ) -> Result<Text, RequestError>
        ensures done { Done (IsRequest H.hash_of L.may_answer (between A.handled handler.old handler.new).once C.time keys body) (widened error_of_request result) self.old self.new }
        ensures sent { Over (SendsRequest H.hash_of L.went A.handled keys body (widened error_of_request result) handler.old handler.new) self.old self.new }
    {
        let alloc = self.alloc;
        let answer = handle_or_forward(
            rt, alloc, self.node, self.pass, self.link, handler, clock, keys, body,
        );
        answer.map_err(request_error)
    }
}

/// Single calls of the node.
impl<'m, H: PointHash, L: Link> Member<'m, H, L> {
    /// A copy of the node's ring, which names the owners of keys as the node did then, and takes no turn.
    ///
    /// # Errors
    ///
    /// - `Memory`: the copy ran out of memory.
    /// - `ForeignPass`, `PassSpent`: the lock refused the pass.
    pub fn view<R: Wait>(&mut self, rt: &R) -> Result<View<H>, CallError>
        ensures { Called H.hash_of OfView WithView (answer_of_call result) self.old self.new }
    {
        copied(self.node.view(rt, self.pass))
    }

    /// The node's own entry, as a change: its address, incarnation, status and weight.
    ///
    /// # Errors
    ///
    /// - `ForeignPass`, `PassSpent`: the lock refused the pass.
    pub fn own<R: Wait>(&mut self, rt: &R) -> Result<Change, LockError>
        ensures { Replied H.hash_of event.Own reply.Own result self.old self.new }
    {
        self.node.own(rt, self.pass)
    }

    /// The members that the node holds, itself among them, ascending by address.
    ///
    /// # Errors
    ///
    /// - `Memory`: the list ran out of memory.
    /// - `ForeignPass`, `PassSpent`: the lock refused the pass.
    pub fn members<R: Wait>(&mut self, rt: &R) -> Result<ChangeList, CallError>
        ensures { Replied H.hash_of event.Members reply.Members (answer_of_call result) self.old self.new }
    {
        copied(self.node.members(rt, self.pass))
    }

    /// The owner of a key: of the members that serve the nearest to it. None if and only if none serves. It takes no memory.
    ///
    /// # Errors
    ///
    /// - `ForeignPass`, `PassSpent`: the lock refused the pass.
    pub fn owner<R: Wait>(&mut self, rt: &R, key: &[u8]) -> Result<Option<Address>, LockError>
        ensures { Replied H.hash_of (event.Owner key.now) reply.Owner result self.old self.new }
    {
        self.node.owner(rt, self.pass, key)
    }

    /// Leaves the cluster: the node asserts so, and rounds and answers pass it on. Returns its entry after that, as a
    /// change.
    ///
    /// # Errors
    ///
    /// - `AlreadyLeft`: the node has left.
    /// - `Memory`: the node ran out of memory; it has not left then.
    /// - `ForeignPass`, `PassSpent`: the lock refused the pass.
    pub fn leave<R: Wait>(&mut self, rt: &R) -> Result<Change, LeaveError>
        ensures { Replied H.hash_of event.Leave reply.Leave (answer_of_leave result) self.old self.new }
    {
        left(self.node.leave(rt, self.pass))
    }

    /// Comes back after leaving, at the node's next incarnation. Returns its entry after that, as a change.
    ///
    /// # Errors
    ///
    /// - `NotLeft`: the node has not left.
    /// - `Exhausted`: no incarnation is left.
    /// - `Memory`: the node ran out of memory; it has still left then.
    /// - `ForeignPass`, `PassSpent`: the lock refused the pass.
    pub fn rejoin<R: Wait>(&mut self, rt: &R) -> Result<Change, RejoinError>
        ensures { Replied H.hash_of event.Rejoin reply.Rejoin (answer_of_rejoin result) self.old self.new }
    {
        rejoined(self.node.rejoin(rt, self.pass))
    }
}
