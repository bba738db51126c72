//! The node as one thread calls it, and the passes that no thread has.
ghost use Rattle.std.specs.Prelude.{◌≡◌, ◌<◌, ◌↔◌, ◌∷◌, [], IfNone, IfSome, IsTrue, vec_capacity, vec_len};
ghost use Rattle.std.specs.Arc.{arc_value};
ghost use Rattle.std.specs.List.{All};
ghost use Rattle.locked_node.specs.Passes.{Fits};
ghost use Rattle.node_core.specs.declared.events.Event.TheVariants as call;
ghost use Rattle.node_core.specs.declared.events.Reply.TheVariants as reply;
ghost use Rattle.peer_core.specs.Acts.{Makes};
ghost use Rattle.peer_core.specs.Exchanges.{SendsByDraws, SendsTo, SendsToPinged};
ghost use Rattle.peer_core.specs.Joining.{IsJoin};
ghost use Rattle.peer_core.specs.Parts.{Calls, Does, Tries};
ghost use Rattle.hash_ring.specs.Points.{hash_of};
ghost use Rattle.agent_node.specs.Calling.{Looks};
ghost use Rattle.line_service.specs.Answering.{IsSilent, Responds};
ghost use Rattle.peer_core.specs.Correcting.{IsCorrectingRound};
ghost use Rattle.peer_core.specs.Forwarding.{IsRequest};
ghost use Rattle.peer_core.specs.Handling.{between};
ghost use Rattle.peer_core.specs.Healing.{IsHealing, after_round};
ghost use Rattle.peer_core.specs.Resending.{SendsRequest};
ghost use Rattle.peer_core.specs.Rounds.{IsRound};
ghost use Rattle.turn_lock.specs.Passes.{left_of};

use change_core::{Address, Change, Digest, Entry, Moment};
use hash_ring::Sha256Hash;
use line_service::{Input, respond};
use locked_node::{LockedNode, NodePass};
use message_core::{Keys, Text};
use node_core::{ChangeList, View};
use peer_core::{
    Clock, ClusterError, HandlerMut, Healing, Link, Member, Round, allowed, correcting_round,
    gossip_round, handle_or_forward, heal, join, let_in,
};
use std::alloc::Global;
use std::marker::Model;
use std::sync::{Arc, Wait};

/// The node of an agent.
pub type Node = LockedNode<Sha256Hash>;

/// Returns the line that answers an input by a node and a pass, with room for its newline; None if it needs no answer, or none
/// could be made.
fn respond_by<R: Wait, L: Link, A: HandlerMut>(
    rt: &R,
    alloc: Global,
    node: &Node,
    pass: &mut NodePass<Sha256Hash>,
    link: &mut L,
    handler: &mut A,
    now: Moment,
    input: &Input,
) -> Option<Vec<u8>>
    requires { Fits node.now pass.old }
    ensures sent { IfSome result (λ line. Makes node.now (Responds hash_of L.may_answer (between A.handled handler.old handler.new) now input.now line.items) pass.old pass.new) }
    ensures room { IfSome result (λ line. vec_len line < vec_capacity line) }
    ensures silent { IfNone result (IsSilent hash_of L.may_answer (between A.handled handler.old handler.new) now input.now node.now pass.old pass.new) }
    ensures fits { Fits node.now pass.new }
{
    let mut member = Member::new(node, pass, link, alloc);
    let line = respond(rt, alloc, &mut member, handler, now, input);
    let _pass = member.into_pass();
    line
}

/// The node, and the pass by which one thread calls it.
#[derive(Drop)]
pub struct Caller {
    node: Arc<Node, Global>,
    pass: NodePass<Sha256Hash>,
}

impl Model for Caller {
    ghost use Rattle.std.specs.Arc.{arc_value};
    ghost use Rattle.locked_node.specs.Passes.{Fits};
    ghost use Rattle.agent_node.specs.Calling.{Calling};

    ghost Value = { Calling };

    ghost view = { λ c. record { node = arc_value c.node; pass = c.pass } };

    ghost invariant = { λ c. Fits (arc_value c.node) c.pass };
}

impl Caller {
    /// Returns whether the pass has made all its calls: it has to be replaced.
    pub fn is_spent(&self) -> bool
        ensures { IsTrue result ↔ (left_of self.now.pass ≡ 0) }
    {
        self.pass.left() == 0
    }

    /// Makes one round of gossip at a moment, and returns how it ended.
    ///
    /// # Errors
    ///
    /// The effect of the calls before stays.
    ///
    /// - `ForeignPass`: the pass has another node's name.
    /// - `PassSpent`: the pass has made all its calls.
    /// - `Memory`: out of memory, here or in the link.
    /// - `Busy`: a probe still runs after the one that ran was completed.
    /// - `Spent`: no probe number is left.
    /// - `StaleProbe`, `NotAsked`: another pass ended the probe, or answered for its helper, in the meantime.
    pub fn round<R: Wait, L: Link>(
        &mut self,
        rt: &R,
        alloc: Global,
        link: &mut L,
        now: Moment,
    ) -> Result<Round, ClusterError>
        ensures node { self.new.node ≡ self.old.node }
        ensures did { Does self.old.node (IsRound L.may_answer now) result self.old.pass self.new.pass }
        ensures sent { Makes self.old.node (SendsTo L.went [] link.old link.new) self.old.pass self.new.pass }
    {
        gossip_round(rt, alloc, &*self.node, &mut self.pass, link, now)
    }

    /// Makes one round of gossip that corrects its target, and returns how it ended. It is [`correcting_round`].
    ///
    /// # Errors
    ///
    /// The effect of the calls before stays.
    ///
    /// - `ForeignPass`: the pass has another node's name.
    /// - `PassSpent`: the pass has made all its calls.
    /// - `Memory`: out of memory, here or in the link.
    /// - `Busy`: a probe still runs after the one that ran was completed.
    /// - `Spent`: no probe number is left.
    /// - `StaleProbe`, `NotAsked`: another pass ended the probe, or answered for its helper, in the meantime.
    pub fn correcting_round<R: Wait, L: Link>(
        &mut self,
        rt: &R,
        alloc: Global,
        link: &mut L,
        now: Moment,
    ) -> Result<Round, ClusterError>
        ensures node { self.new.node ≡ self.old.node }
        ensures did { Does self.old.node (IsCorrectingRound L.may_answer now) result self.old.pass self.new.pass }
        ensures sent { Makes self.old.node (SendsToPinged L.went link.old link.new) self.old.pass self.new.pass }
    {
        correcting_round(rt, alloc, &*self.node, &mut self.pass, link, now)
    }

    /// Heals a cluster whose members parted; to be called after each round, at its moment. It is [`heal`]. Returns whether a
    /// host answered by a Joined.
    ///
    /// # Errors
    ///
    /// The effect of the calls before stays.
    ///
    /// - `ForeignPass`: the pass has another node's name.
    /// - `PassSpent`: the pass has made all its calls.
    /// - `Memory`: out of memory, here or in the link.
    pub fn heal<R: Wait, L: Link>(
        &mut self,
        rt: &R,
        alloc: Global,
        link: &mut L,
        now: Moment,
        healing: &mut Healing<'_>,
    ) -> Result<bool, ClusterError>
        ensures node { self.new.node ≡ self.old.node }
        ensures did { Does self.old.node (IsHealing L.may_answer now healing.old.hosts (after_round healing.old).0) result self.old.pass self.new.pass }
        ensures sent { Makes self.old.node (SendsByDraws L.went healing.old.hosts (after_round healing.old).0 link.old link.new) self.old.pass self.new.pass }
        ensures healing { healing.new ≡ (after_round healing.old).1 }
    {
        heal(rt, alloc, &*self.node, &mut self.pass, link, now, healing)
    }

    /// Sends a Join to one host, and processes its Joined at a moment. Returns 1, the number of hosts that answered.
    ///
    /// # Errors
    ///
    /// The effect of the calls before stays.
    ///
    /// - `ForeignPass`: the pass has another node's name.
    /// - `PassSpent`: the pass has made all its calls.
    /// - `Memory`: out of memory, here or in the link.
    /// - `NoneJoined`: the host did not answer by a Joined.
    pub fn join<R: Wait, L: Link>(
        &mut self,
        rt: &R,
        alloc: Global,
        link: &mut L,
        host: Address,
        now: Moment,
    ) -> Result<u32, ClusterError>
        ensures node { self.new.node ≡ self.old.node }
        ensures did { Does self.old.node (IsJoin L.may_answer now (host ∷ [])) result self.old.pass self.new.pass }
        ensures sent { Makes self.old.node (SendsTo L.went (host ∷ []) link.old link.new) self.old.pass self.new.pass }
    {
        join(rt, alloc, &*self.node, &mut self.pass, link, &[host], now)
    }

    /// Returns the line that answers the input from another node, with room for its newline; None if it needs no answer, or
    /// none could be made.
    pub fn respond<R: Wait, L: Link, A: HandlerMut>(
        &mut self,
        rt: &R,
        alloc: Global,
        link: &mut L,
        handler: &mut A,
        now: Moment,
        input: &Input,
    ) -> Option<Vec<u8>>
        ensures node { self.new.node ≡ self.old.node }
        ensures sent { IfSome result (λ line. Makes self.old.node (Responds hash_of L.may_answer (between A.handled handler.old handler.new) now input.now line.items) self.old.pass self.new.pass) }
        ensures room { IfSome result (λ line. vec_len line < vec_capacity line) }
        ensures silent { IfNone result (IsSilent hash_of L.may_answer (between A.handled handler.old handler.new) now input.now self.old.node self.old.pass self.new.pass) }
    {
        respond_by(
            rt,
            alloc,
            &*self.node,
            &mut self.pass,
            link,
            handler,
            now,
            input,
        )
    }

    /// Returns the answer to a request of these keys with this body: by the handler if this node owns the keys, else by the
    /// node that does, to which the request is sent.
    ///
    /// # Errors
    ///
    /// The effect of the calls before stays. The keys and the body are dropped.
    ///
    /// - `Diverged`: two of the keys have different owners.
    /// - `Nobody`: no member serves.
    /// - `RetriesSpent`: the fourth send failed too.
    /// - `HandlerFault`: the handler failed.
    /// - `Memory`: out of memory, here, in the handler or in the link.
    /// - `ForeignPass`: the pass has another node's name.
    /// - `PassSpent`: the pass has made all its calls.
    pub fn request<R: Wait, L: Link, A: HandlerMut, C: Clock>(
        &mut self,
        rt: &R,
        alloc: Global,
        link: &mut L,
        handler: &mut A,
        clock: &C,
        keys: Keys,
        body: Text,
    ) -> Result<Text, ClusterError>
        ensures node { self.new.node ≡ self.old.node }
        ensures did { Does self.old.node (IsRequest hash_of L.may_answer (between A.handled handler.old handler.new).once C.time keys body) result self.old.pass self.new.pass }
        ensures sent { Makes self.old.node (SendsRequest hash_of L.went A.handled keys body result handler.old handler.new link.old link.new) self.old.pass self.new.pass }
    {
        handle_or_forward(
            rt,
            alloc,
            &*self.node,
            &mut self.pass,
            link,
            handler,
            clock,
            keys,
            body,
        )
    }

    /// Returns a copy of the node's ring.
    ///
    /// # Errors
    ///
    /// The node is unchanged.
    ///
    /// - `ForeignPass`: the pass has another node's name. This is checked first.
    /// - `PassSpent`: the pass has made all its calls.
    /// - `Memory`: out of memory for the copy.
    pub fn view<R: Wait>(&mut self, rt: &R) -> Result<View<Sha256Hash>, ClusterError>
        ensures node { self.new.node ≡ self.old.node }
        ensures did { Does self.old.node Looks result self.old.pass self.new.pass }
    {
        allowed(self.node.view(rt, &mut self.pass))
    }

    /// Returns the node's own entry, as a change.
    ///
    /// # Errors
    ///
    /// The node and the pass are unchanged.
    ///
    /// - `ForeignPass`: the pass has another node's name. This is checked first.
    /// - `PassSpent`: the pass has made all its calls.
    pub fn own<R: Wait>(&mut self, rt: &R) -> Result<Change, ClusterError>
        ensures node { self.new.node ≡ self.old.node }
        ensures did { Does self.old.node (Calls call.Own reply.Own) result self.old.pass self.new.pass }
    {
        let_in(self.node.own(rt, &mut self.pass))
    }

    /// Returns the entry that the node holds of an address; None if it holds none.
    ///
    /// # Errors
    ///
    /// The node and the pass are unchanged.
    ///
    /// - `ForeignPass`: the pass has another node's name. This is checked first.
    /// - `PassSpent`: the pass has made all its calls.
    pub fn member<R: Wait>(
        &mut self,
        rt: &R,
        address: Address,
    ) -> Result<Option<Entry>, ClusterError>
        ensures node { self.new.node ≡ self.old.node }
        ensures did { Does self.old.node (Calls (call.Member address) reply.Member) result self.old.pass self.new.pass }
    {
        let_in(self.node.member(rt, &mut self.pass, address))
    }

    /// Returns how many members the node holds.
    ///
    /// # Errors
    ///
    /// The node and the pass are unchanged.
    ///
    /// - `ForeignPass`: the pass has another node's name. This is checked first.
    /// - `PassSpent`: the pass has made all its calls.
    pub fn len<R: Wait>(&mut self, rt: &R) -> Result<usize, ClusterError>
        ensures node { self.new.node ≡ self.old.node }
        ensures did { Does self.old.node (Calls call.Len reply.Len) result self.old.pass self.new.pass }
    {
        let_in(self.node.len(rt, &mut self.pass))
    }

    /// Returns the members that the node holds, ascending by address.
    ///
    /// # Errors
    ///
    /// The node is unchanged.
    ///
    /// - `ForeignPass`: the pass has another node's name. This is checked first.
    /// - `PassSpent`: the pass has made all its calls.
    /// - `Memory`: out of memory for the list.
    pub fn members<R: Wait>(&mut self, rt: &R) -> Result<ChangeList, ClusterError>
        ensures node { self.new.node ≡ self.old.node }
        ensures did { Does self.old.node (Tries call.Members reply.Members) result self.old.pass self.new.pass }
    {
        allowed(self.node.members(rt, &mut self.pass))
    }

    /// Returns the digest of the members.
    ///
    /// # Errors
    ///
    /// The node is unchanged.
    ///
    /// - `ForeignPass`: the pass has another node's name. This is checked first.
    /// - `PassSpent`: the pass has made all its calls.
    /// - `Memory`: out of memory for the digest's text.
    pub fn digest<R: Wait>(&mut self, rt: &R) -> Result<Digest, ClusterError>
        ensures node { self.new.node ≡ self.old.node }
        ensures did { Does self.old.node (Tries call.Digest reply.Digest) result self.old.pass self.new.pass }
    {
        allowed(self.node.digest(rt, &mut self.pass))
    }

    /// Leaves the cluster. Returns the node's new own entry, as a change.
    ///
    /// # Errors
    ///
    /// The node is unchanged.
    ///
    /// - `ForeignPass`: the pass has another node's name. This is checked first.
    /// - `PassSpent`: the pass has made all its calls.
    /// - `AlreadyLeft`: the node has left.
    /// - `Memory`: out of memory.
    pub fn leave<R: Wait>(&mut self, rt: &R) -> Result<Change, ClusterError>
        ensures node { self.new.node ≡ self.old.node }
        ensures did { Does self.old.node (Tries call.Leave reply.Leave) result self.old.pass self.new.pass }
    {
        allowed(self.node.leave(rt, &mut self.pass))
    }

    /// Comes back after leaving. Returns the node's new own entry, as a change.
    ///
    /// # Errors
    ///
    /// The node is unchanged.
    ///
    /// - `ForeignPass`: the pass has another node's name. This is checked first.
    /// - `PassSpent`: the pass has made all its calls.
    /// - `NotLeft`: the node has not left.
    /// - `Exhausted`: its incarnation is the greatest.
    /// - `Memory`: out of memory.
    pub fn rejoin<R: Wait>(&mut self, rt: &R) -> Result<Change, ClusterError>
        ensures node { self.new.node ≡ self.old.node }
        ensures did { Does self.old.node (Tries call.Rejoin reply.Rejoin) result self.old.pass self.new.pass }
    {
        allowed(self.node.rejoin(rt, &mut self.pass))
    }
}

/// The passes of a node that no thread has yet.
#[derive(Drop)]
pub struct Passes {
    node: Arc<Node, Global>,
    passes: Vec<NodePass<Sha256Hash>>,
}

impl Model for Passes {
    ghost use Rattle.std.specs.Arc.{arc_value};
    ghost use Rattle.std.specs.List.{All};
    ghost use Rattle.locked_node.specs.Passes.{Fits};
    ghost use Rattle.agent_node.specs.Calling.{Unused};

    ghost Value = { Unused };

    ghost view = { λ p. record { node = arc_value p.node; passes = p.passes.items } };

    ghost invariant = { λ p. All (Fits (arc_value p.node)) p.passes.items };
}

/// Removes and returns the last of the passes.
fn take_pass(node: &Node, passes: &mut Vec<NodePass<Sha256Hash>>) -> Option<NodePass<Sha256Hash>>
    requires { All (Fits node.now) passes.old.items }
    ensures fits { IfSome result (Fits node.now) }
    ensures rest { All (Fits node.now) passes.new.items }
{
    passes.pop()
}

impl Passes {
    /// Makes the collection of these passes of a node.
    pub fn new(node: Arc<Node, Global>, passes: Vec<NodePass<Sha256Hash>>) -> Self
        requires { All (Fits (arc_value node)) passes.items }
        ensures node { result.node ≡ arc_value node }
        ensures passes { result.passes ≡ passes.items }
    {
        Passes { node, passes }
    }

    /// Returns the node with the next pass; None if no pass is left, or the node has too many handles for another.
    pub fn next(&mut self) -> Option<Caller>
        ensures node { IfSome result (λ c. c.node ≡ self.old.node) }
        ensures kept { self.new.node ≡ self.old.node }
    {
        let node = Arc::try_clone(&self.node).ok()?;
        let pass = take_pass(&self.node, &mut self.passes)?;
        Some(Caller { node, pass })
    }
}
