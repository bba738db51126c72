//! Calls of a node, one after another.
ghost use Rattle.std.specs.Prelude.{◌≡◌, ◌<◌, length, IfOk, IfErr, OnErr};
ghost use Rattle.node_core.specs.Agreement.{IsNodeOf};
ghost use Rattle.node_core.specs.Itself.{IsItself};
ghost use Rattle.node_core.specs.Run.{log, IsRun};
ghost use Rattle.node_core.specs.Step.{DrawStep, NodeStep};

use crate::events::{Event, Reply};
use crate::node::NodeState;
use crate::replies::{Replies, Run, RunRefused};
use hash_ring::PointHash;
use std::alloc::Global;

/// Makes these calls of a node, one after another. The node's members are then those of its log: those that it held at
/// first, each change that a call counted as taken, and each change that the node made itself, its refutations among
/// them. Its own address, its hash and its configuration stay.
///
/// # Errors
///
/// - `RunRefused`: out of memory for the list of replies; never without calls. No call was made, and the node is
///   returned unchanged.
pub fn run<H: PointHash>(
    alloc: Global,
    node: NodeState<H>,
    events: &[Event],
) -> Result<Run<H>, RunRefused<H>>
    ensures run { IfOk result (λ r. IsRun H.hash_of node.node events.now r.replies r.node.node) }
    ensures log { IfOk result (λ r. IsNodeOf H.hash_of r.node (log node.node.own node.node.members events.now r.replies)) }
    ensures itself { IfOk result (λ r. IsItself node.node r.node.node) }
    ensures each { IfOk result (λ r. length r.replies ≡ length events.now) }
    ensures refused { IfErr result (λ r. r.node ≡ node) }
    ensures out_of_memory { OnErr result (0 < length events.now) }
{
    let Ok(mut replies) = Vec::with_capacity(alloc, events.len()) else {
        return Err(RunRefused { node });
    };
    let mut node = node;
    // The proof knows the type's invariant where a field is read.
    let _ = &node.moment;
    for event in events {
        let reply = node.apply(event);
        replies.push_reserved(reply);
    }
    // The proof knows the type's invariant where a field is read.
    let _ = &node.moment;
    Ok(Run {
        node,
        replies: Replies::from_vec(replies),
    })
}

impl<H: PointHash> NodeState<H> {
    /// Makes the call that an event names, and returns its reply. Each call of a node has an event, but for `new`,
    /// `view` and `run`.
    pub fn apply(&mut self, event: &Event) -> Reply
        ensures step { NodeStep H.hash_of self.old.node event.now result self.new.node }
        ensures drawn { DrawStep self.old.node event.now result self.new.node }
    {
        match event {
            Event::Take(changes, moment) => Reply::Take(self.take(changes.as_slice(), *moment)),
            Event::Receive(message, moment) => Reply::Receive(self.receive(message, *moment)),
            Event::JoinMessage => Reply::JoinMessage(self.join_message()),
            Event::PingTo(target) => Reply::PingTo(self.ping_to(*target)),
            Event::PingReqTo { helper, target } => {
                Reply::PingReqTo(self.ping_req_to(*helper, *target))
            }
            Event::PingReqAckTo {
                requester,
                target,
                reached,
            } => Reply::PingReqAckTo(self.ping_req_ack_to(*requester, *target, *reached)),
            Event::Leave => Reply::Leave(self.leave()),
            Event::Rejoin => Reply::Rejoin(self.rejoin()),
            Event::Expire(moment) => Reply::Expire(self.expire(*moment)),
            Event::Probe => Reply::Probe(self.probe()),
            Event::Acked(number) => Reply::Acked(self.acked(*number)),
            Event::Lost(number, moment) => Reply::Lost(self.lost(*number, *moment)),
            Event::HelperSaid {
                number,
                helper,
                said,
                moment,
            } => Reply::HelperSaid(self.helper_said(*number, *helper, *said, *moment)),
            Event::Running => Reply::Running(self.running()),
            Event::Own => Reply::Own(self.own()),
            Event::Member(address) => Reply::Member(self.member(*address)),
            Event::Len => Reply::Len(self.len()),
            Event::Owner(key) => Reply::Owner(self.owner(key.as_slice())),
            Event::Owners(key, count) => Reply::Owners(self.owners(key.as_slice(), *count)),
            Event::Members => Reply::Members(self.members()),
            Event::DigestText => Reply::DigestText(self.digest_text()),
            Event::Digest => Reply::Digest(self.digest()),
        }
    }
}
