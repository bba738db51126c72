//! Theorems about several nodes and about whole systems, each the contract of a function that does nothing: a call of it gives the caller's proof
//! its theorem.
//!
//! Of several nodes: those that exchange what they hold converge, also over messages that are late, lost, repeated or in any order, and after
//! rounds of pings; nodes that name different owners of a key differ about one of the two; no node is suspected without a witness; a member that
//! left stays out. Of whole systems: nodes that threads share make a world; what they read of a member never goes back; every member is probed in
//! 2n - 1 rounds; nodes of a script with the same changes are answered alike; of nodes whose views name owners alike one handles a request.
#![tactic(auto)]

ghost use Rattle.std.specs.Prelude.{ℕ, List};
ghost use Rattle.laws.specs.Closing.{ClosedNodesAreShared, PassesReadForward};
ghost use Rattle.laws.specs.Completeness.{MembersAreProbed, PassesProbe};
ghost use Rattle.laws.specs.Convergence.{CallsTake, ConvergedAgree, NodesConverge, SweepsConverge};
ghost use Rattle.laws.specs.Delivery.{NetworksConverge};
ghost use Rattle.laws.specs.Disagreement.{ViewsDisagree, ViewsAgree, ViewsShareOrder, NodesDisagree, NodesAgreeOnOwner};
ghost use Rattle.laws.specs.Ending.{RepliesAreDone, TextsAreDone};
ghost use Rattle.laws.specs.Leaving.{LeaversStayOut};
ghost use Rattle.laws.specs.Owning.{HandlersDiffer, OneHandles, OthersDoNot};
ghost use Rattle.laws.specs.Partition.{PartitionsHeal};
ghost use Rattle.laws.specs.Reading.{HistoriesReadForward};
ghost use Rattle.laws.specs.Reconciliation.{NodesReconcile, ReconciledAgree};
ghost use Rattle.laws.specs.Rounds.{EntriesSize, RoundsConverge, StretchesConverge};
ghost use Rattle.laws.specs.Scripts.{RunsArePlays, ScriptsAgree};
ghost use Rattle.laws.specs.Sharing.{SharedNodesAreWorlds};
ghost use Rattle.laws.specs.Witnesses.{NoneWithoutWitness};
ghost use Rattle.laws.specs.Worlds.{WorldsConverge};

use hash_ring::PointHash;
use peer_core::{HandlerMut, Link};

/// Two nodes exchange all that they hold: one takes all of the other, the other then all of the one, and the one again
/// all of the other, each taken whole. Both then hold the same members: of every third address the greatest of what
/// both held, and of themselves what each asserts. They name the same owners of every key and have the same ring and
/// digest, if they have one hash and one number of replica points.
///
/// Three exchanges are needed only if the second made the other refute something: after it the one does not know of
/// that yet. `convergence` states the same of any number of nodes, but not when two exchanges are enough.
pub fn reconciliation<H: PointHash>()
    ensures reconciled { NodesReconcile H }
    ensures agree { ReconciledAgree H.hash_of }
{}

/// Nodes converge. Any number of nodes exchange what they hold: in each exchange one node takes the members of another, the whole or
/// only a part. If each node first gathers from all nodes and then broadcasts to all, directly or through others, all hold the
/// same members in the end:
///
/// - of each node what it holds of itself: that it is alive, or that it has left, as at the start. No rumour against it is left.
/// - of every other address the greatest change that any node held at the start.
///
/// To gather, a node needs a path of whole exchanges from every node; to broadcast, one to every node, after that. An exchange is
/// whole if the taker then holds nothing less than the giver. Every node is at its own address, and is as a node is between two
/// calls. No node starts, leaves, rejoins, suspects a member or lets an entry expire in between: each of these is a new change, and
/// nodes have to gather and broadcast again. Other calls do no harm, nor does an exchange that is stopped by memory or by a full
/// member list: it takes only a part. That nodes meet, and how soon, is a premise.
pub fn convergence<H: PointHash>()
    ensures converge { NodesConverge H }
    // Two sweeps are enough: in each, every node takes the whole of every other, in any order.
    ensures sweeps { SweepsConverge H }
    // Converged nodes agree on owners, ring and digest, if they have one hash and one number of replica points.
    ensures agree { ConvergedAgree H.hash_of }
    // Every call of a node but those that make a new change merges the changes that it counts as taken, and no others.
    ensures calls { CallsTake H.hash_of }
    // Nodes converge too where messages are late, lost, repeated or in any order: a path then leads from node to message to node.
    ensures delivered { NetworksConverge H }
    // So they do in every run of a world whose calls make no new change.
    ensures worlds { WorldsConverge H.hash_of }
    // So does a cluster that was parted in two: in each of two turns every node takes the whole of the others of its side, and then of one of
    // the other side.
    ensures partitions { PartitionsHeal H }
    // Nodes converge in rounds of pings, in which every node pings every other and none is lost, if no two member lists have one digest.
    // `enough_rounds` says in how many, by what is news to a node, what it has pending, and how often it passes a change on. No incarnation
    // counts, and more nodes make it no more. Between pings nothing changes a node, so no probe begins or ends there.
    ensures rounds { RoundsConverge H.hash_of }
    // What is news is at most twice the different entries that are held, if all about one address have one weight.
    ensures sizes { EntriesSize H }
    // So they do where pings and acks are lost, in as many stretches in each of which every node pings every other and is acknowledged.
    ensures lossy { StretchesConverge H.hash_of }
{}

/// A member that left stays out. In every world, a node that holds an address as left, or as a tombstone, continues to
/// hold it so, at the same incarnation, until the address asserts a later incarnation: when it rejoins, refutes or
/// restarts. Until then the address is not one of that node's servers, and owns no key there. A node that restarts
/// itself forgets what it held.
pub fn leaver_stays_out<H: PointHash>()
    ensures { LeaversStayOut H.hash_of }
{}

/// No suspicion without a witness. In every world, a suspect entry that a node holds or passes on, or that a message
/// carries, goes back to a verdict of another node about its own probe of that address; right before, that node held
/// the address as alive at the same incarnation. A faulty entry goes back to an `expire` of such a suspect entry by
/// another node: at least `suspect_ms` after the moment of the call in which that node took the entry, with no restart
/// between. A tombstone likewise goes back to a faulty entry, after `faulty_ms`. A node's moment is the latest that it
/// was given; both waits are those of that node's configuration.
pub fn suspicion_has_a_witness<H: PointHash>()
    ensures { NoneWithoutWitness H.hash_of }
{}

/// Confined disagreement of two views, or two nodes, with one hash and one number of replica points. If they name
/// different owners of a key, then one of these two owners has less weight in the view that does not name it: the node
/// of that view holds no change about it, one that is neither alive nor suspect, or one of less weight. So if two nodes
/// hold the owner that each of them names with the same weight, alive or suspect, they name one owner, whatever else
/// they hold. Servers with the same weights in both views have one order among the owners of both.
pub fn confined_disagreement<H: PointHash>()
    ensures views { ViewsDisagree H.hash_of }
    ensures views_agree { ViewsAgree H.hash_of }
    ensures one_order { ViewsShareOrder H.hash_of }
    ensures nodes { NodesDisagree H.hash_of }
    ensures nodes_agree { NodesAgreeOnOwner H.hash_of }
{}

/// The world of shared nodes. Nodes at different addresses are each shared by threads, and then closed. Take one order of all their
/// calls that has the history of each node, and in which each message is received after one of the nodes made it. That order is a run
/// of a world: it leaves these nodes and messages, whatever the threads did. So all theorems about worlds hold of shared nodes; in
/// particular each entry that a node holds, or a message tells, was asserted by its address or rests on such an entry, and each entry
/// against a member has a witness.
///
/// Every node is made new and never starts again, and takes no changes but those of messages that these nodes made.
pub fn shared_world<H: PointHash>()
    ensures worlds { SharedNodesAreWorlds H.hash_of }
    // closing a locked node gives such a shared node
    ensures closed { ClosedNodesAreShared H.hash_of }
{}

/// Reads of a member never go back: after a call of `member` found an entry, each later one finds that entry or one that
/// exceeds it, and never none. So it is in the history of a node, whichever passes read, and so in the calls of one pass.
pub fn monotonic_reads<H: PointHash>()
    ensures histories { HistoriesReadForward H.hash_of }
    ensures passes { PassesReadForward H.hash_of }
{}

/// Every member is probed in 2n - 1 rounds: the time-bounded completeness of SWIM. Take 2n - 1 calls of `gossip_round` or
/// `correcting_round` by one pass, in any order and none of them refused, while the node has the same n members to ping at each
/// probe, and no other pass begins one. Between these rounds the pass makes any calls that begin no probe: look-ups, say,
/// messages that it serves, `heal`, or joins. So it is with the rounds of a server or an agent, whether it heals or not. A member
/// of which no Ack is taken in these rounds, and which no helper is said to have reached, is found: one round ends with it as
/// suspected, or as one of which no helper could tell. No premise is on time or on delivery.
pub fn completeness<H: PointHash, L: Link>()
    ensures histories { MembersAreProbed H.hash_of L.may_answer }
    // the same of what a pass has seen since, while it made that many rounds
    ensures passes { PassesProbe H.hash_of L.may_answer }
{}

/// A script's agreement, bytes to bytes. A run of `sim` whose lines are all answered is a play of commands: its input's lines in their
/// order, and its output their answers. In it a question about members, their digest or the owners of a key has the same line as its answer
/// from any two nodes whose logs, by the lines above each question, hold the same changes. So it is for every hash and number of points.
pub fn script_agreement<H>()
    ensures runs { (hash_of : H → List ℕ → ℕ) → RunsArePlays hash_of }
    ensures agree { (hash_of : H → List ℕ → ℕ) → ScriptsAgree hash_of }
{}

/// One owner, whichever node a request enters at. A node that is given a request, by a Forward or by its own service, does not call its
/// handler unless it owns each of the keys among the servers that its views name. So of all nodes whose views name owners by the same
/// hash, number of points and servers, at most one calls its handler for a key, however often each is asked. And two nodes that both
/// do know different things of one of the two: the first has less weight in the other's list than in its own, or the second in the first's.
///
/// That a handler was not called is seen in two ways: it is unchanged, and what the node did, all its calls of itself and over its link
/// with its answer, is also what it does with a handler of which no call can be shown. The second says so of a handler, too, that
/// others share, and that is never seen to change.
pub fn one_owner<H: PointHash, L: Link, A: HandlerMut>()
    ensures others { OthersDoNot H.hash_of L.may_answer L.went A.handled }
    ensures one { OneHandles H.hash_of L.may_answer L.went A.handled }
    ensures differ { HandlersDiffer H.hash_of L.may_answer L.went A.handled }
{}

/// The end of a request that has a text, whichever node it enters at, over any link. First fewer than four Forwards of it fail. Then
/// either the node owns the keys by its last view, and its handler is called, once, and gives the text; or its handler is not called, and
/// one Forward more goes to the owner of the keys by that view, for which a Reply with the text comes. If no Forward failed, no other was
/// sent.
///
/// A node that answers a Forward by a Reply owns its keys by a view of its own, and calls its handler for it, once, which gives that text. So
/// whichever node made the Reply for such a Forward, the one that was called or one that passed it on as its own, did the request so. Its
/// handler may be of another kind, `B`. That the Reply was made by a node at all, and for this Forward, is for the link to say.
pub fn done_once<H: PointHash, L: Link, A: HandlerMut, B: HandlerMut>()
    ensures replies { RepliesAreDone H.hash_of L.may_answer B.handled }
    ensures texts { TextsAreDone H.hash_of L.may_answer L.went A.handled B.handled }
{}
