//! Theorems about the definitions, each the contract of a function that does nothing.
ghost use Rattle.std.specs.Prelude.{◌≡◌, ◌++◌, List, ℕ};
ghost use Rattle.change_core.specs.declared.changes.Change.{Change};
ghost use Rattle.change_core.specs.Members.{members, HaveSameChanges};
ghost use Rattle.rand_pcg.specs.Lcg.{Lcg};
ghost use Rattle.node_core.specs.Agreement.{AgreeOnAll, NodesAgree, NodesAnswerByLog};
ghost use Rattle.node_core.specs.Calls.{AllCallsKeepIt};
ghost use Rattle.node_core.specs.Configs.{IsConfig};
ghost use Rattle.node_core.specs.Invariant.{CallsKeepIt, IsNode};
ghost use Rattle.node_core.specs.Itself.{CallsLeaveItself};
ghost use Rattle.node_core.specs.Run.{MembersAreLog};
ghost use Rattle.node_core.specs.Synchronisation.{NodesSynchronise, TakesGreatest};
ghost use Rattle.node_core.specs.World.{WorldsAreTrue, initial_node};

use crate::configs::Config;
use hash_ring::PointHash;

/// Lists that hold the same changes, in any order, grouping and repetition, give the same members, owners and points.
pub fn merge()
    ensures same { (L K : List Change) → HaveSameChanges L K → AgreeOnAll L K }
    ensures grouped { (L K : List Change) → members (members L ++ K) ≡ members (L ++ K) }
{}

/// Nodes whose logs hold the same changes hold the same members, with one text and digest, name the same owners of
/// every key, and have the same ring, if they have one hash and one number of replica points; all else of them may
/// differ. The answers of each are those that the definitions give for its log.
pub fn agreement<H: PointHash>()
    ensures agree { NodesAgree H.hash_of }
    ensures by_log { NodesAnswerByLog H.hash_of }
{}

/// A batch that is processed whole leaves the greatest of both; of itself the receiver holds its refutation if it made
/// one. So a node that takes another's whole membership holds of every other address the greatest of both memberships.
pub fn synchronisation<H>()
    ensures batch { (own : ℕ) (log given : List Change) → TakesGreatest own log given }
    ensures nodes { NodesSynchronise H }
{}

/// After any calls of a node, its members are those of its log.
pub fn node_run<H: PointHash>()
    ensures { MembersAreLog H.hash_of }
{}

/// No call changes a node's own address, its hash or its configuration, nor does the making of a view.
pub fn identity<H: PointHash>()
    ensures { CallsLeaveItself H.hash_of }
{}

/// A new node satisfies the invariant, and every call keeps it.
pub fn node_invariant<H: PointHash>()
    ensures begins { (hash : H) (config : Config) (own incarnation moment : ℕ) (generator : Lcg)
        → IsConfig config → IsNode (initial_node hash config own incarnation moment generator) }
    ensures keeps { CallsKeepIt H.hash_of }
    // And so does the making of a view.
    ensures views { AllCallsKeepIt H.hash_of }
{}

/// After any events of nodes and messages, every entry that a node or a message holds is one that its address asserted, or rests
/// on one.
pub fn world<H: PointHash>()
    ensures { WorldsAreTrue H.hash_of }
{}
