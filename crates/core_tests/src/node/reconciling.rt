//! Reconciliation from end to end: two nodes that exchange all that they hold, and the theorem about them.
ghost use Rattle.std.specs.Prelude.{◌≡◌, ◌≢◌, IfSome, map};
ghost use Rattle.member_core.specs.Membership.{said_by};
ghost use Rattle.node_core.specs.Agreement.{Agree};
ghost use Rattle.change_core.specs.Change.{change_of};
ghost use Rattle.laws.specs.Reconciliation.{TakesAllOf};

use crate::calls::{Call, Calls, Told};
use crate::node::played::check_calls;
use crate::shared::{A, B, C, D, E, Row, check_refused, found, hear, moment, node};
use change_core::{Change, Moment, Sourced, Status};
use hash_ring::PointHash;
use laws::reconciliation;
use node_core::{NodeState, Taken};
use std::alloc::Global;
use wire_json::Changes;

/// Each of these changes with one node as its source.
fn said_by(alloc: Global, own: &Change, changes: &[Change]) -> Option<Vec<Sourced>>
    ensures { IfSome result (λ v. v.items ≡ map (said_by own.now) changes.now) }
{
    let mut said = Vec::with_capacity(alloc, changes.len()).ok()?;
    for change in changes {
        said.push_reserved(Sourced {
            change: *change,
            source: own.address,
            source_incarnation: own.incarnation,
        });
    }
    Some(said)
}

/// All that a node holds, as it sends it. None if an allocation failed.
pub(super) fn all_of<H: PointHash>(alloc: Global, giver: &NodeState<H>) -> Option<Changes>
    ensures { IfSome result (λ changes. map change_of changes ≡ giver.now.node.members) }
{
    let Ok(members) = giver.members() else {
        return None;
    };
    let own = giver.own();
    let said = said_by(alloc, &own, members.as_slice())?;
    let Ok(changes) = Changes::from_vec(said) else {
        return None;
    };
    Some(changes)
}

/// One node takes all that another holds. None if an allocation failed.
pub(super) fn take_all_of<H: PointHash>(
    alloc: Global,
    taker: &mut NodeState<H>,
    giver: &NodeState<H>,
    now: Moment,
) -> Option<Taken>
    ensures { IfSome result (λ taken. TakesAllOf taker.old.node giver.now.node taker.new.node) }
{
    let given = all_of(alloc, giver)?;
    taker.take(given.as_slice(), now).ok()
}

/// Two nodes exchange all that they hold, in three exchanges. If no allocation failed they agree, if they have
/// different addresses, one hash and one number of replica points.
fn reconcile<H: PointHash>(
    alloc: Global,
    one: &mut NodeState<H>,
    other: &mut NodeState<H>,
    now: Moment,
) -> Option<[Taken; 3]>
    ensures { IfSome result (λ taken. one.old.node.own ≢ other.old.node.own → one.old.node.hash ≡ other.old.node.hash
        → one.old.node.config.replicas ≡ other.old.node.config.replicas
        → Agree H.hash_of one.new other.new) }
{
    reconciliation::<H>();
    // What holds of a node between any two calls is known where its length is asked.
    let _ = (one.len(), other.len());
    let first = take_all_of(alloc, one, other, now)?;
    let second = take_all_of(alloc, other, one, now)?;
    let third = take_all_of(alloc, one, other, now)?;
    let _ = (one.len(), other.len());
    Some([first, second, third])
}

/// The expected result of an exchange: how many entries it altered, and how many of them it refuted.
fn came_to(applied: usize, refuted: usize) -> Taken {
    Taken { applied, refuted }
}

/// The rumours that 10.0.0.1:1 receives at first.
const HEARD_BY_ONE: [Row; 3] =
    rows! { B, 1, Status::Suspect; C, 2, Status::Suspect; D, 4, Status::Alive; };

/// The rumours that 10.0.0.2:1 receives at first.
const HEARD_BY_OTHER: [Row; 3] =
    rows! { A, 7, Status::Faulty; C, 3, Status::Alive; E, 1, Status::Leave; };

/// What both nodes hold in the end.
const HELD: Calls = calls! { "held":
    Call::Text, Told::Text("10.0.0.1:1alive8;10.0.0.2:1alive2;10.0.0.3:1alive3;10.0.0.4:1alive4;10.0.0.5:1leave1");
    Call::Owner("zzzz3"), Told::Owner(D);
};

/// A at 7 holds (B,1,suspect), (C,2,suspect) and (D,4,alive), and B at 1 holds (A,7,faulty), (C,3,alive) and (E,1,leave). A takes all
/// that B holds: 3 applied, 1 refuted; B all that A holds: the same; A once more: 1 applied. Both hold (A,8,alive), (B,2,alive),
/// (C,3,alive), (D,4,alive), (E,1,leave), and name D for `zzzz3`, by sum; the three exchanges again alter nothing. The calls and the law
/// that ties the nodes stand in one function (`reconcile`).
#[test]
fn two_nodes_reconcile(rt: HostRuntime) {
    let (mut one, mut other) = (node(&rt, A, 7), node(&rt, B, 1));
    for row in &HEARD_BY_ONE {
        hear(&rt, &mut one, *row, 0);
    }
    for row in &HEARD_BY_OTHER {
        hear(&rt, &mut other, *row, 0);
    }
    let now = moment(&rt, 1);
    // Each has received a rumour of itself from the other, and refutes it when that one sends it. The other receives the last refutation of the
    // one by the third exchange alone.
    let taken = reconcile(rt.alloc(), &mut one, &mut other, now);
    match taken {
        None => check_refused(&rt),
        Some(taken) => assert!(&rt; taken == [came_to(3, 1), came_to(3, 1), came_to(1, 0)]),
    }
    let again = found!(&rt, reconcile(rt.alloc(), &mut one, &mut other, now));
    assert!(&rt; taken.is_none() || again == [came_to(0, 0); 3]);
    check_calls(&rt, &mut one, HELD);
    check_calls(&rt, &mut other, HELD);
}
