//! Agreement from end to end: two runs, and the theorem about their nodes.
ghost use Rattle.std.specs.Prelude.{◌≡◌, IfSome};
ghost use Rattle.change_core.specs.Members.{HaveSameChanges};
ghost use Rattle.node_core.specs.Agreement.{Agree};
ghost use Rattle.node_core.specs.Run.{log};

use crate::calls::{Call, Calls, Told};
use crate::node::played::{check_calls, events, tell};
use crate::shared::{A, B, C, Host, found, node};
use change_core::Status;
use hash_ring::{PointHash, SumHash};
use node_core::laws::agreement;
use node_core::{Event, NodeState, Run, run};
use std::alloc::Global;

/// Two nodes after two runs. If the logs of these hold the same changes, the nodes agree, if they have one hash and one
/// number of replica points.
fn both_runs<H: PointHash>(
    alloc: Global,
    one: NodeState<H>,
    calls_of_one: &[Event],
    other: NodeState<H>,
    calls_of_other: &[Event],
) -> Option<(Run<H>, Run<H>)>
    ensures { IfSome result (λ r. HaveSameChanges (log one.node.own one.node.members calls_of_one.now r.0.replies) (log other.node.own other.node.members calls_of_other.now r.1.replies)
        → one.node.hash ≡ other.node.hash → one.node.config.replicas ≡ other.node.config.replicas
        → Agree H.hash_of r.0.node r.1.node) }
{
    agreement::<H>();
    match run(alloc, one, calls_of_one) {
        Ok(first) => match run(alloc, other, calls_of_other) {
            Ok(second) => Some((first, second)),
            Err(refused) => {
                drop(refused);
                drop(first);
                None
            }
        },
        Err(refused) => {
            drop(refused);
            drop(other);
            None
        }
    }
}

/// A is given the others in one batch, and B one after another in another order.
const AT_ONCE: Calls = calls! { "at once":
    Call::TakeAll(&[(B, 1, Status::Alive), (C, 2, Status::Suspect)]), Told::Taken(2, 0);
};

const IN_TURN: Calls = calls! { "in turn":
    Call::Take((C, 2, Status::Suspect), 3), Told::Taken(1, 0);
    Call::Take((A, 7, Status::Alive), 3), Told::Taken(1, 0);
};

/// What both nodes hold in the end.
const HELD: Calls = calls! { "held":
    Call::Text, Told::Text("10.0.0.1:1alive7;10.0.0.2:1alive1;10.0.0.3:1suspect2");
    Call::Owner("zzzz1"), Told::Owner(B);
};

/// Checks the replies of a run, and its node; None if one was out of memory.
fn check_run(rt: &impl Host, run: &mut Run<SumHash>, calls: Calls) -> Option<()> {
    let is_told = tell(run.replies.as_slice(), calls)?;
    assert!(rt; is_told);
    check_calls(rt, &mut run.node, HELD);
    Some(())
}

/// Makes both runs, and checks their nodes; None if an allocation failed.
fn agree(rt: &impl Host) -> Option<()> {
    let (at_once, in_turn) = (events(rt, AT_ONCE), events(rt, IN_TURN));
    let (one, other) = (node(rt, A, 7), node(rt, B, 1));
    let (mut one, mut other) = both_runs(rt.alloc(), one, &at_once, other, &in_turn)?;
    check_run(rt, &mut one, AT_ONCE)?;
    check_run(rt, &mut other, IN_TURN)
}

/// A at 7 hears (B,1,alive) and (C,2,suspect) in one run of calls, and B at 1 hears (C,2,suspect) and then (A,7,alive) in another: both
/// runs, and the law that ties their nodes, in one function (`both_runs`). One text, and the same owner of `zzzz1`, by sum.
#[test]
fn two_runs_agree(rt: HostRuntime) {
    found!(&rt, agree(&rt));
}
