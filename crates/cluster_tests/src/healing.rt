//! Two nodes of a cluster that hold each other wrongly, and what corrects it. If an allocation failed, a test continues with
//! another cluster, once.
use crate::fakes::WILLING;
use crate::messages::{member, moment, news};
use crate::nodes::{hear, state};
use crate::shared::{Host, System, again, check_refused};
use change_core::Status;
use cluster_core::Cluster;
use hash_ring::SumHash;
use node_core::NodeState;
use peer_core::Healing;
use std::process::Abort;

/// The node of this number, which has heard by a third one of the other in this status, at the incarnation that it has.
fn hearing_of(rt: &impl Host, number: u8, other: u8, status: Status) -> NodeState<SumHash> {
    let mut node = state(rt, number, 4096);
    let mut heard = news(rt, other, 7, status);
    heard.source = member(rt, 9);
    hear(rt, &mut node, heard);
    node
}

/// How A and B hold each other.
type Held = (Status, Status);

/// A cluster of A and B, which hold each other so; None if an allocation failed.
fn start(rt: &impl System, held: Held) -> Option<Cluster<SumHash>> {
    let (first, second) = held;
    let mut nodes = Vec::with_capacity(rt.alloc(), 2).ok()?;
    nodes.push(hearing_of(rt, 1, 2, first)).ok()?;
    nodes.push(hearing_of(rt, 2, 1, second)).ok()?;
    Cluster::start(rt, rt.alloc(), nodes, 1, WILLING).ok()
}

/// What A does.
#[derive(Clone, Copy)]
enum Act {
    Round,
    CorrectingRound,
    /// Heals after ten rounds, so that it meets a member once.
    Heal,
}

/// Has A do it; None if an allocation failed.
fn perform(rt: &impl Host, cluster: &mut Cluster<SumHash>, act: Act) -> Option<()> {
    let (first, now) = (member(rt, 1), moment(rt, 0));
    match act {
        Act::Round => {
            cluster.round(rt, rt.alloc(), first, now).ok()?;
        }
        Act::CorrectingRound => {
            cluster.correcting_round(rt, rt.alloc(), first, now).ok()?;
        }
        Act::Heal => {
            let mut healing = Healing::new(first, &[]);
            for _ in 0..10 {
                cluster.heal(rt, rt.alloc(), first, now, &mut healing).ok()?;
            }
        }
    }
    Some(())
}

/// The status in which the node at this place holds a member.
fn held_by(rt: &impl Abort, nodes: &[NodeState<SumHash>], place: usize, number: u8) -> Status {
    let node = nodes.get(place).expect(rt, "a node");
    let entry = node.member(member(rt, number));
    entry.expect(rt, "an entry").status
}

/// Has A of a cluster do that, stops the cluster, and checks how its nodes hold each other; None if an allocation failed.
fn play(rt: &impl System, held: Held, act: Act, wanted: Held) -> Option<()> {
    let mut cluster = start(rt, held)?;
    let done = perform(rt, &mut cluster, act);
    let nodes = cluster.stop(rt, rt.alloc()).ok()?;
    done?;
    let nodes = nodes.as_slice();
    if (held_by(rt, nodes, 0, 2), held_by(rt, nodes, 1, 1)) == wanted {
        return Some(());
    }
    // (B was refused memory)
    check_refused(rt);
    None
}

fn check(rt: &impl System, held: Held, act: Act, wanted: Held) {
    assert!(rt; again!(rt, play(rt, held, act, wanted).is_some()));
}

const BOTH_ALIVE: Held = (Status::Alive, Status::Alive);

/// B holds A as faulty, and A pings B: a round lets B hold A as faulty until A pings it again; a round that corrects its target tells B.
#[test]
fn a_correcting_round_tells_its_target(rt: HostRuntime) {
    let held = (Status::Alive, Status::Faulty);
    check(&rt, held, Act::Round, held);
    check(&rt, held, Act::CorrectingRound, BOTH_ALIVE);
}

/// A and B hold each other as faulty, so neither pings the other in a round. They meet once, and each holds the other as alive.
#[test]
fn members_that_parted_meet(rt: HostRuntime) {
    let held = (Status::Faulty, Status::Faulty);
    check(&rt, held, Act::Heal, BOTH_ALIVE);
}
