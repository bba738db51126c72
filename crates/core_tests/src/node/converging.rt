//! Convergence from end to end: nodes that take all of one another until all hold the same, and the theorem that ties them.
ghost use Rattle.std.specs.Prelude.{◌≡◌, ◌≢◌, IfSome};
ghost use Rattle.node_core.specs.Agreement.{Agree};

use crate::node::reconciling::take_all_of;
use crate::node::stories::Deed::{Ping, PingThrice, Take};
use crate::node::stories::Step::{
    AllHold, Counts, Everyone, Hears, Holds, Leaves, NoneHolds, Receives, Restarts, Takes, Tells,
};
use crate::node::stories::{Step, holds, play_all};
use crate::shared::{A, B, C, D, E, F, found, hear, moment, node};
use change_core::{Moment, Status};
use hash_ring::{PointHash, SumHash};
use laws::convergence;
use node_core::{NodeState, Taken};
use std::alloc::Global;

/// What three nodes hear at first: each of both others, and of a fourth.
const RUMOURS: &[Step] = &rows! {
    Hears(0, (B, 1, Status::Faulty)); Hears(0, (C, 5, Status::Suspect)); Hears(0, (D, 1, Status::Alive));
    Hears(1, (A, 3, Status::Faulty)); Hears(1, (C, 2, Status::Faulty)); Hears(1, (D, 1, Status::Leave));
    Hears(2, (A, 9, Status::Suspect)); Hears(2, (B, 4, Status::Faulty)); Hears(2, (D, 2, Status::Alive));
};

/// What all three hold in the end.
const ALL_TOLD: Step = AllHold(
    "10.0.0.1:1alive10;10.0.0.2:1alive5;10.0.0.3:1alive6;10.0.0.4:1alive2",
);

/// Three nodes round a ring: six exchanges are enough, and five are not. The first receives in the sixth exchange what
/// the second refutes in the fourth.
const RING: &[Step] = &rows! {
    Takes(1, 0); Takes(2, 1); Takes(0, 2); Takes(1, 0); Takes(2, 1);
    Holds(0, "10.0.0.1:1alive10;10.0.0.2:1faulty4;10.0.0.3:1alive6;10.0.0.4:1alive2");
    Takes(0, 2); ALL_TOLD;
};

#[test]
fn three_nodes_converge_round_a_ring(rt: HostRuntime) {
    play_all(&rt, 3, &[RUMOURS, RING]);
}

/// Three nodes in rounds of pings: no rumour is sent back to the node that it came from, so a node hears a rumour against itself only
/// by an ack of all members, and there is none while other changes are passed on. They need 13 rounds, and `enough_rounds` gives 272: 11
/// changes are news to the second node, each has 4 pending, and passes a change on 15 times.
const ROUNDS: &[Step] = &rows! {
    Everyone(12, Ping); Holds(0, "10.0.0.1:1alive1;10.0.0.2:1alive5;10.0.0.3:1suspect5;10.0.0.4:1alive2");
    Everyone(1, Ping); ALL_TOLD;
};

#[test]
fn three_nodes_converge_in_rounds_of_pings(rt: HostRuntime) {
    play_all(&rt, 3, &[RUMOURS, ROUNDS]);
}

/// How much there is to hear for three nodes before their rounds of pings: at most twice as many changes as there are entries.
const NEWS: &[Step] = &rows! { Counts(0, 12, 10, 4); Counts(1, 12, 11, 4); Counts(2, 12, 6, 4); };

#[test]
fn news_are_at_most_twice_the_entries(rt: HostRuntime) {
    play_all(&rt, 3, &[RUMOURS, NEWS]);
}

/// Messages come in another order, again, late, to another node than the one that asked, or never. The first node hears of all and is then heard
/// by both others; after that each of them is.
const MESSAGES: &[Step] = &rows! {
    Tells(1, 0); Tells(2, 0); Tells(2, 1); Receives(0, 1); Receives(0, 0); Receives(0, 1);
    Tells(0, 1); Receives(2, 3); Receives(1, 3);
    Tells(1, 0); Tells(2, 0); Holds(0, "10.0.0.1:1alive10;10.0.0.2:1faulty4;10.0.0.3:1suspect5;10.0.0.4:1alive2");
    Receives(2, 4); Receives(0, 4); Receives(0, 5); Receives(1, 5); ALL_TOLD;
    Receives(1, 1); Receives(2, 0); ALL_TOLD;
};

#[test]
fn three_nodes_converge_by_late_and_repeated_messages(rt: HostRuntime) {
    play_all(&rt, 3, &[RUMOURS, MESSAGES]);
}

/// Five nodes: two sweeps, in which every node takes all of every other, are enough, and one is not; again so after one more leaves and two
/// restart.
const SWEEPS: &[Step] = &rows! {
    Hears(0, (C, 3, Status::Suspect)); Hears(0, (E, 1, Status::Faulty)); Hears(1, (A, 2, Status::Faulty));
    Hears(1, (F, 1, Status::Suspect)); Hears(2, (D, 6, Status::Faulty)); Hears(2, (F, 2, Status::Alive));
    Hears(4, (B, 4, Status::Faulty)); Leaves(1); Restarts(3, 9);
    Everyone(1, Take);
    Holds(0, "10.0.0.1:1alive3;10.0.0.2:1faulty4;10.0.0.3:1suspect3;10.0.0.4:1alive9;10.0.0.5:1faulty1;10.0.0.6:1alive2");
    Everyone(1, Take);
    AllHold("10.0.0.1:1alive3;10.0.0.2:1leave5;10.0.0.3:1alive4;10.0.0.4:1alive9;10.0.0.5:1alive2;10.0.0.6:1alive2");
    Leaves(2); Hears(0, (B, 9, Status::Faulty)); Restarts(4, 3); Restarts(1, 8);
    Everyone(2, Take);
    AllHold("10.0.0.1:1alive3;10.0.0.2:1alive10;10.0.0.3:1leave4;10.0.0.4:1alive9;10.0.0.5:1alive3;10.0.0.6:1alive2");
};

#[test]
fn five_nodes_converge_in_two_sweeps(rt: HostRuntime) {
    play_all(&rt, 5, &[SWEEPS]);
}

/// What five nodes hold that were parted: the first two and the other three each hold one another as faulty.
const PARTED: &[Step] = &rows! {
    Hears(0, (C, 1, Status::Faulty)); Hears(1, (D, 1, Status::Faulty)); Hears(1, (E, 1, Status::Faulty));
    Hears(2, (A, 1, Status::Faulty)); Hears(3, (B, 1, Status::Faulty));
};

/// Each takes all of the others of its side, and then of one of the other side.
const TURN: &[Step] = &rows! {
    Takes(0, 1); Takes(1, 0); Takes(2, 3); Takes(2, 4); Takes(3, 2); Takes(3, 4); Takes(4, 2); Takes(4, 3);
    Takes(0, 2); Takes(1, 3); Takes(2, 0); Takes(3, 1); Takes(4, 0);
};

/// One such turn is not enough.
const STILL_PARTED: &[Step] = &rows! {
    Holds(0, "10.0.0.1:1alive2;10.0.0.2:1faulty1;10.0.0.3:1faulty1;10.0.0.4:1faulty1;10.0.0.5:1faulty1");
};

/// Two are.
const HEALED: &[Step] = &rows! {
    AllHold("10.0.0.1:1alive2;10.0.0.2:1alive2;10.0.0.3:1alive2;10.0.0.4:1alive2;10.0.0.5:1alive2");
};

#[test]
fn five_nodes_that_were_parted_heal_in_two_turns(rt: HostRuntime) {
    let story = [PARTED, TURN, STILL_PARTED, TURN, HEALED];
    play_all(&rt, 5, &story);
}

/// What all hold once pings are lost no more: no rumour against one of them is left, and of the fourth the greatest of what was heard.
const HELD: &str = "10.0.0.1:1alive3;10.0.0.2:1alive5;10.0.0.3:1alive4;10.0.0.4:1alive2";

/// Pings of which some are lost, in nine stretches in which every node pings every other and is acknowledged once: first its ping is lost,
/// then the ack, and then neither.
const LOSSES: &[Step] = &rows! {
    Hears(0, (B, 1, Status::Faulty)); Hears(0, (C, 3, Status::Suspect)); Hears(1, (A, 2, Status::Faulty));
    Hears(1, (D, 1, Status::Leave)); Hears(2, (B, 4, Status::Faulty)); Hears(2, (D, 2, Status::Alive));
    NoneHolds(HELD); Everyone(9, PingThrice); AllHold(HELD);
};

#[test]
fn three_nodes_converge_though_pings_are_lost(rt: HostRuntime) {
    convergence::<SumHash>();
    play_all(&rt, 3, &[LOSSES]);
}

/// Three nodes take all of one another round a ring, twice. None if it runs out of memory. Else they agree, if they have different
/// addresses, one hash and one number of replica points.
fn round_ring<H: PointHash>(
    alloc: Global,
    one: &mut NodeState<H>,
    two: &mut NodeState<H>,
    three: &mut NodeState<H>,
    now: Moment,
) -> Option<[Taken; 6]>
    ensures { IfSome result (λ taken. one.old.node.own ≢ two.old.node.own → two.old.node.own ≢ three.old.node.own → one.old.node.own ≢ three.old.node.own
        → one.new.node.hash ≡ two.new.node.hash → two.new.node.hash ≡ three.new.node.hash
        → one.new.node.config.replicas ≡ two.new.node.config.replicas → two.new.node.config.replicas ≡ three.new.node.config.replicas
        → Agree H.hash_of one.new two.new × Agree H.hash_of two.new three.new) }
{
    convergence::<H>();
    // What holds of a node between any two calls is known where its length is asked.
    let _ = (one.len(), two.len(), three.len());
    let first = take_all_of(alloc, two, one, now)?;
    let second = take_all_of(alloc, three, two, now)?;
    let third = take_all_of(alloc, one, three, now)?;
    let fourth = take_all_of(alloc, two, one, now)?;
    let fifth = take_all_of(alloc, three, two, now)?;
    let sixth = take_all_of(alloc, one, three, now)?;
    let _ = (one.len(), two.len(), three.len());
    Some([first, second, third, fourth, fifth, sixth])
}

#[test]
fn three_nodes_agree(rt: HostRuntime) {
    let (mut one, mut two, mut three) = (node(&rt, A, 1), node(&rt, B, 1), node(&rt, C, 1));
    hear(&rt, &mut one, (B, 1, Status::Faulty), 0);
    hear(&rt, &mut two, (C, 1, Status::Faulty), 0);
    hear(&rt, &mut three, (A, 1, Status::Faulty), 0);
    let now = moment(&rt, 1);
    found!(
        &rt,
        round_ring(rt.alloc(), &mut one, &mut two, &mut three, now)
    );
    let members = "10.0.0.1:1alive2;10.0.0.2:1alive2;10.0.0.3:1alive2";
    assert!(&rt; holds(&rt, &one, members));
    assert!(&rt; holds(&rt, &two, members));
    assert!(&rt; holds(&rt, &three, members));
}
