//! Changes that a node processes, asserts of itself and lets run out, its probes, its messages and its answers.
use crate::cases::*;
use crate::node::played::{check, check_calls};
use crate::shared::{A, B, C, D, E, F, Row, hear, node};
use change_core::Status;

/// A at 7 given (A,7,suspect): one applied, one refuted, and it is alive at 8. Then (A,6,faulty): none, none. A refutation, leaving and
/// coming back, a batch that stops by exhausted and one by full, which then leaves and comes back, as events of a run with their replies.
#[test]
fn refutes_what_is_wrong_about_itself(rt: HostRuntime) {
    check(&rt, &REFUTES);
}

/// A at 7 leaves: (A,7,leave); again: already left. Given (A,9,alive) it is leave at 10. It rejoins: (A,11,alive); again: not left. A
/// refutation, leaving and coming back, a batch that stops by exhausted and one by full, which then leaves and comes back, as events of a
/// run with their replies.
#[test]
fn leaves_and_comes_back(rt: HostRuntime) {
    check(&rt, &LEAVES);
}

/// A at 7 given (B,1,alive), (A,LIM,faulty), (C,1,alive): stopped after one, exhausted; B is held, C is not. Two members at most,
/// (B,1,alive) and two others: stopped after one, full. Then (B,2,suspect): one applied. It leaves and comes back. A refutation, leaving
/// and coming back, a batch that stops by exhausted and one by full, which then leaves and comes back, as events of a run with their
/// replies.
#[test]
fn a_batch_stops_at_what_it_cannot_take(rt: HostRuntime) {
    check(&rt, &EXHAUSTED);
    check(&rt, &FULL);
}

/// A at 7 given (A,LIM,alive): one applied. Then (A,LIM,suspect): stopped, exhausted. It leaves: (A,LIM,leave). It rejoins: exhausted.
#[test]
fn no_incarnation_follows_the_greatest(rt: HostRuntime) {
    check(&rt, &GREATEST);
}

/// A with weight 2 given (A,7,suspect): alive at 8 with weight 2. It leaves: (A,8,leave) with weight 2, `10.0.0.1:1leave8*2`.
#[test]
fn a_node_keeps_its_weight(rt: HostRuntime) {
    check(&rt, &WEIGHTY);
}

/// (B,1,suspect) at 0: none expires at 4,999, (B,1,faulty) at 5,000, none at 4,999 and 86,404,999, (B,1,tombstone) at 86,405,000.
/// (B,1,suspect) at 0, (B,2,alive) at 100: none expires at 5,000. Then (C,1,suspect) at the moment `LIM`: none expires at `LIM`.
#[test]
fn entries_run_out_in_turn(rt: HostRuntime) {
    check(&rt, &RUNS_OUT);
    check(&rt, &DOES_NOT_RUN_OUT);
    check(&rt, &WAITS);
}

#[test]
fn a_leaver_stays_out(rt: HostRuntime) {
    check(&rt, &STAYS_OUT);
}

/// A with B alone probes: number 1, B; again: busy. Lost: (B,1,suspect). Acked then: stale.
#[test]
fn a_lone_target_is_suspect_at_once(rt: HostRuntime) {
    check(&rt, &PROBES_ANOTHER);
}

/// Five members: three helpers are asked, and what they say decides as in the prober; of three members one is asked.
#[test]
fn helpers_decide(rt: HostRuntime) {
    check(&rt, &ASKS_ONE);
    check(&rt, &ASKS_THREE);
}

/// A at 7 alone: its join, ping, ping-req and ping-req-ack each carry (A,7,alive).
#[test]
fn messages_carry_the_birth_as_often_as_the_limit_says(rt: HostRuntime) {
    check(&rt, &SENDS);
}

/// B at 1 with (C,1,alive) from A gets sixteen pings of A without changes, with the digest of no members: the acks of fifteen carry
/// (B,1,alive), that of the sixteenth both members, with source B at 1. Another B gets seventeen. Fifteen have the digest of no members: their acks carry
/// (B,1,alive). The sixteenth has B's digest: its ack carries nothing. The seventeenth has the digest of no members again: its ack
/// carries both members, with source B at 1.
#[test]
fn synchronises_where_it_has_nothing_to_say(rt: HostRuntime) {
    check(&rt, &TELLS_ALL);
    check(&rt, &SYNCHRONISES);
}

/// B at 1 gets a join of A with (A,7,alive): one applied, and a joined with (A,7,alive), (B,1,alive), source B at 1. A run of B is handed
/// the Join of A twice: each time it is answered by A and B, and only the first time a change is applied.
#[test]
fn a_join_is_answered_by_all_members(rt: HostRuntime) {
    check(&rt, &LETS_JOIN);
}

/// Members, their text, the digest and the owners are told if memory is available.
#[test]
fn look_ups_answer(rt: HostRuntime) {
    check(&rt, &LOOKS_UP);
}

const STATUSES: [Status; 5] =
    rows! { Status::Alive; Status::Suspect; Status::Faulty; Status::Leave; Status::Tombstone; };

/// The members that the twenty changes are about.
const SUBJECTS: [u32; 4] = [B, C, D, E];

/// The i-th of twenty changes: about 10.0.0.2 to 10.0.0.5, with each incarnation and status in turn.
pub(crate) fn twenty(i: u8) -> Row {
    let status = STATUSES[usize::from(i % 5)];
    (SUBJECTS[usize::from(i % 4)], 1 + u64::from(i / 8), status)
}

/// Change i of 1 to 20 is about 10.0.0.(2 + i mod 4):1, at 1 + i div 8, with the status of rank i mod 5. A and `10.0.0.6:1`, both at 7,
/// take them all in different orders, and hear of each other: one text of six members, and the same owners of `zzzz1` and `zzzz3`, by
/// sum.
#[test]
fn the_same_changes_in_two_orders_agree(rt: HostRuntime) {
    let (mut first, mut last) = (node(&rt, A, 7), node(&rt, F, 7));
    for i in 1..21u8 {
        hear(&rt, &mut first, twenty(i), 0);
        hear(&rt, &mut last, twenty(21 - i), 5);
    }
    hear(&rt, &mut first, (F, 7, Status::Alive), 0);
    hear(&rt, &mut last, (A, 7, Status::Alive), 0);
    check_calls(&rt, &mut first, HEARD_TWENTY);
    check_calls(&rt, &mut last, HEARD_TWENTY);
}
