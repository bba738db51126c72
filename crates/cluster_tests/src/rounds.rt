//! Rounds of gossip and joins, by the mood of the peers. A helper returns false if an allocation failed that its test
//! does not make fail; the test then continues with new nodes, once.
ghost use Rattle.std.specs.Prelude.{[]};
ghost use Rattle.std.specs.List.{All};
ghost use Rattle.locked_node.specs.Passes.{Fits};

use crate::fakes::{Fake, Mood};
use crate::messages::{member, moment};
use crate::nodes::state;
use crate::shared::{
    ALONE, AMONG_ONE, AMONG_THREE, Caller, Host, Shared, Start, again, comes, let_go, made, met,
    share, status,
};
use change_core::{Address, Moment, Status};
use detector_core::Running;
use hash_ring::SumHash;
use node_core::{ChangeList, NodeError, NodeState, Received, StopCause};
use peer_core::{ClusterError, Link, LinkError, Round, gossip_round, join};
use std::alloc::Global;
use std::process::Abort;
use std::sync::Wait;
use turn_lock::LockError;
use wire_json::Message;

/// How a round ended.
#[derive(Clone, Copy, PartialEq, Eq)]
pub(crate) enum End {
    Idle,
    Reached,
    Suspected,
    Inconclusive,
    /// It was not about the member that was pinged.
    Astray,
}

pub(crate) const OUT_OF_MEMORY: Result<End, ClusterError> = Err(ClusterError::Memory);

/// How a round ended, how often its link was asked, and how often that failed.
pub(crate) type Ended = (Result<End, ClusterError>, u64, u64);

/// How a round ended whose last ping was for this member: one that finds an older probe first completes it.
fn end_of(round: Round, pinged: Option<Address>) -> End {
    let (end, about) = match round {
        Round::Idle => return End::Idle,
        Round::Reached(about) => (End::Reached, about),
        Round::Suspected(about) => (End::Suspected, about),
        Round::Inconclusive(about) => (End::Inconclusive, about),
    };
    if pinged == Some(about) {
        end
    } else {
        End::Astray
    }
}

/// In which mood the peers answer first, and then.
type Moods = (Mood, Mood);

/// A round whose peers answer in these moods.
pub(crate) fn round_in(rt: &impl Host, shared: &Shared, pass: &mut Caller, moods: Moods) -> Ended
    requires { Fits shared.now pass.old }
    ensures { Fits shared.now pass.new }
{
    let (first, later) = moods;
    let mut link = Fake::new(first, later);
    let now = moment(rt, 0);
    let end = match gossip_round(rt, rt.alloc(), shared, pass, &mut link, now) {
        Ok(round) => Ok(end_of(round, link.pinged)),
        Err(error) => Err(error),
    };
    (end, link.calls, link.failures())
}

fn first_round(rt: &impl Host, start: &Start, moods: Moods) -> Ended {
    let (shared, mut pass) = met(rt, start);
    let ended = round_in(rt, &shared, &mut pass, moods);
    let_go(shared, pass);
    ended
}

/// How a node starts, how the others answer, and how its first round is to end.
type Row = (Start, Moods, Ended);

/// Checks how rounds end; if one was out of memory before it came so far, how that of another node does.
fn check_rounds(rt: &impl Host, rows: &[Row]) {
    for (start, moods, wanted) in rows {
        comes!(rt; first_round(rt, start, *moods) => *wanted, |found| found.0 == OUT_OF_MEMORY);
    }
}

const BROKEN: Moods = (Mood::Broken, Mood::Broken);

const STARVED: Moods = (Mood::Starved, Mood::Starved);

const WILLING: Moods = (Mood::Willing, Mood::Willing);

const FAILING: Moods = (Mood::Failing, Mood::Failing);

const STRANGE: Moods = (Mood::Strange, Mood::Strange);

const TELLING: Moods = (Mood::Telling, Mood::Telling);

/// With room for itself and one other.
const FULL_WITH_ONE: Start = Start {
    max: 2,
    ..AMONG_ONE
};

/// With room for itself and three others.
const FULL_WITH_THREE: Start = Start {
    max: 4,
    ..AMONG_THREE
};

static ROUNDS: [Row; 14] = rows! {
    ALONE, WILLING, (Ok(End::Idle), 0, 0);
    AMONG_ONE, WILLING, (Ok(End::Reached), 1, 0);
    AMONG_ONE, FAILING, (Ok(End::Suspected), 1, 0);
    AMONG_ONE, BROKEN, (Ok(End::Suspected), 1, 1);
    AMONG_ONE, STRANGE, (Ok(End::Suspected), 1, 0);
    FULL_WITH_ONE, TELLING, (Ok(End::Reached), 1, 0);
    AMONG_THREE, WILLING, (Ok(End::Reached), 1, 0);
    AMONG_THREE, BROKEN, (Ok(End::Inconclusive), 3, 3);
    AMONG_THREE, FAILING, (Ok(End::Inconclusive), 3, 0);
    AMONG_THREE, STARVED, (OUT_OF_MEMORY, 1, 0);
    // lost, and then by a helper
    AMONG_THREE, (Mood::Broken, Mood::Willing), (Ok(End::Reached), 2, 1);
    AMONG_THREE, (Mood::Broken, Mood::Missing), (Ok(End::Suspected), 3, 1);
    AMONG_THREE, (Mood::Strange, Mood::Willing), (Ok(End::Reached), 2, 0);
    FULL_WITH_THREE, (Mood::Broken, Mood::Telling), (Ok(End::Reached), 2, 1);
};

/// A round of A alone: idle. With B, which acks: reached; which answers otherwise, fails, or has another ack: suspected, with one failure
/// where it fails. With B, C and D, all failing: inconclusive, with three failures; all answering otherwise: inconclusive, with none. A
/// ping that is lost, or acked by another, and then a helper that has reached the target: reached, after two questions; two helpers that
/// have not: suspected, after three. An ack and a helper that tell a full node of one more: reached all the same. A link without memory:
/// memory, after one question.
#[test]
fn a_round_ends_by_what_the_peers_answer(rt: HostRuntime) {
    check_rounds(&rt, &ROUNDS);
}

/// Eight calls: expire, probe, a ping, lost, and for each of two helpers a ping-req and that it failed. A second `lost` would be
/// a ninth.
/// With B, C and D, all failing: a round is inconclusive where its pass has eight calls left, and spent where it has seven. So the probe
/// is lost once.
#[test]
fn a_probe_is_lost_once(rt: HostRuntime) {
    let mut start = AMONG_THREE;
    start.turns = 7;
    check_rounds(
        &rt,
        &[(start, BROKEN, (Err(ClusterError::PassSpent), 3, 3))],
    );
    start.turns = 8;
    check_rounds(&rt, &[(start, BROKEN, (Ok(End::Inconclusive), 3, 3))]);
}

/// The number of the probe that runs, and whether it waits for a helper.
fn running(rt: &impl Host, shared: &Shared, pass: &mut Caller) -> Option<(u64, bool)>
    requires { Fits shared.now pass.old }
    ensures { Fits shared.now pass.new }
{
    let found = shared.running(rt, pass).ok().expect(rt, "a turn")?;
    Some((found.number, found.waiting.is_some()))
}

/// Whether a probe can't start since another runs.
fn is_busy(rt: &impl Host, shared: &Shared, pass: &mut Caller) -> bool
    requires { Fits shared.now pass.old }
    ensures { Fits shared.now pass.new }
{
    let answer = shared.probe(rt, pass).ok().expect(rt, "a turn");
    answer == Err(NodeError::Busy)
}

/// How the others answer a round, how it is to end, and the number of the probe that then runs, and whether that waits for a helper.
type Step = (Moods, Ended, Option<(u64, bool)>);

fn take_step(rt: &impl Host, shared: &Shared, pass: &mut Caller, step: Step) -> bool
    requires { Fits shared.now pass.old }
    ensures { Fits shared.now pass.new }
{
    let (moods, wanted, left) = step;
    let found = round_in(rt, shared, pass, moods);
    let (end, _, _) = found;
    if found != wanted && end == OUT_OF_MEMORY {
        return false;
    }
    assert!(rt; found == wanted && running(rt, shared, pass) == left);
    assert!(rt; left.is_none() || is_busy(rt, shared, pass));
    true
}

/// Takes a step, and another if there is one.
fn take_steps(
    rt: &impl Host,
    shared: &Shared,
    pass: &mut Caller,
    steps: (Step, Option<Step>),
) -> bool
    requires { Fits shared.now pass.old }
    ensures { Fits shared.now pass.new }
{
    let (first, second) = steps;
    if !take_step(rt, shared, pass, first) {
        return false;
    }
    match second {
        Some(step) => take_step(rt, shared, pass, step),
        None => true,
    }
}

/// The members that a node holds. After a failed allocation it is asked again.
fn held(rt: &impl Host, shared: &Shared, pass: &mut Caller) -> ChangeList
    requires { Fits shared.now pass.old }
    ensures { Fits shared.now pass.new }
{
    made!(rt, shared.members(rt, pass).ok().expect(rt, "a turn"))
}

/// Checks as what a node holds the others.
fn check_held(rt: &impl Host, shared: &Shared, pass: &mut Caller, others: u8, wanted: Status)
    requires { Fits shared.now pass.old }
{
    let mut number = 1u8;
    for change in held(rt, shared, pass).as_slice() {
        let is_other = number != 1;
        assert!(rt; change.address == member(rt, number) && (!is_other || change.status == wanted));
        number = number.wrapping_add(1);
    }
    assert!(rt; number == others.wrapping_add(2));
}

fn plays(rt: &impl Host, others: u8, steps: (Step, Option<Step>), held: Status) -> bool {
    let (shared, mut pass) = met(rt, &Start { others, ..ALONE });
    let came = take_steps(rt, &shared, &mut pass, steps);
    if came {
        check_held(rt, &shared, &mut pass, others, held);
    }
    let_go(shared, pass);
    came
}

/// Checks a round of a node with this many others, perhaps another round, and as what the others are held at the end.
fn check_steps(rt: &impl Host, others: u8, steps: (Step, Option<Step>), held: Status) {
    assert!(rt; again!(rt, plays(rt, others, steps, held)));
}

/// After an inconclusive round B, C and D are alive, and no probe runs.
#[test]
fn helpers_that_all_failed_leave_the_target_alive(rt: HostRuntime) {
    let first = (BROKEN, (Ok(End::Inconclusive), 3, 3), None);
    check_steps(&rt, 3, (first, None), Status::Alive);
}

/// After a suspected one B is suspect, and no probe runs.
#[test]
fn a_suspected_target_is_held_so(rt: HostRuntime) {
    let first = (BROKEN, (Ok(End::Suspected), 1, 1), None);
    check_steps(&rt, 1, (first, None), Status::Suspect);
}

/// A round over a link without memory: the probe {1, B, none} runs on, and another is busy. The next round pings B again, and then probes
/// once more: two questions, reached.
#[test]
fn a_probe_of_which_nobody_was_asked_is_pinged_anew(rt: HostRuntime) {
    let first = (STARVED, (OUT_OF_MEMORY, 1, 0), Some((1, false)));
    let second = (WILLING, (Ok(End::Reached), 2, 0), None);
    check_steps(&rt, 1, (first, Some(second)), Status::Alive);
}

/// The same once a helper is to be asked: the probe waits for a helper. The next round asks no helper of it, and probes once.
#[test]
fn helpers_that_a_probe_waits_for_have_failed(rt: HostRuntime) {
    let moods = (Mood::Broken, Mood::Starved);
    let first = (moods, (OUT_OF_MEMORY, 2, 1), Some((1, true)));
    let second = (WILLING, (Ok(End::Reached), 1, 0), None);
    check_steps(&rt, 3, (first, Some(second)), Status::Alive);
}

/// Makes a round by a pass of two turns; false where that was out of memory before they were spent.
fn spend(rt: &impl Host, shared: &Shared, pass: &mut Caller) -> bool
    requires { Fits shared.now pass.old }
    ensures { Fits shared.now pass.new }
{
    let ended = round_in(rt, shared, pass, WILLING);
    if ended == (OUT_OF_MEMORY, 0, 0) {
        return false;
    }
    assert!(rt; ended == (Err(ClusterError::PassSpent), 0, 0));
    true
}

/// The probe of 10.0.0.2:1 about which no helper was asked.
fn unasked(rt: &impl Abort) -> Option<Running> {
    Some(Running {
        number: 1,
        target: member(rt, 2),
        waiting: None,
    })
}

/// Checks by another pass of two turns that a probe was left, where the first pass came so far.
fn look_at_rest(rt: &impl Host, shared: &Shared, pass: &mut Caller, is_left: bool)
    requires { Fits shared.now pass.old }
    ensures { Fits shared.now pass.new }
{
    let found = shared.running(rt, pass);
    let is_busy = is_busy(rt, shared, pass);
    let rest = shared.len(rt, pass);
    assert!(rt; rest == Err(LockError::PassSpent));
    assert!(rt; !is_left || is_busy && found == Ok(unasked(rt)));
}

/// Checks that the closed node has the probe still that a spent pass has left.
fn leaves_a_probe(rt: &impl Host) -> bool {
    let mut start = AMONG_ONE;
    start.turns = 2;
    let (shared, mut passes) = share(rt, &start, 2);
    let mut second = passes.pop().expect(rt, "a pass");
    let mut first = passes.pop().expect(rt, "another");
    passes.clear();
    let is_left = spend(rt, &shared, &mut first);
    look_at_rest(rt, &shared, &mut second, is_left);
    passes.push(first).ok().expect(rt, "room");
    passes.push(second).ok().expect(rt, "room");
    let closed = shared.close(passes).ok().expect(rt, "a node");
    let running = closed.running();
    drop(closed);
    assert!(rt; !is_left || running == unasked(rt));
    is_left
}

/// A pass with two turns: pass spent after expire and probe, with nothing sent. The other pass finds {1, B, none}, then busy, then is
/// spent; the closed node has that probe.
#[test]
fn a_round_whose_pass_is_spent_leaves_its_probe(rt: HostRuntime) {
    assert!(&rt; again!(&rt, leaves_a_probe(&rt)));
}

/// The result of a join, and how often the link was asked.
type Joined = (Result<u32, ClusterError>, u64);

/// A join of two hosts or none, in this mood.
pub(crate) fn join_hosts(
    rt: &impl Host,
    shared: &Shared,
    pass: &mut Caller,
    has_hosts: bool,
    mood: Mood,
) -> Joined
    requires { Fits shared.now pass.old }
    ensures { Fits shared.now pass.new }
{
    let all = [member(rt, 2), member(rt, 3)];
    let hosts = if has_hosts { &all[..] } else { &all[..0] };
    let mut link = Fake::new(mood, mood);
    let now = moment(rt, 0);
    let joined = join(rt, rt.alloc(), shared, pass, &mut link, hosts, now);
    (joined, link.calls)
}

fn first_join(rt: &impl Host, start: &Start, has_hosts: bool, mood: Mood) -> Joined {
    let (shared, mut pass) = met(rt, start);
    let came = join_hosts(rt, &shared, &mut pass, has_hosts, mood);
    let_go(shared, pass);
    came
}

const NONE_JOINED: Result<u32, ClusterError> = Err(ClusterError::NoneJoined);

/// With room for itself.
const FULL_ALONE: Start = Start { max: 1, ..ALONE };

/// How a node starts, whether there are hosts, in which mood they are, the expected result of the join, and how often the link is asked.
static JOININGS: [(Start, bool, Mood, Joined); 6] = [
    (ALONE, true, Mood::Willing, (Ok(2), 2)),
    (FULL_ALONE, true, Mood::Telling, (Ok(2), 2)),
    (ALONE, true, Mood::Failing, (NONE_JOINED, 2)),
    (ALONE, true, Mood::Broken, (NONE_JOINED, 2)),
    (ALONE, true, Mood::Starved, (Err(ClusterError::Memory), 1)),
    (ALONE, false, Mood::Willing, (NONE_JOINED, 0)),
];

/// Where a join was out of memory that its link had, that of another node is looked at.
/// A join with two hosts that answer: 2, also if their answers tell a full node of one more. That answer otherwise or fail: none joined. Over a link without memory: memory. With no hosts:
/// none joined. Each host is asked once, and none after the failed allocation.
#[test]
fn a_join_counts_the_hosts_that_answer(rt: HostRuntime) {
    for (start, has_hosts, mood, wanted) in &JOININGS {
        comes!(&rt; first_join(&rt, start, *has_hosts, *mood) => *wanted, |came| came.0 == Err(ClusterError::Memory));
    }
}

/// A link to one other node, which sends its answer to a message.
#[derive(Drop)]
struct Direct {
    node: NodeState<SumHash>,
    failures: u64,
}

impl Link for Direct {
    ghost may_answer = { λ _ _ _. Unit {0} };

    ghost went = { λ _ _ _ _ _. Unit {0} };

    ghost failed = { λ d. d.failures };

    fn failures(&self) -> u64 {
        self.failures
    }

    fn call<R: Wait>(
        &mut self,
        _rt: &R,
        _alloc: Global,
        _to: Address,
        message: &Message,
    ) -> Result<Message, LinkError> {
        if self.failures == u64::MAX {
            return Err(LinkError::Spent);
        }
        let Some(now) = Moment::new(0) else {
            unreachable!()
        };
        match self.node.receive(message, now) {
            Received::Answer(_, answer) => Ok(answer),
            Received::NoAnswer(_) => Err(LinkError::Memory),
            Received::Stopped(stopped) if stopped.cause == StopCause::Memory => {
                Err(LinkError::Memory)
            }
            _ => {
                self.failures += 1;
                Err(LinkError::Closed)
            }
        }
    }
}

/// Checks that a node joins another and then reaches it.
fn check_meeting(rt: &impl Host, shared: &Shared, pass: &mut Caller, link: &mut Direct) -> bool
    requires { Fits shared.now pass.old }
{
    let now = moment(rt, 0);
    let target = member(rt, 2);
    let joined = join(rt, rt.alloc(), shared, pass, link, &[target], now);
    let held = status(rt, shared, pass, 2);
    if joined == Err(ClusterError::Memory) || held.is_none() {
        return false;
    }
    assert!(rt; joined == Ok(1) && held == Some(Status::Alive));
    let heard = link.node.member(member(rt, 1));
    let is_heard = match heard {
        Some(entry) => entry.incarnation.number() == 7 && entry.status == Status::Alive,
        None => false,
    };
    assert!(rt; is_heard);
    let round = gossip_round(rt, rt.alloc(), shared, pass, link, now);
    if round == Err(ClusterError::Memory) {
        return false;
    }
    assert!(rt; round == Ok(Round::Reached(target)));
    true
}

fn meets(rt: &impl Host) -> bool {
    let mut link = Direct {
        node: state(rt, 2, 4096),
        failures: 0,
    };
    let (shared, mut pass) = met(rt, &ALONE);
    let met = check_meeting(rt, &shared, &mut pass, &mut link);
    let_go(shared, pass);
    drop(link);
    met
}

/// A joins B, which then holds A as alive at 7; A holds B as alive, and reaches it in a round.
#[test]
fn two_nodes_join_and_reach_each_other(rt: HostRuntime) {
    assert!(&rt; again!(&rt, meets(&rt)));
}
