//! What a thread of a service does by a member of its node: joins, requests with rounds between them, leaving and
//! coming back. If an allocation failed, a test continues with another node, once.
use crate::fakes::{Counting, Fake, Mood};
use crate::forwarding::Still;
use crate::messages::{keys, member as address, moment, text};
use crate::shared::{ALONE, AMONG_ONE, Host, Start, again, comes, let_go, met};
use change_core::Status;
use hash_ring::SumHash;
use peer_core::{
    CallError, Clock, ClusterError, Handler, JoinError, LeaveError, Link, Member, RejoinError,
    RequestError, RoundError,
};
use std::sync::Wait;

/// A loop as a service has it, over any link, handler and clock: a request for each rider, and a round after each.
/// Returns the number of requests whose answer was their body.
fn serve_riders<L: Link, A: Handler, C: Clock>(
    rt: &impl Host,
    member: &mut Member<'_, SumHash, L>,
    handler: &A,
    clock: &C,
    riders: &[&str],
) -> Result<u32, ClusterError> {
    let mut answered = 0u32;
    for rider in riders {
        let keys = keys(rt, (*rider, *rider));
        let answer = member.request(rt, &mut &*handler, clock, keys, text(rt, "body"))?;
        if answer.as_str() == "body" {
            answered = answered.wrapping_add(1);
        }
        member.round(rt, clock.now())?;
    }
    Ok(answered)
}

/// How many requests had an answer, how often the link was asked, and how often the handler.
type Served = (Result<u32, ClusterError>, u64, u64);

/// The node owns the first rider, and its peer the second one.
fn serve_two(rt: &impl Host) -> Served {
    let (shared, mut pass) = met(rt, &AMONG_ONE);
    let mut link = Fake::new(Mood::Willing, Mood::Willing);
    let handler = Counting::new(Mood::Willing);
    let clock = Still::new();
    let mut member = Member::new(&shared, &mut pass, &mut link, rt.alloc());
    let answered = serve_riders(rt, &mut member, &handler, &clock, &["zzzz0", "zzzz1"]);
    drop(member);
    let served = (answered, link.calls, handler.calls());
    let_go(shared, pass);
    served
}

#[test]
fn a_service_answers_requests_between_rounds(rt: HostRuntime) {
    comes!(&rt; serve_two(&rt) => (Ok(2), 3, 1), |served| served.0 == Err(ClusterError::Memory));
}

/// Leaves and comes back this often, and returns the node's incarnation then.
fn come_and_go<R: Wait, L: Link>(
    rt: &R,
    member: &mut Member<'_, SumHash, L>,
    times: u32,
) -> Result<u64, ClusterError> {
    for _ in 0..times {
        let left = member.leave(rt)?;
        if left.status != Status::Leave || member.owner(rt, b"zzzz1")?.is_some() {
            return Ok(0);
        }
        member.rejoin(rt)?;
    }
    Ok(member.own(rt)?.incarnation.number())
}

fn come_and_go_alone(rt: &impl Host, times: u32) -> Result<u64, ClusterError> {
    let (shared, mut pass) = met(rt, &ALONE);
    let mut link = Fake::new(Mood::Willing, Mood::Willing);
    let mut member = Member::new(&shared, &mut pass, &mut link, rt.alloc());
    let incarnation = come_and_go(rt, &mut member, times);
    drop(member);
    let_go(shared, pass);
    incarnation
}

#[test]
fn a_member_that_is_back_has_the_next_incarnation(rt: HostRuntime) {
    comes!(&rt; come_and_go_alone(&rt, 3) => Ok(10), |number| number == Err(ClusterError::Memory));
}

/// What a member's calls are refused by, one after the other: join, round, request, view, members, leave, rejoin.
type Refused = (
    Option<JoinError>,
    Option<RoundError>,
    Option<RequestError>,
    (Option<CallError>, Option<CallError>),
    (Option<LeaveError>, Option<RejoinError>),
);

/// How a node starts, in which mood its peers and its handler are, and what its calls are refused by after a first one.
type Row = (Start, Mood, Refused);

static REFUSALS: [Row; 3] = rows! {
    Start { turns: 1, ..ALONE }, Mood::Willing,
        (Some(JoinError::PassSpent), Some(RoundError::PassSpent), Some(RequestError::PassSpent), (Some(CallError::PassSpent), Some(CallError::PassSpent)), (Some(LeaveError::PassSpent), Some(RejoinError::PassSpent)));
    Start { has_left: true, ..ALONE }, Mood::Broken,
        (Some(JoinError::NoneJoined), None, Some(RequestError::Nobody), (None, None), (Some(LeaveError::AlreadyLeft), None));
    ALONE, Mood::Failing, (Some(JoinError::NoneJoined), None, Some(RequestError::HandlerFault), (None, None), (None, None));
};

/// What the calls of a member are refused by, once it made one.
fn refused_by<L: Link>(rt: &impl Host, member: &mut Member<'_, SumHash, L>, mood: Mood) -> Refused {
    let (handler, clock) = (Counting::new(mood), Still::new());
    let now = moment(rt, 0);
    assert!(rt; member.own(rt).is_ok());
    let joined = member.join(rt, &[address(rt, 2)], now).err();
    let round = member.round(rt, now).err();
    let keys = keys(rt, ("zzzz0", "zzzz0"));
    let answer = member.request(rt, &mut &handler, &clock, keys, text(rt, "body"));
    let copied = (member.view(rt).err(), member.members(rt).err());
    let gone = (member.leave(rt).err(), member.rejoin(rt).err());
    (joined, round, answer.err(), copied, gone)
}

fn first_refused(rt: &impl Host, start: &Start, mood: Mood) -> Refused {
    let (shared, mut pass) = met(rt, start);
    let mut link = Fake::new(mood, mood);
    let mut member = Member::new(&shared, &mut pass, &mut link, rt.alloc());
    let refused = refused_by(rt, &mut member, mood);
    drop(member);
    let_go(shared, pass);
    refused
}

#[test]
fn each_call_of_a_member_says_why_it_is_refused(rt: HostRuntime) {
    for (start, mood, wanted) in &REFUSALS {
        assert!(&rt; again!(&rt, first_refused(&rt, start, *mood) == *wanted));
    }
}
