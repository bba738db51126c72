//! Worked examples: how a node starts, and what it answers to calls, one after another.
use crate::calls::{Call, Calls, Carried, Told};
use crate::shared::{A, B, C, D, E, F, Ip, LIMIT, NOBODY};
use change_core::Status;
use detector_core::Said;
use node_core::{NodeError, StopCause};
use wire_json::Kind;

/// A node at moment 0: its incarnation, its weight, with two points for each unit of that, and the greatest number of
/// members.
#[derive(Clone, Copy)]
pub(crate) struct Start {
    pub(crate) own: Ip,
    pub(crate) created: u64,
    pub(crate) weight: u8,
    pub(crate) max: usize,
}

pub(crate) type Case = (Start, Calls);

/// 10.0.0.1:1 at 7.
pub(crate) const A_AT_7: Start = Start {
    own: A,
    created: 7,
    weight: 1,
    max: 4096,
};

/// 10.0.0.2:1 at 1.
const B_AT_1: Start = Start {
    own: B,
    created: 1,
    ..A_AT_7
};

/// Stays alive, whatever it is given about itself.
pub(crate) const REFUTES: Case = case! { A_AT_7, "refutes":
    Call::Take((A, 7, Status::Suspect), 0), Told::Taken(1, 1);
    Call::Own, Told::Change((A, 8, Status::Alive));
    Call::Take((A, 6, Status::Faulty), 0), Told::Taken(0, 0);
    Call::Own, Told::Change((A, 8, Status::Alive));
    Call::Take((A, 9, Status::Alive), 0), Told::Taken(1, 0);
    Call::Own, Told::Change((A, 9, Status::Alive));
    Call::Take((A, 9, Status::Tombstone), 0), Told::Taken(1, 1);
    Call::Own, Told::Change((A, 10, Status::Alive));
};

/// Leaves twice, refutes, and comes back twice.
pub(crate) const LEAVES: Case = case! { A_AT_7, "leaves":
    Call::Rejoin, Told::Refused(NodeError::NotLeft);
    Call::Leave, Told::Change((A, 7, Status::Leave));
    Call::Leave, Told::Refused(NodeError::AlreadyLeft);
    Call::Take((A, 9, Status::Alive), 0), Told::Taken(1, 1);
    Call::Own, Told::Change((A, 10, Status::Leave));
    Call::Rejoin, Told::Change((A, 11, Status::Alive));
    Call::Rejoin, Told::Refused(NodeError::NotLeft);
};

/// Takes the first of three changes; the second leaves no incarnation to refute it by. It continues.
pub(crate) const EXHAUSTED: Case = case! { A_AT_7, "exhausted":
    Call::TakeAll(&[(B, 1, Status::Alive), (A, LIMIT, Status::Faulty), (C, 1, Status::Alive)]), Told::Stopped(1, StopCause::Exhausted);
    Call::Member(B), Told::Held(1, Status::Alive);
    Call::Member(C), Told::Nothing;
    Call::Take((C, 2, Status::Suspect), 0), Told::Taken(1, 0);
};

/// Is full with the first of three changes, and continues about the members that it has.
pub(crate) const FULL: Case = case! { Start { max: 2, ..A_AT_7 }, "full":
    Call::TakeAll(&[(B, 1, Status::Alive), (D, 1, Status::Alive), (C, 1, Status::Alive)]), Told::Stopped(1, StopCause::Full);
    Call::Member(B), Told::Held(1, Status::Alive);
    Call::Member(C), Told::Nothing;
    Call::Take((B, 2, Status::Suspect), 0), Told::Taken(1, 0);
    Call::Expire(5_000), Told::Change((B, 2, Status::Faulty));
    Call::Len, Told::Len(2);
    Call::Leave, Told::Change((A, 7, Status::Leave));
    Call::Rejoin, Told::Change((A, 8, Status::Alive));
};

/// Takes the greatest incarnation, and leaves; there is none to refute by, and none to come back with.
pub(crate) const GREATEST: Case = case! { A_AT_7, "greatest":
    Call::Take((A, LIMIT, Status::Alive), 0), Told::Taken(1, 0);
    Call::Take((A, LIMIT, Status::Suspect), 0), Told::Stopped(0, StopCause::Exhausted);
    Call::Leave, Told::Change((A, LIMIT, Status::Leave));
    Call::Rejoin, Told::Refused(NodeError::Exhausted);
};

/// 10.0.0.1:1 at 7, with weight 2.
pub(crate) const HEAVY_A: Start = Start {
    weight: 2,
    ..A_AT_7
};

/// Keeps its weight where it refutes, and where it leaves.
pub(crate) const WEIGHTY: Case = case! { HEAVY_A, "weighty":
    Call::Take((A, 7, Status::Suspect), 0), Told::Taken(1, 1);
    Call::Own, Told::Weighty((A, 8, Status::Alive), 2);
    Call::Leave, Told::Weighty((A, 8, Status::Leave), 2);
    Call::Text, Told::Text("10.0.0.1:1leave8*2");
};

/// A suspect entry runs out, and then the faulty one.
pub(crate) const RUNS_OUT: Case = case! { A_AT_7, "runs out":
    Call::Take((B, 1, Status::Suspect), 0), Told::Taken(1, 0);
    Call::Expire(4_999), Told::Nothing;
    Call::Expire(5_000), Told::Change((B, 1, Status::Faulty));
    Call::Expire(4_999), Told::Nothing;
    Call::Expire(86_404_999), Told::Nothing;
    Call::Expire(86_405_000), Told::Change((B, 1, Status::Tombstone));
    Call::Expire(LIMIT), Told::Nothing;
};

/// A suspicion waits from the moment at which it was first taken, whatever is heard of it again.
pub(crate) const WAITS: Case = case! { A_AT_7, "waits":
    Call::Take((B, 1, Status::Suspect), 1_000), Told::Taken(1, 0);
    Call::Take((B, 1, Status::Suspect), 3_000), Told::Taken(0, 0);
    Call::Expire(5_999), Told::Nothing;
    Call::Expire(6_000), Told::Change((B, 1, Status::Faulty));
};

/// A member that left stays out at its incarnation, whatever is heard of it there, and owns no key until it is back at a later one.
pub(crate) const STAYS_OUT: Case = case! { A_AT_7, "stays out":
    Call::Take((B, 1, Status::Alive), 0), Told::Taken(1, 0);
    Call::Owner("zzzz1"), Told::Owner(B);
    Call::Take((B, 1, Status::Leave), 0), Told::Taken(1, 0);
    Call::Owner("zzzz1"), Told::Owner(A);
    Call::Take((B, 1, Status::Alive), 0), Told::Taken(0, 0);
    Call::Take((B, 1, Status::Suspect), 0), Told::Taken(0, 0);
    Call::Take((B, 1, Status::Faulty), 0), Told::Taken(0, 0);
    Call::Member(B), Told::Held(1, Status::Leave);
    Call::Take((B, 1, Status::Tombstone), 0), Told::Taken(1, 0);
    Call::Take((B, 1, Status::Leave), 0), Told::Taken(0, 0);
    Call::Owner("zzzz1"), Told::Owner(A);
    Call::Take((B, 2, Status::Alive), 0), Told::Taken(1, 0);
    Call::Owner("zzzz1"), Told::Owner(B);
};

/// A suspicion that was refuted does not run out, and no other at the greatest moment.
pub(crate) const DOES_NOT_RUN_OUT: Case = case! { A_AT_7, "does not run out":
    Call::Take((B, 1, Status::Suspect), 0), Told::Taken(1, 0);
    Call::Take((B, 2, Status::Alive), 100), Told::Taken(1, 0);
    Call::Expire(5_000), Told::Nothing;
    Call::Take((C, 1, Status::Suspect), LIMIT), Told::Taken(1, 0);
    Call::Expire(LIMIT), Told::Nothing;
};

/// Probes the only other member, which is lost, and then answers.
pub(crate) const PROBES_ANOTHER: Case = case! { A_AT_7, "probes another":
    Call::Probe, Told::Nothing;
    Call::Take((B, 1, Status::Alive), 0), Told::Taken(1, 0);
    Call::Probe, Told::Probe(1, B);
    Call::Probe, Told::Refused(NodeError::Busy);
    Call::Running, Told::Running(1, B, None);
    Call::Lost(1), Told::Change((B, 1, Status::Suspect));
    Call::Acked(1), Told::Refused(NodeError::StaleProbe);
    Call::Member(B), Told::Held(1, Status::Suspect);
    Call::Probe, Told::Probe(2, B);
    Call::Acked(3), Told::Refused(NodeError::StaleProbe);
    Call::Acked(2), Told::Done;
    Call::Running, Told::Nothing;
    Call::Probe, Told::Probe(3, B);
    Call::Acked(3), Told::Done;
    Call::Running, Told::Nothing;
};

/// Probes two other members, in an order by the seed; the other one is asked about each that is lost.
pub(crate) const ASKS_ONE: Case = case! { A_AT_7, "asks one":
    Call::Take((B, 1, Status::Alive), 0), Told::Taken(1, 0);
    Call::Take((C, 1, Status::Alive), 0), Told::Taken(1, 0);
    Call::Probe, Told::Probe(1, C);
    Call::Probe, Told::Refused(NodeError::Busy);
    Call::Running, Told::Running(1, C, None);
    Call::Acked(2), Told::Refused(NodeError::StaleProbe);
    Call::Lost(1), Told::Named(1, [Some(B), None, None]);
    Call::Lost(1), Told::Refused(NodeError::StaleProbe);
    Call::HelperSaid(1, C, Said::Reached), Told::Refused(NodeError::NotAsked);
    Call::Running, Told::Running(1, C, Some(B));
    Call::HelperSaid(1, B, Said::Failed), Told::Inconclusive;
    Call::Running, Told::Nothing;
    Call::Probe, Told::Probe(2, B);
    Call::Probe, Told::Refused(NodeError::Busy);
    Call::Lost(2), Told::Named(1, [Some(C), None, None]);
    Call::Running, Told::Running(2, B, Some(C));
    Call::HelperSaid(2, C, Said::Reached), Told::Reached;
    Call::Running, Told::Nothing;
    Call::Probe, Told::Probe(3, B);
    Call::Probe, Told::Refused(NodeError::Busy);
    Call::Lost(3), Told::Named(1, [Some(C), None, None]);
    Call::HelperSaid(3, B, Said::Reached), Told::Refused(NodeError::NotAsked);
    Call::Running, Told::Running(3, B, Some(C));
    Call::HelperSaid(3, C, Said::NotReached), Told::Change((B, 1, Status::Suspect));
    Call::Running, Told::Nothing;
    Call::Probe, Told::Probe(4, C);
    Call::Probe, Told::Refused(NodeError::Busy);
    Call::Acked(5), Told::Refused(NodeError::StaleProbe);
    Call::Acked(4), Told::Done;
    Call::Running, Told::Nothing;
};

/// Probes four other members, in an order by the seed; about each that is lost three are asked, once, and no other
/// member.
pub(crate) const ASKS_THREE: Case = case! { A_AT_7, "asks three":
    Call::Take((B, 1, Status::Alive), 0), Told::Taken(1, 0);
    Call::Take((C, 1, Status::Alive), 0), Told::Taken(1, 0);
    Call::Take((D, 1, Status::Alive), 0), Told::Taken(1, 0);
    Call::Take((E, 1, Status::Alive), 0), Told::Taken(1, 0);
    Call::Probe, Told::Probe(1, E);
    Call::Probe, Told::Refused(NodeError::Busy);
    Call::Lost(1), Told::Named(3, [Some(B), Some(D), Some(C)]);
    Call::Lost(1), Told::Refused(NodeError::StaleProbe);
    Call::HelperSaid(1, E, Said::Reached), Told::Refused(NodeError::NotAsked);
    Call::HelperSaid(1, B, Said::Failed), Told::Waiting;
    Call::HelperSaid(1, D, Said::Failed), Told::Waiting;
    Call::Running, Told::Running(1, E, Some(C));
    Call::HelperSaid(1, C, Said::Failed), Told::Inconclusive;
    Call::Running, Told::Nothing;
    Call::Member(E), Told::Held(1, Status::Alive);
    Call::Probe, Told::Probe(2, B);
    Call::Probe, Told::Refused(NodeError::Busy);
    Call::Lost(2), Told::Named(3, [Some(C), Some(D), Some(E)]);
    Call::Lost(2), Told::Refused(NodeError::StaleProbe);
    Call::HelperSaid(2, B, Said::Reached), Told::Refused(NodeError::NotAsked);
    Call::HelperSaid(2, C, Said::NotReached), Told::Waiting;
    Call::HelperSaid(2, D, Said::Failed), Told::Waiting;
    Call::HelperSaid(2, E, Said::Failed), Told::Change((B, 1, Status::Suspect));
    Call::Running, Told::Nothing;
    Call::Member(B), Told::Held(1, Status::Suspect);
    Call::Probe, Told::Probe(3, C);
    Call::Probe, Told::Refused(NodeError::Busy);
    Call::Lost(3), Told::Named(3, [Some(B), Some(E), Some(D)]);
    Call::Lost(3), Told::Refused(NodeError::StaleProbe);
    Call::HelperSaid(3, C, Said::Reached), Told::Refused(NodeError::NotAsked);
    Call::Running, Told::Running(3, C, Some(B));
    Call::HelperSaid(3, B, Said::Reached), Told::Reached;
    Call::Running, Told::Nothing;
    Call::Member(C), Told::Held(1, Status::Alive);
};

/// No changes.
const NO_NEWS: [Option<Carried>; 3] = [None, None, None];

/// The first entry of A, with A as its source.
const BIRTH: [Option<Carried>; 3] = [Some(((A, 7, Status::Alive), A, 7)), None, None];

const PINGED: Told<'static> = Told::Message(0, A, Kind::Ping, 1, BIRTH);

/// Sends its first entry sixteen times, and then no more.
pub(crate) const SENDS: Case = case! { A_AT_7, "sends":
    Call::MakeJoin, Told::Message(0, A, Kind::Join, 1, BIRTH);
    Call::MakePing(B), PINGED;
    Call::MakePingReq(B, C), Told::Message(0, A, Kind::PingReq, 1, BIRTH);
    Call::MakePingReqAck(B, C), Told::Message(0, A, Kind::PingReqAck, 1, BIRTH);
    Call::MakePing(B), PINGED; Call::MakePing(B), PINGED; Call::MakePing(B), PINGED; Call::MakePing(B), PINGED;
    Call::MakePing(B), PINGED; Call::MakePing(B), PINGED; Call::MakePing(B), PINGED; Call::MakePing(B), PINGED;
    Call::MakePing(B), PINGED; Call::MakePing(B), PINGED; Call::MakePing(B), PINGED; Call::MakePing(B), PINGED;
    Call::MakePing(B), Told::Message(0, A, Kind::Ping, 0, NO_NEWS);
};

/// The first entry of B, with B as its source.
const BORN: Option<Carried> = Some(((B, 1, Status::Alive), B, 1));

const ACKED: Told<'static> = Told::Message(0, B, Kind::Ack, 1, [BORN, None, None]);

const ACKED_ALL: Told<'static> = Told::Message(
    0,
    B,
    Kind::Ack,
    2,
    [BORN, Some(((C, 1, Status::Alive), B, 1)), None],
);

/// The SHA-256 of `10.0.0.2:1alive1;10.0.0.3:1alive1`.
const BOTH: &str = "d1a8af2bb895f65a9ccca4d7e53168c4bb18cd81e9fc26727d51cb26d484051a";

/// Answers fifteen pings by its first entry, and the sixteenth, whose sender still has another digest, by all members.
pub(crate) const TELLS_ALL: Case = case! { B_AT_1, "tells all":
    Call::TakeFrom(A, 7, (C, 1, Status::Alive)), Told::Taken(1, 0);
    Call::Ping(A, 7, NOBODY), ACKED; Call::Ping(A, 7, NOBODY), ACKED; Call::Ping(A, 7, NOBODY), ACKED;
    Call::Ping(A, 7, NOBODY), ACKED; Call::Ping(A, 7, NOBODY), ACKED; Call::Ping(A, 7, NOBODY), ACKED;
    Call::Ping(A, 7, NOBODY), ACKED; Call::Ping(A, 7, NOBODY), ACKED; Call::Ping(A, 7, NOBODY), ACKED;
    Call::Ping(A, 7, NOBODY), ACKED; Call::Ping(A, 7, NOBODY), ACKED; Call::Ping(A, 7, NOBODY), ACKED;
    Call::Ping(A, 7, NOBODY), ACKED; Call::Ping(A, 7, NOBODY), ACKED; Call::Ping(A, 7, NOBODY), ACKED;
    Call::Ping(A, 7, NOBODY), ACKED_ALL;
};

/// Answers fifteen pings by its first entry, then by no change if the sender has its digest, and else by all members.
pub(crate) const SYNCHRONISES: Case = case! { B_AT_1, "synchronises":
    Call::TakeFrom(A, 7, (C, 1, Status::Alive)), Told::Taken(1, 0);
    Call::Ping(A, 7, NOBODY), ACKED; Call::Ping(A, 7, NOBODY), ACKED; Call::Ping(A, 7, NOBODY), ACKED;
    Call::Ping(A, 7, NOBODY), ACKED; Call::Ping(A, 7, NOBODY), ACKED; Call::Ping(A, 7, NOBODY), ACKED;
    Call::Ping(A, 7, NOBODY), ACKED; Call::Ping(A, 7, NOBODY), ACKED; Call::Ping(A, 7, NOBODY), ACKED;
    Call::Ping(A, 7, NOBODY), ACKED; Call::Ping(A, 7, NOBODY), ACKED; Call::Ping(A, 7, NOBODY), ACKED;
    Call::Ping(A, 7, NOBODY), ACKED; Call::Ping(A, 7, NOBODY), ACKED; Call::Ping(A, 7, NOBODY), ACKED;
    Call::Ping(A, 7, BOTH), Told::Message(0, B, Kind::Ack, 0, NO_NEWS);
    Call::Ping(A, 7, NOBODY), ACKED_ALL;
};

/// The first entry of A, with B as its source.
const JOINED: Option<Carried> = Some(((A, 7, Status::Alive), B, 1));

/// Admits a node that joins, once, and answers with all members.
pub(crate) const LETS_JOIN: Case = case! { B_AT_1, "lets join":
    Call::Join((A, 7, Status::Alive), 0), Told::Message(1, B, Kind::Joined, 2, [JOINED, BORN, None]);
    Call::Join((A, 7, Status::Alive), 1), Told::Message(0, B, Kind::Joined, 2, [JOINED, BORN, None]);
    Call::Member(A), Told::Held(7, Status::Alive);
};

/// The SHA-256 of `10.0.0.1:1alive7`.
const ALONE: [u8; 32] = [
    0x11, 0x4c, 0xdd, 0x27, 0x3a, 0xed, 0x4e, 0xfe, 0xe2, 0x5e, 0x37, 0xeb, 0x2d, 0x6f, 0x89, 0x02,
    0x51, 0x6d, 0xe8, 0x9b, 0xfb, 0x09, 0x9e, 0x3d, 0xeb, 0x7c, 0xd6, 0xf3, 0x72, 0xfa, 0x39, 0xdf,
];

/// Tells members, text, digest and owners, of itself alone and of three.
pub(crate) const LOOKS_UP: Case = case! { A_AT_7, "looks up":
    Call::Members, Told::Members(1, Some((A, 7, Status::Alive)));
    Call::Text, Told::Text("10.0.0.1:1alive7");
    Call::Digest, Told::Digest(ALONE);
    Call::Owners("key", 9), Told::Named(1, [Some(A), None, None]);
    Call::Take((B, 1, Status::Alive), 0), Told::Taken(1, 0);
    Call::Take((C, 1, Status::Alive), 0), Told::Taken(1, 0);
    Call::Owners("zzzz2", 2), Told::Named(2, [Some(C), Some(A), None]);
    Call::Members, Told::Members(3, Some((A, 7, Status::Alive)));
    Call::Text, Told::Text("10.0.0.1:1alive7;10.0.0.2:1alive1;10.0.0.3:1alive1");
};

/// All of these, save what a node looks up.
pub(crate) const CASES: [Case; 15] = rows! {
    REFUTES; LEAVES; EXHAUSTED; FULL; GREATEST; WEIGHTY; RUNS_OUT; DOES_NOT_RUN_OUT;
    PROBES_ANOTHER; ASKS_ONE; ASKS_THREE; SENDS; TELLS_ALL; SYNCHRONISES; LETS_JOIN;
};

/// A node that learns of another.
pub(crate) const HEARS_OF_B: Calls = calls! { "hears of b":
    Call::Take((B, 1, Status::Alive), 0), Told::Taken(1, 0);
    Call::Member(B), Told::Held(1, Status::Alive);
};

/// A node that learns of two others.
pub(crate) const MEETS_TWO: Calls = calls! { "meets two":
    Call::Take((B, 1, Status::Alive), 0), Told::Taken(1, 0);
    Call::Take((C, 1, Status::Alive), 0), Told::Taken(1, 0);
    Call::Owner("zzzz0"), Told::Owner(A);
    Call::Owner("zzzz1"), Told::Owner(B);
};

/// Then one of them is suspect, and faulty.
pub(crate) const LOSES_ONE: Calls = calls! { "loses one":
    Call::Take((B, 1, Status::Suspect), 0), Told::Taken(1, 0);
    Call::Owner("zzzz0"), Told::Owner(A);
    Call::Owner("zzzz1"), Told::Owner(B);
    Call::Take((B, 1, Status::Faulty), 0), Told::Taken(1, 0);
    Call::Owner("zzzz0"), Told::Owner(A);
    Call::Owner("zzzz1"), Told::Owner(C);
};

/// The members of a node that was given the twenty changes and that A and 10.0.0.6:1 are alive at 7.
pub(crate) const HEARD_TWENTY: Calls = calls! { "heard twenty":
    Call::Text, Told::Text("10.0.0.1:1alive7;10.0.0.2:1suspect3;10.0.0.3:1faulty3;10.0.0.4:1leave3;10.0.0.5:1tombstone3;10.0.0.6:1alive7");
    Call::Owners("zzzz1", 3), Told::Named(3, [Some(B), Some(F), Some(A)]);
    Call::Owners("zzzz3", 3), Told::Named(3, [Some(F), Some(A), Some(B)]);
};
