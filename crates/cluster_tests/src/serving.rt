//! The answer to each kind of message.
ghost use Rattle.locked_node.specs.Passes.{Fits};

use crate::fakes::{Counting, Fake, Mood};
use crate::messages::{content, keys, member, message, moment, news, number_of, text};
use crate::shared::{
    ALONE, AMONG_ONE, Caller, Host, Shared, Start, again, check_refused, let_go, met, status,
};
use change_core::Status;
use peer_core::serve_one;
use std::process::Abort;
use turn_lock::LockError;
use wire_json::{Content, Message, News, Reason};

const LIMIT: u64 = 9_007_199_254_740_991;

/// How the link and the handler answer.
type Moods = (Mood, Mood);

const WILLING: Moods = (Mood::Willing, Mood::Willing);

/// A member, its incarnation and its status, as it says them itself.
type Told = (u8, u64, Status);

/// That 10.0.0.2:1 is alive at 5.
const FIVE: Told = (2, 5, Status::Alive);

/// A message of 10.0.0.2:1.
#[derive(Clone, Copy)]
enum Given {
    Join(Told),
    Ping(Told),
    /// A ping-req about this member.
    PingReq(Told, u8),
    /// For two keys, with the body `body`.
    Request(&'static str, &'static str),
    Joined,
    Ack,
    Word,
    Reply,
    NotOwner,
    Refused,
}

const ONE_KEY: Given = Given::Request("zzzz1", "zzzz1");

/// The content of each.
fn content_of(rt: &impl Host, given: &Given) -> Content {
    let (number, incarnation, status) = match *given {
        Given::Join(told) | Given::Ping(told) | Given::PingReq(told, _) => told,
        _ => (2, 1, Status::Alive),
    };
    let told = content(rt, &[news(rt, number, incarnation, status)]);
    match *given {
        Given::Join(_) => Content::Join(told),
        Given::Ping(_) => Content::Ping(told),
        Given::PingReq(_, target) => Content::PingReq(told, member(rt, target)),
        Given::Joined => Content::Joined(told),
        Given::Ack => Content::Ack(told),
        Given::Word => Content::PingReqAck(told, member(rt, 3), true),
        Given::Reply => Content::Reply(text(rt, "body")),
        Given::Refused => Content::Refused(Reason::Full),
        Given::NotOwner => Content::NotOwner,
        Given::Request(first, second) => {
            Content::Forward(keys(rt, (first, second)), text(rt, "body"))
        }
    }
}

/// The answer.
#[derive(Clone, Copy, PartialEq, Eq)]
enum Said {
    /// A Joined of both members, and nothing else.
    Joined,
    /// An Ack with the node's own entry, and nothing else.
    Ack,
    /// Whether the target of this number was reached.
    Word(u32, bool),
    /// A Reply of the text `body`.
    Body,
    NotOwner,
    Refused(Reason),
    Other,
    /// Nothing, since the pass is spent.
    Spent,
}

/// The answer, and how often the link and the handler were asked.
type Answer = (Said, u64, u64);

/// Whether this is the entry of 10.0.0.1:1 at 7, and then of 10.0.0.2:1 at 5 if it has to be of both.
fn tells(rt: &impl Abort, said: &News, of_both: bool) -> bool {
    let own = news(rt, 1, 7, Status::Alive);
    let mut other = own;
    other.change = news(rt, 2, 5, Status::Alive).change;
    let all = [own, other];
    let wanted = if of_both { &all[..] } else { &all[..1] };
    said.changes.as_slice() == wanted
}

fn said_in(rt: &impl Abort, content: &Content) -> Said {
    match content {
        Content::Joined(news) if tells(rt, news, true) => Said::Joined,
        Content::Ack(news) if tells(rt, news, false) => Said::Ack,
        Content::PingReqAck(_, target, reached) => Said::Word(number_of(*target), *reached),
        Content::Reply(text) if text.as_str() == "body" => Said::Body,
        Content::NotOwner => Said::NotOwner,
        Content::Refused(reason) => Said::Refused(*reason),
        _ => Said::Other,
    }
}

/// What the node 10.0.0.1:1 has answered, which is let go.
fn said_by(rt: &impl Abort, answer: Result<Message, LockError>) -> Said {
    match &answer {
        Ok(message) => {
            assert!(rt; number_of(message.source) == 1);
            said_in(rt, &message.content)
        }
        Err(error) => {
            assert!(rt; *error == LockError::PassSpent);
            Said::Spent
        }
    }
}

/// The answer to a message.
fn serve(
    rt: &impl Host,
    shared: &Shared,
    pass: &mut Caller,
    moods: Moods,
    given: &Message,
) -> Answer
    requires { Fits shared.now pass.old }
    ensures { Fits shared.now pass.new }
{
    let (link_mood, handler_mood) = moods;
    let mut link = Fake::new(link_mood, link_mood);
    let handler = Counting::new(handler_mood);
    let (alloc, now, mut asks) = (rt.alloc(), moment(rt, 0), &handler);
    let answer = serve_one(rt, alloc, shared, pass, &mut link, &mut asks, now, given);
    (said_by(rt, answer), link.calls, handler.calls())
}

/// A member, and as what it is held.
type Held = (u8, Option<Status>);

/// A node that starts so, what it is sent, how its link and its handler answer, what it answers, and as what it then
/// holds a member.
type Row = (Start, Given, Moods, Answer, Held);

/// Checks the answer to a message. If it runs out of memory the link and the handler were asked no more than else, and
/// it has this answer when it comes again.
fn check_row(rt: &impl Host, shared: &Shared, pass: &mut Caller, row: &Row)
    requires { Fits shared.now pass.old }
{
    let (_, given, moods, wanted, (number, held_as)) = row;
    let (_, wanted_calls, wanted_handled) = wanted;
    let given = message(rt, 2, content_of(rt, given));
    let mut answer = serve(rt, shared, pass, *moods, &given);
    let (said, calls, handled) = answer;
    if answer != *wanted && said == Said::Refused(Reason::Memory) {
        check_refused(rt);
        assert!(rt; calls <= *wanted_calls && handled <= *wanted_handled);
        answer = serve(rt, shared, pass, *moods, &given);
    }
    drop(given);
    assert!(rt; answer == *wanted);
    assert!(rt; status(rt, shared, pass, *number) == *held_as);
}

fn check(rt: &impl Host, rows: &[Row]) {
    for row in rows {
        let (start, _, _, _, _) = row;
        let (shared, mut pass) = met(rt, start);
        check_row(rt, &shared, &mut pass, row);
        let_go(shared, pass);
    }
}

const ITSELF: Held = (1, Some(Status::Alive));

const SECOND: Held = (2, Some(Status::Alive));

const NO_SECOND: Held = (2, None);

const THIRD: Held = (3, Some(Status::Alive));

/// A join of B with (B,5,alive) at A: a joined with (A,7,alive) and (B,5,alive), both with source A at 7. Neither the link nor the
/// handler is called, here and in each item up to the rounds that does not name one of them.
#[test]
fn a_join_is_answered_by_all_members(rt: HostRuntime) {
    let answer = (Said::Joined, 0, 0);
    check(&rt, &[(ALONE, Given::Join(FIVE), WILLING, answer, SECOND)]);
}

/// A ping of B with (B,5,alive) at A: an ack with (A,7,alive).
#[test]
fn a_ping_is_answered_by_an_ack(rt: HostRuntime) {
    let answer = (Said::Ack, 0, 0);
    check(&rt, &[(ALONE, Given::Ping(FIVE), WILLING, answer, SECOND)]);
}

/// With room for one member.
const FULL: Start = Start { max: 1, ..ALONE };

/// A change that is one too many.
const ONE_MORE: Told = (2, 1, Status::Alive);

/// A change that can't be refuted.
const LAST: Told = (1, LIMIT, Status::Faulty);

const IS_FULL: Answer = (Said::Refused(Reason::Full), 0, 0);

const IS_EXHAUSTED: Answer = (Said::Refused(Reason::Exhausted), 0, 0);

static STOPS: [Row; 6] = rows! {
    FULL, Given::Join(ONE_MORE), WILLING, IS_FULL, NO_SECOND;
    FULL, Given::Ping(ONE_MORE), WILLING, IS_FULL, NO_SECOND;
    FULL, Given::PingReq(ONE_MORE, 3), WILLING, IS_FULL, NO_SECOND;
    FULL, Given::Join(LAST), WILLING, IS_EXHAUSTED, ITSELF;
    FULL, Given::Ping(LAST), WILLING, IS_EXHAUSTED, ITSELF;
    FULL, Given::PingReq(LAST, 3), WILLING, IS_EXHAUSTED, ITSELF;
};

/// A node with one member at most, and a join, a ping and a ping-req with (B,1,alive): refused full. With (A,LIM,faulty): refused
/// exhausted.
#[test]
fn a_taking_that_stops_is_refused_by_its_cause(rt: HostRuntime) {
    check(&rt, &STOPS);
}

/// A change that is new.
const NEW: Told = (3, 1, Status::Alive);

const ABOUT: Given = Given::PingReq(NEW, 3);

const ABOUT_ITSELF: Given = Given::PingReq(NEW, 1);

const FAILING_LINK: Moods = (Mood::Failing, Mood::Willing);

const BROKEN_LINK: Moods = (Mood::Broken, Mood::Willing);

const STRANGE_LINK: Moods = (Mood::Strange, Mood::Willing);

const TELLING_LINK: Moods = (Mood::Telling, Mood::Willing);

const STARVED_LINK: Moods = (Mood::Starved, Mood::Willing);

const REACHED: Answer = (Said::Word(3, true), 1, 0);

const MISSED: Answer = (Said::Word(3, false), 1, 0);

static TARGETS: [Row; 8] = rows! {
    ALONE, ABOUT, WILLING, REACHED, THIRD;
    ALONE, Given::PingReq(FIVE, 3), WILLING, REACHED, SECOND;
    ALONE, ABOUT, STRANGE_LINK, MISSED, THIRD;
    FULL, Given::PingReq((1, 7, Status::Alive), 3), TELLING_LINK, REACHED, NO_SECOND;
    ALONE, ABOUT, FAILING_LINK, MISSED, THIRD;
    ALONE, ABOUT, BROKEN_LINK, MISSED, THIRD;
    ALONE, ABOUT, STARVED_LINK, (Said::Refused(Reason::Memory), 1, 0), THIRD;
    ALONE, ABOUT_ITSELF, BROKEN_LINK, (Said::Word(1, true), 0, 0), THIRD;
};

/// A ping-req about C: reached true where C acks, also if its ack tells a full node of one more; false where it answers otherwise, another
/// acks or the link fails; refused memory where the link finds none. About A itself: reached, and no node is asked; else the link once, and the handler never. It tells of C, which is held as alive
/// then.
#[test]
fn a_ping_req_tells_whether_its_target_was_reached(rt: HostRuntime) {
    check(&rt, &TARGETS);
}

const REPLY: Answer = (Said::Body, 0, 1);

static HANDLED: [Row; 3] = rows! {
    ALONE, ONE_KEY, WILLING, REPLY, NO_SECOND;
    ALONE, ONE_KEY, (Mood::Willing, Mood::Failing), (Said::Refused(Reason::Failed), 0, 1), NO_SECOND;
    ALONE, ONE_KEY, (Mood::Willing, Mood::Starved), (Said::Refused(Reason::Memory), 0, 1), NO_SECOND;
};

/// A request that A owns: the handler's reply; refused failed and refused memory where the handler says so. It is asked once each time,
/// and the link never.
#[test]
fn a_request_is_handled_by_the_owner_of_its_keys(rt: HostRuntime) {
    check(&rt, &HANDLED);
}

static ELSEWHERE: [Row; 2] = rows! {
    AMONG_ONE, ONE_KEY, WILLING, (Said::NotOwner, 0, 0), SECOND;
    AMONG_ONE, Given::Request("zzzz0", "zzzz1"), WILLING, (Said::Refused(Reason::Diverged), 0, 0), SECOND;
};

/// A request for `zzzz1` at A with B: not owner. For `zzzz0` and `zzzz1`: refused diverged.
#[test]
fn a_request_for_others_is_not_handled(rt: HostRuntime) {
    check(&rt, &ELSEWHERE);
}

/// A request at A that has left, alone: refused as `nobody`.
#[test]
fn a_request_to_nobody_is_refused(rt: HostRuntime) {
    let mut start = ALONE;
    start.has_left = true;
    let answer = (Said::Refused(Reason::Nobody), 0, 0);
    check(&rt, &[(start, ONE_KEY, WILLING, answer, NO_SECOND)]);
}

static ANSWERS: [Given; 6] = [
    Given::Joined,
    Given::Ack,
    Given::Word,
    Given::Reply,
    Given::NotOwner,
    Given::Refused,
];

/// Joined, ack, ping-req-ack, reply, not owner and refused: refused unexpected, and nothing is taken.
#[test]
fn answers_are_unexpected(rt: HostRuntime) {
    let answer = (Said::Refused(Reason::Unexpected), 0, 0);
    for given in &ANSWERS {
        check(&rt, &[(ALONE, *given, WILLING, answer, NO_SECOND)]);
    }
}

/// The answers to a request that comes twice, by a pass with one turn.
fn answers_of_one_turn(rt: &impl Host) -> (Answer, Answer) {
    let (shared, mut pass) = met(rt, &Start { turns: 1, ..ALONE });
    let given = message(rt, 2, content_of(rt, &ONE_KEY));
    let first = serve(rt, &shared, &mut pass, WILLING, &given);
    let second = serve(rt, &shared, &mut pass, WILLING, &given);
    drop(given);
    let_go(shared, pass);
    (first, second)
}

/// A request that A owns, twice by a pass with one turn: answered, and then pass spent, with neither the handler nor the link asked.
#[test]
fn a_spent_pass_is_refused(rt: HostRuntime) {
    let wanted = (REPLY, (Said::Spent, 0, 0));
    assert!(&rt; again!(&rt, answers_of_one_turn(&rt) == wanted));
}
