//! Requests that are handled here, answered by their owner, or abandoned, by a clock that moves only while a call waits
//! for it.
ghost use Rattle.std.specs.Prelude.{◌≡◌};
ghost use Rattle.locked_node.specs.Passes.{Fits};

use crate::fakes::{Counting, Mood};
use crate::messages::{keys, number_of, text};
use crate::shared::{ALONE, AMONG_ONE, Caller, Host, Shared, Start, comes, let_go, met};
use change_core::{Address, Moment};
use peer_core::{Clock, ClusterError, Link, LinkError, handle_or_forward};
use std::alloc::Global;
use std::sync::Wait;
use std::sync::atomic::{AtomicU64, Ordering};
use wire_json::{Content, Message, Text};

/// A clock that moves only while a call waits for it.
#[derive(Drop)]
pub(crate) struct Still {
    now: AtomicU64,
}

impl Still {
    /// At moment 0.
    pub(crate) fn new() -> Still {
        Still {
            now: AtomicU64::new(0),
        }
    }
}

impl Clock for Still {
    ghost time = { record { told = λ _. Unit {0}; waited = λ _. Unit {0} } };

    fn now(&self) -> Moment {
        match Moment::new(self.now.load(Ordering::SeqCst) % 1_000_000) {
            Some(now) => now,
            None => unreachable!(),
        }
    }

    fn wait_until<R: Wait>(&self, _rt: &R, moment: u64) {
        self.now.store(moment, Ordering::SeqCst);
    }
}

/// A link from 10.0.0.1:1 to 10.0.0.2:1, which returns a Reply `x` once this many sendings have gone wrong in this
/// mood, each after this many milliseconds, and that notes the moment of each.
#[derive(Drop)]
struct Noted<'a> {
    clock: &'a Still,
    asked: &'a Asked,
    sent: usize,
    moments: [u64; 4],
    failures: u64,
}

/// What a peer answers in this mood; None if out of memory for it, or it never answers.
fn content_in(mood: Mood, alloc: Global) -> Option<Content> {
    match mood {
        Mood::Willing => Some(Content::Reply(Text::new(alloc, "x").ok()?)),
        Mood::Failing => Some(Content::NotOwner),
        _ => None,
    }
}

impl<'a> Noted<'a> {
    /// Notes a sending, one between others at no moment that there is, and returns the mood of its answer.
    fn note(&mut self, is_meant: bool) -> Mood
        ensures { self.new.failures ≡ self.old.failures }
    {
        let now = self.clock.now().number();
        if let Some(moment) = self.moments.get_mut(self.sent) {
            *moment = if is_meant { now } else { u64::MAX };
        }
        self.sent = self.sent.wrapping_add(1);
        self.clock.now.fetch_add(self.asked.takes, Ordering::SeqCst);
        if self.sent <= self.asked.wrong {
            self.asked.link
        } else {
            Mood::Willing
        }
    }
}

impl<'a> Link for Noted<'a> {
    ghost may_answer = { λ _ _ _. Unit {0} };

    ghost went = { λ _ _ _ _ _. Unit {0} };

    ghost failed = { λ f. f.failures };

    fn failures(&self) -> u64 {
        self.failures
    }

    fn call<R: Wait>(
        &mut self,
        _rt: &R,
        alloc: Global,
        to: Address,
        message: &Message,
    ) -> Result<Message, LinkError> {
        if self.failures == u64::MAX {
            return Err(LinkError::Spent);
        }
        let is_meant = number_of(message.source) == 1 && number_of(to) == 2;
        let mood = self.note(is_meant);
        if mood == Mood::Broken {
            self.failures += 1;
            return Err(LinkError::Io);
        }
        match content_in(mood, alloc) {
            Some(content) => Ok(Message {
                source: to,
                source_incarnation: message.source_incarnation,
                content,
            }),
            None => Err(LinkError::Memory),
        }
    }
}

/// A request of a node that starts so.
#[derive(Clone, Copy)]
pub(crate) struct Asked {
    pub(crate) start: Start,
    keys: (&'static str, &'static str),
    /// How the link answers this many sendings.
    link: Mood,
    wrong: usize,
    /// How many milliseconds each answer takes.
    takes: u64,
    handler: Mood,
}

/// A request for one key, of a node that owns it.
pub(crate) const HERE: Asked = Asked {
    start: ALONE,
    keys: ("zzzz1", "zzzz1"),
    link: Mood::Willing,
    wrong: 0,
    takes: 0,
    handler: Mood::Willing,
};

/// The same of a node that does not.
pub(crate) const THERE: Asked = Asked {
    start: AMONG_ONE,
    ..HERE
};

/// The same, all of whose sendings go wrong in this mood.
fn wrong(link: Mood) -> Asked {
    Asked {
        link,
        wrong: 9,
        ..THERE
    }
}

/// The result of a request, how often it was sent, at which moments, and how often the handler was asked.
pub(crate) type Came = (Result<&'static str, ClusterError>, usize, [u64; 4], u64);

/// The answer of the handler.
pub(crate) const HANDLED: Came = (Ok("body"), 0, [0; 4], 1);

/// The owner's answer to the first sending.
pub(crate) const REPLIED: Came = (Ok("x"), 1, [0; 4], 0);

/// The words of an answer, which is let go.
fn words_in(answer: Result<Text, ClusterError>) -> Result<&'static str, ClusterError> {
    match &answer {
        Ok(text) if text.as_str() == "x" => Ok("x"),
        Ok(text) if text.as_str() == "body" => Ok("body"),
        Ok(_) => Ok("another"),
        Err(error) => Err(*error),
    }
}

/// The result of a request with the body `body`.
pub(crate) fn try_request(rt: &impl Host, shared: &Shared, pass: &mut Caller, asked: &Asked) -> Came
    requires { Fits shared.now pass.old }
    ensures { Fits shared.now pass.new }
{
    let clock = Still::new();
    let mut link = Noted {
        clock: &clock,
        asked,
        sent: 0,
        moments: [0; 4],
        failures: 0,
    };
    let handler = Counting::new(asked.handler);
    let (alloc, keys, body) = (rt.alloc(), keys(rt, asked.keys), text(rt, "body"));
    let mut asks = &handler;
    let answer = handle_or_forward(
        rt, alloc, shared, pass, &mut link, &mut asks, &clock, keys, body,
    );
    (words_in(answer), link.sent, link.moments, handler.calls())
}

/// Its result at a new node.
fn first_request(rt: &impl Host, asked: &Asked) -> Came {
    let (shared, mut pass) = met(rt, &asked.start);
    let came = try_request(rt, &shared, &mut pass, asked);
    let_go(shared, pass);
    came
}

/// Checks its result; if it ran out of memory, what it does at another node.
fn check(rt: &impl Host, asked: &Asked, wanted: Came) {
    comes!(rt; first_request(rt, asked) => wanted, |came| came.0 == Err(ClusterError::Memory));
}

const ABANDONED: Came = (
    Err(ClusterError::RetriesSpent),
    4,
    [0, 3_000, 9_000, 21_000],
    0,
);

/// A request for `zzzz1` at A with B, over a link that fails or answers otherwise: sent from A to B at 0, 3,000, 9,000 and 21,000, then
/// retries spent.
#[test]
fn a_request_is_sent_four_times_and_abandoned(rt: HostRuntime) {
    check(&rt, &wrong(Mood::Broken), ABANDONED);
    check(&rt, &wrong(Mood::Failing), ABANDONED);
}

/// The same where each failure takes 100: sent at 0, 3,100, 9,200 and 21,300.
#[test]
fn a_failure_is_noted_when_it_is_known(rt: HostRuntime) {
    let mut asked = wrong(Mood::Broken);
    asked.takes = 100;
    let moments = [0, 3_100, 9_200, 21_300];
    check(
        &rt,
        &asked,
        (Err(ClusterError::RetriesSpent), 4, moments, 0),
    );
}

/// How many sendings go wrong, and how often and when the request is sent.
static REPLIES: [(usize, usize, [u64; 4]); 4] = [
    (0, 1, [0; 4]),
    (1, 2, [0, 3_000, 0, 0]),
    (2, 3, [0, 3_000, 9_000, 0]),
    (3, 4, [0, 3_000, 9_000, 21_000]),
];

/// After none to three failures B replies `x`: `x`, after one to four sends. The handler is never asked.
#[test]
fn the_owner_answers_a_request(rt: HostRuntime) {
    let mut asked = wrong(Mood::Broken);
    for &(wrong, sent, moments) in &REPLIES {
        asked.wrong = wrong;
        check(&rt, &asked, (Ok("x"), sent, moments, 0));
    }
}

/// Checks the result of a request of a node that owns it, where the handler answers so: it is asked once, and nothing is sent.
fn check_handled(rt: &impl Host, handler: Mood, answer: Result<&'static str, ClusterError>) {
    check(rt, &Asked { handler, ..HERE }, (answer, 0, [0; 4], 1));
}

/// A request that A owns: the handler's text, handler fault, or memory; the handler is asked once, and nothing is sent.
#[test]
fn a_request_is_handled_here(rt: HostRuntime) {
    check_handled(&rt, Mood::Willing, Ok("body"));
    check_handled(&rt, Mood::Failing, Err(ClusterError::HandlerFault));
    check_handled(&rt, Mood::Starved, Err(ClusterError::Memory));
}

/// Keys `zzzz0` and `zzzz1`: diverged. Nothing is sent, and no handler asked.
#[test]
fn keys_of_two_owners_are_not_sent(rt: HostRuntime) {
    let mut asked = THERE;
    asked.keys = ("zzzz0", "zzzz1");
    check(&rt, &asked, (Err(ClusterError::Diverged), 0, [0; 4], 0));
}

/// At A that has left: `nobody`. Nothing is sent, and no handler asked.
#[test]
fn a_request_that_nobody_owns_is_not_sent(rt: HostRuntime) {
    let mut asked = HERE;
    asked.start.has_left = true;
    check(&rt, &asked, (Err(ClusterError::Nobody), 0, [0; 4], 0));
}

/// A link without memory: memory, after one send.
#[test]
fn no_memory_of_a_link_ends_a_request(rt: HostRuntime) {
    let wanted = (Err(ClusterError::Memory), 1, [0; 4], 0);
    check(&rt, &wrong(Mood::Starved), wanted);
}
