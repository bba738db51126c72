//! Three nodes of one process, as three agents have them: each serves what others send by one pass, and has another for its own service,
//! and every handler counts its calls. A request that is given to each of them, by its service or by a Forward, is handled by the owner.
ghost use Rattle.std.specs.Prelude.{◌≡◌, ◌≢◌, ◌⊎◌, ℕ, ◌+◌, ◌-◌, ◌^◌, ◌<◌, min, length, List, IfOk, Some};
ghost use Rattle.change_core.specs.declared.addresses.Address.{Address};
ghost use Rattle.hash_ring.specs.declared.hash.SumHash.{SumHash};
ghost use Rattle.hash_ring.specs.declared.servers.Server.{Server};
ghost use Rattle.locked_node.specs.Passes.{Fits};
ghost use Rattle.message_core.specs.declared.messages.Content.TheVariants.{Forward, Reply};
ghost use Rattle.message_core.specs.declared.messages.Message.{Message};
ghost use Rattle.peer_core.specs.Acts.{Makes};
ghost use Rattle.laws.specs.Owning.{LooksSo};

use crate::forward::views::{keys, text};
use crate::locked::nodes::{Caller, Shared, hear, let_go, pair};
use crate::locked::probing::Cut;
use crate::shared::{A, B, C, D, Host, Ip, Row, Waiter, address, check_refused, incarnation, made};
use laws::{done_once, one_owner};
use locked_node::{Address, Message, Moment, Status, SumHash};
use peer_core::laws::handlings;
use peer_core::{
    Clock, ClusterError, HandlerFault, HandlerMut, Link, LinkError, Member, handle_or_forward,
};
use std::alloc::Global;
use std::sync::Wait;
use std::sync::atomic::{AtomicU64, Ordering};
use turn_lock::LockError;
use wire_json::{Content, Keys, Text};

/// By sum it is the key of B, and of C where B does not serve.
const KEY: &str = "zzzz1";

/// A handler that returns the body of a request, and counts its calls.
#[derive(Drop)]
struct Counting {
    calls: u64,
}

impl HandlerMut for Counting {
    // a call counts
    ghost handled = { λ keys body answer old new. new.calls ≡ min (old.calls + 1) (2 ^ 64 - 1) };

    fn handle_mut<R: Wait>(
        &mut self,
        _rt: &R,
        alloc: Global,
        _keys: &Keys,
        body: &Text,
    ) -> Result<Text, HandlerFault> {
        self.calls = self.calls.saturating_add(1);
        match Text::new(alloc, body.as_str()) {
            Ok(text) => Ok(text),
            Err(_) => Err(HandlerFault::Memory),
        }
    }
}

/// A node as it serves other nodes.
#[derive(Drop)]
struct Peer<'n> {
    own: Address,
    member: Member<'n, SumHash, Cut>,
    handler: Counting,
}

impl<'n> Peer<'n> {
    fn new(
        alloc: Global,
        own: Address,
        node: &'n Shared,
        pass: &'n mut Caller,
        cut: &'n mut Cut,
    ) -> Self
        requires { Fits node.now pass.old }
    {
        Peer {
            own,
            member: Member::new(node, pass, cut, alloc),
            handler: Counting { calls: 0 },
        }
    }

    /// Serves a message of another node. The handler is called once at most.
    fn serve(
        &mut self,
        rt: &impl Wait,
        now: Moment,
        message: &Message,
    ) -> Result<Message, LockError>
        ensures { (self.new.handler ≡ self.old.handler) ⊎ (self.new.handler.calls ≡ min (self.old.handler.calls + 1) (2 ^ 64 - 1)) }
    {
        handlings::<SumHash, Cut, Counting>();
        self.member.serve(rt, &mut self.handler, now, message)
    }
}

/// A link to the nodes of this process. It notes the node that gave the last answer.
#[derive(Drop)]
struct Near<'n> {
    first: Peer<'n>,
    second: Peer<'n>,
    third: Peer<'n>,
    last: Option<Address>,
    failures: u64,
}

impl<'n> Link for Near<'n> {
    ghost may_answer = { λ _ _ _. Unit {0} };

    // the node that gave the answer is noted
    ghost went = { λ to message answer old new. IfOk answer (λ reply. new.last ≡ Some reply.source) };

    ghost failed = { λ n. n.failures };

    fn failures(&self) -> u64 {
        self.failures
    }

    fn call<R: Wait>(
        &mut self,
        rt: &R,
        _alloc: Global,
        to: Address,
        message: &Message,
    ) -> Result<Message, LinkError> {
        if self.failures == u64::MAX {
            return Err(LinkError::Spent);
        }
        let Some(answer) = self.served(rt, to, message) else {
            self.failures += 1;
            return Err(LinkError::Closed);
        };
        self.last = Some(answer.source);
        Ok(answer)
    }
}

impl<'n> Near<'n> {
    /// Serves a message by the node at this address; None if there is none, or its lock refuses.
    fn served(&mut self, rt: &impl Wait, to: Address, message: &Message) -> Option<Message>
        ensures { self.new.failures ≡ self.old.failures }
    {
        let now = Moment::new(0)?;
        let answer = if self.first.own == to {
            self.first.serve(rt, now, message)
        } else if self.second.own == to {
            self.second.serve(rt, now, message)
        } else if self.third.own == to {
            self.third.serve(rt, now, message)
        } else {
            return None;
        };
        answer.ok()
    }

    /// How often the handlers were called for other nodes.
    fn calls(&self) -> [u64; 3] {
        [
            self.first.handler.calls,
            self.second.handler.calls,
            self.third.handler.calls,
        ]
    }
}

/// A clock that moves only while a request waits for it.
#[derive(Drop)]
struct Still {
    now: AtomicU64,
}

impl Clock for Still {
    ghost time = { record { told = λ _. Unit {0}; waited = λ _. Unit {0} } };

    fn now(&self) -> Moment {
        match Moment::new(self.now.load(Ordering::SeqCst) % 1_000_000) {
            Some(now) => now,
            None => unreachable!(),
        }
    }

    fn wait_until<R: Wait>(&self, _rt: &R, moment: u64) {
        self.now.store(moment, Ordering::SeqCst);
    }
}

/// Gives a node a request by its own service. A text is that of its own handler, which was called once, or else that of the Reply of the node
/// that the link noted.
fn enter(
    rt: &impl Waiter,
    node: &Shared,
    pass: &mut Caller,
    near: &mut Near<'_>,
    own: &mut Counting,
) -> Result<Text, ClusterError>
    requires { Fits node.now pass.old }
    ensures fits { Fits node.now pass.new }
    ensures done { IfOk result (λ text. (own.new.calls ≡ min (own.old.calls + 1) (2 ^ 64 - 1)) ⊎ ((own.new ≡ own.old)
        × ((reply : Message) × (reply.content ≡ Reply text) × (near.new.last ≡ Some reply.source)))) }
{
    done_once::<SumHash, Near<'_>, Counting, Counting>();
    let clock = Still {
        now: AtomicU64::new(0),
    };
    let alloc = rt.alloc();
    let keys = keys(rt, &[KEY]);
    let body = text(rt, "x");
    handle_or_forward(rt, alloc, node, pass, near, own, &clock, keys, body)
}

/// Gives a node a request by its own service, once more if an allocation failed, and checks its text; returns how often the node's own handler
/// was called.
fn give(rt: &impl Waiter, node: &Shared, pass: &mut Caller, near: &mut Near<'_>) -> u64
    requires { Fits node.now pass.old }
    ensures { Fits node.now pass.new }
{
    let mut own = Counting { calls: 0 };
    let text = made!(rt, enter(rt, node, pass, near, &mut own));
    assert!(rt; text.as_str() == "x");
    own.calls
}

/// The request as a Forward of a node.
fn forward(rt: &impl Host, source: Address) -> Message {
    Message {
        source,
        source_incarnation: incarnation(rt, 7),
        content: Content::Forward(keys(rt, &[KEY]), text(rt, "x")),
    }
}

/// Two nodes are sent the same request. If they name owners by the same servers, one of them does not call its handler.
fn send_both(
    rt: &impl Wait,
    one: &mut Peer<'_>,
    other: &mut Peer<'_>,
    now: Moment,
    message: &Message,
) -> (Result<Message, LockError>, Result<Message, LockError>)
    ensures { (keys : List (List ℕ)) (body : List ℕ) → message.now.content ≡ Forward keys body → 0 < length keys
        → Makes one.old.member.node (λ acts. Makes other.old.member.node (λ more. (a : Address) (b : Address) (hash : SumHash) (replicas : ℕ) (servers : List Server)
        → LooksSo a hash replicas servers acts → LooksSo b hash replicas servers more → a ≢ b
        → (one.new.handler ≡ one.old.handler) ⊎ (other.new.handler ≡ other.old.handler)) other.old.member.pass.now other.new.member.pass.now) one.old.member.pass.now one.new.member.pass.now }
{
    one_owner::<SumHash, Cut, Counting>();
    let first = one.member.serve(rt, &mut one.handler, now, message);
    let second = other.member.serve(rt, &mut other.handler, now, message);
    (first, second)
}

/// Whether a message was answered by a Reply.
fn is_reply(answer: Result<Message, LockError>) -> bool {
    match answer {
        Ok(message) => matches!(&message.content, Content::Reply(_)),
        Err(_) => false,
    }
}

/// Takes what is heard of each of these.
fn meet(rt: &impl Waiter, node: &Shared, pass: &mut Caller, rows: &[Row; 2])
    requires { Fits node.now pass.old }
    ensures { Fits node.now pass.new }
{
    hear(rt, node, pass, rows[0]);
    hear(rt, node, pass, rows[1]);
}

/// Sends the first and the second node a Forward, and then the second and the third; returns which of them replied.
fn send_to_all(rt: &impl Waiter, near: &mut Near<'_>) -> [bool; 4] {
    let now = Moment::new(0).expect(rt, "a moment");
    let message = forward(rt, address(rt, D));
    let (a, b) = send_both(rt, &mut near.first, &mut near.second, now, &message);
    let (c, d) = send_both(rt, &mut near.second, &mut near.third, now, &message);
    [is_reply(a), is_reply(b), is_reply(c), is_reply(d)]
}

/// Whether a node holds a member as serving.
fn holds_as_serving(rt: &impl Waiter, node: &Shared, pass: &mut Caller, ip: Ip) -> bool
    requires { Fits node.now pass.old }
    ensures { Fits node.now pass.new }
{
    let held = node.member(rt, pass, address(rt, ip)).ok();
    let entry = held.expect(rt, "a turn").expect(rt, "an entry");
    entry.status.serving()
}

/// How a request ends that is given to each of three nodes.
struct Wanted {
    /// What the third node has heard of the others.
    heard: [Row; 2],
    /// Whether it holds B as serving, as the others do.
    is_agreed: bool,
    /// How often each handler is called for a request of the node's own service.
    own: [u64; 3],
    /// How often for one that another node passes on.
    passed: [u64; 3],
    /// Who replies to a Forward.
    replies: [bool; 4],
    /// How often the handlers that serve other nodes are called in all.
    all: [u64; 3],
}

/// All agree that the three serve: the request is handled by B alone, whichever node it enters at.
const AGREED: Wanted = Wanted {
    heard: [(A, 7, Status::Alive), (B, 7, Status::Alive)],
    is_agreed: true,
    own: [0, 1, 0],
    passed: [0, 2, 0],
    replies: [false, true, true, false],
    all: [0, 4, 0],
};

/// The third node holds B as faulty, and handles the request too: the two that handle it differ about B, which is one of them.
const DIFFER: Wanted = Wanted {
    heard: [(A, 7, Status::Alive), (B, 7, Status::Faulty)],
    is_agreed: false,
    own: [0, 1, 1],
    passed: [0, 1, 0],
    replies: [false, true, true, true],
    all: [0, 3, 1],
};

/// Checks how often handlers were called. If an allocation failed, one that is to be called may be called once more or less.
fn check_calls(rt: &impl Host, calls: [u64; 3], wanted: [u64; 3]) {
    for (counted, wanted) in calls.iter().zip(wanted.iter()) {
        if *counted != *wanted {
            check_refused(rt);
            assert!(rt; *wanted > 0);
        }
    }
}

/// Gives the request to each of three nodes.
fn check(rt: &impl Waiter, wanted: &Wanted) {
    let (alloc, alive) = (rt.alloc(), Status::Alive);
    let (a, mut a1, mut a2, _) = pair(rt, A, 99);
    let (b, mut b1, mut b2, _) = pair(rt, B, 99);
    let (c, mut c1, mut c2, _) = pair(rt, C, 99);
    meet(rt, &a, &mut a1, &[(B, 7, alive), (C, 7, alive)]);
    meet(rt, &b, &mut b1, &[(A, 7, alive), (C, 7, alive)]);
    meet(rt, &c, &mut c1, &wanted.heard);
    assert!(rt; holds_as_serving(rt, &b, &mut b1, B));
    assert!(rt; holds_as_serving(rt, &c, &mut c1, B) == wanted.is_agreed);
    let (mut x, mut y, mut z) = (Cut::new(), Cut::new(), Cut::new());
    let mut near = Near {
        first: Peer::new(alloc, address(rt, A), &a, &mut a2, &mut x),
        second: Peer::new(alloc, address(rt, B), &b, &mut b2, &mut y),
        third: Peer::new(alloc, address(rt, C), &c, &mut c2, &mut z),
        last: None,
        failures: 0,
    };
    let own = [
        give(rt, &a, &mut a1, &mut near),
        give(rt, &b, &mut b1, &mut near),
        give(rt, &c, &mut c1, &mut near),
    ];
    check_calls(rt, own, wanted.own);
    check_calls(rt, near.calls(), wanted.passed);
    let replies = send_to_all(rt, &mut near);
    if replies != wanted.replies {
        check_refused(rt);
    }
    check_calls(rt, near.calls(), wanted.all);
    drop(near);
    let_go(a, a1);
    let_go(b, b1);
    let_go(c, c1);
}

#[test]
fn one_of_three_nodes_handles_each_request(rt: HostRuntime) {
    check(&rt, &AGREED);
}

#[test]
fn two_nodes_that_handle_a_key_differ_about_one_of_them(rt: HostRuntime) {
    check(&rt, &DIFFER);
}
