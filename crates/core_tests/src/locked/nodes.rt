//! Nodes that are shared, and calls of them. If an allocation fails the node is unchanged, and the next try continues.
ghost use Rattle.std.specs.Prelude.{◌≡◌, []};
ghost use Rattle.std.specs.List.{All};
ghost use Rattle.change_core.specs.Address.{address_of};
ghost use Rattle.turn_lock.specs.Passes.{lock_name};
ghost use Rattle.locked_node.specs.Passes.{name_of, Fits, IsNew};

use crate::calls::{Call, Calls, Told, event, read, tells, wanted_again};
use crate::cases::{A_AT_7, Case, Start};
use crate::node::played::begun;
use crate::shared::{Host, Ip, Row, Waiter, check_refused, moment, news};
use locked_node::{LockedNode, NodePass, SumHash};
use node_core::{Event, Reply};

pub(crate) type Shared = LockedNode<SumHash>;

pub(crate) type Caller = NodePass<SumHash>;

/// A node that starts so, shared by this many passes.
fn share(rt: &impl Host, start: &Start, passes: u32, turns: u32) -> (Shared, Vec<Caller>)
    ensures passes { All (IsNew result.0 turns) result.1.items }
    ensures name { name_of result.0 ≡ address_of start.now.own 1 }
{
    if let Ok(made) = LockedNode::new(rt.alloc(), begun(rt, start, SumHash), passes, turns) {
        return made;
    }
    check_refused(rt);
    let again = begun(rt, start, SumHash);
    let Ok(made) = LockedNode::new(rt.alloc(), again, passes, turns) else {
        panic!(rt; "a locked node")
    };
    made
}

/// A node that starts so, with one pass.
fn shared_node(rt: &impl Host, start: &Start) -> (Shared, Caller)
    ensures { Fits result.0 result.1 }
{
    let (shared, mut passes) = share(rt, start, 1, 1000);
    let pass = passes.pop().expect(rt, "a pass");
    (shared, pass)
}

/// The node 10.0.0.1:1 at 7, with one pass.
pub(crate) fn alone(rt: &impl Host) -> (Shared, Caller)
    ensures { Fits result.0 result.1 }
{
    shared_node(rt, &A_AT_7)
}

/// Lets go of a node and its pass.
pub(crate) fn let_go(shared: Shared, pass: Caller) {
    drop(pass);
    drop(shared);
}

/// The node at 7 with two passes, and the list that they came in, now empty.
pub(crate) fn pair(rt: &impl Host, own: Ip, turns: u32) -> (Shared, Caller, Caller, Vec<Caller>)
    ensures first { Fits result.0 result.1 }
    ensures second { Fits result.0 result.2 }
    ensures room { result.3.items ≡ [] }
    ensures names { (name_of result.0 ≡ address_of own 1) × (lock_name result.1 ≡ address_of own 1) }
{
    let mut start = A_AT_7;
    start.own = own;
    let (shared, mut passes) = share(rt, &start, 2, turns);
    let second = passes.pop().expect(rt, "a pass");
    let first = passes.pop().expect(rt, "another");
    passes.clear();
    (shared, first, second, passes)
}

/// Takes a change that its own member says, which is not refused.
pub(crate) fn hear(rt: &impl Waiter, shared: &Shared, pass: &mut Caller, row: Row)
    requires { Fits shared.now pass.old }
    ensures { Fits shared.now pass.new }
{
    let (given, now) = ([news(rt, row)], moment(rt, 0));
    let mut answer = shared.take(rt, pass, &given, now);
    if let Ok(Err(_)) = answer {
        check_refused(rt);
        answer = shared.take(rt, pass, &given, now);
    }
    assert!(rt; matches!(answer, Ok(Ok(_))));
}

/// What a node replies to an event, by the call of it that each row has, which is admitted.
macro_rules! reply_of {
    ($rt:expr, $node:expr, $pass:expr, $event:expr; $($kind:pat => $reply:ident: $call:ident($($given:expr),*);)+) => {
        match $event {
            $($kind => Reply::$reply($node.$call($rt, $pass $(, $given)*).ok().expect($rt, "a turn"))),+
        }
    };
}

/// What a node answers to an event.
fn ask(rt: &impl Waiter, node: &Shared, pass: &mut Caller, event: &Event) -> Reply
    requires { Fits node.now pass.old }
    ensures { Fits node.now pass.new }
{
    reply_of! { rt, node, pass, event;
        Event::Take(given, now) => Take: take(given.as_slice(), *now);
        Event::Receive(message, now) => Receive: receive(message, *now);
        Event::JoinMessage => JoinMessage: join_message();
        Event::PingTo(target) => PingTo: ping_to(*target);
        Event::PingReqTo { helper, target } => PingReqTo: ping_req_to(*helper, *target);
        Event::PingReqAckTo { requester, target, reached } => PingReqAckTo: ping_req_ack_to(*requester, *target, *reached);
        Event::Leave => Leave: leave();
        Event::Rejoin => Rejoin: rejoin();
        Event::Expire(now) => Expire: expire(*now);
        Event::Probe => Probe: probe();
        Event::Acked(number) => Acked: acked(*number);
        Event::Lost(number, now) => Lost: lost(*number, *now);
        Event::HelperSaid { number, helper, said, moment } => HelperSaid: helper_said(*number, *helper, *said, *moment);
        Event::Running => Running: running();
        Event::Own => Own: own();
        Event::Member(address) => Member: member(*address);
        Event::Len => Len: len();
        Event::Owner(key) => Owner: owner(key.as_slice());
        Event::Owners(key, count) => Owners: owners(key.as_slice(), *count);
        Event::Members => Members: members();
        Event::DigestText => DigestText: digest_text();
        Event::Digest => Digest: digest();
    }
}

/// Whether a call has this answer. If it was out of memory it is made again.
fn is_answered(rt: &impl Waiter, shared: &Shared, pass: &mut Caller, row: (Call, Told<'_>)) -> bool
    requires { Fits shared.now pass.old }
    ensures { Fits shared.now pass.new }
{
    let (call, wanted) = row;
    let event = event(rt, call);
    let reply = ask(rt, shared, pass, &event);
    let again = wanted_again(read(&reply), wanted);
    let is_so = tells(reply, wanted);
    match again {
        Some(wanted) => {
            check_refused(rt);
            tells(ask(rt, shared, pass, &event), wanted)
        }
        None => is_so,
    }
}

/// Checks the replies to the calls of a pass, one after another.
pub(crate) fn check_calls(rt: &impl Waiter, shared: &Shared, pass: &mut Caller, calls: Calls)
    requires { Fits shared.now pass.old }
    ensures { Fits shared.now pass.new }
{
    let (name, rows) = calls;
    for (place, row) in rows.iter().enumerate() {
        assert!(rt; is_answered(rt, shared, pass, *row), "{name}: call {place}");
    }
}

/// Checks an example by the pass of a new node.
pub(crate) fn check(rt: &impl Waiter, case: &Case) {
    let (start, calls) = case;
    let (shared, mut pass) = shared_node(rt, start);
    check_calls(rt, &shared, &mut pass, *calls);
    let_go(shared, pass);
}
