//! A node that is asked the calls of a table: one after another, or in one run.
ghost use Rattle.std.specs.Prelude.{◌≡◌};
ghost use Rattle.change_core.specs.Address.{address_of};

use crate::calls::{Call, Calls, Told, event, is_told, read, tells, wanted_again};
use crate::cases::{Case, Start};
use crate::shared::{Host, check_refused, config, configured, found, held, put, vec_of};
use change_core::Weight;
use hash_ring::{PointHash, SumHash};
use node_core::{Event, NodeState, Reply, Run, run};
use std::alloc::Global;

/// A node that starts so.
pub(crate) fn begun<H: PointHash>(rt: &impl Host, start: &Start, hash: H) -> NodeState<H>
    ensures { result.node.own ≡ address_of start.now.own 1 }
{
    let mut config = config(start.max);
    config.weight = Weight::new(start.weight).expect(rt, "a weight");
    configured(rt, &config, hash, start.own, start.created)
}

/// Whether an event has this answer. If it is refused the node is unchanged; if that was for a failed allocation it
/// comes again.
pub(crate) fn answers<H: PointHash>(
    rt: &impl Host,
    node: &mut NodeState<H>,
    event: &Event,
    wanted: Told<'_>,
) -> bool {
    let before = held(rt, node);
    let reply = node.apply(event);
    let told = read(&reply);
    let is_refused = matches!(told, Told::Refused(_) | Told::Stopped(0, _));
    let again = wanted_again(told, wanted);
    let is_so = tells(reply, wanted);
    assert!(rt; !is_refused || held(rt, node) == before);
    match again {
        Some(wanted) => {
            check_refused(rt);
            tells(node.apply(event), wanted)
        }
        None => is_so,
    }
}

/// Whether a call has this answer.
pub(crate) fn is_answered<H: PointHash>(
    rt: &impl Host,
    node: &mut NodeState<H>,
    call: Call,
    wanted: Told<'_>,
) -> bool {
    let event = event(rt, call);
    answers(rt, node, &event, wanted)
}

/// Checks what a node answers to calls, one after another.
pub(crate) fn check_calls<H: PointHash>(rt: &impl Host, node: &mut NodeState<H>, calls: Calls) {
    let (name, rows) = calls;
    for (place, (call, wanted)) in rows.iter().enumerate() {
        assert!(rt;
            is_answered(rt, node, *call, *wanted),
            "{name}: call {place}"
        );
    }
}

/// The events of calls.
pub(crate) fn events(rt: &impl Host, calls: Calls) -> Vec<Event> {
    let (_, rows) = calls;
    let mut events = vec_of(rt, rows.len());
    for (call, _) in rows {
        put(rt, &mut events, event(rt, *call));
    }
    events
}

/// Whether these are the replies that calls have to have; None if one ran out of memory.
pub(crate) fn tell(replies: &[Reply], calls: Calls) -> Option<bool> {
    let (_, rows) = calls;
    let mut is_so = replies.len() == rows.len();
    for (reply, (_, wanted)) in replies.iter().zip(rows.iter()) {
        if wanted_again(read(reply), *wanted).is_some() {
            return None;
        }
        is_so = is_so && is_told(reply, *wanted);
    }
    Some(is_so)
}

/// Makes these calls of a node, which comes back if out of memory for its replies.
fn try_run(
    alloc: Global,
    node: NodeState<SumHash>,
    events: &[Event],
) -> Result<Run<SumHash>, NodeState<SumHash>> {
    match run(alloc, node, events) {
        Ok(finished) => Ok(finished),
        Err(refused) => Err(refused.node),
    }
}

/// Makes these calls of a new node, which comes back unchanged if out of memory for its replies.
fn finish(rt: &impl Host, start: &Start, events: &[Event]) -> Run<SumHash> {
    let node = begun(rt, start, SumHash);
    let own = node.own();
    match try_run(rt.alloc(), node, events) {
        Ok(finished) => finished,
        Err(node) => {
            check_refused(rt);
            assert!(rt; node.own() == own && node.len() == 1);
            try_run(rt.alloc(), node, events).ok().expect(rt, "a run")
        }
    }
}

/// A ping to a node that has received nothing yet.
const PING: Call = Call::MakePing(0x0a00_0009);

/// What tells two nodes apart: the digest of their members, the owners of keys, sixteen pings, and what runs out when.
const ASKED: [Call; 25] = rows! {
    Call::Digest; Call::Owners("zzzz0", 9); Call::Owners("zzzz1", 9); Call::Owners("zzzz2", 9); Call::Owners("zzzz3", 9);
    PING; PING; PING; PING; PING; PING; PING; PING; PING; PING; PING; PING; PING; PING; PING; PING;
    Call::Expire(4_999); Call::Expire(5_000); Call::Expire(86_404_999); Call::Expire(86_405_000);
};

/// What a node answers to an event; if out of memory it is made again.
fn ask(rt: &impl Host, node: &mut NodeState<SumHash>, event: &Event) -> Reply {
    let reply = node.apply(event);
    if wanted_again(read(&reply), Told::Done).is_none() {
        return reply;
    }
    check_refused(rt);
    node.apply(event)
}

/// Checks that nothing tells two nodes apart: neither members nor pending changes and deadlines.
pub(crate) fn check_alike(
    rt: &impl Host,
    first: &mut NodeState<SumHash>,
    second: &mut NodeState<SumHash>,
) {
    for call in &ASKED {
        let event = event(rt, *call);
        let reply = ask(rt, first, &event);
        assert!(rt; answers(rt, second, &event, read(&reply)));
    }
}

/// A new node that has these replies to a run of these events; None if one ran out of memory.
fn runs(
    rt: &impl Host,
    start: &Start,
    events: &[Event],
    calls: Calls,
) -> Option<NodeState<SumHash>> {
    let Run { node, replies } = finish(rt, start, events);
    let is_so = tell(replies.as_slice(), calls);
    drop(replies);
    assert!(rt; is_so != Some(false), "{}: in a run", calls.0);
    is_so?;
    Some(node)
}

/// Checks an example by calls one after another, and by a run of them, which another new node makes if a reply was out of memory. Then
/// nothing tells the two nodes apart, one of which was refused no allocation: so what a refused call left unchanged are pending changes
/// and deadlines too.
pub(crate) fn check(rt: &impl Host, case: &Case) {
    let (start, calls) = case;
    let mut node = begun(rt, start, SumHash);
    check_calls(rt, &mut node, *calls);
    let events = events(rt, *calls);
    let mut other = found!(rt, runs(rt, start, &events, *calls));
    check_alike(rt, &mut node, &mut other);
}
