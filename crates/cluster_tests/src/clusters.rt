//! Nodes of one process that serve one another, by threads. A helper answers false if an allocation failed; the test
//! then continues with another cluster, once.

use crate::fakes::{WILLING, worded};
use crate::messages::{content, member, message, moment, news, number_of, ping, request};
use crate::nodes::state;
use crate::shared::{Host, System, again, check_refused, made};
use change_core::{Address, Status};
use cluster_core::{ChannelLink, Cluster, StartError};
use hash_ring::SumHash;
use node_core::NodeState;
use peer_core::{ClusterError, Handler, HandlerFault, Link, LinkError, Round};
use std::alloc::Global;
use std::process::Abort;
use std::sync::atomic::{AtomicU64, Ordering};
use std::sync::{Arc, Wait};
use std::thread;
use std::thread::{JoinHandle, Threads};
use std::time::Duration;
use wire_json::{Content, Keys, Message, Reason, Text};

/// These nodes, in this order.
fn states(rt: &impl Host, numbers: &[u8]) -> Vec<NodeState<SumHash>> {
    let mut nodes = Vec::new(rt.alloc());
    made!(rt, nodes.reserve(numbers.len()));
    for number in numbers {
        let node = state(rt, *number, 4096);
        nodes.push(node).ok().expect(rt, "room");
    }
    nodes
}

const ONE: (&str, &str) = ("zzzz1", "zzzz1");

/// A cluster of these nodes; None if an allocation failed.
pub(crate) fn start<R: System, A: Handler + Send + Sync + Drop + 'static>(
    rt: &R,
    numbers: &[u8],
    workers: u32,
    handler: A,
) -> Option<Cluster<SumHash>> {
    Cluster::start(rt, rt.alloc(), states(rt, numbers), workers, handler).ok()
}

/// What comes back for a message.
#[derive(Clone, Copy, PartialEq, Eq)]
enum Heard {
    /// An Ack of the node of this number, at its incarnation.
    Ack(u32),
    /// Whether the target of this number was reached.
    Word(u32, bool),
    /// A Reply of the text `one`.
    One,
    /// A Reply of the text `two`.
    Two,
    /// Out of memory for an answer.
    Starved,
    /// Another answer.
    Other,
    /// No answer.
    Fault(LinkError),
}

impl Heard {
    /// Whether it is out of memory.
    fn lacks_memory(&self) -> bool {
        matches!(self, Heard::Starved | Heard::Fault(LinkError::Memory))
    }

    fn is_answer(&self) -> bool {
        !matches!(self, Heard::Fault(_))
    }
}

/// What an answer is, which is let go.
fn heard_in(answer: Result<Message, LinkError>) -> Heard {
    match &answer {
        Ok(message) => match &message.content {
            Content::Ack(_) if message.source_incarnation.number() == 7 => {
                Heard::Ack(number_of(message.source))
            }
            Content::PingReqAck(_, target, reached) => Heard::Word(number_of(*target), *reached),
            Content::Reply(text) if text.as_str() == "one" => Heard::One,
            Content::Reply(text) if text.as_str() == "two" => Heard::Two,
            Content::Refused(Reason::Memory) => Heard::Starved,
            _ => Heard::Other,
        },
        Err(fault) => Heard::Fault(*fault),
    }
}

/// A handler that holds the request `1` until it has handled the request `2`.
#[derive(Drop)]
struct Holding {
    clock: HostRuntime,
    /// 0 until the request `1` is held or answered.
    stage: Arc<AtomicU64, Global>,
    handled: AtomicU64,
}

impl Handler for Holding {
    ghost may_handle = { λ _ _ _ _. Unit {0} };

    fn handle<R: Wait>(
        &self,
        _rt: &R,
        alloc: Global,
        _keys: &Keys,
        body: &Text,
    ) -> Result<Text, HandlerFault> {
        if body.as_str() == "1" {
            self.stage.store(1, Ordering::SeqCst);
            if wait_for(&self.clock, &self.handled) {
                return worded(alloc, "one");
            }
            return Err(HandlerFault::Failed);
        }
        self.handled.store(1, Ordering::SeqCst);
        worded(alloc, "two")
    }
}

/// Waits until this is not 0, for ten seconds at most. Whether it then was not.
fn wait_for(clock: &HostRuntime, stage: &AtomicU64) -> bool {
    for _ in 0..10_000 {
        if stage.load(Ordering::SeqCst) != 0 {
            return true;
        }
        thread::sleep(clock, Duration::from_millis(1));
    }
    false
}

/// What a cluster answers to a message, which is let go; if out of memory, what it answers then.
fn ask(rt: &impl Host, cluster: &Cluster<SumHash>, to: Address, message: Message) -> Heard {
    let mut heard = heard_in(cluster.ask(rt, rt.alloc(), to, &message));
    if heard.lacks_memory() {
        check_refused(rt);
        heard = heard_in(cluster.ask(rt, rt.alloc(), to, &message));
    }
    drop(message);
    heard
}

/// Asks by a link, and notes that there is an answer.
fn ask_by(
    rt: &impl Host,
    mut link: ChannelLink,
    to: Address,
    message: Message,
    stage: Arc<AtomicU64, Global>,
) -> Heard {
    let heard = heard_in(link.call(rt, rt.alloc(), to, &message));
    stage.store(2, Ordering::SeqCst);
    drop(link);
    drop(message);
    drop(stage);
    heard
}

/// Has the request `1` asked in its own thread; None if an allocation failed.
fn ask_first(
    rt: &impl System,
    cluster: &Cluster<SumHash>,
    stage: &Arc<AtomicU64, Global>,
) -> Option<JoinHandle<Heard>> {
    let (runtime, to) = (*rt, member(rt, 1));
    let (theirs, link) = Arc::try_clone(stage).ok().zip(cluster.link().ok())?;
    let first = request(rt, ONE, "1");
    thread::spawn(rt, move || ask_by(&runtime, link, to, first, theirs)).ok()
}

/// Checks that the request `2` is answered while the request `1` is held, and then that one; None if an allocation
/// failed.
fn check_both(
    rt: &impl System,
    clock: &HostRuntime,
    cluster: &Cluster<SumHash>,
    stage: &Arc<AtomicU64, Global>,
) -> Option<()> {
    let caller = ask_first(rt, cluster, stage)?;
    assert!(rt; wait_for(clock, &**stage));
    let second = ask(rt, cluster, member(rt, 1), request(rt, ONE, "2"));
    let first = caller.join(rt);
    if first.lacks_memory() || second.lacks_memory() {
        return None;
    }
    assert!(rt; second == Heard::Two && first == Heard::One);
    Some(())
}

/// Checks that these nodes came back, in this order.
fn check_nodes(rt: &impl Abort, nodes: &[NodeState<SumHash>], numbers: &[u8]) {
    let mut nodes = nodes.iter();
    for number in numbers {
        let node = nodes.next().expect(rt, "a node");
        assert!(rt; node.own().address == member(rt, *number));
    }
    assert!(rt; nodes.next().is_none());
}

/// A cluster of one node and two workers with such a handler; None if an allocation failed.
fn start_holding(
    rt: &impl System,
    clock: HostRuntime,
    stage: &Arc<AtomicU64, Global>,
) -> Option<Cluster<SumHash>> {
    let handler = Holding {
        clock,
        stage: Arc::try_clone(stage).ok()?,
        handled: AtomicU64::new(0),
    };
    start(rt, &[1], 2, handler)
}

/// It answers a request while another is held; None if an allocation failed.
fn holds_up_no_other(rt: &impl System, clock: HostRuntime) -> Option<()> {
    let stage = Arc::new(rt.alloc(), AtomicU64::new(0)).ok()?;
    let cluster = start_holding(rt, clock, &stage)?;
    let done = check_both(rt, &clock, &cluster, &stage);
    drop(stage);
    let nodes = cluster.stop(rt, rt.alloc()).ok()?;
    check_nodes(rt, nodes.as_slice(), &[1]);
    drop(nodes);
    done
}

/// A cluster of one node with two workers, and a handler that holds request 1 until it has handled request 2: both are answered.
#[test]
fn a_slow_request_holds_up_no_other(rt: HostRuntime) {
    assert!(&rt; again!(&rt, holds_up_no_other(&rt, rt).is_some()));
}

/// Why a cluster is not started.
#[derive(Clone, Copy, PartialEq, Eq)]
enum Cause {
    BadCount,
    SameAddress,
}

/// The nodes that came back, and why; none where the cluster was started, or its nodes were dropped.
fn nodes_back<R: Threads + Wait>(
    rt: &R,
    alloc: Global,
    answer: Result<Cluster<SumHash>, StartError<SumHash>>,
) -> Option<(Cause, Vec<NodeState<SumHash>>)> {
    match answer {
        Ok(cluster) => {
            drop(cluster.stop(rt, alloc));
            None
        }
        Err(StartError::BadCount(nodes)) => Some((Cause::BadCount, nodes)),
        Err(StartError::SameAddress(nodes)) => Some((Cause::SameAddress, nodes)),
        Err(_) => None,
    }
}

/// Checks that this many workers do not serve these nodes, for this cause, and the nodes come back.
fn check_not_started(rt: &impl System, numbers: &[u8], workers: u32, wanted: Cause) {
    let answer = Cluster::start(rt, rt.alloc(), states(rt, numbers), workers, WILLING);
    let back = nodes_back(rt, rt.alloc(), answer);
    let (cause, nodes) = back.expect(rt, "nodes that come back");
    assert!(rt; cause == wanted);
    check_nodes(rt, nodes.as_slice(), numbers);
    drop(nodes);
}

/// 0 and 17 workers: bad count; B, A, B: same address; the nodes come back in their order.
#[test]
fn no_cluster_of_too_many_or_equal_nodes(rt: HostRuntime) {
    check_not_started(&rt, &[3, 1], 0, Cause::BadCount);
    check_not_started(&rt, &[3, 1], 17, Cause::BadCount);
    check_not_started(&rt, &[2, 1, 2], 16, Cause::SameAddress);
}

/// The answer over a link from 10.0.0.`number`:1 for a ping with an entry of 10.0.0.9:1; again if out of memory.
fn pinged(rt: &impl Host, link: &mut ChannelLink, number: u8) -> Heard {
    let ping = ping(rt, 9, news(rt, 9, 7, Status::Alive));
    let to = member(rt, number);
    let mut heard = heard_in(link.call(rt, rt.alloc(), to, &ping));
    if heard.lacks_memory() {
        check_refused(rt);
        heard = heard_in(link.call(rt, rt.alloc(), to, &ping));
    }
    drop(ping);
    heard
}

const CLOSED: Heard = Heard::Fault(LinkError::Closed);

/// Checks whom a link reaches.
fn check_link(rt: &impl Host, link: &mut ChannelLink) {
    assert!(rt; pinged(rt, link, 1) == Heard::Ack(1));
    assert!(rt; pinged(rt, link, 2) == Heard::Ack(2));
    assert!(rt; pinged(rt, link, 3) == CLOSED);
    assert!(rt; link.failures() == 1);
}

/// A node's answer to a ping with an entry of 10.0.0.2:1.
fn told(rt: &impl Host, cluster: &Cluster<SumHash>, number: u8, status: Status) -> Heard {
    let ping = ping(rt, 2, news(rt, 2, 7, status));
    ask(rt, cluster, member(rt, number), ping)
}

/// A round of a node at a moment.
fn round(
    rt: &impl Host,
    cluster: &mut Cluster<SumHash>,
    number: u8,
    now: u64,
) -> Result<Round, ClusterError> {
    cluster.round(rt, rt.alloc(), member(rt, number), moment(rt, now))
}

/// Whether a round was hindered by a failed allocation, here or at another node.
fn is_hindered(round: Result<Round, ClusterError>) -> bool {
    matches!(
        round,
        Err(ClusterError::Memory) | Ok(Round::Inconclusive(_))
    )
}

/// Checks two rounds of a node, which holds another one, and the unused address 10.0.0.9:1, as serving.
fn check_rounds(rt: &impl Host, cluster: &mut Cluster<SumHash>, number: u8, other: u8) -> bool {
    let first = round(rt, cluster, number, 0);
    let second = round(rt, cluster, number, 0);
    if is_hindered(first) || is_hindered(second) {
        return false;
    }
    let reached = Ok(Round::Reached(member(rt, other)));
    let suspected = Ok(Round::Suspected(member(rt, 9)));
    let is_reached_first = first == reached && second == suspected;
    assert!(rt; is_reached_first || first == suspected && second == reached);
    true
}

/// Two nodes ping each other, and at a third address there is no node.
fn reach(rt: &impl Host, cluster: &mut Cluster<SumHash>, link: &mut ChannelLink) -> bool {
    check_link(rt, link);
    assert!(rt; told(rt, cluster, 3, Status::Alive) == CLOSED);
    assert!(rt; told(rt, cluster, 1, Status::Alive).is_answer());
    assert!(rt; round(rt, cluster, 3, 0) == Err(ClusterError::NoNode));
    check_rounds(rt, cluster, 1, 2) && check_rounds(rt, cluster, 2, 1)
}

/// Whether a worker of 10.0.0.1:1 reports that 10.0.0.`number`:1 was reached, or that it was not, as expected.
fn tells_of(rt: &impl Host, cluster: &Cluster<SumHash>, number: u8, reached: bool) -> bool {
    let asked = Content::PingReq(content(rt, &[]), member(rt, number));
    let heard = ask(rt, cluster, member(rt, 1), message(rt, 9, asked));
    heard == Heard::Word(u32::from(number), reached)
}

/// Gives 10.0.0.1:1 by a worker that 10.0.0.2:1, an unused address, is suspect, and makes its rounds before and at the
/// end of the suspicion.
fn suspect_to_the_end(rt: &impl Host, cluster: &mut Cluster<SumHash>) -> bool {
    assert!(rt; told(rt, cluster, 1, Status::Suspect).is_answer());
    let before = round(rt, cluster, 1, 4_999);
    let after = round(rt, cluster, 1, 5_000);
    if is_hindered(before) || is_hindered(after) {
        return false;
    }
    assert!(rt; before == Ok(Round::Suspected(member(rt, 2))));
    assert!(rt; after == Ok(Round::Idle));
    true
}

/// What is done with a cluster.
#[derive(Clone, Copy)]
enum Act {
    Nothing,
    Reach,
    AskWorker,
    Suspect,
    AskBySpentLink,
}

/// Does it, by its own link; false if an allocation failed.
fn perform(
    rt: &impl Host,
    cluster: &mut Cluster<SumHash>,
    link: &mut ChannelLink,
    act: Act,
) -> bool {
    match act {
        Act::Nothing => true,
        Act::Reach => reach(rt, cluster, link),
        Act::AskWorker => tells_of(rt, cluster, 2, true) && tells_of(rt, cluster, 3, false),
        Act::Suspect => suspect_to_the_end(rt, cluster),
        Act::AskBySpentLink => {
            let heard = pinged(rt, link, 1);
            assert!(rt; heard == Heard::Fault(LinkError::Spent) && link.failures() == u64::MAX);
            true
        }
    }
}

/// A link of a cluster, which has failed as often as the deed needs, once that is done; None if an allocation failed.
fn link_after(rt: &impl Host, cluster: &mut Cluster<SumHash>, act: Act) -> Option<ChannelLink> {
    let failures = match act {
        Act::AskBySpentLink => u64::MAX,
        _ => 0,
    };
    let mut link = cluster.link().ok()?.after_failures(failures);
    if perform(rt, cluster, &mut link, act) {
        return Some(link);
    }
    drop(link);
    None
}

/// Checks that a link to a cluster that has stopped reaches no node.
fn check_cut_off(rt: &impl Host, link: &mut ChannelLink) {
    let failures = link.failures();
    let heard = pinged(rt, link, 1);
    if failures == u64::MAX {
        assert!(rt; heard == Heard::Fault(LinkError::Spent) && link.failures() == failures);
    } else {
        assert!(rt; heard == CLOSED && link.failures() == failures + 1);
    }
}

/// A member, and in which status it is held.
type Held = (u8, Option<Status>);

/// Checks in which status the first node, if there is one, holds a member.
fn check_held(rt: &impl Abort, nodes: &[NodeState<SumHash>], held: Held) {
    let (number, wanted) = held;
    if let Some(node) = nodes.first() {
        let status = match node.member(member(rt, number)) {
            Some(entry) => Some(entry.status),
            None => None,
        };
        assert!(rt; status == wanted);
    }
}

/// Does that with a cluster of these nodes, and stops it; None if an allocation failed.
fn play(rt: &impl System, numbers: &[u8], act: Act, held: Held) -> Option<()> {
    let mut cluster = start(rt, numbers, 1, WILLING)?;
    let link = link_after(rt, &mut cluster, act);
    let (nodes, mut link) = cluster.stop(rt, rt.alloc()).ok().zip(link)?;
    check_nodes(rt, nodes.as_slice(), numbers);
    check_held(rt, nodes.as_slice(), held);
    drop(nodes);
    check_cut_off(rt, &mut link);
    drop(link);
    Some(())
}

/// Checks what comes of it, and in which status the first node, if there is one, then holds a member.
fn check(rt: &impl System, numbers: &[u8], act: Act, held: Held) {
    assert!(rt; again!(rt, play(rt, numbers, act, held).is_some()));
}

const FIRST_ALIVE: Held = (1, Some(Status::Alive));

/// A cluster of B and A: both ack a ping, each by an ack of its own, at 7, where the ping is at 1; at C it is closed. A, which has heard
/// of B and of a node that is not there, reaches the one and suspects the other, and then so does B of A. Stopped, it gives B and A back,
/// and a ping is closed.
#[test]
fn nodes_of_a_cluster_reach_each_other(rt: HostRuntime) {
    check(&rt, &[2, 1], Act::Reach, FIRST_ALIVE);
}

/// A cluster of B and A, of which a worker of A is asked about B, and about C, where no node is: reached, and not reached. B then holds A
/// as alive.
#[test]
fn a_worker_asks_the_other_nodes(rt: HostRuntime) {
    check(&rt, &[2, 1], Act::AskWorker, FIRST_ALIVE);
}

/// A link whose failures are 2^64 - 1: spent, and its failures stay; the node has heard nothing.
#[test]
fn a_spent_link_asks_nobody(rt: HostRuntime) {
    check(&rt, &[1], Act::AskBySpentLink, (9, None));
}

/// A cluster of no nodes starts and stops.
#[test]
fn a_cluster_may_be_empty(rt: HostRuntime) {
    check(&rt, &[], Act::Nothing, (9, None));
}

/// A cluster of A, told by a worker that B, where no node is, is suspect: a round at 4,999 suspects B still, a round at 5,000 is idle,
/// and B is faulty.
#[test]
fn a_suspect_is_faulty_in_time(rt: HostRuntime) {
    check(&rt, &[1], Act::Suspect, (2, Some(Status::Faulty)));
}
