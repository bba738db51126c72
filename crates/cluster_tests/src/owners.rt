//! Three nodes of one process that hold one another as serving, and a fourth that has left and holds the same: a request is
//! handled by one of them, whichever it enters at.

use crate::fakes::{Counting, Mood};
use crate::forwarding::Still;
use crate::messages::{keys, member, moment, news, request, text};
use crate::nodes::state;
use crate::posts::Tally;
use crate::shared::{ALONE, Host, Start, System, again, let_go, met};
use change_core::{Address, Status};
use cluster_core::Cluster;
use hash_ring::SumHash;
use node_core::NodeState;
use peer_core::handle_or_forward;
use std::process::Abort;
use std::sync::Arc;
use std::sync::atomic::{AtomicU64, Ordering};
use wire_json::{Content, Message};

/// The nodes that serve: 10.0.0.2:1, 10.0.0.3:1 and 10.0.0.4:1.
static SERVING: [u8; 3] = [2, 3, 4];

const KEY: (&str, &str) = ("zzzz1", "zzzz1");

/// 10.0.0.1:1, which has left, and holds these three as serving.
const OUTSIDE: Start = Start {
    others: 3,
    has_left: true,
    ..ALONE
};

/// The three nodes, each of which holds all as serving; None if an allocation failed.
fn agreed(rt: &impl Host) -> Option<Vec<NodeState<SumHash>>> {
    let mut nodes = Vec::new(rt.alloc());
    for number in &SERVING {
        let mut node = state(rt, *number, 4096);
        for other in &SERVING {
            let told = [news(rt, *other, 7, Status::Alive)];
            node.take(&told, moment(rt, 0)).ok()?;
        }
        nodes.push(node).ok()?;
    }
    Some(nodes)
}

/// The owner of the key by each of these nodes; None if two name different ones, or one names none.
fn owner_by_all(nodes: &[NodeState<SumHash>]) -> Option<Address> {
    let (key, _) = KEY;
    let named = nodes.first()?.owner(key.as_bytes())?;
    for node in nodes {
        if node.owner(key.as_bytes()) != Some(named) {
            return None;
        }
    }
    Some(named)
}

/// Whether a node answered a request for the key by the owner's Reply, if it is the owner, and else that it is not.
fn is_due(rt: &impl Abort, answer: &Message, asked: Address, owner: Address) -> bool {
    assert!(rt; answer.source == asked);
    match &answer.content {
        Content::Reply(text) => asked == owner && text.as_str() == "x",
        Content::NotOwner => asked != owner,
        _ => false,
    }
}

/// Whether each node that is sent a request answers as is due.
fn all_are_due(rt: &impl Host, cluster: &Cluster<SumHash>, owner: Address) -> bool {
    for number in &SERVING {
        let asked = member(rt, *number);
        let sent = request(rt, KEY, "x");
        let Ok(answer) = cluster.ask(rt, rt.alloc(), asked, &sent) else {
            return false;
        };
        if !is_due(rt, &answer, asked, owner) {
            return false;
        }
    }
    true
}

/// Whether a request that enters at the node that has left has the owner's text. The handler of that node is not called.
fn is_done_from_outside(rt: &impl Host, cluster: &Cluster<SumHash>) -> bool {
    let Ok(mut link) = cluster.link() else {
        return false;
    };
    let (shared, mut pass) = met(rt, &OUTSIDE);
    let handler = Counting::new(Mood::Willing);
    let (alloc, asked, body) = (rt.alloc(), keys(rt, KEY), text(rt, "x"));
    let (clock, mut asks) = (Still::new(), &handler);
    let answer = handle_or_forward(
        rt, alloc, &shared, &mut pass, &mut link, &mut asks, &clock, asked, body,
    );
    let_go(shared, pass);
    assert!(rt; handler.calls() == 0);
    match &answer {
        Ok(text) => text.as_str() == "x",
        Err(_) => false,
    }
}

/// Whether the key has one owner by all three nodes; each that is sent a request answers as is due, by one call of a handler in all; and so
/// does a request from outside, by one more.
fn one_handles(rt: &impl System) -> Option<bool> {
    let calls = Arc::new(rt.alloc(), AtomicU64::new(0)).ok()?;
    let tally = Tally::new(Arc::try_clone(&calls).ok()?);
    let nodes = agreed(rt)?;
    let owner = owner_by_all(nodes.as_slice());
    let cluster = Cluster::start(rt, rt.alloc(), nodes, 1, tally).ok()?;
    let is_so = match owner {
        Some(owner) => {
            all_are_due(rt, &cluster, owner)
                && calls.load(Ordering::SeqCst) == 1
                && is_done_from_outside(rt, &cluster)
                && calls.load(Ordering::SeqCst) == 2
        }
        None => false,
    };
    let is_ended = cluster.stop(rt, rt.alloc()).is_ok();
    Some(is_so && is_ended)
}

/// B, C and D, which hold one another as alive, are each sent a request: the owner by all three replies, by one call of a handler, and the others
/// answer that they are not. A, which has left and holds the three as alive, is given the request: it has the owner's text, by one call more, and
/// A's own handler is not called.
#[test]
fn one_of_three_nodes_handles_a_request(rt: HostRuntime) {
    assert!(&rt; again!(&rt, one_handles(&rt) == Some(true)));
}
