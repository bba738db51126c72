//! How often a message that is posted to a node of a cluster is handled.

use crate::clusters::start;
use crate::fakes::worded;
use crate::messages::{member, request};
use crate::shared::{Host, System, comes};
use cluster_core::Cluster;
use hash_ring::SumHash;
use peer_core::{Handler, HandlerFault};
use std::alloc::Global;
use std::sync::atomic::{AtomicU64, Ordering};
use std::sync::{Arc, Wait};
use wire_json::{Content, Keys, Text};

/// A handler that answers the body, and counts its calls.
#[derive(Drop)]
pub(crate) struct Tally {
    calls: Arc<AtomicU64, Global>,
}

impl Tally {
    pub(crate) fn new(calls: Arc<AtomicU64, Global>) -> Tally {
        Tally { calls }
    }
}

impl Handler for Tally {
    ghost may_handle = { λ _ _ _ _. Unit {0} };

    fn handle<R: Wait>(
        &self,
        _rt: &R,
        alloc: Global,
        _keys: &Keys,
        body: &Text,
    ) -> Result<Text, HandlerFault> {
        self.calls.fetch_add(1, Ordering::SeqCst);
        worded(alloc, body.as_str())
    }
}

/// Whether a cluster answers a request by a reply.
fn is_answered(rt: &impl Host, cluster: &Cluster<SumHash>) -> bool {
    let asked = request(rt, ("zzzz1", "zzzz1"), "1");
    match cluster.ask(rt, rt.alloc(), member(rt, 1), &asked) {
        Ok(answer) => matches!(&answer.content, Content::Reply(_)),
        Err(_) => false,
    }
}

/// How often a request that is asked once of a node with two workers was handled when all workers have ended; None if an allocation failed.
fn count(rt: &impl System) -> Option<u64> {
    let calls = Arc::new(rt.alloc(), AtomicU64::new(0)).ok()?;
    let tally = Tally::new(Arc::try_clone(&calls).ok()?);
    let cluster = start(rt, &[1], 2, tally)?;
    let is_answered = is_answered(rt, &cluster);
    let is_ended = cluster.stop(rt, rt.alloc()).is_ok();
    if is_answered && is_ended {
        return Some(calls.load(Ordering::SeqCst));
    }
    None
}

/// One request over a cluster: its handler is called once.
#[test]
fn a_request_over_a_cluster_is_handled_once(rt: HostRuntime) {
    comes!(&rt; count(&rt) => Some(1), |calls| calls.is_none());
}
