//! How servers of tests are to be, and what nodes of 127.0.0.1 tell.
use change_core::{Address, Change, Incarnation, Sourced, Status, Weight};
use cli_net::{MAX_REQUESTS, ServeWords};
use std::alloc::Global;
use std::process::Abort;

/// More milliseconds than anything takes here on a busy machine, which are waited where the limit is not what is tested.
pub(crate) const PATIENCE: u64 = 1_000_000;

/// A server at a port of 127.0.0.1, at incarnation 1, without rounds and hosts.
#[derive(Clone, Copy)]
pub(crate) struct Plan {
    pub(crate) port: u16,
    pub(crate) requests: u64,
    pub(crate) workers: u32,
    /// How long it waits for a line, in milliseconds; none for the standard waits.
    pub(crate) line: Option<u64>,
    /// What its writer takes, and nothing else.
    pub(crate) page: &'static str,
    /// How often it tries to listen.
    pub(crate) tries: u32,
}

/// It waits as long as need be.
pub(crate) const PLAN: Plan = Plan {
    port: 29_177,
    requests: 100,
    workers: 2,
    line: Some(PATIENCE),
    page: "serving 127.0.0.1:29177\ndone\n",
    tries: 1,
};

/// A port of 127.0.0.1.
pub(crate) fn local(rt: &impl Abort, port: u16) -> Address {
    Address::new(0x7f00_0001, port).expect(rt, "an address")
}

pub(crate) fn incarnation(rt: &impl Abort, number: u64) -> Incarnation {
    Incarnation::new(number).expect(rt, "an incarnation")
}

/// The entry of the node at a port, with weight 1.
pub(crate) fn entry(rt: &impl Abort, port: u16, number: u64, status: Status) -> Change {
    Change {
        address: local(rt, port),
        incarnation: incarnation(rt, number),
        status,
        weight: Weight::new(1).expect(rt, "a weight"),
    }
}

/// That the node at a port has this status at 1, by itself.
pub(crate) fn told(rt: &impl Abort, port: u16, status: Status) -> Sourced {
    let change = entry(rt, port, 1, status);
    Sourced {
        change,
        source: change.address,
        source_incarnation: change.incarnation,
    }
}

/// The arguments of a plan.
pub(crate) fn words_of(rt: &impl Abort, alloc: Global, plan: &Plan) -> ServeWords {
    let (requests, workers) = (plan.requests, plan.workers);
    assert!(rt; requests >= 1 && requests <= MAX_REQUESTS && workers >= 1 && workers <= 16);
    let own = entry(rt, plan.port, 1, Status::Alive);
    ServeWords {
        address: own.address,
        incarnation: own.incarnation,
        requests,
        workers,
        period: 0,
        replicas: 100,
        weight: own.weight,
        per_message: 64,
        piggyback: 15,
        heal: false,
        sum: false,
        hosts: Vec::new(alloc),
    }
}
