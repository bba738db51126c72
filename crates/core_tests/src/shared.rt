//! What the tests of several crates speak of: members, changes and nodes. If an allocation fails the call is made
//! again.
ghost use Rattle.std.specs.Prelude.{◌≡◌, ◌%◌, ◌^◌, sum};
ghost use Rattle.change_core.specs.Address.{address_of};

use change_core::{Address, Change, Digest, Incarnation, Moment, Sourced, Status, Weight};
use detector_core::Running;
use hash_ring::{PointHash, SumHash};
use node_core::{Config, NodeState, View};
use std::env::Env;
use std::process::Abort;
use std::sync::Wait;
use std::sync::atomic::{AtomicU64, Ordering};
use std::thread::Threads;
use wire_json::Changes;

/// What a test needs of the system.
pub(crate) trait Host: AllocGlobal + Env + Abort {}

impl<R: AllocGlobal + Env + Abort> Host for R {}

/// The same for a test of nodes that are shared.
pub(crate) trait Waiter: Host + Wait {}

impl<R: Host + Wait> Waiter for R {}

/// The same with threads.
pub(crate) trait System: Waiter + Threads + Sync {}

impl<R: Waiter + Threads + Sync> System for R {}

/// Checks that an allocation is to fail, as the environment says if `scripts/fail-alloc` runs a test: else a call was out of memory
/// though there was enough. It takes no memory.
pub(crate) fn check_refused(rt: &(impl Env + Abort)) {
    let mut number = [0u8; 32];
    assert!(rt; rt.var("FAIL_ALLOC", &mut number).is_ok());
}

/// What is made: by the first attempt, or by another if an allocation failed.
macro_rules! made {
    ($rt:expr, $attempt:expr) => {
        match $attempt {
            Ok(made) => made,
            Err(_) => {
                crate::shared::check_refused($rt);
                $attempt.ok().expect($rt, "memory")
            }
        }
    };
}

/// What is found: by the first attempt, or by another if an allocation failed.
macro_rules! found {
    ($rt:expr, $attempt:expr) => {
        match $attempt {
            Some(found) => found,
            None => {
                crate::shared::check_refused($rt);
                $attempt.expect($rt, "memory")
            }
        }
    };
}

/// Checks that an attempt is completed: the first, or another if an allocation failed.
macro_rules! check_again {
    ($rt:expr, $attempt:expr $(, $told:literal)?) => {{
        let is_so = $attempt || {
            crate::shared::check_refused($rt);
            $attempt
        };
        assert!($rt; is_so $(, $told)?);
    }};
}

pub(crate) use check_again;
pub(crate) use found;
pub(crate) use made;

/// A member `10.0.0.n:1`, by its first number.
pub(crate) type Ip = u32;

pub(crate) const A: Ip = 0x0a00_0001;

pub(crate) const B: Ip = 0x0a00_0002;

pub(crate) const C: Ip = 0x0a00_0003;

pub(crate) const D: Ip = 0x0a00_0004;

pub(crate) const E: Ip = 0x0a00_0005;

pub(crate) const F: Ip = 0x0a00_0006;

/// The greatest incarnation, and the greatest moment.
pub(crate) const LIMIT: u64 = 9_007_199_254_740_991;

/// The SHA-256 of the empty text: the digest of no members.
pub(crate) const NOBODY: &str = "e3b0c44298fc1c149afbf4c8996fb92427ae41e4649b934ca495991b7852b855";

pub(crate) fn address(rt: &impl Abort, ip: Ip) -> Address
    ensures { result ≡ address_of ip 1 }
{
    Address::new(ip, 1).expect(rt, "an address")
}

pub(crate) fn moment(rt: &impl Abort, number: u64) -> Moment {
    Moment::new(number).expect(rt, "a moment")
}

pub(crate) fn incarnation(rt: &impl Abort, number: u64) -> Incarnation {
    Incarnation::new(number).expect(rt, "an incarnation")
}

/// A change with weight 1: of a member, at an incarnation.
pub(crate) type Row = (Ip, u64, Status);

pub(crate) fn change(rt: &impl Abort, row: Row) -> Change {
    let (ip, number, status) = row;
    Change {
        address: address(rt, ip),
        incarnation: incarnation(rt, number),
        status,
        weight: Weight::new(1).expect(rt, "a weight"),
    }
}

/// A change that its own member said.
pub(crate) fn news(rt: &impl Abort, row: Row) -> Sourced {
    let change = change(rt, row);
    Sourced {
        change,
        source: change.address,
        source_incarnation: change.incarnation,
    }
}

/// These changes, each said by its own member.
pub(crate) fn batch(rt: &impl Host, rows: &[Row]) -> Changes {
    let mut list = vec_of(rt, rows.len());
    for row in rows {
        put(rt, &mut list, news(rt, *row));
    }
    Changes::from_vec(list).ok().expect(rt, "changes")
}

/// A list with room for this many.
pub(crate) fn vec_of<T: Drop>(rt: &impl Host, count: usize) -> Vec<T> {
    made!(rt, Vec::with_capacity(rt.alloc(), count))
}

/// Puts another into a list that has room for it.
pub(crate) fn put<T: Drop>(rt: &impl Abort, list: &mut Vec<T>, one: T) {
    list.push(one).ok().expect(rt, "room");
}

/// The standard configuration, with two points for each unit of weight and this many members.
pub(crate) fn config(max_members: usize) -> Config {
    let mut config = Config::standard();
    config.replicas = 2;
    config.max_members = max_members;
    config
}

/// A node of this configuration at moment 0.
pub(crate) fn configured<H: PointHash>(
    rt: &impl Host,
    config: &Config,
    hash: H,
    own: Ip,
    number: u64,
) -> NodeState<H>
    ensures { result.node.own ≡ address_of own 1 }
{
    let (own, created, start) = (address(rt, own), incarnation(rt, number), moment(rt, 0));
    made!(
        rt,
        NodeState::new(rt.alloc(), *config, hash, own, created, 1, start)
    )
}

/// A node with 4,096 members at most.
pub(crate) fn node(rt: &impl Host, own: Ip, number: u64) -> NodeState<SumHash> {
    configured(rt, &config(4096), SumHash, own, number)
}

/// What a node holds: the digest of all its members, itself among them, and its probe.
pub(crate) type Held = (Digest, Option<Running>);

/// What a node holds.
pub(crate) fn held<H: PointHash>(rt: &impl Host, node: &NodeState<H>) -> Held {
    (made!(rt, node.digest()), node.running())
}

/// Takes one change at a moment, which is not refused. If an allocation fails the node is unchanged, and the next try continues.
pub(crate) fn hear<H: PointHash>(rt: &impl Host, node: &mut NodeState<H>, row: Row, now: u64) {
    let (given, now, before) = ([news(rt, row)], moment(rt, now), held(rt, node));
    if node.take(&given, now).is_err() {
        check_refused(rt);
        assert!(rt; held(rt, node) == before);
        assert!(rt; node.take(&given, now).is_ok());
    }
}

pub(crate) fn view<H: PointHash>(rt: &impl Host, node: &mut NodeState<H>) -> View<H> {
    made!(rt, node.view())
}

/// A sum of bytes that counts how often it is asked for.
#[derive(Clone, Copy)]
pub(crate) struct CountingHash<'a> {
    pub(crate) calls: &'a AtomicU64,
}

impl<'a> PointHash for CountingHash<'a> {
    ghost hash_of = { λ _ bytes. sum bytes % 2 ^ 64 };

    fn hash(&self, bytes: &[u8]) -> u64 {
        self.calls.fetch_add(1, Ordering::SeqCst);
        SumHash.hash(bytes)
    }
}
