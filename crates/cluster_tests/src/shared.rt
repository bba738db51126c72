//! Nodes that are shared, and what a test does if an allocation fails: it tries again.
ghost use Rattle.std.specs.Prelude.{IfSome};
ghost use Rattle.std.specs.List.{All};
ghost use Rattle.locked_node.specs.Passes.{Fits, IsNew};

use crate::messages::{member, news};
use crate::nodes::{hear, state};
use change_core::Status;
use hash_ring::SumHash;
use locked_node::{LockedNode, NodePass};
use node_core::NodeState;
use std::alloc::Global;
use std::env::Env;
use std::process::Abort;
use std::sync::Wait;
use std::thread::Threads;
use std::time::Clock;

/// What a test without threads needs of the system.
pub(crate) trait Host: AllocGlobal + Wait + Env + Abort {}

impl<R: AllocGlobal + Wait + Env + Abort> Host for R {}

/// The same with threads and a clock. Each thread has a copy of it.
pub(crate) trait System: Host + Threads + Clock + Copy + Send + 'static {}

impl<R: Host + Threads + Clock + Copy + Send + 'static> System for R {}

pub(crate) type Shared = LockedNode<SumHash>;

pub(crate) type Caller = NodePass<SumHash>;

/// The start of the node 10.0.0.1:1 at 7.
#[derive(Clone, Copy)]
pub(crate) struct Start {
    /// The greatest number of members.
    pub(crate) max: usize,
    /// How many calls each of its passes may make.
    pub(crate) turns: u32,
    /// How many others it holds as alive.
    pub(crate) others: u8,
    /// Whether it has left.
    pub(crate) has_left: bool,
}

/// With no other member, and room for all that the tests do.
pub(crate) const ALONE: Start = Start {
    max: 4096,
    turns: 99,
    others: 0,
    has_left: false,
};

pub(crate) const AMONG_ONE: Start = Start { others: 1, ..ALONE };

pub(crate) const AMONG_THREE: Start = Start { others: 3, ..ALONE };

/// Checks that an allocation is to fail, as the environment says where `scripts/fail-alloc` runs a test: else memory was refused where
/// there was enough. It takes no memory.
pub(crate) fn check_refused(rt: &(impl Env + Abort)) {
    let mut number = [0u8; 32];
    assert!(rt; rt.var("FAIL_ALLOC", &mut number).is_ok());
}

/// Whether an attempt is completed: the first, or another if an allocation failed.
macro_rules! again {
    ($rt:expr, $attempt:expr) => {
        $attempt || {
            crate::shared::check_refused($rt);
            $attempt
        }
    };
}

/// What is made: by the first attempt, or by another if an allocation failed.
macro_rules! made {
    ($rt:expr, $attempt:expr) => {
        match $attempt {
            Ok(made) => made,
            Err(_) => {
                crate::shared::check_refused($rt);
                $attempt.ok().expect($rt, "memory")
            }
        }
    };
}

/// Checks what an attempt comes to: the first, or another if the first was out of memory, and that was not wanted.
macro_rules! comes {
    ($rt:expr; $attempt:expr => $wanted:expr, |$came:ident| $is_starved:expr) => {{
        let mut $came = $attempt;
        if $came != $wanted && $is_starved {
            crate::shared::check_refused($rt);
            $came = $attempt;
        }
        assert!($rt; $came == $wanted);
    }};
}

pub(crate) use again;
pub(crate) use comes;
pub(crate) use made;

/// A node that is shared by this many passes, each for this many calls.
pub(crate) fn try_share(
    alloc: Global,
    node: NodeState<SumHash>,
    passes: u32,
    turns: u32,
) -> Option<(Shared, Vec<Caller>)>
    ensures { IfSome result (λ r. All (IsNew r.0 turns) r.1.items) }
{
    match LockedNode::new(alloc, node, passes, turns) {
        Ok(made) => Some(made),
        Err(fault) => {
            drop(fault);
            None
        }
    }
}

/// The node before it is shared.
fn begun(rt: &impl Host, start: &Start) -> NodeState<SumHash> {
    let mut node = state(rt, 1, start.max);
    for number in 0..start.others {
        hear(
            rt,
            &mut node,
            news(rt, number.wrapping_add(2), 1, Status::Alive),
        );
    }
    if start.has_left {
        made!(rt, node.leave());
    }
    node
}

/// The node with its passes.
pub(crate) fn share(rt: &impl Host, start: &Start, passes: u32) -> (Shared, Vec<Caller>)
    ensures { All (Fits result.0) result.1.items }
{
    let turns = start.turns;
    if let Some(made) = try_share(rt.alloc(), begun(rt, start), passes, turns) {
        return made;
    }
    check_refused(rt);
    try_share(rt.alloc(), begun(rt, start), passes, turns).expect(rt, "a locked node")
}

/// The node with its one pass.
pub(crate) fn met(rt: &impl Host, start: &Start) -> (Shared, Caller)
    ensures { Fits result.0 result.1 }
{
    let (shared, mut passes) = share(rt, start, 1);
    let pass = passes.pop().expect(rt, "a pass");
    (shared, pass)
}

/// Lets go of a node and its pass.
pub(crate) fn let_go(shared: Shared, pass: Caller) {
    drop(pass);
    drop(shared);
}

/// The status that a node holds a member in.
pub(crate) fn status(
    rt: &impl Host,
    shared: &Shared,
    pass: &mut Caller,
    number: u8,
) -> Option<Status>
    requires { Fits shared.now pass.old }
    ensures { Fits shared.now pass.new }
{
    let held = shared.member(rt, pass, member(rt, number));
    Some(held.ok().expect(rt, "a turn")?.status)
}
