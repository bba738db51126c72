//! The threads of a server, and the passes that they give back.
use crate::round_clocks::RoundClock;
use crate::servers::Server;
use hash_ring::PointHash;
use locked_node::NodePass;
use peer_core::Handler;
use std::marker::PhantomData;
use std::snapshot::Snapshot;
use std::thread::{Promise, PromisedHandle};

/// What a worker gives back.
#[derive(Drop)]
pub(crate) struct WorkerBack<H: PointHash> {
    /// Its pass.
    pub(crate) pass: NodePass<H>,
    /// The number of connections that it served by it.
    pub(crate) connections: u64,
}

/// That a worker gives back the pass that it was given, by which it served that number of connections and did nothing else.
#[derive(Drop)]
pub(crate) struct WorkerPromise<H: PointHash, A> {
    pub(crate) server: Snapshot<Server<H, A>>,
    pub(crate) pass: Snapshot<NodePass<H>>,
}

impl<H: PointHash, A: Handler> Promise<WorkerBack<H>> for WorkerPromise<H, A> {
    ghost use Rattle.peer_core.specs.Acts.{Makes, Times};
    ghost use Rattle.peer_core.specs.Handling.{shared};
    ghost use Rattle.server.specs.Working.{IsConnection};

    ghost kept_by = { λ p back. Makes p.server.value.node (Times (IsConnection H.hash_of (shared (A.may_handle p.server.value.handler))) back.connections) p.pass.value back.pass };
}

/// A thread that serves connections.
pub(crate) type Worker<H, A> = PromisedHandle<WorkerBack<H>, WorkerPromise<H, A>>;

/// That the thread of the rounds gives back the pass that it was given, by which it made the server's rounds alone, with this
/// period.
#[derive(Drop)]
pub(crate) struct RoundsPromise<H: PointHash, A, R> {
    pub(crate) server: Snapshot<Server<H, A>>,
    pub(crate) period: Snapshot<u64>,
    pub(crate) pass: Snapshot<NodePass<H>>,
    pub(crate) clock: PhantomData<R>,
}

impl<H: PointHash, A, R: RoundClock> Promise<NodePass<H>> for RoundsPromise<H, A, R> {
    ghost use Rattle.peer_core.specs.Acts.{Makes};
    ghost use Rattle.server.specs.Working.{AreRounds, hosts_of};

    ghost kept_by = { λ p pass. Makes p.server.value.node (AreRounds R.times p.period.value (hosts_of p.server.value.hosts) p.server.value.healing) p.pass.value pass };
}

/// The thread that makes the rounds of a server, or its pass.
#[derive(Drop)]
pub(crate) enum Timer<H: PointHash, A, R: RoundClock> {
    /// No thread: the pass for them is kept.
    Resting(NodePass<H>),
    /// A thread, which gives the pass back.
    Running(PromisedHandle<NodePass<H>, RoundsPromise<H, A, R>>),
}
