//! The threads of a server.
ghost use Rattle.std.specs.Prelude.{◌≡◌, ◌+◌, ◌≤◌, [], reverse, vec_len, IfOk, IfErr, OnOk};
ghost use Rattle.std.specs.List.{All, AllZip};
ghost use Rattle.std.specs.Arc.{arc_value};
ghost use Rattle.std.specs.Vec.{vec_capacity};
ghost use Rattle.locked_node.specs.Passes.{Fits};
ghost use Rattle.peer_core.specs.Acts.{Makes, Times};
ghost use Rattle.peer_core.specs.Handling.{shared};
ghost use Rattle.server.specs.Threads.{AreBack, IsTimer, IsTimerBack, IsWorker};
ghost use Rattle.server.specs.Working.{AreRounds, IsConnection, hosts_of};

use crate::errors::ServerError;
use crate::promises::{RoundsPromise, Timer, Worker, WorkerBack, WorkerPromise};
use crate::round_clocks::RoundClock;
use crate::rounds::make_rounds;
use crate::runtimes::Runtime;
use crate::servers::{Server, work};
use hash_ring::PointHash;
use locked_node::NodePass;
use peer_core::Handler;
use std::alloc::Global;
use std::marker::PhantomData;
use std::net::{Net, TcpListener, TcpStream};
use std::snapshot::Snapshot;
use std::sync::{Arc, Wait};
use std::thread;
use std::thread::Threads;
use std::time::Clock;

/// Serves connections by a pass, and gives it back with their number.
fn work_by<R: Net + Wait + Clock + Copy, H: PointHash, A: Handler + Drop>(
    rt: R,
    alloc: Global,
    server: Arc<Server<H, A>, Global>,
    mut pass: NodePass<H>,
) -> WorkerBack<H>
    requires { Fits (arc_value server).node pass }
    ensures { Makes (arc_value server).node (Times (IsConnection H.hash_of (shared (A.may_handle (arc_value server).handler))) result.connections) pass result.pass }
{
    let server = &*server;
    let connections = work(server, &mut pass, &mut &server.handler, &rt, alloc);
    WorkerBack { pass, connections }
}

/// Makes rounds by a pass, and what is done between them, and gives it back.
fn make_rounds_by<R: Net + RoundClock + Copy, H: PointHash, A: Drop>(
    rt: R,
    alloc: Global,
    server: Arc<Server<H, A>, Global>,
    mut pass: NodePass<H>,
    period: u64,
) -> NodePass<H>
    requires { Fits (arc_value server).node pass }
    ensures { Makes (arc_value server).node (AreRounds R.times period (hosts_of (arc_value server).hosts) (arc_value server).healing) pass result }
{
    make_rounds(&*server, &mut pass, &rt, alloc, period);
    pass
}

/// A thread that serves connections.
fn start_worker<
    R: Net<Listener = TcpListener, Stream = TcpStream> + Runtime,
    H: PointHash + Send + Sync + 'static,
    A: Handler + Drop + Send + Sync + 'static,
>(
    rt: &R,
    alloc: Global,
    server: &Arc<Server<H, A>, Global>,
    pass: NodePass<H>,
) -> Result<Worker<H, A>, ServerError>
    requires { Fits (arc_value server.now).node pass }
    ensures started { IfOk result (IsWorker (arc_value server.now) pass) }
{
    let server = Arc::try_clone(server)?;
    let host = *rt;
    let promise = WorkerPromise {
        server: Snapshot::of(&*server),
        pass: Snapshot::of(&pass),
    };
    let started = thread::spawn_with(rt, promise, move || work_by(host, alloc, server, pass));
    match started {
        Ok(worker) => Ok(worker),
        Err(_) => Err(ServerError::NoThread),
    }
}

/// A thread that makes rounds; none if the period is 0.
fn start_rounds<
    R: Net<Listener = TcpListener, Stream = TcpStream> + Runtime,
    H: PointHash + Send + Sync + 'static,
    A: Handler + Drop + Send + Sync + 'static,
>(
    rt: &R,
    alloc: Global,
    server: &Arc<Server<H, A>, Global>,
    pass: NodePass<H>,
    period: u64,
) -> Result<Timer<H, A, R>, ServerError>
    requires { Fits (arc_value server.now).node pass }
    ensures started { IfOk result (IsTimer (arc_value server.now) period pass) }
{
    if period == 0 {
        return Ok(Timer::Resting(pass));
    }
    let server = Arc::try_clone(server)?;
    let host = *rt;
    let promise = RoundsPromise {
        server: Snapshot::of(&*server),
        period: Snapshot::of(&period),
        pass: Snapshot::of(&pass),
        clock: PhantomData,
    };
    let started = thread::spawn_with(rt, promise, move || {
        make_rounds_by(host, alloc, server, pass, period)
    });
    match started {
        Ok(rounds) => Ok(Timer::Running(rounds)),
        Err(_) => Err(ServerError::NoThread),
    }
}

/// Waits for the thread that makes rounds, if any does. The pass of the rounds.
pub(crate) fn end_timer<R: Threads + RoundClock, H: PointHash, A>(
    rt: &R,
    timer: Timer<H, A, R>,
) -> NodePass<H>
    ensures { IsTimerBack R.times timer result }
{
    match timer {
        Timer::Resting(pass) => pass,
        Timer::Running(rounds) => rounds.join(rt),
    }
}

/// Starts a worker for each pass, the last one first, into `workers`, which has room for all. At an error those that were started
/// before are there too.
fn start_workers<
    R: Net<Listener = TcpListener, Stream = TcpStream> + Runtime,
    H: PointHash + Send + Sync + 'static,
    A: Handler + Drop + Send + Sync + 'static,
>(
    rt: &R,
    alloc: Global,
    server: &Arc<Server<H, A>, Global>,
    passes: &mut Vec<NodePass<H>>,
    workers: &mut Vec<Worker<H, A>>,
) -> Result<(), ServerError>
    requires fits { All (Fits (arc_value server.now).node) passes.old.items }
    requires none { workers.old.items ≡ [] }
    requires room { vec_len passes.old ≤ vec_capacity workers.old }
    ensures started { OnOk result (AllZip (IsWorker (arc_value server.now)) (reverse passes.old.items) workers.new.items) }
    ensures all { OnOk result (passes.new.items ≡ []) }
    ensures back { vec_len passes.new + vec_len workers.new ≤ vec_len passes.old }
    ensures room { vec_capacity passes.new ≡ vec_capacity passes.old }
{
    'passes: while let Some(pass) = passes.pop() {
        let worker = start_worker(rt, alloc, server, pass)?;
        workers.push_reserved(worker);
    }
    Ok(())
}

/// Starts a worker for each pass, into `workers`, and then the thread that makes rounds, if any is to be made. No worker serves
/// before all run; at an error none ever does.
pub(crate) fn start_all<
    R: Net<Listener = TcpListener, Stream = TcpStream> + Runtime,
    H: PointHash + Send + Sync + 'static,
    A: Handler + Drop + Send + Sync + 'static,
>(
    rt: &R,
    alloc: Global,
    server: &Arc<Server<H, A>, Global>,
    timer: NodePass<H>,
    passes: &mut Vec<NodePass<H>>,
    period: u64,
    workers: &mut Vec<Worker<H, A>>,
) -> Result<Timer<H, A, R>, ServerError>
    requires timer { Fits (arc_value server.now).node timer }
    requires passes { All (Fits (arc_value server.now).node) passes.old.items }
    requires none { workers.old.items ≡ [] }
    requires room { vec_len passes.old ≤ vec_capacity workers.old }
    ensures timer { IfOk result (IsTimer (arc_value server.now) period timer) }
    ensures workers { OnOk result (AllZip (IsWorker (arc_value server.now)) (reverse passes.old.items) workers.new.items) }
    ensures all { OnOk result (passes.new.items ≡ []) }
    ensures back { vec_len passes.new + vec_len workers.new ≤ vec_len passes.old }
    ensures room { vec_capacity passes.new ≡ vec_capacity passes.old }
{
    let blocked = server.block_workers(rt);
    let started = start_workers(rt, alloc, server, passes, workers);
    let started = match started {
        Ok(()) => start_rounds(rt, alloc, server, timer, period),
        Err(fault) => Err(fault),
    };
    if started.is_err() {
        server.give_up();
    }
    drop(blocked);
    started
}

/// Waits for the workers, the last one first, and puts the passes that they give back into `passes`, which has room for all.
/// Returns how many connections they served.
pub(crate) fn end_workers<R: Threads, H: PointHash, A: Handler>(
    rt: &R,
    mut workers: Vec<Worker<H, A>>,
    passes: &mut Vec<NodePass<H>>,
) -> u128
    requires { vec_len passes.old + vec_len workers ≤ vec_capacity passes.old }
    ensures back { AreBack H.hash_of A.may_handle passes.old.items (reverse workers.items) passes.new.items result }
    ensures room { (vec_len passes.new ≡ vec_len passes.old + vec_len workers) × (vec_capacity passes.new ≡ vec_capacity passes.old) }
{
    let mut connections = 0;
    'workers: while let Some(worker) = workers.pop() {
        let back = worker.join(rt);
        passes.push_reserved(back.pass);
        connections += back.connections as u128;
    }
    connections
}
