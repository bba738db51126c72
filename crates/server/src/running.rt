//! A server from its start to its end.
ghost use Rattle.std.specs.Prelude.{◌≡◌, ◌+◌, ◌<◌, ◌≤◌, ◌++◌, ◌∷◌, [], IfErr, IfOk, IfSome, IsOkUnless, OnErr, vec_len};
ghost use Rattle.std.specs.List.{All};
ghost use Rattle.std.specs.Arc.{arc_value};
ghost use Rattle.std.specs.Vec.{vec_capacity};
ghost use Rattle.locked_node.specs.Passes.{Fits, IsClosed};
ghost use Rattle.peer_core.specs.Acts.{Makes};
ghost use Rattle.server.specs.Running.{IsLeftOpen, end_error};
ghost use Rattle.server.specs.Threads.{ServeTogether};
ghost use Rattle.server.specs.Working.{AreRounds, hosts_of};
ghost use Rattle.server.specs.declared.errors.ServerError.TheVariants.{Memory};

use crate::errors::{EndError, ServerError};
use crate::promises::{Timer, Worker};
use crate::round_clocks::RoundClock;
use crate::runtimes::Runtime;
use crate::seats::Seat;
use crate::servers::Server;
use crate::threads::{end_timer, end_workers, start_all};
use hash_ring::PointHash;
use locked_node::{LockedNode, NodePass};
use node_core::NodeState;
use peer_core::Handler;
use std::alloc::Global;
use std::marker::Model;
use std::net::{Net, TcpListener, TcpStream};
use std::sync::Arc;
use turn_lock::CloseError;

/// A server whose threads run: they serve connections and make rounds until the server is stopped, or until the last connection
/// that it was to serve.
#[derive(Drop)]
pub struct Running<H: PointHash, A: Handler, R: RoundClock> {
    server: Arc<Server<H, A>, Global>,
    workers: Vec<Worker<H, A>>,
    /// Empty, with room for the passes of all workers and that of the rounds.
    returned: Vec<NodePass<H>>,
    timer: Timer<H, A, R>,
}

impl<H: PointHash, A: Handler, R: RoundClock> Model for Running<H, A, R> {
    ghost use Rattle.std.specs.Prelude.{◌≡◌, ◌<◌, [], vec_len};
    ghost use Rattle.std.specs.Vec.{vec_capacity};
    ghost use Rattle.std.specs.Arc.{arc_value};
    ghost use Rattle.std.specs.List.{All};
    ghost use Rattle.locked_node.specs.Passes.{Fits};
    ghost use Rattle.server.specs.Running.{Started, timer_period, rounds_pass, IsTimerOf, worker_passes, AreWorkersOf};

    ghost Value = { Started H A };

    ghost view = { λ r. record { server = arc_value r.server; period = timer_period r.timer; rounds = rounds_pass r.timer; workers = worker_passes r.workers.items; room = vec_capacity r.returned } };

    ghost invariant = { λ r. AreWorkersOf (arc_value r.server) r.workers.items × (IsTimerOf (arc_value r.server) r.timer
        × ((r.returned.items ≡ []) × ((vec_len r.workers < vec_capacity r.returned)
        × (Fits (arc_value r.server).node (rounds_pass r.timer) × All (Fits (arc_value r.server).node) (worker_passes r.workers.items))))) };
}

/// The parts of a server whose threads have ended: the server, and the passes that they gave back, by which its node can be closed.
#[derive(Drop)]
pub struct Ended<H: PointHash, A> {
    /// The server.
    pub server: Arc<Server<H, A>, Global>,
    /// The pass of its rounds.
    pub rounds: NodePass<H>,
    /// The passes of its workers, in the order given.
    pub workers: Vec<NodePass<H>>,
    /// The number of connections that were served by them.
    pub connections: u128,
}

/// Puts the handles and the pass of the rounds after the workers' passes. The only error is `Memory`, and only where the
/// vector of these has not the room.
fn all_passes<H: PointHash>(
    workers: Vec<NodePass<H>>,
    mut handles: Vec<NodePass<H>>,
    rounds: NodePass<H>,
) -> Result<Vec<NodePass<H>>, EndError>
    ensures all { IfOk result (λ v. v.items ≡ workers.items ++ handles.items ++ rounds ∷ []) }
    ensures refusal { IsOkUnless result EndError.Memory }
    ensures full { OnErr result (vec_capacity workers < vec_len workers + vec_len handles + 1) }
{
    let mut passes = workers;
    if passes.append(&mut handles).is_err() || passes.push(rounds).is_err() {
        return Err(EndError::Memory);
    }
    Ok(passes)
}

/// Takes the node out of a server that has no other owner. The server is dropped.
fn node_of<H: PointHash, A: Drop>(server: Arc<Server<H, A>, Global>) -> Option<LockedNode<H>>
    ensures { IfSome result (λ node. node ≡ (arc_value server).node) }
{
    let server = Arc::into_inner(server)?;
    Some(server.node)
}

/// Returns the error of an end for the cause why a node was not closed.
fn end_error(cause: CloseError) -> EndError
    ensures { result ≡ end_error cause }
{
    match cause {
        CloseError::ForeignPass => EndError::ForeignPass,
        CloseError::MissingPass => EndError::MissingPass,
    }
}

impl<H: PointHash, A: Drop> Ended<H, A> {
    /// Closes the node with all its passes, as `LockedNode::close` does: those that came back, and the handles that were not
    /// given to threads, in any order. Returns the node after one legal history of all their calls. The server is dropped, and with
    /// it the port. After an error the node is dropped, too.
    ///
    /// # Errors
    ///
    /// - `Memory`: an allocation failed. None is made where the vector of the workers' passes has room for the others.
    /// - `StillHeld`: another owner holds the server. The threads do not: they have ended.
    /// - `ForeignPass`: a handle has another node's name.
    /// - `MissingPass`: there are fewer handles than were made.
    pub fn close(self, handles: Vec<NodePass<H>>) -> Result<NodeState<H>, EndError>
        requires rounds { Fits (arc_value self.server).node self.rounds }
        requires workers { All (Fits (arc_value self.server).node) self.workers.items }
        requires handles { All (Fits (arc_value self.server).node) handles.items }
        ensures closed { IfOk result (IsClosed H.hash_of (arc_value self.server).node (self.workers.items ++ handles.items ++ self.rounds ∷ [])) }
        ensures refused { IfErr result (IsLeftOpen (arc_value self.server).node (self.workers.items ++ handles.items ++ self.rounds ∷ [])) }
        ensures memory { result ≡ Err EndError.Memory → vec_capacity self.workers < vec_len self.workers + vec_len handles + 1 }
    {
        let Ended {
            server,
            rounds,
            workers,
            ..
        } = self;
        let passes = all_passes(workers, handles, rounds)?;
        let Some(node) = node_of(server) else {
            return Err(EndError::StillHeld);
        };
        match node.close(passes) {
            Ok(node) => Ok(node),
            Err(refused) => Err(end_error(refused.cause)),
        }
    }
}

impl<
    H: PointHash + Send + Sync + 'static,
    A: Handler + Drop + Send + Sync + 'static,
    R: Net<Listener = TcpListener, Stream = TcpStream> + Runtime,
> Running<H, A, R> {
    /// Starts a worker for each of the passes, and a thread that makes rounds by the pass `rounds`, each `period` milliseconds
    /// after the one before has ended; none if the period is 0. No worker serves before all threads run.
    ///
    /// # Errors
    ///
    /// - `NoThread`: the system gave no thread. Those that were started have ended, and none has served.
    /// - `Memory`: an allocation failed; so, too.
    pub fn start(
        rt: &R,
        alloc: Global,
        server: Server<H, A>,
        rounds: NodePass<H>,
        mut workers: Vec<NodePass<H>>,
        period: u64,
    ) -> Result<Self, ServerError>
        requires rounds { Fits server.node rounds }
        requires workers { All (Fits server.node) workers.items }
        ensures started { IfOk result (λ r. (r.server ≡ server) × (r.rounds ≡ rounds) × (r.workers ≡ workers.items)) }
        ensures period { IfOk result (λ r. r.period ≡ period) }
        ensures room { IfOk result (λ r. (vec_len workers < r.room) × (vec_capacity workers ≤ r.room)) }
    {
        let Ok(server) = Arc::new(alloc, server) else {
            return Err(ServerError::Memory);
        };
        let mut threads = Vec::with_capacity(alloc, workers.len())?;
        workers.reserve(1)?;
        let started = start_all(
            rt,
            alloc,
            &server,
            rounds,
            &mut workers,
            period,
            &mut threads,
        );
        match started {
            Ok(timer) => Ok(Running {
                server,
                workers: threads,
                returned: workers,
                timer,
            }),
            Err(error) => {
                end_workers(rt, threads, &mut workers);
                Err(error)
            }
        }
    }

    /// Returns the part that its threads share: the node, the handler, the time.
    pub fn server(&self) -> &Server<H, A>
        ensures { result.now ≡ self.now.server }
    {
        &self.server
    }

    /// Returns a seat at the server's node, with one of its handles. While a seat is there the node cannot be closed.
    ///
    /// # Errors
    ///
    /// - `Memory`: the server has as many owners as it may.
    pub fn seat(
        &self,
        rt: &R,
        alloc: Global,
        handle: NodePass<H>,
    ) -> Result<Seat<R, H, A>, ServerError>
        requires { Fits self.now.server.node handle }
        ensures server { IfOk result (λ s. s.server ≡ self.now.server) }
        ensures handle { IfOk result (λ s. s.handle ≡ handle) }
        ensures refusal { IsOkUnless result Memory }
    {
        let server = Arc::try_clone(&self.server)?;
        Ok(Seat::new(*rt, alloc, server, handle))
    }

    /// Waits for the last connection that was to be served, then ends the rounds, and returns how many connections were served. A
    /// round that is under way is waited for: with the standard timeouts and three helpers 8.5 seconds at most, for a probe that
    /// was left and its own; 20.25 if the server heals, with what corrects its target and a meeting; and 5 more for each host
    /// that is joined after it.
    pub fn wait(self, rt: &R) -> Ended<H, A>
        ensures server { arc_value result.server ≡ self.server }
        ensures rounds { Makes self.server.node (AreRounds R.times self.period (hosts_of self.server.hosts) self.server.healing) self.rounds result.rounds }
        ensures resting { self.period ≡ 0 → result.rounds ≡ self.rounds }
        ensures connections { ServeTogether H.hash_of (A.may_handle self.server.handler) self.server.node self.workers result.workers.items result.connections }
        ensures fits { Fits (arc_value result.server).node result.rounds × All (Fits (arc_value result.server).node) result.workers.items }
        ensures room { vec_capacity result.workers ≡ self.room }
        ensures space { vec_len result.workers < vec_capacity result.workers }
    {
        let Running {
            server,
            workers,
            mut returned,
            timer,
        } = self;
        let connections = end_workers(rt, workers, &mut returned);
        server.end();
        let rounds = end_timer(rt, timer);
        Ended {
            server,
            rounds,
            workers: returned,
            connections,
        }
    }

    /// Stops the server: no further connection is accepted and no further round made. Connections that are being
    /// served, and a round that is under way, are waited for, as `wait` does; what came over connections before is still answered, and
    /// those that wait are closed.
    pub fn stop(self, rt: &R) -> Ended<H, A>
        ensures server { arc_value result.server ≡ self.server }
        ensures rounds { Makes self.server.node (AreRounds R.times self.period (hosts_of self.server.hosts) self.server.healing) self.rounds result.rounds }
        ensures resting { self.period ≡ 0 → result.rounds ≡ self.rounds }
        ensures connections { ServeTogether H.hash_of (A.may_handle self.server.handler) self.server.node self.workers result.workers.items result.connections }
        ensures fits { Fits (arc_value result.server).node result.rounds × All (Fits (arc_value result.server).node) result.workers.items }
        ensures room { vec_capacity result.workers ≡ self.room }
        ensures space { vec_len result.workers < vec_capacity result.workers }
    {
        self.server.end();
        self.wait(rt)
    }
}
