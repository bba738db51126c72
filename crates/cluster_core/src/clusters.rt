//! Nodes of one process, each served by separate workers, that talk over channels.
ghost use Rattle.std.specs.Prelude.{◌≡◌, ◌≢◌, ◌⊎◌, ◌<◌, ◌≤◌, ◌+◌, ◌++◌, ◌∷◌, [], map, slice_index_or, IsTrue, IsFalse, IfOk, IfErr, IfNone, IfSome, IsOkUnless, Err, All, length};
ghost use Rattle.std.specs.List.{AllZip};
ghost use Rattle.std.specs.Arc.{arc_value};
ghost use Rattle.node_core.specs.Workers.{IsCrew};
ghost use Rattle.locked_node.specs.Passes.{Fits};
ghost use Rattle.cluster_core.specs.Channels.{IsChannelFault, failures_of, reached_by};
ghost use Rattle.cluster_core.specs.Clusters.{address_in, AreApart, given_to, HasNoNode, HasNoPost, IsAbandoned, IsNotStarted, IsOfSeat, NodeDoes, NoneHas, SeatDoes, Seats, IsStarted};
ghost use Rattle.cluster_core.specs.Working.{AnswersOnce, HasWorked, IsMessageServed, Repeats, ServesEach, ServesOnce};
ghost use Rattle.peer_core.specs.Acts.{Makes};
ghost use Rattle.peer_core.specs.Correcting.{IsCorrectingRound};
ghost use Rattle.peer_core.specs.Errors.{IsHealRefusal, IsRoundRefusal};
ghost use Rattle.peer_core.specs.Handling.{between, shared};
ghost use Rattle.peer_core.specs.Healing.{IsHealing, after_round};
ghost use Rattle.peer_core.specs.Links.{any_answer};
ghost use Rattle.peer_core.specs.Members.{Done};
ghost use Rattle.peer_core.specs.Parts.{let_in};
ghost use Rattle.peer_core.specs.Rounds.{IsRound};
ghost use Rattle.peer_core.specs.Serving.{Serves};

use crate::channel_links::{ChannelLink, Job, Mailbox, Outlet, ask_one, post_of};
use crate::seats::{ServedNode, WorkerPromise};
use change_core::{Address, Moment};
use crossbeam_channel::{Receiver, unbounded};
use hash_ring::PointHash;
use locked_node::{LockedNode, NodePass};
use message_core::Message;
use node_core::{MAX_WORKERS, NodeState};
use peer_core::{
    ClusterError, Handler, HandlerMut, Healing, LinkError, Member, Round, correcting_round,
    gossip_round, heal,
};
use std::alloc::{AllocError, AllocFailed, Global};
use std::fmt;
use std::marker::Model;
use std::snapshot::Snapshot;
use std::sync::{Arc, Wait};
use std::thread::{self, PromisedHandle, Threads};
use thiserror::Error;
use turn_lock::LockError;

/// The errors of a cluster's start.
#[derive(Drop, Error)]
pub enum StartError<H: PointHash> {
    /// The number of workers is not from 1 to 16. The nodes are returned.
    #[error("bad count of workers")]
    BadCount(Vec<NodeState<H>>),
    /// Two of the nodes have one address. The nodes are returned.
    #[error("two nodes have one address")]
    SameAddress(Vec<NodeState<H>>),
    /// A thread could not be made. The nodes are dropped.
    #[error("no thread could be made")]
    NoThread,
    /// Out of memory. The nodes are dropped.
    #[error("out of memory")]
    Memory,
}

impl<H: PointHash> fmt::Debug for StartError<H> {
    fn fmt<F: fmt::Write>(&self, f: &mut fmt::Formatter<F>) -> fmt::Result {
        f.write_str(match self {
            StartError::BadCount(_) => "BadCount",
            StartError::SameAddress(_) => "SameAddress",
            StartError::NoThread => "NoThread",
            StartError::Memory => "Memory",
        })
    }
}

/// The errors of a cluster's end.
#[derive(Clone, Copy, Debug, PartialEq, Eq, Error)]
pub enum StopError {
    /// Another owner still holds a node.
    #[error("a node is still held")]
    StillHeld,
    /// Out of memory.
    #[error("out of memory")]
    Memory,
}

/// Nodes that are served.
#[derive(Drop)]
pub struct Cluster<H: PointHash> {
    posts: Arc<Vec<Mailbox>, Global>,
    seats: Vec<ServedNode<H>>,
}

impl<H: PointHash> Model for Cluster<H> {
    ghost use Rattle.std.specs.Arc.{arc_value};
    ghost use Rattle.cluster_core.specs.Clusters.{ArePostsOf, ClusterState};

    ghost Value = { ClusterState H };

    ghost view = { λ c. record { posts = (arc_value c.posts).items; seats = c.seats.items } };

    ghost invariant = { λ c. ArePostsOf (arc_value c.posts).items c.seats.items };
}

/// Answers a message, at the moment that a node reads as its last one.
fn answer_one<R: Wait, H: PointHash, A: HandlerMut>(
    rt: &R,
    member: &mut Member<'_, H, ChannelLink>,
    handler: &mut A,
    message: &Message,
) -> Result<Message, LockError>
    ensures { Done (Serves H.hash_of any_answer (between A.handled handler.old handler.new) message.now 0 message.now.content) (let_in result) member.old member.new }
{
    member.serve(rt, handler, Moment::beginning(), message)
}

/// Answers a message, and puts the answer where the caller waits for it.
fn answer_to<R: Wait, H: PointHash, A: HandlerMut, O: Outlet<Message> + Drop>(
    rt: &R,
    member: &mut Member<'_, H, ChannelLink>,
    handler: &mut A,
    message: &Message,
    to: O,
)
    ensures { AnswersOnce H.hash_of (between A.handled handler.old handler.new) (O.put_in to) message.now member.old member.new }
{
    if let Ok(answer) = answer_one(rt, member, handler, message) {
        let _sent = to.put(rt, answer);
    }
}

/// Answers the next message. Returns `false` if none can come any more, or the worker has to end.
fn serve_next<R: Wait, H: PointHash, A: HandlerMut>(
    rt: &R,
    member: &mut Member<'_, H, ChannelLink>,
    handler: &mut A,
    jobs: &Receiver<Job>,
) -> bool
    ensures served { IsTrue result → (m : _) × ServesOnce H.hash_of (between A.handled handler.old handler.new) m member.old member.new }
    ensures ended { IsFalse result → (member.new ≡ member.old) × (handler.new ≡ handler.old) }
{
    match &jobs.recv(rt) {
        Ok(Job::Serve(message, to)) => {
            answer_to(rt, member, handler, message, to);
            true
        }
        Ok(Job::Stop) | Err(_) => false,
    }
}

/// Answers messages until none can come any more: the handler is called once for each Forward that the node owns.
fn work_over<R: Wait, H: PointHash, A: HandlerMut>(
    rt: &R,
    member: &mut Member<'_, H, ChannelLink>,
    handler: &mut A,
    jobs: &Receiver<Job>,
)
    ensures served { Makes member.old.node (ServesEach H.hash_of A.handled handler.old handler.new) member.old.pass.now member.new.pass.now }
    ensures node { member.new.node ≡ member.old.node }
    ensures pass { member.new.pass.ghost_name ≡ member.old.pass.ghost_name }
{
    'jobs: for _ in rt.forever() {
        if !serve_next(rt, member, handler, jobs) {
            break;
        }
    }
}

/// Answers messages until none can come any more, by a handler that others may call at the same time.
fn work_with<R: Wait, H: PointHash, A: Handler>(
    rt: &R,
    member: &mut Member<'_, H, ChannelLink>,
    handler: &A,
    jobs: &Receiver<Job>,
)
    ensures made { Makes member.old.node (Repeats (IsMessageServed H.hash_of (shared (A.may_handle handler.now)))) member.old.pass.now member.new.pass.now }
    ensures worked { HasWorked H.hash_of member.old.node member.old.pass.now member.new.pass.now }
    ensures node { member.new.node ≡ member.old.node }
    ensures pass { member.new.pass.ghost_name ≡ member.old.pass.ghost_name }
{
    work_over(rt, member, &mut &*handler, jobs);
}

/// Answers messages until none can come any more, and gives the pass back.
fn work<R: Wait + Copy, H: PointHash, A: Handler + Drop>(
    rt: R,
    alloc: Global,
    node: Arc<LockedNode<H>, Global>,
    mut pass: NodePass<H>,
    mut link: ChannelLink,
    handler: Arc<A, Global>,
    jobs: Receiver<Job>,
) -> NodePass<H>
    requires { Fits (arc_value node) pass }
    ensures made { Makes (arc_value node) (Repeats (IsMessageServed H.hash_of (shared (A.may_handle (arc_value handler))))) pass result }
    ensures worked { HasWorked H.hash_of (arc_value node) pass result }
    ensures fits { Fits (arc_value node) result }
{
    let mut member = Member::new(&*node, &mut pass, &mut link, alloc);
    work_with(&rt, &mut member, &*handler, &jobs);
    let _pass = member.into_pass();
    pass
}

/// Makes a post for each node, and the channels from which the jobs of each come.
fn posts_for<H: PointHash>(
    alloc: Global,
    nodes: &[NodeState<H>],
) -> Result<(Vec<Mailbox>, Vec<Receiver<Job>>), AllocError>
    ensures posts { IfOk result (λ r. map (λ p. p.address) r.0.items ≡ map address_in nodes.now) }
    ensures outlets { IfOk result (λ r. length r.1.items ≡ length nodes.now) }
{
    let mut posts = Vec::with_capacity(alloc, nodes.len())?;
    let mut outlets = Vec::with_capacity(alloc, nodes.len())?;
    for node in nodes {
        let (jobs, outlet) = unbounded(alloc)?;
        let address = node.own().address;
        posts.push(Mailbox { address, jobs })?;
        outlets.push(outlet)?;
    }
    Ok((posts, outlets))
}

/// Returns whether one of the nodes has this address.
fn is_taken<H: PointHash>(nodes: &[NodeState<H>], address: Address) -> bool
    ensures taken { IsTrue result → ¬ NoneHas nodes.now address }
    ensures free { IsFalse result → NoneHas nodes.now address }
{
    nodes.iter().any(|node| node.own().address == address)
}

/// Returns whether two of the nodes have one address.
fn has_duplicate_address<H: PointHash>(nodes: &[NodeState<H>]) -> bool
    ensures twins { IsTrue result → ¬ AreApart nodes.now }
    ensures apart { IsFalse result → AreApart nodes.now }
{
    for i in 0..nodes.len() {
        let node = &nodes[i];
        let address = node.own().address;
        if is_taken(&nodes[i + 1..], address) {
            return true;
        }
    }
    false
}

/// Returns the place of the seat of an address.
fn place_of<H: PointHash>(seats: &[ServedNode<H>], address: Address) -> Option<usize>
    ensures some { IfSome result (λ i. (i < length seats.now) × ¬ All (λ s. s.address ≢ address) seats.now) }
    ensures its { IfSome result (λ i. (d : _) → (slice_index_or seats.now i d).address ≡ address) }
    ensures none { IfNone result (All (λ s. s.address ≢ address) seats.now) }
{
    seats.iter().position(|seat| seat.address == address)
}

/// Gives one worker the job to end. If out of memory for that, it tries again.
fn stop_worker<R: Wait>(rt: &R, post: &Mailbox) {
    for _ in rt.forever() {
        if !matches!(
            Outlet::put(&post.jobs, rt, Job::Stop),
            Err(LinkError::Memory)
        ) {
            break;
        }
        thread::yield_now();
    }
}

/// Gives this number of workers the job to end.
fn stop_workers<R: Wait>(rt: &R, posts: &[Mailbox], address: Address, workers: usize) {
    let Some(post) = post_of(posts, address) else {
        return;
    };
    for _ in 0..workers {
        stop_worker(rt, post);
    }
}

/// Returns the tools of a worker besides its pass: the node, a link to the posts, the handler, and the channel from
/// which its jobs come. The only error is `Memory`.
fn worker_parts<H: PointHash, A: Drop>(
    node: &Arc<LockedNode<H>, Global>,
    posts: &Arc<Vec<Mailbox>, Global>,
    handler: &Arc<A, Global>,
    outlet: &Receiver<Job>,
) -> Result<
    (
        Arc<LockedNode<H>, Global>,
        ChannelLink,
        Arc<A, Global>,
        Receiver<Job>,
    ),
    StartError<H>,
>
    ensures node { IfOk result (λ t. arc_value t.0 ≡ arc_value node.now) }
    ensures refused { IsOkUnless result StartError.Memory }
{
    let theirs = Arc::try_clone(node)?;
    let link = ChannelLink::new(Arc::try_clone(posts)?);
    let handler = Arc::try_clone(handler)?;
    let jobs = outlet.clone()?;
    Ok((theirs, link, handler, jobs))
}

/// Starts the thread of a worker. The only error is `NoThread`.
fn start_work<R, H, A>(
    rt: &R,
    alloc: Global,
    node: Arc<LockedNode<H>, Global>,
    pass: NodePass<H>,
    link: ChannelLink,
    handler: Arc<A, Global>,
    jobs: Receiver<Job>,
) -> Result<PromisedHandle<NodePass<H>, WorkerPromise<H>>, StartError<H>>
where
    R: Threads + Wait + Copy + Send + 'static,
    H: PointHash + Send + Sync + 'static,
    A: Handler + Send + Sync + Drop + 'static,
    requires { Fits (arc_value node) pass }
    ensures spawned { IfOk result (λ w. (w.promise.node.value ≡ arc_value node) × (given_to w ≡ pass)) }
    ensures refused { IsOkUnless result StartError.NoThread }
{
    let runtime = *rt;
    let promise = WorkerPromise {
        node: Snapshot::of(&*node),
        pass: Snapshot::of(&pass),
    };
    let started = thread::spawn_with(rt, promise, move || {
        work(runtime, alloc, node, pass, link, handler, jobs)
    });
    match started {
        Ok(worker) => Ok(worker),
        Err(_) => Err(StartError::NoThread),
    }
}

/// Starts one worker.
fn start_worker<R, H, A>(
    rt: &R,
    alloc: Global,
    node: &Arc<LockedNode<H>, Global>,
    pass: NodePass<H>,
    posts: &Arc<Vec<Mailbox>, Global>,
    handler: &Arc<A, Global>,
    outlet: &Receiver<Job>,
) -> Result<PromisedHandle<NodePass<H>, WorkerPromise<H>>, StartError<H>>
where
    R: Threads + Wait + Copy + Send + 'static,
    H: PointHash + Send + Sync + 'static,
    A: Handler + Send + Sync + Drop + 'static,
    requires { Fits (arc_value node.now) pass }
    ensures spawned { IfOk result (λ w. (w.promise.node.value ≡ arc_value node.now) × (given_to w ≡ pass)) }
    ensures abandoned { IfErr result IsAbandoned }
{
    let (node, link, handler, jobs) = worker_parts(node, posts, handler, outlet)?;
    start_work(rt, alloc, node, pass, link, handler, jobs)
}

/// Starts a worker for each pass. If one can't be started the others are ended.
fn start_workers<R, H, A>(
    rt: &R,
    alloc: Global,
    address: Address,
    node: &Arc<LockedNode<H>, Global>,
    passes: Vec<NodePass<H>>,
    posts: &Arc<Vec<Mailbox>, Global>,
    handler: &Arc<A, Global>,
    outlet: &Receiver<Job>,
) -> Result<Vec<PromisedHandle<NodePass<H>, WorkerPromise<H>>>, StartError<H>>
where
    R: Threads + Wait + Copy + Send + 'static,
    H: PointHash + Send + Sync + 'static,
    A: Handler + Send + Sync + Drop + 'static,
    requires { All (Fits (arc_value node.now)) passes.items }
    ensures spawned { IfOk result (λ ws. All (λ w. w.promise.node.value ≡ arc_value node.now) ws.items) }
    ensures given { IfOk result (λ ws. map given_to ws.items ≡ passes.items) }
    ensures abandoned { IfErr result IsAbandoned }
{
    let mut workers = Vec::with_capacity(alloc, passes.len())?;
    for pass in passes {
        match start_worker(rt, alloc, node, pass, posts, handler, outlet) {
            Ok(worker) => workers.push(worker)?,
            Err(refused) => {
                stop_workers(rt, posts, address, workers.len());
                let _passes = thread::join_promised(rt, workers);
                return Err(refused);
            }
        }
    }
    Ok(workers)
}

/// A node with its workers.
fn seat_for<R, H, A>(
    rt: &R,
    alloc: Global,
    node: NodeState<H>,
    workers: u32,
    posts: &Arc<Vec<Mailbox>, Global>,
    handler: &Arc<A, Global>,
    outlet: &Receiver<Job>,
) -> Result<ServedNode<H>, StartError<H>>
where
    R: Threads + Wait + Copy + Send + 'static,
    H: PointHash + Send + Sync + 'static,
    A: Handler + Send + Sync + Drop + 'static,
    requires { workers ≤ 16 }
    ensures serves { IfOk result (Seats workers (arc_value posts.now).items node) }
    ensures abandoned { IfErr result IsAbandoned }
{
    let address = node.own().address;
    let (locked, pass, passes) = LockedNode::share(alloc, node, workers)?;
    let node = Arc::new(alloc, locked)?;
    let link = ChannelLink::new(Arc::try_clone(posts)?);
    let workers = start_workers(rt, alloc, address, &node, passes, posts, handler, outlet)?;
    Ok(ServedNode {
        address,
        node,
        pass,
        link,
        workers,
    })
}

impl<H: PointHash> ServedNode<H> {
    /// Waits for the workers, whose job it is to end, and closes the node.
    fn close<R: Threads>(self, rt: &R) -> Result<NodeState<H>, StopError>
        ensures { IfOk result (IsOfSeat H.hash_of self) }
    {
        let ServedNode {
            address: _,
            node,
            pass,
            link: _,
            workers,
        } = self;
        let Ok(mut passes) = thread::join_promised(rt, workers) else {
            return Err(StopError::Memory);
        };
        if passes.push(pass).is_err() {
            return Err(StopError::Memory);
        }
        let Some(locked) = Arc::into_inner(node) else {
            return Err(StopError::StillHeld);
        };
        let Ok(node) = locked.close(passes) else {
            unreachable!()
        };
        Ok(node)
    }

    /// One round of gossip of the node, by the pass that is kept for its rounds.
    fn round<R: Wait>(&mut self, rt: &R, alloc: Global, now: Moment) -> Result<Round, ClusterError>
        ensures made { SeatDoes (IsRound any_answer now) result self.old self.new }
        ensures named { IfErr result IsRoundRefusal }
    {
        gossip_round(rt, alloc, &*self.node, &mut self.pass, &mut self.link, now)
    }

    /// The same, and the round corrects its target.
    fn correcting_round<R: Wait>(
        &mut self,
        rt: &R,
        alloc: Global,
        now: Moment,
    ) -> Result<Round, ClusterError>
        ensures made { SeatDoes (IsCorrectingRound any_answer now) result self.old self.new }
        ensures named { IfErr result IsRoundRefusal }
    {
        correcting_round(rt, alloc, &*self.node, &mut self.pass, &mut self.link, now)
    }

    /// What the node does after a round to heal a cluster whose members parted, by the pass that is kept for its rounds.
    fn heal<R: Wait>(
        &mut self,
        rt: &R,
        alloc: Global,
        now: Moment,
        healing: &mut Healing<'_>,
    ) -> Result<bool, ClusterError>
        ensures made { SeatDoes (IsHealing any_answer now healing.old.hosts (after_round healing.old).0) result self.old self.new }
        ensures healing { healing.new ≡ (after_round healing.old).1 }
        ensures named { IfErr result IsHealRefusal }
    {
        heal(
            rt,
            alloc,
            &*self.node,
            &mut self.pass,
            &mut self.link,
            now,
            healing,
        )
    }
}

/// Adds an item after the others. The only error is `Memory`.
fn append<T: Drop>(items: &mut Vec<T>, item: T) -> Result<(), StopError>
    ensures put { IfOk result (λ _. items.new.items ≡ items.old.items ++ item ∷ []) }
    ensures err { IsOkUnless result StopError.Memory }
{
    let Ok(()) = items.push(item) else {
        return Err(StopError::Memory);
    };
    Ok(())
}

/// Gives the workers of the seats the job to end.
fn stop_all_workers<R: Wait, H: PointHash>(rt: &R, posts: &[Mailbox], seats: &[ServedNode<H>]) {
    for seat in seats {
        stop_workers(rt, posts, seat.address, seat.workers.len());
    }
}

/// Ends the workers of the seats, each after the messages that it has, and gives the nodes back in the order of the seats.
fn end_all<R: Threads + Wait, H: PointHash>(
    rt: &R,
    alloc: Global,
    posts: &[Mailbox],
    seats: Vec<ServedNode<H>>,
) -> Result<Vec<NodeState<H>>, StopError>
    ensures closed { IfOk result (λ v. AllZip (IsOfSeat H.hash_of) seats.items v.items) }
    ensures empty { length seats.items ≡ 0 → result ≢ Err StopError.StillHeld }
{
    stop_all_workers(rt, posts, &seats);
    let Ok(mut nodes) = Vec::with_capacity(alloc, seats.len()) else {
        return Err(StopError::Memory);
    };
    'closed: for seat in seats {
        let node = seat.close(rt)?;
        append(&mut nodes, node)?;
    }
    Ok(nodes)
}

impl<H: PointHash> From<AllocError> for StartError<H> {
    ghost use Rattle.cluster_core.specs.declared.clusters.StartError.TheVariants.{Memory as out_of_memory};

    ghost from_gives = { λ _ e. e ≡ out_of_memory };

    fn from(_refused: AllocError) -> StartError<H> {
        StartError::Memory
    }
}

impl<H: PointHash, T: Drop> From<AllocFailed<T>> for StartError<H> {
    ghost use Rattle.cluster_core.specs.declared.clusters.StartError.TheVariants.{Memory as out_of_memory};

    ghost from_gives = { λ _ e. e ≡ out_of_memory };

    fn from(_refused: AllocFailed<T>) -> StartError<H> {
        StartError::Memory
    }
}

impl<H: PointHash + Send + Sync + 'static> Cluster<H> {
    /// Serves each of the nodes by `workers` workers, 1 to 16, each its own thread. An empty list of nodes is allowed.
    ///
    /// # Errors
    ///
    /// - `BadCount`: the number of workers is not from 1 to 16. This is checked first. The nodes are returned.
    /// - `SameAddress`: two nodes have one address. The nodes are returned.
    /// - `NoThread`: a thread could not be made. The nodes are dropped.
    /// - `Memory`: out of memory. The nodes are dropped.
    pub fn start<R, A>(
        rt: &R,
        alloc: Global,
        nodes: Vec<NodeState<H>>,
        workers: u32,
        handler: A,
    ) -> Result<Cluster<H>, StartError<H>>
    where
        R: Threads + Wait + Copy + Send + 'static,
        A: Handler + Send + Sync + Drop + 'static,
        ensures can { IfOk result (λ c. IsCrew workers × AreApart nodes.items) }
        ensures serves { IfOk result (IsStarted workers nodes.items) }
        ensures refused { IfErr result (IsNotStarted nodes.items workers) }
    {
        if workers == 0 || workers > MAX_WORKERS {
            return Err(StartError::BadCount(nodes));
        }
        if has_duplicate_address(&nodes) {
            return Err(StartError::SameAddress(nodes));
        }
        Cluster::launch(rt, alloc, nodes, workers, handler)
    }

    /// Serves the nodes, which can be served.
    fn launch<R, A>(
        rt: &R,
        alloc: Global,
        nodes: Vec<NodeState<H>>,
        workers: u32,
        handler: A,
    ) -> Result<Cluster<H>, StartError<H>>
    where
        R: Threads + Wait + Copy + Send + 'static,
        A: Handler + Send + Sync + Drop + 'static,
        requires { workers ≤ 16 }
        ensures serves { IfOk result (IsStarted workers nodes.items) }
        ensures abandoned { IfErr result IsAbandoned }
    {
        let handler = Arc::new(alloc, handler)?;
        let (posts, outlets) = posts_for(alloc, &nodes)?;
        let posts = Arc::new(alloc, posts)?;
        let mut seats = Vec::with_capacity(alloc, nodes.len())?;
        'seated: for node in nodes {
            let outlet = &outlets[seats.len()];
            match seat_for(rt, alloc, node, workers, &posts, &handler, outlet) {
                Ok(seat) => seats.push(seat)?,
                Err(refused) => {
                    let _nodes = end_all(rt, alloc, &posts, seats);
                    return Err(refused);
                }
            }
        }
        Ok(Cluster { posts, seats })
    }
}

impl<H: PointHash> Cluster<H> {
    /// Makes a link to these nodes that has not failed yet, which may go to another thread.
    ///
    /// # Errors
    ///
    /// - `Memory`: out of memory.
    pub fn link(&self) -> Result<ChannelLink, LinkError>
        ensures made { IfOk result (λ l. (reached_by l ≡ self.now.posts) × (failures_of l ≡ 0)) }
        ensures only { IfErr result (λ e. e ≡ LinkError.Memory) }
    {
        match Arc::try_clone(&self.posts) {
            Ok(posts) => Ok(ChannelLink::new(posts)),
            Err(_) => Err(LinkError::Memory),
        }
    }

    /// Asks the node of an address, as a new link would.
    ///
    /// # Errors
    ///
    /// - `Closed`: no node has the address, or the node's own pass was refused.
    /// - `Memory`: out of memory.
    pub fn ask<R: Wait>(
        &self,
        rt: &R,
        alloc: Global,
        to: Address,
        message: &Message,
    ) -> Result<Message, LinkError>
        ensures closed { HasNoPost self.now.posts to → result ≡ Err LinkError.Closed }
        ensures no_node { HasNoNode self.now to → result ≡ Err LinkError.Closed }
        ensures only { IfErr result IsChannelFault }
    {
        ask_one(rt, alloc, &self.posts, to, message)
    }

    /// Makes one round of gossip of the node of an address, at a moment, over its own link.
    ///
    /// # Errors
    ///
    /// - `NoNode`: no node has the address. Nothing changes.
    /// - Any other: the error of the round.
    pub fn round<R: Wait>(
        &mut self,
        rt: &R,
        alloc: Global,
        address: Address,
        now: Moment,
    ) -> Result<Round, ClusterError>
        ensures no_node { HasNoNode self.old address → (result ≡ Err ClusterError.NoNode) × (self.new ≡ self.old) }
        ensures only { result ≡ Err ClusterError.NoNode → HasNoNode self.old address }
        ensures made { ¬ HasNoNode self.old address → NodeDoes (IsRound any_answer now) address result self.old self.new }
        ensures named { IfErr result (λ e. (e ≡ ClusterError.NoNode) ⊎ IsRoundRefusal e) }
    {
        let Some(at) = place_of(&self.seats, address) else {
            return Err(ClusterError::NoNode);
        };
        self.seats[at].round(rt, alloc, now)
    }

    /// Makes one round of gossip of the node of an address, at a moment, over its own link, and corrects its target: if
    /// the target's Ack has another incarnation or status of the node than the node's own entry, the target gets a Join,
    /// whose one change is that entry.
    ///
    /// # Errors
    ///
    /// - `NoNode`: no node has the address. Nothing changes.
    /// - Any other: the error of the round.
    pub fn correcting_round<R: Wait>(
        &mut self,
        rt: &R,
        alloc: Global,
        address: Address,
        now: Moment,
    ) -> Result<Round, ClusterError>
        ensures no_node { HasNoNode self.old address → (result ≡ Err ClusterError.NoNode) × (self.new ≡ self.old) }
        ensures only { result ≡ Err ClusterError.NoNode → HasNoNode self.old address }
        ensures made { ¬ HasNoNode self.old address → NodeDoes (IsCorrectingRound any_answer now) address result self.old self.new }
        ensures named { IfErr result (λ e. (e ≡ ClusterError.NoNode) ⊎ IsRoundRefusal e) }
    {
        match place_of(&self.seats, address) {
            Some(at) => self.seats[at].correcting_round(rt, alloc, now),
            None => Err(ClusterError::NoNode),
        }
    }

    /// Heals a cluster whose members parted, for the node of an address, over its own link; to be called after each round
    /// of that node, at its moment, with a `healing` of its own. After each tenth round the node pings one member at
    /// random, also a faulty one, and sends a Join to one of the hosts of `healing`, at random, if it does not hold that
    /// host as serving; after the others it does nothing. Returns whether a host answered by a Joined.
    ///
    /// # Errors
    ///
    /// - `NoNode`: no node has the address. Nothing changes.
    /// - `Memory`: the node or its link ran out of memory.
    /// - `PassSpent`: the pass of the node's rounds has made all its calls.
    pub fn heal<R: Wait>(
        &mut self,
        rt: &R,
        alloc: Global,
        address: Address,
        now: Moment,
        healing: &mut Healing<'_>,
    ) -> Result<bool, ClusterError>
        ensures no_node { HasNoNode self.old address → (result ≡ Err ClusterError.NoNode) × (self.new ≡ self.old) × (healing.new ≡ healing.old) }
        ensures only { result ≡ Err ClusterError.NoNode → HasNoNode self.old address }
        ensures healed { ¬ HasNoNode self.old address → NodeDoes (IsHealing any_answer now healing.old.hosts (after_round healing.old).0) address result self.old self.new }
        ensures healing { ¬ HasNoNode self.old address → healing.new ≡ (after_round healing.old).1 }
        ensures named { IfErr result (λ e. (e ≡ ClusterError.NoNode) ⊎ IsHealRefusal e) }
    {
        match place_of(&self.seats, address) {
            Some(at) => self.seats[at].heal(rt, alloc, now, healing),
            None => Err(ClusterError::NoNode),
        }
    }

    /// Ends the workers, each after the messages that it has, and gives the nodes back in the order given. After an
    /// error the nodes are dropped.
    ///
    /// # Errors
    ///
    /// - `Memory`: out of memory.
    /// - `StillHeld`: another owner holds a node; never for a cluster without nodes.
    pub fn stop<R: Threads + Wait>(
        self,
        rt: &R,
        alloc: Global,
    ) -> Result<Vec<NodeState<H>>, StopError>
        ensures closed { IfOk result (λ v. AllZip (IsOfSeat H.hash_of) self.seats v.items) }
        ensures empty { length self.seats ≡ 0 → result ≢ Err StopError.StillHeld }
    {
        let Cluster { posts, seats } = self;
        end_all(rt, alloc, &posts, seats)
    }
}
