//! A node and its server, from their settings to the first connection.
ghost use Rattle.std.specs.Prelude.{◌≡◌, ◌↔◌, ◌+◌, ◌<◌, ◌++◌, ◌∷◌, [], true, length, IfOk, IfErr, IsOkUnless};
ghost use Rattle.std.specs.Vec.{vec_capacity};
ghost use Rattle.std.specs.List.{All};
ghost use Rattle.locked_node.specs.Passes.{AreAll, Fits, opening_of};
ghost use Rattle.server.specs.Starting.{AreCountsInRange, AreStandardFor, IsCreated, IsHealedAs, IsNotCreated, IsNotStarted, IsStarted, IsUnopened, seed_of, start_error};

use crate::errors::ServerError;
use crate::healing::HealingPlan;
use crate::running::Running;
use crate::runtimes::Runtime;
use crate::servers::Server;
use change_core::{Address, Incarnation, Moment};
use hash_ring::PointHash;
use line_service::{Port, Stopwatch, Timeouts};
use locked_node::{LockedNode, NodePass};
use node_core::{Config, ConfigField, MAX_WORKERS, NodeError, NodeState};
use peer_core::Handler;
use std::alloc::Global;
use std::io::ErrorKind;
use std::net::{Net, TcpListener, TcpStream};
use std::time::Duration;
use thiserror::Error;
use transport::socket_address;

/// The greatest number of handles of a node for the threads of a service.
pub const MAX_HANDLES: u32 = 1_000;

/// The settings with which a node and its server are started.
#[derive(Clone, Copy, Debug)]
pub struct Settings<'a> {
    /// The address at which the server listens, and by which other nodes name the node.
    pub address: Address,
    /// The version of the node's own state, greater than at any earlier start at this address: as the milliseconds since 1970 are.
    pub incarnation: Incarnation,
    /// The node's configuration.
    pub config: Config,
    /// The number of threads that serve connections, from 1 to 16.
    pub workers: u32,
    /// The number of handles of the node for the service's own threads, from 0 to 1,000.
    pub handles: u32,
    /// The milliseconds between two rounds; 0: no rounds are made.
    pub period: u64,
    /// The time limits for which others are waited for.
    pub timeouts: Timeouts,
    /// Whether members that parted are met again: after each tenth round the node pings one member at random, whatever it
    /// holds it as.
    pub heals: bool,
    /// The hosts that the node joins while it makes rounds: at once, and again between two rounds, not sooner than a second after
    /// the time before, as long as none of them has answered by a Joined. Of more than 4,096 the first 4,096 are joined. If members
    /// that parted are met again, hosts that the node does not hold as serving are joined again, too. With none the node joins no
    /// host by itself.
    pub hosts: &'a [Address],
}

impl<'a> Settings<'a> {
    /// The standard configuration, but up to 1,024 changes a message; 4 workers, one handle, a round each 200 milliseconds, the
    /// standard timeouts, healing, and no hosts. More changes a message let a cluster whose nodes start together agree sooner.
    pub fn new(address: Address, incarnation: Incarnation) -> Self
        ensures { AreStandardFor address incarnation result }
    {
        Settings {
            address,
            incarnation,
            config: Config {
                per_message: 1_024,
                ..Config::standard()
            },
            workers: 4,
            handles: 1,
            period: 200,
            timeouts: Timeouts::standard(),
            heals: true,
            hosts: &[],
        }
    }

    /// Returns whether the numbers of threads and handles are in their ranges.
    fn are_counts_in_range(&self) -> bool
        ensures { result ≡ true ↔ AreCountsInRange self.now }
    {
        self.workers >= 1 && self.workers <= MAX_WORKERS && self.handles <= MAX_HANDLES
    }
}

/// The errors of a start of a node and its server. None of its threads is left.
#[derive(Clone, Copy, Debug, PartialEq, Eq, Error)]
pub enum StartError {
    /// The first field of the configuration that is out of its range.
    #[error("bad configuration: {0}")]
    BadConfig(ConfigField),
    /// The workers or the handles are out of their range.
    #[error("bad count")]
    BadCount,
    /// The address can't be listened at, or its connections can't be watched.
    #[error("cannot listen")]
    CannotListen,
    /// The system gave no thread.
    #[error("no thread")]
    NoThread,
    /// An allocation failed.
    #[error("out of memory")]
    Memory,
}

impl From<ServerError> for StartError {
    ghost use Rattle.server.specs.Starting.{error_of_server};

    ghost from_gives = { λ e f. f ≡ error_of_server e };

    fn from(error: ServerError) -> StartError {
        match error {
            ServerError::NoThread => StartError::NoThread,
            ServerError::Memory => StartError::Memory,
        }
    }
}

/// A seed of random choices. Nodes that start at one incarnation have different seeds, so that they do not probe in step.
fn seed_of(address: Address, incarnation: Incarnation) -> u64
    ensures { result ≡ seed_of address incarnation }
{
    address.number() * 32_768 + incarnation.number()
}

/// Returns a start's error for an error of the node.
fn start_error(error: NodeError) -> StartError
    ensures { result ≡ start_error error }
{
    match error {
        NodeError::BadConfig(field) => StartError::BadConfig(field),
        _ => StartError::Memory,
    }
}

/// The node that the settings ask for.
fn node_of<H: PointHash>(
    alloc: Global,
    hash: H,
    settings: &Settings<'_>,
) -> Result<NodeState<H>, StartError>
    ensures created { IfOk result (IsCreated H.hash_of hash settings.now) }
    ensures refused { IfErr result (IsNotCreated settings.now) }
{
    let made = NodeState::new(
        alloc,
        settings.config,
        hash,
        settings.address,
        settings.incarnation,
        seed_of(settings.address, settings.incarnation),
        Moment::beginning(),
    );
    match made {
        Ok(node) => Ok(node),
        Err(error) => Err(start_error(error)),
    }
}

/// Copies the hosts of the settings.
fn hosts_of(alloc: Global, settings: &Settings<'_>) -> Result<Vec<Address>, StartError>
    ensures copied { IfOk result (λ hosts. hosts.items ≡ settings.now.hosts.now) }
    ensures refusal { IsOkUnless result StartError.Memory }
{
    match Vec::from_slice(alloc, settings.hosts) {
        Ok(hosts) => Ok(hosts),
        Err(_) => Err(StartError::Memory),
    }
}

/// How the server heals, with the hosts of the settings, if they ask for it.
fn plan_of(alloc: Global, settings: &Settings<'_>) -> Result<Option<HealingPlan>, StartError>
    ensures heals { IfOk result (IsHealedAs settings.now.heals settings.now.address settings.now.hosts.now) }
    ensures refusal { IsOkUnless result StartError.Memory }
{
    let hosts = hosts_of(alloc, settings)?;
    Ok(HealingPlan::of(settings.heals, settings.address, hosts))
}

/// Shares the node by the settings: returns it with the pass of its rounds, those of its workers, with room for all, and the
/// handles.
///
/// # Errors
///
/// - `Memory`: out of memory. The node is dropped.
fn share_out<H: PointHash>(
    alloc: Global,
    node: NodeState<H>,
    settings: &Settings<'_>,
) -> Result<
    (
        LockedNode<H>,
        NodePass<H>,
        Vec<NodePass<H>>,
        Vec<NodePass<H>>,
    ),
    StartError,
>
    requires { AreCountsInRange settings.now }
    ensures opening { IfOk result (λ r. opening_of r.0 ≡ node) }
    ensures rounds { IfOk result (λ r. Fits r.0 r.1) }
    ensures workers { IfOk result (λ r. All (Fits r.0) r.2.items) }
    ensures handles { IfOk result (λ r. All (Fits r.0) r.3.items) }
    ensures count { IfOk result (λ r. length r.2.items ≡ settings.now.workers) }
    ensures left { IfOk result (λ r. length r.3.items ≡ settings.now.handles) }
    ensures all { IfOk result (λ r. AreAll r.0 (r.2.items ++ r.3.items ++ r.1 ∷ [])) }
    ensures room { IfOk result (λ r. settings.now.workers + settings.now.handles < vec_capacity r.2) }
    ensures refusal { IsOkUnless result StartError.Memory }
{
    let Ok((node, rounds, mut workers)) = LockedNode::share(
        alloc,
        node,
        settings.workers + settings.handles,
    ) else {
        return Err(StartError::Memory);
    };
    let Ok(()) = workers.reserve(1) else {
        return Err(StartError::Memory);
    };
    match workers.split_off(settings.workers as usize) {
        Ok(handles) => Ok((node, rounds, workers, handles)),
        Err(_) => Err(StartError::Memory),
    }
}

/// Listens at an address, where a line has to be whole within the time limit.
fn open_port<R: Net<Listener = TcpListener, Stream = TcpStream>>(
    rt: &R,
    alloc: Global,
    address: Address,
    limit: Duration,
) -> Result<Port, StartError>
    ensures { IfErr result IsUnopened }
{
    let Ok(listener) = TcpListener::bind(rt, socket_address(address)) else {
        return Err(StartError::CannotListen);
    };
    Port::open(rt, alloc, listener, limit).map_err(|error| match error.kind() {
        ErrorKind::OutOfMemory => StartError::Memory,
        _ => StartError::CannotListen,
    })
}

/// Starts a node and its server: it listens at the address of the settings, serves each connection by one line in and one line
/// out, requests by the handler, and makes rounds, until it is stopped. The handles are for the service's own threads: each makes
/// its calls of the node by one, as a [`Member`](peer_core::Member) does. To be known to others the node has to join one of them: by a
/// member's `join`, or by the hosts of the settings.
///
/// # Errors
///
/// - `BadConfig`: a field of the configuration is out of its range.
/// - `BadCount`: the workers or the handles are.
/// - `CannotListen`: the address can't be listened at, or the system lets no connections be watched.
/// - `NoThread`: the system gave no thread.
/// - `Memory`: an allocation failed.
pub fn start<
    R: Net<Listener = TcpListener, Stream = TcpStream> + Runtime,
    H: PointHash + Send + Sync + 'static,
    A: Handler + Drop + Send + Sync + 'static,
>(
    rt: &R,
    alloc: Global,
    hash: H,
    handler: A,
    settings: &Settings<'_>,
) -> Result<(Running<H, A, R>, Vec<NodePass<H>>), StartError>
    ensures started { IfOk result (λ r. IsStarted H.hash_of hash handler settings.now r.0 r.1.items) }
    ensures refused { IfErr result (IsNotStarted settings.now) }
{
    let created = node_of(alloc, hash, settings)?;
    if !settings.are_counts_in_range() {
        return Err(StartError::BadCount);
    }
    let port = open_port(rt, alloc, settings.address, settings.timeouts.line)?;
    let (node, rounds, workers, handles) = share_out(alloc, created, settings)?;
    let hosts = hosts_of(alloc, settings)?;
    let healing = plan_of(alloc, settings)?;
    let stopwatch = Stopwatch::start(rt);
    let server = Server::new(node, handler, stopwatch, healing, port, u64::MAX);
    let mut server = server.joining(hosts);
    server.timeouts = settings.timeouts;
    let running = Running::start(rt, alloc, server, rounds, workers, settings.period)?;
    Ok((running, handles))
}
