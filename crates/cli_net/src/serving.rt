//! A node over sockets, from its words to its last connection.
ghost use Rattle.std.specs.Prelude.{◌≡◌, ◌≢◌, ◌<◌, ◌++◌, ◌∷◌, [], true, false, Err, IfErr, IfOk, OnOk, IsOkUnless, vec_len};
ghost use Rattle.std.specs.Arc.{arc_value};
ghost use Rattle.std.specs.Vec.{vec_capacity};
ghost use Rattle.std.specs.Io.KnownBytes.{Appends};
ghost use Rattle.wire_json.specs.Input.{AppendsPrefix};
ghost use Rattle.peer_core.specs.Links.{any_answer};
ghost use Rattle.std.specs.List.{All};
ghost use Rattle.locked_node.specs.Passes.{Fits, IsClosed};
ghost use Rattle.peer_core.specs.Acts.{Makes};
ghost use Rattle.server.specs.Starting.{IsHealedAs};
ghost use Rattle.server.specs.Threads.{ServeTogether};
ghost use Rattle.server.specs.Working.{AreRounds, hosts_of};
ghost use Rattle.cli_net.specs.Echoes.{MayEcho};
ghost use Rattle.cli_net.specs.Service.{EntersBy, HasEnded, HasEntered, HasServed, IsEndFault, IsPortFault, IsThreadFault, LeavesService, LeavesServing, ServesAsStandard, ServesBy, TellsEntry, end_fault, service_text, serving_line};

use crate::echoes::Echo;
use crate::faults::ServeError;
use crate::nodes::{join_hosts, shared_node};
use change_core::Address;
use cli_core::ServeWords;
use hash_ring::{PointHash, Sha256Hash, SumHash};
use locked_node::NodePass;
use node_core::NodeState;
use server::{
    EndError, Ended, HealingPlan, Port, Running, Runtime, Server, ServerError, Stopwatch, Timeouts,
};
use std::alloc::Global;
use std::io::{ErrorKind, Write};
use std::net::{Net, TcpListener, TcpStream};
use std::time::Duration;
use transport::{TcpLink, socket_address};
use wire_json::write_line;

/// Listens at an address, where a line has to be whole within the time limit.
fn open_port<R: Net<Listener = TcpListener, Stream = TcpStream>>(
    rt: &R,
    alloc: Global,
    address: Address,
    limit: Duration,
) -> Result<Port, ServeError>
    ensures { IfErr result IsPortFault }
{
    let Ok(listener) = TcpListener::bind(rt, socket_address(address)) else {
        return Err(ServeError::CannotListen);
    };
    Port::open(rt, alloc, listener, limit).map_err(|error| match error.kind() {
        ErrorKind::OutOfMemory => ServeError::OutOfMemory,
        _ => ServeError::CannotListen,
    })
}

/// Writes a line and flushes.
fn say<W: Write>(writer: &mut W, text: &str) -> Result<(), ServeError>
    ensures said { OnOk result (Appends (W.contents writer.old) (W.contents writer.new) (text.now ++ 10 ∷ [])) }
    ensures prefix { AppendsPrefix (W.contents writer.old) (W.contents writer.new) (text.now ++ 10 ∷ []) }
    ensures fault { IsOkUnless result ServeError.CannotWrite }
{
    write_line(writer, text.as_bytes()).map_err(|_| ServeError::CannotWrite)
}

/// Writes that a server listens.
fn say_serving<W: Write>(alloc: Global, address: Address, writer: &mut W) -> Result<(), ServeError>
    ensures said { OnOk result (Appends (W.contents writer.old) (W.contents writer.new) (serving_line address)) }
    ensures left { IfErr result (λ e. LeavesServing address e (W.contents writer.old) (W.contents writer.new)) }
{
    let text = format!(in alloc; "serving {address}")?;
    say(writer, text.as_str())
}

/// How the server heals, with the hosts of its words, if they ask for it.
///
/// # Errors
///
/// - `OutOfMemory`: an allocation failed.
fn plan_of(alloc: Global, words: &ServeWords) -> Result<Option<HealingPlan>, ServeError>
    ensures heals { IfOk result (IsHealedAs words.now.heal words.now.address words.now.hosts.items) }
    ensures refusal { IsOkUnless result ServeError.OutOfMemory }
{
    let hosts = Vec::from_slice(alloc, words.hosts.as_slice())?;
    Ok(HealingPlan::of(words.heal, words.address, hosts))
}

/// Returns the error of a server for that of its end.
fn fault_of(error: EndError) -> ServeError
    ensures { result ≡ end_fault error }
{
    match error {
        EndError::Memory => ServeError::OutOfMemory,
        _ => ServeError::StillHeld,
    }
}

/// Closes the node with all passes that came back, if as many connections were served as were asked for. The errors are
/// `Miscounted` and `StillHeld`.
fn close<H: PointHash>(alloc: Global, ended: Ended<H, Echo>) -> Result<NodeState<H>, ServeError>
    requires rounds { Fits (arc_value ended.server).node ended.rounds }
    requires workers { All (Fits (arc_value ended.server).node) ended.workers.items }
    requires room { vec_len ended.workers < vec_capacity ended.workers }
    ensures closed { IfOk result (IsClosed H.hash_of (arc_value ended.server).node (ended.workers.items ++ ended.rounds ∷ [])) }
    ensures count { OnOk result (ended.connections ≡ (arc_value ended.server).connections) }
    ensures miscounted { result ≡ Err ServeError.Miscounted → ended.connections ≢ (arc_value ended.server).connections }
    ensures fault { IfErr result IsEndFault }
{
    if ended.connections != ended.server.connections as u128 {
        return Err(ServeError::Miscounted);
    }
    match ended.close(Vec::new(alloc)) {
        Ok(node) => Ok(node),
        Err(error) => Err(fault_of(error)),
    }
}

/// Serves until the last connection, by threads with these passes. The errors are `NoThread` and `OutOfMemory`.
fn run_threads<
    R: Net<Listener = TcpListener, Stream = TcpStream> + Runtime,
    H: PointHash + Send + Sync + 'static,
>(
    rt: &R,
    alloc: Global,
    server: Server<H, Echo>,
    timer: NodePass<H>,
    workers: Vec<NodePass<H>>,
    period: u64,
) -> Result<Ended<H, Echo>, ServeError>
    requires timer { Fits server.node timer }
    requires workers { All (Fits server.node) workers.items }
    ensures server { IfOk result (λ r. arc_value r.server ≡ server) }
    ensures rounds { IfOk result (λ r. Makes server.node (AreRounds R.times period (hosts_of server.hosts) server.healing) timer r.rounds) }
    ensures resting { IfOk result (λ r. period ≡ 0 → r.rounds ≡ timer) }
    ensures connections { IfOk result (λ r. ServeTogether H.hash_of (MayEcho server.handler.address) server.node workers.items r.workers.items r.connections) }
    ensures room { IfOk result (λ r. vec_len r.workers < vec_capacity r.workers) }
    ensures fits { IfOk result (λ r. Fits (arc_value r.server).node r.rounds × All (Fits (arc_value r.server).node) r.workers.items) }
    ensures fault { IfErr result IsThreadFault }
{
    match Running::start(rt, alloc, server, timer, workers, period) {
        Ok(running) => Ok(running.wait(rt)),
        Err(ServerError::NoThread) => Err(ServeError::NoThread),
        Err(ServerError::Memory) => Err(ServeError::OutOfMemory),
    }
}

/// Serves until the last connection, and closes the node with all its passes. The errors are `NoThread` and `OutOfMemory`, before
/// any was served, and `StillHeld` and `Miscounted`.
fn serve_all<
    R: Net<Listener = TcpListener, Stream = TcpStream> + Runtime,
    H: PointHash + Send + Sync + 'static,
>(
    rt: &R,
    alloc: Global,
    server: Server<H, Echo>,
    timer: NodePass<H>,
    workers: Vec<NodePass<H>>,
    period: u64,
) -> Result<NodeState<H>, ServeError>
    requires timer { Fits server.node timer }
    requires workers { All (Fits server.node) workers.items }
    ensures ended { IfOk result (HasEnded R.times H.hash_of server period timer workers.items) }
    ensures fault { IfErr result IsThreadFault }
{
    match run_threads(rt, alloc, server, timer, workers, period) {
        Ok(ended) => close(alloc, ended),
        Err(fault) => Err(fault),
    }
}

/// Does as `serve_within`, under a hash. Returns the node, closed.
fn serve_by<
    R: Net<Listener = TcpListener, Stream = TcpStream> + Runtime,
    H: PointHash + Send + Sync + 'static,
    W: Write,
>(
    rt: &R,
    alloc: Global,
    hash: H,
    timeouts: Timeouts,
    words: &ServeWords,
    writer: &mut W,
) -> Result<NodeState<H>, ServeError>
    ensures served { OnOk result (Appends (W.contents writer.old) (W.contents writer.new) (service_text words.now.address)) }
    ensures left { IfErr result (λ e. LeavesService words.now.address e (W.contents writer.old) (W.contents writer.new)) }
    ensures named { result ≡ Err ServeError.NoneJoined → words.now.hosts.items ≢ [] }
    ensures entered { TellsEntry (HasEntered H.hash_of any_answer hash words.now) result }
    ensures serves { IfOk result (HasServed R.times H.hash_of any_answer hash timeouts words.now) }
{
    let healing = plan_of(alloc, words)?;
    let stopwatch = Stopwatch::start(rt);
    let (node, mut timer, passes) = shared_node(alloc, hash, words)?;
    let hosts = words.hosts.as_slice();
    let mut link = TcpLink::with_limits(*rt, timeouts.links);
    let now = stopwatch.moment(rt);
    join_hosts(rt, alloc, &node, &mut timer, &mut link, hosts, now)?;
    let port = open_port(rt, alloc, words.address, timeouts.line)?;
    let echo = Echo {
        address: words.address,
    };
    let mut server = Server::new(node, echo, stopwatch, healing, port, words.requests);
    server.timeouts = timeouts;
    say_serving(alloc, words.address, writer)?;
    let closed = serve_all(rt, alloc, server, timer, passes, words.period)?;
    say(writer, "done")?;
    Ok(closed)
}

/// A node that has served its last connection, closed, under the hash of its words.
#[derive(Drop)]
pub enum ClosedNode {
    /// Under the sum of the bytes.
    Sum(NodeState<SumHash>),
    /// Under SHA-256's first eight bytes.
    Sha256(NodeState<Sha256Hash>),
}

/// `serve_within` under the sum of the bytes.
fn serve_by_sum<R: Net<Listener = TcpListener, Stream = TcpStream> + Runtime, W: Write>(
    rt: &R,
    alloc: Global,
    timeouts: Timeouts,
    words: &ServeWords,
    writer: &mut W,
) -> Result<ClosedNode, ServeError>
    requires { words.now.sum ≡ true }
    ensures served { OnOk result (Appends (W.contents writer.old) (W.contents writer.new) (service_text words.now.address)) }
    ensures left { IfErr result (λ e. LeavesService words.now.address e (W.contents writer.old) (W.contents writer.new)) }
    ensures named { result ≡ Err ServeError.NoneJoined → words.now.hosts.items ≢ [] }
    ensures entered { TellsEntry (EntersBy true words.now) result }
    ensures serves { IfOk result (ServesBy R.times words.now timeouts) }
{
    match serve_by(rt, alloc, SumHash, timeouts, words, writer) {
        Ok(node) => Ok(ClosedNode::Sum(node)),
        Err(fault) => Err(fault),
    }
}

/// `serve_within` under SHA-256's first eight bytes.
fn serve_by_sha256<R: Net<Listener = TcpListener, Stream = TcpStream> + Runtime, W: Write>(
    rt: &R,
    alloc: Global,
    timeouts: Timeouts,
    words: &ServeWords,
    writer: &mut W,
) -> Result<ClosedNode, ServeError>
    requires { words.now.sum ≡ false }
    ensures served { OnOk result (Appends (W.contents writer.old) (W.contents writer.new) (service_text words.now.address)) }
    ensures left { IfErr result (λ e. LeavesService words.now.address e (W.contents writer.old) (W.contents writer.new)) }
    ensures named { result ≡ Err ServeError.NoneJoined → words.now.hosts.items ≢ [] }
    ensures entered { TellsEntry (EntersBy false words.now) result }
    ensures serves { IfOk result (ServesBy R.times words.now timeouts) }
{
    match serve_by(rt, alloc, Sha256Hash, timeouts, words, writer) {
        Ok(node) => Ok(ClosedNode::Sha256(node)),
        Err(fault) => Err(fault),
    }
}

/// Joins the hosts, if any, listens, writes `serving` and the address, serves the given number of connections, closes
/// the node, and writes `done`. Each connection carries one line in and one line out; the answer to a request is the
/// node's address, a space and the body. Between two rounds are the given milliseconds. After the last connection a
/// round that is under way is waited for: with the standard timeouts 8.5 seconds at most, 20.25 if the node heals.
/// Returns the node after one legal history of all calls since it was made: its join, rounds and connections.
///
/// # Errors
///
/// The first step that fails ends it, in the order above.
///
/// - `OutOfMemory`: out of memory, in any step before the first connection.
/// - `NoneJoined`: hosts were named and none admitted the node.
/// - `CannotListen`: the address can't be listened at, or the system lets no connections be watched.
/// - `CannotWrite`: the writer failed, before any thread runs or after all have ended.
/// - `NoThread`: a thread could not be made. None has served, and those that were started have ended.
/// - `StillHeld`: a thread holds the node after all have ended. No run meets it.
/// - `Miscounted`: another number of connections was served when all threads have ended. No run meets it.
pub fn serve_within<R: Net<Listener = TcpListener, Stream = TcpStream> + Runtime, W: Write>(
    rt: &R,
    alloc: Global,
    timeouts: Timeouts,
    words: &ServeWords,
    writer: &mut W,
) -> Result<ClosedNode, ServeError>
    ensures served { OnOk result (Appends (W.contents writer.old) (W.contents writer.new) (service_text words.now.address)) }
    ensures left { IfErr result (λ e. LeavesService words.now.address e (W.contents writer.old) (W.contents writer.new)) }
    ensures named { result ≡ Err ServeError.NoneJoined → words.now.hosts.items ≢ [] }
    ensures entered { TellsEntry (EntersBy words.now.sum words.now) result }
    ensures serves { IfOk result (ServesBy R.times words.now timeouts) }
{
    if words.sum {
        serve_by_sum(rt, alloc, timeouts, words, writer)
    } else {
        serve_by_sha256(rt, alloc, timeouts, words, writer)
    }
}

/// Does as `serve_within`, with the standard timeouts, and drops the node.
///
/// # Errors
///
/// - The errors of `serve_within`.
pub fn serve_run<R: Net<Listener = TcpListener, Stream = TcpStream> + Runtime, W: Write>(
    rt: &R,
    alloc: Global,
    words: &ServeWords,
    writer: &mut W,
) -> Result<(), ServeError>
    ensures served { OnOk result (Appends (W.contents writer.old) (W.contents writer.new) (service_text words.now.address)) }
    ensures left { IfErr result (λ e. LeavesService words.now.address e (W.contents writer.old) (W.contents writer.new)) }
    ensures named { result ≡ Err ServeError.NoneJoined → words.now.hosts.items ≢ [] }
    ensures entered { TellsEntry (EntersBy words.now.sum words.now) result }
    ensures serves { OnOk result (ServesAsStandard R.times words.now) }
{
    match serve_within(rt, alloc, Timeouts::standard(), words, writer) {
        Ok(_node) => Ok(()),
        Err(fault) => Err(fault),
    }
}
