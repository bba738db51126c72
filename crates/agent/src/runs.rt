//! The run of an agent, from its settings to its end.
ghost use Rattle.std.specs.Prelude.{◌≡◌, ◌≤◌, ◌<◌, ◌||◌, ◌*◌, ◌^◌, ◌++◌, ◌∷◌, [], Err, IfErr, IfOk, IfSome, IsFalse, IsNone, IsSome, IsTrue, Ok, OnOk, is_some};
ghost use Rattle.std.specs.Duration.{as_nanos};
ghost use Rattle.std.specs.Io.KnownBytes.{Appends};
ghost use Rattle.change_core.specs.Address.{ip_of};
ghost use Rattle.transport.specs.Limits.{IsStandard};
ghost use Rattle.line_service.specs.Timeouts.{AreStandardTimeouts};
ghost use Rattle.locked_node.specs.Passes.{opening_of};
ghost use Rattle.agent.specs.Settings.{IsNodeOf, is_local, seed_of};
ghost use Rattle.agent_core.specs.Descriptors.{most_open};
ghost use Rattle.agent.specs.Texts.{agent_text, serving_line};
ghost use Rattle.wire_json.specs.Input.{AppendsPrefix};

use crate::notices::start_notices;
use crate::services::{await_service, start_watch};
use crate::settings::Settings;
use agent_api::{end_http, start_http};
use agent_application::{Application, ApplicationOptions};
use agent_core::{Budget, MAX_NODES, MIN_DESCRIPTORS};
use agent_http::Kept;
use agent_node::{Agent, AgentError, Hosts, Lifecycle, Passes, Refused, Teller, renew_hosts};
use agent_peers::{READERS, end_hands, start_joins, start_port, start_rounds};
use agent_state::{
    Count, Counters, Logger, Notices, Process, System, Waiting, Watchers, share_log, start_log,
};
use change_core::{Address, Incarnation, MAX_NUMBER, Moment};
use hash_ring::Sha256Hash;
use kept_links::Pool;
use line_service::{Stopwatch, Timeouts};
use locked_node::LockedNode;
use log::warn;
use node_core::{Config, NodeError, NodeState};
use reactor::{Lot, Places, max_descriptors};
use std::alloc::Global;
use std::fs::Files;
use std::io::Write;
use std::net::TcpListener;
use std::sync::{Arc, Mutex};
use std::time::Duration;
use transport::socket_address;
use wire_json::write_line;

/// The greatest number of threads of an agent for other nodes and its application: those of the node's port, the one that makes rounds, the one
/// that asks the hosts, the one that looks after the application, the one that tells it of the ring, and the one that writes the log.
pub const NODE_THREADS: u32 = READERS + 5;

/// The number of passes for threads, each for 4,294,967,295 calls.
const PASSES: u32 = 1_023;

/// The milliseconds between two looks at what the process uses.
const BETWEEN_LOOKS: u64 = 5_000;

/// The most milliseconds for a line to arrive, and for its answer's to be taken, where any request is passed on: a body of
/// 524,288 bytes took 332 on a busy machine.
const MAX_LONG_LINE: u64 = 2_000;

/// The most milliseconds that the end waits for the rounds that spread that the node left.
const MAX_SPREADING: u64 = 5_000;

/// Returns the incarnation at which the node starts. If none is given, it is the milliseconds since 1970, so that each
/// start has a greater one.
fn incarnation_of<R: System>(rt: &R, settings: &Settings) -> Result<Incarnation, AgentError>
    ensures given { IfSome settings.now.incarnation (λ incarnation. result ≡ Ok incarnation) }
    ensures refused { IfErr result (λ e. e ≡ AgentError.NoClock) }
{
    if let Some(incarnation) = settings.incarnation {
        return Ok(incarnation);
    }
    let time = rt.since_1970().map_err(|_| AgentError::NoClock)?;
    let millis = time.as_millis().min(MAX_NUMBER as u128) as u64;
    Incarnation::new(millis).ok_or(AgentError::NoClock)
}

/// Returns the seed of the node's random choices. Nodes of different addresses that start at the same incarnation have
/// different seeds.
fn seed_of(address: Address, incarnation: Incarnation) -> u64
    ensures { result ≡ seed_of address incarnation }
{
    address.number() * 32_768 + incarnation.number()
}

/// Makes the node of the settings.
fn node_of<R: System>(
    rt: &R,
    alloc: Global,
    settings: &Settings,
) -> Result<NodeState<Sha256Hash>, AgentError>
    ensures { IfOk result (IsNodeOf settings.now) }
{
    let incarnation = incarnation_of(rt, settings)?;
    let config = Config {
        per_message: settings.per_message,
        replicas: settings.replicas,
        weight: settings.weight,
        ..Config::standard()
    };
    let made = NodeState::new(
        alloc,
        config,
        Sha256Hash,
        settings.address,
        incarnation,
        seed_of(settings.address, incarnation),
        Moment::beginning(),
    );
    match made {
        Ok(node) => Ok(node),
        Err(NodeError::BadConfig(field)) => Err(AgentError::BadConfig(field)),
        Err(_) => Err(AgentError::Memory),
    }
}

/// Makes the node of the settings and its passes.
fn passes_of<R: System>(rt: &R, alloc: Global, settings: &Settings) -> Result<Passes, AgentError>
    ensures { IfOk result (λ passes. IsNodeOf settings.now (opening_of passes.node)) }
{
    let node = node_of(rt, alloc, settings)?;
    let (node, _pass, passes) = LockedNode::share(alloc, node, PASSES)?;
    Ok(Passes::new(Arc::new(alloc, node)?, passes))
}

/// Returns the options of the application of the settings, to which this many connections rest at most.
fn options_of(settings: &Settings, connections: usize) -> ApplicationOptions
    ensures own { result.own ≡ settings.now.address }
    ensures at { result.at ≡ settings.now.app }
    ensures whole { result.any_request ≡ is_some settings.now.key_field }
    ensures connections { result.connections ≡ connections }
{
    ApplicationOptions {
        own: settings.address,
        at: settings.app,
        any_request: settings.key_field.is_some(),
        connections,
    }
}

/// Returns the time limits of the settings: where any request is passed on, a line has more time, since it may be longer.
fn timeouts_of(settings: &Settings) -> Timeouts
    ensures standard { IsNone settings.now.key_field → AreStandardTimeouts result }
    ensures long { IsSome settings.now.key_field → (as_nanos result.line ≡ 2000 * 10 ^ 6) × IsStandard result.links }
{
    let mut timeouts = Timeouts::standard();
    if settings.key_field.is_some() {
        timeouts.line = Duration::from_millis(MAX_LONG_LINE);
    }
    timeouts
}

/// Divides this number of descriptors among the connections of an agent with these settings.
///
/// # Errors
///
/// - `FewDescriptors`: there are fewer than 64.
fn budget_of(descriptors: u64, settings: &Settings) -> Result<Budget, AgentError>
    ensures fits { IfOk result (λ budget. most_open budget ≤ descriptors) }
    ensures few { IfErr result (λ e. (descriptors < MIN_DESCRIPTORS) × (e ≡ AgentError.FewDescriptors descriptors)) }
{
    if descriptors < MIN_DESCRIPTORS {
        return Err(AgentError::FewDescriptors(descriptors));
    }
    let clients = settings.http.map_or(0, |_| settings.http_connections);
    Ok(Budget::of(descriptors, clients, settings.hands))
}

/// Logs of which connections there may be fewer than are wanted, for want of descriptors.
fn warn_of_budget<R: System>(agent: &Agent<R>, settings: &Settings, descriptors: u64) {
    let Budget {
        clients,
        nodes,
        hands,
        ..
    } = agent.budget;
    let wanted = settings.http_connections;
    if settings.http.is_some() && clients < wanted as u64 {
        warn!(agent.log(); "{clients} HTTP connections at a time, not {wanted}: there are {descriptors} descriptors (ulimit -n)");
    }
    if nodes < MAX_NODES {
        warn!(agent.log(); "{nodes} connections at the node's port at a time, not {MAX_NODES}: there are {descriptors} descriptors (ulimit -n)");
    }
    if hands < settings.hands {
        warn!(agent.log(); "{hands} hands, not {}: there are {descriptors} descriptors (ulimit -n)", settings.hands);
    }
}

/// Makes the state that the threads of an agent with this budget share.
fn agent_of<R: System + Files>(
    rt: &R,
    alloc: Global,
    settings: &Settings,
    budget: Budget,
) -> Result<Arc<Agent<R>, Global>, AgentError> {
    let (own, given) = (settings.address, settings.hosts.as_slice());
    let hosts = Hosts::read(rt, alloc, own, given, &settings.hosts_file)?;
    let passes = passes_of(rt, alloc, settings)?;
    let stopwatch = Stopwatch::start(rt);
    let log = start_log(rt, alloc, own, settings.level, settings.log_json)?;
    let options = options_of(settings, budget.kept as usize);
    let agent = Agent {
        rt: *rt,
        application: Application::new(*rt, alloc, share_log(&log)?, stopwatch, options),
        log,
        own,
        cluster: settings.cluster.clone()?,
        replicas: settings.replicas,
        period: settings.period,
        budget,
        stopwatch,
        timeouts: timeouts_of(settings),
        key_field: settings.key_field.clone()?,
        passes: Mutex::new(passes),
        counters: Counters::new(),
        process: Process::start(rt),
        spares: Pool::new(alloc, budget.spares as usize),
        waiting: Waiting::new(alloc)?,
        relaying: Count::new(),
        keeping: Count::new(),
        forwarded: Count::new(),
        workers: Count::new(),
        serving: Count::new(),
        http: Arc::new(alloc, Places::new())?,
        port: Arc::new(alloc, Places::new())?,
        watchers: Watchers::new(alloc),
        teller: Teller::new(settings.told_app().is_some()),
        notices: Notices::new(alloc),
        disowners: Notices::new(alloc),
        refused: Refused::new(alloc),
        life: Lifecycle::new(hosts.count.get() > 0, settings.following.leave_after),
        hosts,
    };
    Ok(Arc::new(alloc, agent)?)
}

/// Listens at an address.
fn listen<R: System>(rt: &R, address: Address) -> Result<TcpListener, AgentError> {
    TcpListener::bind(rt, socket_address(address)).map_err(|error| AgentError::CannotListen(
        address,
        error.kind(),
    ))
}

/// Writes a line and flushes.
fn say<W: Write>(writer: &mut W, text: &str) -> Result<(), AgentError>
    ensures said { OnOk result (Appends (W.contents writer.old) (W.contents writer.new) (text.now ++ 10 ∷ [])) }
    ensures prefix { AppendsPrefix (W.contents writer.old) (W.contents writer.new) (text.now ++ 10 ∷ []) }
{
    write_line(writer, text.as_bytes()).map_err(|_| AgentError::CannotWrite)
}

/// Writes the line that the node at an address serves, and flushes.
fn say_serving<W: Write>(alloc: Global, address: Address, writer: &mut W) -> Result<(), AgentError>
    ensures said { OnOk result (Appends (W.contents writer.old) (W.contents writer.new) (serving_line address)) }
    ensures prefix { AppendsPrefix (W.contents writer.old) (W.contents writer.new) (serving_line address) }
{
    let text = format!(in alloc; "serving {address}")?;
    say(writer, text.as_str())
}

/// Looks at what the process uses, and reads the file of hosts, if there is one, now and every five seconds, until the agent is to end.
fn watch_process<R: System + Files>(rt: &R, alloc: Global, agent: &Agent<R>) {
    let mut told = None;
    for _ in rt.forever() {
        if agent.life.is_stopping.get() || agent.life.is_spent.get() {
            return;
        }
        agent.process.look(rt, alloc);
        renew_hosts(rt, alloc, agent, &mut told);
        agent
            .life
            .wake
            .park_timeout(rt, Duration::from_millis(BETWEEN_LOOKS));
    }
}

/// Waits until the agent is to end, then for the last rounds, five seconds at most, then until each HTTP connection that was accepted is closed, ten seconds at
/// most, and no request of another node is left, 4.5 seconds at most, and last until the application was told that the node left, four seconds at most, unless
/// it takes no connection.
fn wait_for_end<R: System + Files>(
    rt: &R,
    alloc: Global,
    agent: &Agent<R>,
    lot: Option<Arc<Lot<Kept>, Global>>,
) -> Result<(), AgentError> {
    watch_process(rt, alloc, agent);
    if agent.life.is_spent.get() {
        return Err(AgentError::Spent);
    }
    agent
        .life
        .spread
        .park_timeout(rt, Duration::from_millis(MAX_SPREADING));
    if let Some(lot) = lot {
        end_http(rt, agent, &*lot);
    }
    end_hands(rt, agent);
    if agent.life.is_service_up.get() {
        agent.teller.await_told(rt);
    }
    Ok(())
}

/// Starts the threads of an agent: those for other nodes, then those for HTTP, then the one that makes rounds, and last the
/// one that asks the hosts.
fn start<R: System>(
    rt: &R,
    alloc: Global,
    agent: &Arc<Agent<R>, Global>,
    settings: Settings,
) -> Result<Option<Arc<Lot<Kept>, Global>>, AgentError> {
    let listener = listen(rt, settings.bind)?;
    let http = match settings.http {
        Some(address) => Some(listen(rt, address)?),
        None => None,
    };
    let mut first = agent.next_caller()?;
    if !settings.following.no_wait {
        await_service(agent, &mut first)?;
    }
    let initial = first.own(rt).ok();
    start_watch(rt, agent, settings.app)?;
    start_port(rt, alloc, agent, listener)?;
    let lot = match http {
        Some(http) => Some(start_http(rt, alloc, agent, http)?),
        None => None,
    };
    start_notices(rt, alloc, agent, settings.told_app())?;
    let hosts = agent.hosts.known(rt)?;
    start_rounds(rt, alloc, agent, initial, hosts.clone()?)?;
    start_joins(rt, alloc, agent, hosts)?;
    Ok(lot)
}

/// Makes an agent and starts its threads. Returns it with the lot of its HTTP connections, if it answers HTTP.
fn set_up<R: System + Files>(
    rt: &R,
    alloc: Global,
    settings: Settings,
) -> Result<(Arc<Agent<R>, Global>, Option<Arc<Lot<Kept>, Global>>), AgentError>
    ensures local { IsFalse (is_local settings.http) → IsFalse settings.http_any → result ≡ Err AgentError.NotLocal }
    ensures address { IsTrue (is_local settings.http || settings.http_any) → ip_of settings.address ≡ 0 → result ≡ Err AgentError.NoAddress }
{
    if !settings.is_http_local() && !settings.http_any {
        return Err(AgentError::NotLocal);
    }
    if settings.address.ip() == 0 {
        return Err(AgentError::NoAddress);
    }
    let descriptors = max_descriptors().unwrap_or(u64::MAX);
    let budget = budget_of(descriptors, &settings)?;
    let agent = agent_of(rt, alloc, &settings, budget)?;
    warn_of_budget(&agent, &settings, descriptors);
    if !settings.is_http_local() {
        warn!(agent.log(); "HTTP is answered beyond this machine, and nobody is asked who they are");
    }
    if settings.app.is_none() {
        warn!(agent.log(); "no --app: requests of this node's keys are echoed");
    }
    let started = start(rt, alloc, &agent, settings);
    if started.is_err() {
        agent.log().sink().end();
    }
    Ok((agent, started?))
}

/// Writes that the agent of the node at an address serves, waits for its end, and writes that it is done.
fn serve<R: System + Files, W: Write>(
    rt: &R,
    alloc: Global,
    own: Address,
    agent: &Agent<R>,
    lot: Option<Arc<Lot<Kept>, Global>>,
    writer: &mut W,
) -> Result<(), AgentError>
    ensures served { OnOk result (Appends (W.contents writer.old) (W.contents writer.new) (agent_text own)) }
    ensures prefix { AppendsPrefix (W.contents writer.old) (W.contents writer.new) (agent_text own) }
{
    say_serving(alloc, own, writer)?;
    wait_for_end(rt, alloc, agent, lot)?;
    say(writer, "done")
}

/// Runs an agent until it is told to stop. It listens to other nodes, joins the hosts, answers HTTP, starts the rounds of
/// gossip, and writes `serving` and the node's address. When `POST /stop` comes, it leaves, makes ten rounds that spread
/// this, answers the HTTP connections that wait, closes each after its next answer or after a second in which it sends
/// nothing, ten seconds at most, answers the requests of other nodes that it has, 4.5 seconds at most, waits until an application that is told of the ring
/// was told this, four seconds at most, and writes `done`.
///
/// # Errors
///
/// Threads that were started before the error keep running until the program ends. A prefix of the two lines is written.
///
/// - `NotLocal`: the address for HTTP is not in 127.0.0.0/8, and `http_any` is not set. This is checked first.
/// - `NoAddress`: the node's own address is 0.0.0.0 with a port. This is checked second.
/// - `FewDescriptors`: the system gives this process fewer than 64 descriptors. This is checked third.
/// - `CannotRead`: the file of hosts can't be read, with the system's reason. Read again later, this only has the log say so.
/// - `NotAFile`: the file of hosts is no regular file. This, too.
/// - `BadHosts`: the file of hosts lists none. This, too.
/// - `NoClock`: no incarnation is given, and the system has no clock, or its clock gives no time since 1970.
/// - `BadConfig`: a field of the node's configuration is out of its range.
/// - `CannotListen`: this address can't be listened at, that for other nodes or that for HTTP; with the system's reason.
/// - `NoRandom`: the system gave no random numbers for the threads that answer HTTP.
/// - `NoReactor`: the system lets no connections be watched.
/// - `NoThread`: the system gave no thread.
/// - `CannotWrite`: the writer failed.
/// - `Spent`: a thread needs a pass of the node, and none is left. There are 1,023, each for 4,294,967,295 calls.
/// - `Memory`: out of memory before `serving` was written. Later only the request or the round that runs out of memory
///   fails.
pub fn run<R: System + Files, W: Write>(
    rt: &R,
    alloc: Global,
    settings: Settings,
    writer: &mut W,
) -> Result<(), AgentError>
    ensures served { OnOk result (Appends (W.contents writer.old) (W.contents writer.new) (agent_text settings.address)) }
    ensures prefix { AppendsPrefix (W.contents writer.old) (W.contents writer.new) (agent_text settings.address) }
{
    let own = settings.address;
    let (agent, lot) = set_up(rt, alloc, settings)?;
    let ended = serve(rt, alloc, own, &agent, lot, writer);
    agent.log().sink().end();
    ended
}
