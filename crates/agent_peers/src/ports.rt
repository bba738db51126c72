//! The node's port: the readers, which take what comes over connections of other nodes, answer gossip, and hand over requests of keys.
ghost use Rattle.std.specs.Prelude.{◌≡◌};
ghost use Rattle.agent_peers.specs.Lines.{HearsCame, input_of};
ghost use Rattle.agent_peers.specs.declared.lines.Heard.{Heard};

use crate::hands::start_hands;
use crate::lines::{Heard, hear_own, input_of};
use crate::peers::{Answer, Job, serve_job};
use agent_core::Notice;
use agent_node::{Agent, AgentError, Caller, PeerLink, unwatched};
use agent_state::{Host, System};
use change_core::Moment;
use cluster_names::{ClusterName, line_sent};
use crossbeam_channel::{Sender, bounded};
use kept_links::Marked;
use line_service::{Arrival, Input, MAX_READ, Port, Turn, millis_of};
use message_core::{Reason, WireError};
use std::alloc::Global;
use std::net::{TcpListener, TcpStream};
use std::sync::{Arc, Mutex};
use std::thread;

/// The number of threads of the node's port. They read lines there, answer gossip, and watch the connections that wait, one of them at a time.
pub const READERS: u32 = 5;

/// What the readers share: the port, and what the log said last of its connections.
#[derive(Drop)]
struct Readers {
    port: Port,
    notice: Mutex<Notice>,
}

/// Returns what came to a node of this cluster over a connection, and whether it is marked.
fn heard_in(
    alloc: Global,
    cluster: &Option<ClusterName>,
    line: &Result<Vec<u8>, WireError>,
) -> (Heard, bool)
    ensures { HearsCame cluster.now line.now result.0 }
{
    match line {
        Ok(bytes) => {
            let mut reader = Marked::new(bytes.as_slice());
            let heard = hear_own(alloc, cluster, &mut reader);
            (heard, reader.is_marked())
        }
        Err(WireError::Memory) => (Heard::Input(Input::Refused(Reason::Memory)), false),
        Err(_) => (Heard::Input(Input::Nothing), false),
    }
}

/// Returns the input of a connection whose line was to be whole until this millisecond.
fn job_of<R: Host>(
    agent: &Agent<R>,
    stream: TcpStream,
    heard: Heard,
    is_marked: bool,
    until: u64,
) -> Job
    ensures input { result.input ≡ input_of heard }
    ensures marked { result.is_marked ≡ is_marked }
{
    let since = Moment::new(until.saturating_sub(millis_of(agent.timeouts.line)));
    Job {
        input: input_of(agent, &stream, heard),
        stream,
        since: since.unwrap_or(agent.now()),
        is_marked,
    }
}

/// Returns the input of what came over a connection.
fn arrived<R: Host>(agent: &Agent<R>, alloc: Global, came: Arrival) -> Job
    ensures { (it : Heard) × HearsCame agent.now.cluster came.line it × (result.input ≡ input_of it) }
{
    let (heard, is_marked) = heard_in(alloc, &agent.cluster, &came.line);
    job_of(agent, came.stream, heard, is_marked, came.until)
}

/// Sends an answer from the port, as a line of this agent's cluster. It is lost if it is too long with the name, or if out of memory.
fn send<R: Host>(agent: &Agent<R>, alloc: Global, port: &Port, answer: Answer) {
    if let Ok(line) = line_sent(alloc, &agent.cluster, answer.line) {
        port.answer(&agent.rt, &agent.stopwatch, answer.stream, line);
    }
}

/// Has what comes to the port answered, until that is closed.
fn serve_port<R: Host>(
    agent: Arc<Agent<R>, Global>,
    alloc: Global,
    mut caller: Caller,
    readers: Arc<Readers, Global>,
    hands: Sender<Job>,
) {
    let agent = &*agent;
    let mut link = PeerLink::new(agent, agent.rt, agent.timeouts.links);
    let mut buffer = [0u8; MAX_READ];
    for _ in agent.rt.forever() {
        match readers
            .port
            .turn(&agent.rt, alloc, &agent.stopwatch, &mut buffer)
        {
            Turn::Came(came) => {
                let job = arrived(agent, alloc, came);
                if let Some(answer) = serve_job(agent, alloc, &mut caller, &mut link, &hands, job) {
                    send(agent, alloc, &readers.port, answer);
                }
            }
            Turn::Watched(accepted) => {
                let mut notice = readers.notice.lock(&agent.rt);
                agent.note_accepting(&mut *notice, "node-to-node", &accepted);
            }
            Turn::Parked => {}
            Turn::Closed => return,
        }
    }
}

/// Starts a reader.
fn start_reader<R: System>(
    rt: &R,
    alloc: Global,
    agent: &Arc<Agent<R>, Global>,
    readers: &Arc<Readers, Global>,
    hands: &Sender<Job>,
) -> Result<(), AgentError> {
    let caller = agent.next_caller()?;
    let agent = Arc::try_clone(agent)?;
    let readers = Arc::try_clone(readers)?;
    let hands = hands.clone()?;
    let started = thread::spawn(rt, move || serve_port(agent, alloc, caller, readers, hands));
    let _thread = started.map_err(|_| AgentError::NoThread)?;
    Ok(())
}

/// Starts the threads of the node's port: the readers, and the hands that have the application answer what they take.
///
/// # Errors
///
/// - `NoReactor`: the system lets no connections be watched.
/// - `Spent`: a thread needs a pass of the node, and none is left.
/// - `NoThread`: the system gave no thread.
/// - `Memory`: an allocation failed.
pub fn start_port<R: System>(
    rt: &R,
    alloc: Global,
    agent: &Arc<Agent<R>, Global>,
    listener: TcpListener,
) -> Result<(), AgentError> {
    agent.port.set_limit(agent.budget.nodes as usize);
    let places = Arc::try_clone(&agent.port)?;
    let port = Port::new(rt, alloc, listener, places, agent.timeouts.line);
    let readers = Readers {
        port: port.map_err(|error| unwatched(error))?,
        notice: Mutex::new(Notice::new()),
    };
    let readers = Arc::new(alloc, readers)?;
    let (hands, jobs) = bounded(alloc, agent.budget.queued as usize)?;
    for _ in 0..READERS {
        start_reader(rt, alloc, agent, &readers, &hands)?;
    }
    start_hands(rt, alloc, agent, &jobs)
}
