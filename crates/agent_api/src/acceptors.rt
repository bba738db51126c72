//! HTTP from its start to its end: the thread that accepts connections and watches those that wait, and the workers.

use crate::connections::MAX_IDLE;
use crate::workers::serve_http;
use agent_core::Notice;
use agent_http::Kept;
use agent_node::{Agent, AgentError, unwatched};
use agent_state::{Host, System};
use crossbeam_channel::Receiver;
use reactor::{Connection, Lot, Reactor, Timing};
use std::alloc::Global;
use std::hash::RandomState;
use std::net::TcpListener;
use std::sync::Arc;
use std::time::Duration;
use std::{io, thread};
use transport::Deadline;

/// The number of workers that answer HTTP, each one connection at a time.
const WORKERS: u32 = 256;

/// The number of threads of an agent for HTTP: the workers, and the one that accepts connections and watches those that wait.
pub const HTTP_THREADS: u32 = WORKERS + 1;

/// The milliseconds for which a worker waits for the next bytes of a connection before it parks it.
const PATIENCE: u64 = 50;

/// The most milliseconds between two looks at the connections that wait.
const MAX_REST: u64 = 1_000;

/// The milliseconds for which connections that wait may still send a request when HTTP ends.
const LAST_IDLE: u64 = 1_000;

/// The most milliseconds that the end waits for connections to close.
const MAX_LAST_WAIT: u64 = 10_000;

/// The milliseconds between two looks for connections whose time is up, and for questions whose wait is over.
const BETWEEN_SWEEPS: u64 = 1_000;

/// Starts a worker that answers HTTP.
fn start_worker<R: System>(
    rt: &R,
    alloc: Global,
    agent: &Arc<Agent<R>, Global>,
    lot: &Arc<Lot<Kept>, Global>,
    ready: &Receiver<Connection<Kept>>,
    keys: RandomState,
) -> Result<(), AgentError> {
    let caller = agent.next_caller()?;
    let agent = Arc::try_clone(agent)?;
    let lot = Arc::try_clone(lot)?;
    let ready = ready.clone()?;
    agent.workers.add(1);
    let started = thread::spawn(
        rt,
        move || serve_http(agent, alloc, caller, lot, ready, keys),
    );
    let _thread = started.map_err(|_| AgentError::NoThread)?;
    Ok(())
}

/// Has the questions about the ring answered that are due, once a second, which is noted in `swept`, or all of them, if the agent is to end; and makes
/// a turn of the reactor. Returns what that does.
fn turn<R: Host>(
    agent: &Agent<R>,
    reactor: &mut Reactor<Kept>,
    swept: &mut u64,
) -> io::Result<bool> {
    let now = agent.now().number();
    let is_stopping = agent.life.is_stopping.get();
    if is_stopping || now.saturating_sub(*swept) >= BETWEEN_SWEEPS {
        *swept = now;
        agent.watchers.answer_due(&agent.rt, now, is_stopping);
    }
    reactor.turn(&agent.rt, now)
}

/// Accepts connections, and has those that are ready answered, until HTTP is to end. What waits to be accepted then is accepted first.
fn accept_until_end<R: Host>(agent: &Agent<R>, reactor: &mut Reactor<Kept>) {
    let mut notice = Notice::new();
    let mut swept = 0;
    for _ in agent.rt.forever() {
        let is_ending = reactor.lot().is_ending();
        let accepted = turn(agent, reactor, &mut swept);
        agent.note_accepting(&mut notice, "HTTP", &accepted);
        if is_ending && !matches!(accepted, Ok(true)) {
            return;
        }
        reactor.wait(Duration::from_millis(MAX_REST));
    }
}

/// Has the connections answered on which a request comes within a second, and then closes those that are idle, until none is open.
fn answer_last<R: Host>(agent: &Agent<R>, reactor: &mut Reactor<Kept>) {
    let end = agent.now().number().saturating_add(LAST_IDLE);
    let mut swept = 0;
    for _ in agent.rt.forever() {
        let _none = turn(agent, reactor, &mut swept);
        let left = end.saturating_sub(agent.now().number());
        if left == 0 {
            reactor.close_idle(&agent.rt);
        }
        if reactor.lot().places().open() == 0 {
            return;
        }
        let rest = if left == 0 { MAX_REST } else { left };
        reactor.wait(Duration::from_millis(rest));
    }
}

/// Accepts connections and watches them until HTTP ends, and then those that are open until they are closed.
fn watch<R: Host>(agent: Arc<Agent<R>, Global>, mut reactor: Reactor<Kept>) {
    let agent = &*agent;
    accept_until_end(agent, &mut reactor);
    reactor.close();
    answer_last(agent, &mut reactor);
}

/// Starts the workers, and the thread that accepts connections, as many as the agent has places for. Returns the lot of those that wait.
///
/// # Errors
///
/// - `NoRandom`: the system gave no random numbers for the names of fields.
/// - `NoReactor`: the system lets no connections be watched.
/// - `Spent`: a worker needs a pass of the node, and none is left.
/// - `NoThread`: the system gave no thread.
/// - `Memory`: an allocation failed.
pub fn start_http<R: System>(
    rt: &R,
    alloc: Global,
    agent: &Arc<Agent<R>, Global>,
    listener: TcpListener,
) -> Result<Arc<Lot<Kept>, Global>, AgentError> {
    let keys = RandomState::new(rt).map_err(|_| AgentError::NoRandom)?;
    let timing = Timing {
        patience: Some(Duration::from_millis(PATIENCE)),
        idle: MAX_IDLE,
        between_sweeps: BETWEEN_SWEEPS,
        hands_over_late: false,
    };
    agent.http.set_limit(agent.budget.clients as usize);
    let places = Arc::try_clone(&agent.http)?;
    let (reactor, ready) = Reactor::new(rt, alloc, listener, places, timing).map_err(
        |error| unwatched(error),
    )?;
    let lot = Arc::try_clone(reactor.lot())?;
    agent.watchers.set_lot(rt, Arc::try_clone(&lot)?);
    for _ in 0..WORKERS {
        start_worker(rt, alloc, agent, &lot, &ready, keys)?;
    }
    let agent = Arc::try_clone(agent)?;
    let started = thread::spawn(rt, move || watch(agent, reactor));
    let _thread = started.map_err(|_| AgentError::NoThread)?;
    Ok(lot)
}

/// Ends HTTP: each connection that was made is answered and closed, or ten seconds have passed.
pub fn end_http<R: System>(rt: &R, agent: &Agent<R>, lot: &Lot<Kept>) {
    lot.end();
    let Ok(deadline) = Deadline::after(rt, Duration::from_millis(MAX_LAST_WAIT)) else {
        return;
    };
    for _ in rt.forever() {
        let Ok(left) = deadline.left() else {
            return;
        };
        if agent.workers.get() == 0 {
            return;
        }
        agent.life.wake.park_timeout(rt, left);
    }
}
