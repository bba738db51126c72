//! The joins of the hosts, by a thread of their own: a host that does not answer holds up neither a round nor HTTP.
ghost use Rattle.agent_peers.specs.Joins.{HasJoined, IsAsked};

use agent_node::{Agent, AgentError, Caller, NotedLink};
use agent_state::{Host, System};
use change_core::Address;
use log::{info, warn};
use std::alloc::Global;
use std::sync::Arc;
use std::thread;
use std::time::Duration;

/// The most milliseconds for which a host's answer is awaited when the hosts are asked for the first time, and when a cluster
/// is healed. Each further time it is twice as long as the time before.
pub const MAX_FIRST_WAIT: u64 = 500;

/// The most milliseconds for which a host's answer is ever awaited.
const MAX_WAIT: u64 = 5_000;

/// The milliseconds from when all hosts were asked until they are asked again.
const BETWEEN_JOINS: u64 = 1_000;

/// The milliseconds after which a node that is out of the ring looks whether it is back.
const WHILE_OUT: u64 = 100;

/// Joins by a host, and logs that it answered. Returns whether it did.
pub fn join_one<R: Host>(
    agent: &Agent<R>,
    alloc: Global,
    caller: &mut Caller,
    link: &mut NotedLink<'_, R>,
    host: Address,
) -> bool
    ensures { HasJoined host result caller.old caller.new }
{
    let joined = caller.join(&agent.rt, alloc, link, host, agent.now());
    agent.renew(caller);
    if joined.is_ok() {
        info!(agent.log(); "{host} let the node join");
    }
    joined.is_ok()
}

/// Returns whether the node holds a host as serving, so that one of its members has met it.
fn is_held<R: Host>(agent: &Agent<R>, caller: &mut Caller, host: Address) -> bool
    ensures { IsAsked host result caller.old caller.new }
{
    match caller.member(&agent.rt, host) {
        Ok(Some(entry)) => entry.status.serving(),
        Ok(None) | Err(_) => false,
    }
}

/// What came of the joins by the hosts in turn.
#[derive(Clone, Copy)]
enum Asked {
    /// One of them has answered, or is held as serving.
    Met,
    /// There are other hosts by now.
    Changed,
    /// None has answered, or the node has left.
    Silent,
}

/// Joins by the hosts in turn, unless the node has left, until one has answered or is held as serving, or there are other hosts.
fn join_by<R: Host>(
    agent: &Agent<R>,
    alloc: Global,
    caller: &mut Caller,
    link: &mut NotedLink<'_, R>,
    hosts: &[Address],
) -> Asked {
    if agent.life.has_left.get() {
        return Asked::Silent;
    }
    for host in hosts {
        if agent.hosts.have_changed(&agent.rt) {
            return Asked::Changed;
        }
        if *host == agent.own {
            continue;
        }
        if is_held(agent, caller, *host) || join_one(agent, alloc, caller, link, *host) {
            return Asked::Met;
        }
    }
    Asked::Silent
}

/// Returns whether the node is out of the ring, so that it asks no host. Requests of keys are answered by what it knows then.
fn is_out<R: Host>(agent: &Agent<R>) -> bool {
    let _moving = agent.life.moving.lock(&agent.rt);
    let has_left = agent.life.has_left.get();
    if has_left {
        agent.life.is_starting.set(false);
    }
    has_left
}

/// Logs that the node serves alone, if it has asked the hosts for the first time.
fn note_alone<R: Host>(agent: &Agent<R>) {
    if agent.life.is_starting.get() && !agent.life.has_left.get() {
        warn!(agent.log(); "no host let this node join: it serves alone, and asks them again");
    }
}

/// Notes that the hosts were asked, and whether one has answered or is held as serving: requests of keys are answered from then on.
fn end_start<R: Host>(agent: &Agent<R>, is_met: bool) {
    let _moving = agent.life.moving.lock(&agent.rt);
    if is_met {
        agent.life.has_joined.set(true);
    }
    agent.life.is_starting.set(false);
}

/// Sends a Join to one host after the other, again and again until one has answered, or the agent is to end. Hosts that come later are asked in place of
/// these as soon as the host that is asked has answered or its time is up. Once one has answered it is healing that asks them.
fn join_hosts<R: Host>(
    agent: Arc<Agent<R>, Global>,
    alloc: Global,
    mut caller: Caller,
    mut hosts: Vec<Address>,
) {
    let agent = &*agent;
    let mut wait = MAX_FIRST_WAIT;
    for _ in agent.rt.forever() {
        if is_out(agent) && !agent.life.is_stopping.get() {
            thread::sleep(&agent.rt, Duration::from_millis(WHILE_OUT));
            continue;
        }
        if let Some(newer) = agent.hosts.take_for_joins(&agent.rt) {
            hosts = newer;
            wait = MAX_FIRST_WAIT;
        }
        let mut link = NotedLink::within(agent, wait);
        let asked = join_by(agent, alloc, &mut caller, &mut link, hosts.as_slice());
        match asked {
            Asked::Met => {}
            Asked::Changed if !agent.life.is_stopping.get() => continue,
            Asked::Changed | Asked::Silent => note_alone(agent),
        }
        end_start(agent, matches!(asked, Asked::Met));
        if matches!(asked, Asked::Met) || agent.life.is_stopping.get() {
            return;
        }
        wait = wait.saturating_mul(2).min(MAX_WAIT);
        thread::sleep(&agent.rt, Duration::from_millis(BETWEEN_JOINS));
    }
}

/// Starts the thread that asks the hosts, if there are any or may be.
///
/// # Errors
///
/// - `Spent`: the thread needs a pass of the node, and none is left.
/// - `NoThread`: the system gave no thread.
/// - `Memory`: out of memory.
pub fn start_joins<R: System>(
    rt: &R,
    alloc: Global,
    agent: &Arc<Agent<R>, Global>,
    hosts: Vec<Address>,
) -> Result<(), AgentError> {
    if !agent.hosts.may_come() {
        return Ok(());
    }
    let caller = agent.next_caller()?;
    let agent = Arc::try_clone(agent)?;
    let started = thread::spawn(rt, move || join_hosts(agent, alloc, caller, hosts));
    let _thread = started.map_err(|_| AgentError::NoThread)?;
    Ok(())
}
