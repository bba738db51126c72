//! The hands of an agent, the threads that have the application answer the requests of other nodes.
ghost use Rattle.std.specs.Prelude.{◌≡◌, false};
ghost use Rattle.agent_node.specs.Noting.{handler_of};
ghost use Rattle.agent_peers.specs.Serving.{IsAnsweredHere, IsServed, asks};

use crate::peers::{Job, next_request, send_back};
use crate::relays::{line_after, millis_left, relay, relay_link};
use agent_application::Limited;
use agent_node::{Agent, AgentError, Caller, NotedHandler, PeerLink};
use agent_state::{Host, System};
use change_core::Moment;
use crossbeam_channel::Receiver;
use message_core::{Keys, Text};
use peer_core::{Handler, HandlerFault, HandlerMut, Link};
use reactor::{Arrived, look_at};
use std::alloc::Global;
use std::io::ErrorKind;
use std::net::TcpStream;
use std::sync::{Arc, Wait};
use std::thread;
use std::time::Duration;
use transport::Deadline;

/// The milliseconds for which the next request of a connection is awaited, 200 more than the other node uses it.
const MAX_IDLE: u64 = 250;

/// The most milliseconds for which the end waits until no request of another node is left: as many as the application has for one, and a margin.
const MAX_ENDING: u64 = 4_500;

/// The application, which has for each request what is left of the time from a moment on.
#[derive(Drop)]
struct Remaining<'a, R> {
    agent: &'a Agent<R>,
    since: Moment,
}

impl<'a, R: Host> HandlerMut for Remaining<'a, R> {
    // what a service does is unknown
    ghost handled = { λ _ _ _ _ _. Unit {0} };

    fn handle_mut<W: Wait>(
        &mut self,
        rt: &W,
        alloc: Global,
        keys: &Keys,
        body: &Text,
    ) -> Result<Text, HandlerFault> {
        let left = millis_left(self.agent, self.since);
        Limited::new(&self.agent.application, left).handle(rt, alloc, keys, body)
    }
}

/// Returns the line of this node's own answer to a request, for which the handler is asked, once, if this node owns the request by its view.
fn own_answer<R: Host, A: HandlerMut>(
    agent: &Agent<R>,
    alloc: Global,
    caller: &mut Caller,
    handler: &mut NotedHandler<A>,
    job: &Job,
) -> Option<Vec<u8>>
    requires { handler.old.was_asked ≡ false }
    ensures answered { IsAnsweredHere (asks A.handled handler.new.was_asked (handler_of handler.old) (handler_of handler.new)) job.now.input result caller.old caller.new }
{
    let mut link = PeerLink::new(agent, agent.rt, agent.timeouts.links);
    let now = agent.now();
    caller.respond(&agent.rt, alloc, &mut link, handler, now, &job.input)
}

/// Returns the line that goes back for a request. One that this node does not own is passed on to the owner. If no other
/// node performed it, this node answers again, since it may own it by now. If the owner gave no reply, no line goes back,
/// since the owner may have performed the request.
fn line_for_request<R: Host, L: Link, A: HandlerMut>(
    agent: &Agent<R>,
    alloc: Global,
    caller: &mut Caller,
    relay_link: &mut L,
    handler: &mut NotedHandler<A>,
    job: &mut Job,
) -> Option<Vec<u8>>
    requires { handler.old.was_asked ≡ false }
    ensures served { IsServed L.may_answer L.went A.handled job.old.input result relay_link.old relay_link.new (handler_of handler.old) (handler_of handler.new) caller.old }
{
    let line = own_answer(agent, alloc, caller, handler, job);
    agent.renew(caller);
    if handler.was_asked {
        return line;
    }
    let relayed = relay(agent, alloc, caller, relay_link, job);
    agent.renew(caller);
    match line_after(relayed) {
        Some(line) => line,
        None => own_answer(agent, alloc, caller, handler, job),
    }
}

/// Returns whether something comes over a connection in its time. A signal starts the time again.
fn is_followed(stream: &TcpStream) -> bool {
    let limit = Duration::from_millis(MAX_IDLE);
    if stream.set_read_timeout(Some(limit)).is_err() {
        return false;
    }
    'peeks: for _ in 0..u64::MAX {
        match stream.peek(&mut [0]) {
            Ok(count) => return count > 0,
            Err(error) if error.kind() == ErrorKind::Interrupted => {}
            Err(_) => return false,
        }
    }
    false
}

/// Sends a marked answer over a connection, and returns the next request that comes over it; None if none comes in its time.
fn request_after<R: Host>(
    agent: &Agent<R>,
    alloc: Global,
    caller: &mut Caller,
    link: &mut PeerLink<'_, R, R>,
    stream: TcpStream,
    line: Vec<u8>,
) -> Option<Job> {
    let stream = send_back(agent, alloc, stream, line, true)?;
    if !is_followed(&stream) {
        return None;
    }
    next_request(agent, alloc, caller, link, stream)
}

/// Answers a request over its connection, or closes that where no line goes back. Returns the next request that comes over the connection if it
/// is kept: if the other node asks for it, no request waits for a hand, and fewer hands wait for a next one than may.
fn serve_request<R: Host>(
    agent: &Agent<R>,
    alloc: Global,
    caller: &mut Caller,
    link: &mut PeerLink<'_, R, R>,
    jobs: &Receiver<Job>,
    mut job: Job,
) -> Option<Job> {
    let mut relay_link = relay_link(agent);
    let mut handler = NotedHandler::new(Remaining {
        agent,
        since: job.since,
    });
    let line = line_for_request(
        agent,
        alloc,
        caller,
        &mut relay_link,
        &mut handler,
        &mut job,
    );
    agent.renew(caller);
    let line = line?;
    let is_kept = job.is_marked && jobs.is_empty() && agent.keeping.add_below(agent.max_keeping());
    if !is_kept {
        let _sent = send_back(agent, alloc, job.stream, line, false);
        return None;
    }
    let next = request_after(agent, alloc, caller, link, job.stream, line);
    agent.keeping.subtract(1);
    next
}

/// Answers a request, and those that follow over its connection as long as it is kept.
fn serve_connection<R: Host>(
    agent: &Agent<R>,
    alloc: Global,
    caller: &mut Caller,
    link: &mut PeerLink<'_, R, R>,
    jobs: &Receiver<Job>,
    job: Job,
) {
    let mut next = Some(job);
    for _ in agent.rt.forever() {
        let Some(job) = next else {
            return;
        };
        next = serve_request(agent, alloc, caller, link, jobs, job);
    }
}

/// Answers the requests of the queue, and those that follow over their connections, until the queue has no sender. A request of the queue for
/// which no time is left is dropped, since the node that sent it would get the answer too late; so is one whose sender has hung up, since another
/// node may have answered it.
fn serve_requests<R: Host>(
    agent: Arc<Agent<R>, Global>,
    alloc: Global,
    mut caller: Caller,
    jobs: Receiver<Job>,
) {
    let agent = &*agent;
    let mut link = PeerLink::new(agent, agent.rt, agent.timeouts.links);
    for _ in agent.rt.forever() {
        let Ok(job) = jobs.recv(&agent.rt) else {
            return;
        };
        let is_awaited = millis_left(agent, job.since) > 0 && look_at(&job.stream) != Arrived::End;
        if is_awaited && job.stream.set_nonblocking(false).is_ok() {
            serve_connection(agent, alloc, &mut caller, &mut link, &jobs, job);
        }
        agent.end_forwarded();
    }
}

/// Starts the hands that an agent is to have, which take requests from this queue.
///
/// # Errors
///
/// - `Spent`: a hand needs a pass of the node, and none is left.
/// - `NoThread`: the system gave no thread.
/// - `Memory`: out of memory.
pub fn start_hands<R: System>(
    rt: &R,
    alloc: Global,
    agent: &Arc<Agent<R>, Global>,
    jobs: &Receiver<Job>,
) -> Result<(), AgentError> {
    for _ in 0..agent.budget.hands {
        let caller = agent.next_caller()?;
        let agent = Arc::try_clone(agent)?;
        let jobs = jobs.clone()?;
        let started = thread::spawn(rt, move || serve_requests(agent, alloc, caller, jobs));
        let _thread = started.map_err(|_| AgentError::NoThread)?;
    }
    Ok(())
}

/// Waits until no request of another node is left, but 4.5 seconds at most.
pub fn end_hands<R: System>(rt: &R, agent: &Agent<R>) {
    let Ok(deadline) = Deadline::after(rt, Duration::from_millis(MAX_ENDING)) else {
        return;
    };
    for _ in rt.forever() {
        let Ok(left) = deadline.left() else {
            return;
        };
        if agent.forwarded.get() == 0 {
            return;
        }
        agent.life.wake.park_timeout(rt, left);
    }
}
