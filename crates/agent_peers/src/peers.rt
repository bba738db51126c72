//! Lines of other nodes: one in and one out, and then the next for connections that are kept. Gossip is answered immediately, by threads that never
//! wait for the application.
ghost use Rattle.std.specs.Prelude.{◌≡◌, IfOk, IsTrue};
ghost use Rattle.agent_peers.specs.Serving.{is_request};

use crate::admissions::admit;
use crate::lines::{hear_own, input_of};
use agent_application::{Joining, Overloaded};
use agent_node::{Agent, Caller, PeerLink};
use agent_state::Host;
use change_core::Moment;
use cluster_names::line_sent;
use crossbeam_channel::{Sender, TrySendError};
use kept_links::{Marked, marked_line};
use line_service::Input;
use message_core::{Content, Message};
use peer_core::HandlerMut;
use std::alloc::Global;
use std::net::TcpStream;
use transport::{Deadline, Timed, send_owned_line};

/// An input of another node, the connection that waits for its answer, and the moment from which its line was awaited.
#[derive(Drop)]
pub struct Job {
    pub input: Input,
    /// Its reads and writes do not wait until a hand takes it.
    pub stream: TcpStream,
    pub since: Moment,
    /// Whether the other node asks to keep the connection.
    pub is_marked: bool,
}

/// Returns the line that answers an input, with room for its newline; None if it needs no answer, or none could be made.
pub fn line_for<R: Host, A: HandlerMut>(
    agent: &Agent<R>,
    alloc: Global,
    caller: &mut Caller,
    link: &mut PeerLink<'_, R, R>,
    handler: &mut A,
    input: &Input,
) -> Option<Vec<u8>> {
    let now = agent.now();
    let line = caller.respond(&agent.rt, alloc, link, handler, now, input);
    agent.renew(caller);
    line
}

/// A line that goes back over the connection of an input.
#[derive(Drop)]
pub struct Answer {
    pub line: Vec<u8>,
    pub stream: TcpStream,
}

/// Sends a line over a connection, as one of this agent's cluster, and marked if the connection is kept. Returns the connection; None if that fails: the
/// line is lost, also where it is too long with the name.
pub fn send_back<R: Host>(
    agent: &Agent<R>,
    alloc: Global,
    stream: TcpStream,
    line: Vec<u8>,
    is_kept: bool,
) -> Option<TcpStream> {
    let mut line = line_sent(alloc, &agent.cluster, line).ok()?;
    if is_kept {
        line = marked_line(line);
    }
    let deadline = Deadline::after(&agent.rt, agent.timeouts.line).ok()?;
    let stream = send_owned_line(Timed::new(stream, deadline), line).ok()?;
    Some(stream.into_inner())
}

/// Returns the answer to an input; None if it needs none, or none could be made.
fn answer_to<R: Host, A: HandlerMut>(
    agent: &Agent<R>,
    alloc: Global,
    caller: &mut Caller,
    link: &mut PeerLink<'_, R, R>,
    handler: &mut A,
    job: Job,
) -> Option<Answer> {
    let line = line_for(agent, alloc, caller, link, handler, &job.input)?;
    Some(Answer {
        line,
        stream: job.stream,
    })
}

/// Returns whether an input is a request of a key.
fn is_request(input: &Input) -> bool
    ensures { result ≡ is_request input.now }
{
    matches!(
        input,
        Input::Message(Message {
            content: Content::Forward(_, _),
            ..
        })
    )
}

/// Returns the input that comes over a connection within the time limit, with the connection; None if the clock failed.
fn listen_to<R: Host>(agent: &Agent<R>, alloc: Global, stream: TcpStream) -> Option<Job> {
    let since = agent.now();
    let deadline = Deadline::after(&agent.rt, agent.timeouts.line).ok()?;
    let mut reader = Marked::new(Timed::new(stream, deadline));
    let heard = hear_own(alloc, &agent.cluster, &mut reader);
    let is_marked = reader.is_marked();
    let stream = reader.into_inner().into_inner();
    Some(Job {
        input: input_of(agent, &stream, heard),
        stream,
        since,
        is_marked,
    })
}

/// Returns the request of a key that an input is.
///
/// # Errors
///
/// - The answer, if something else came, or a request before a host has answered, which is refused; None if it needs none, or none could be made.
fn request_of<R: Host>(
    agent: &Agent<R>,
    alloc: Global,
    caller: &mut Caller,
    link: &mut PeerLink<'_, R, R>,
    mut job: Job,
) -> Result<Job, Option<Answer>>
    ensures { IfOk result (λ request. IsTrue (is_request request.input)) }
{
    job.input = admit(agent, caller, job.input);
    if !is_request(&job.input) {
        return Err(answer_to(agent, alloc, caller, link, &mut &agent.application, job));
    }
    if agent.life.is_starting.get() {
        return Err(answer_to(agent, alloc, caller, link, &mut &Joining, job));
    }
    Ok(job)
}

/// Returns the request of a key that comes over a connection within the time limit. What else comes is answered immediately.
pub fn next_request<R: Host>(
    agent: &Agent<R>,
    alloc: Global,
    caller: &mut Caller,
    link: &mut PeerLink<'_, R, R>,
    stream: TcpStream,
) -> Option<Job> {
    let job = listen_to(agent, alloc, stream)?;
    match request_of(agent, alloc, caller, link, job) {
        Ok(request) => Some(request),
        Err(answer) => {
            let Answer { line, stream } = answer?;
            let _sent = send_back(agent, alloc, stream, line, false);
            None
        }
    }
}

/// Returns the answer to an input; None if it needs none, or none could be made. A request goes to the queue of the hands, the threads that have the
/// application answer; only if the queue is full, it is answered here: too many wait.
pub fn serve_job<R: Host>(
    agent: &Agent<R>,
    alloc: Global,
    caller: &mut Caller,
    link: &mut PeerLink<'_, R, R>,
    hands: &Sender<Job>,
    job: Job,
) -> Option<Answer> {
    let job = match request_of(agent, alloc, caller, link, job) {
        Ok(job) => job,
        Err(answer) => return answer,
    };
    agent.forwarded.add(1);
    let Err(refused) = hands.try_send(&agent.rt, job) else {
        return None;
    };
    agent.end_forwarded();
    let TrySendError::Full(job) = refused else {
        return None;
    };
    answer_to(agent, alloc, caller, link, &mut &Overloaded, job)
}
