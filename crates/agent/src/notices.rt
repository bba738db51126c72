//! The notices by which the application is told of the ring, by a thread of their own: an application that is slow or down holds up no round.
ghost use Rattle.std.specs.Prelude.{◌≡◌, Err, IfErr, None, Ok, not};
ghost use Rattle.agent_core.specs.Warnings.{told};
ghost use Rattle.agent_http.specs.Exchanges.{IsOfAnswer};
ghost use Rattle.agent.specs.Notices.{Tells, TellsOnce};

use agent_core::{Failure, Notice, Telling};
use agent_http::read_answer;
use agent_node::{Agent, AgentError, MAX_NOTICE_MILLIS};
use agent_state::{Host, System};
use bytes::BytesMut;
use change_core::{Address, Moment};
use http1::{BodySize, Client, Header, Limits};
use log::{info, warn};
use std::alloc::{AllocError, Global};
use std::io::{Read, Write};
use std::net::TcpStream;
use std::sync::Arc;
use std::thread;
use std::time::Duration;
use transport::{Deadline, Timed, socket_address};

/// Returns the bytes of a notice, `POST /moved`; None if they could not be written.
fn request(
    alloc: Global,
    client: &mut Client,
    at: Address,
    text: &str,
) -> Result<Option<BytesMut>, AllocError> {
    let host = format!(in alloc; "{at}")?;
    let headers = [
        Header {
            name: b"host",
            value: host.as_bytes(),
        },
        Header {
            name: b"content-type",
            value: b"application/json",
        },
        Header {
            name: b"connection",
            value: b"close",
        },
    ];
    let size = BodySize::Known(text.len() as u64);
    let mut output = BytesMut::new(alloc);
    let is_written = client
        .write_request(&mut output, b"POST", b"/moved", &headers, size)
        .is_ok()
        && client.write_data(&mut output, text.as_bytes()).is_ok()
        && client.write_end(&mut output, &[]).is_ok();
    Ok(is_written.then_some(output))
}

/// Sends a notice over a stream. Returns the status of the answer.
fn exchange<S: Read + Write>(
    alloc: Global,
    stream: &mut S,
    at: Address,
    text: &str,
) -> Result<u16, Failure>
    ensures { IfErr result IsOfAnswer }
{
    let mut client = Client::new(Limits::default());
    let Ok(Some(output)) = request(alloc, &mut client, at, text) else {
        return Err(Failure::NoAnswer);
    };
    stream
        .write_all(output.as_slice())
        .map_err(|_| Failure::NoAnswer)?;
    let answer = read_answer(alloc, &mut client, stream)?;
    Ok(answer.status)
}

/// Sends a notice to the application over a new connection. Returns the status of its answer.
fn send<R: Host>(agent: &Agent<R>, alloc: Global, at: Address, text: &str) -> Result<u16, Failure> {
    let limit = Duration::from_millis(MAX_NOTICE_MILLIS);
    let deadline = Deadline::after(&agent.rt, limit).map_err(|_| Failure::NoAnswer)?;
    let stream = TcpStream::connect_timeout(&agent.rt, &socket_address(at), limit).map_err(
        |_| Failure::NotAccepted,
    )?;
    exchange(alloc, &mut Timed::new(stream, deadline), at, text)
}

/// The state of the thread that tells the application.
#[derive(Drop)]
struct Notifier<'a, R> {
    agent: &'a Agent<R>,
    alloc: Global,
    at: Address,
    telling: Telling,
    /// What the log said last of notices.
    notice: Notice,
}

impl<'a, R: Host> Notifier<'a, R> {
    /// Returns the status of the answer to the notice that is due.
    fn tell(&self) -> Result<u16, Failure>
        ensures { self.now.telling.next ≡ None → result ≡ Err Failure.NoAnswer }
    {
        let agent = self.agent;
        let notice = self.telling.notice(self.alloc, agent.own, agent.replicas);
        let Ok(Some(text)) = notice else {
            agent.counters.allocation_failures.add(1);
            return Err(Failure::NoAnswer);
        };
        send(agent, self.alloc, self.at, text.as_str())
    }

    /// Logs how a notice was answered, unless the log said so last.
    fn log(&mut self, answer: &Result<u16, Failure>, is_taken: bool, now: Moment)
        ensures notice { self.new.notice ≡ told self.old.notice (not is_taken) now }
        ensures telling { self.new.telling ≡ self.old.telling }
    {
        if !self.notice.note(!is_taken, now) {
            return;
        }
        let (log, at) = (self.agent.log(), self.at);
        match answer {
            Ok(_) if is_taken => info!(log; "the application at {at} is told of the ring again"),
            Ok(status) => {
                warn!(log; "the application at {at} is not told of the ring: it answers {status}")
            }
            Err(Failure::NotAccepted) => {
                warn!(log; "the application at {at} is not told of the ring: it accepts no connection")
            }
            Err(_) => {
                warn!(log; "the application at {at} is not told of the ring: it gives no whole answer")
            }
        }
    }

    /// Sends the notice that is due, and notes, counts and logs how it was answered.
    #[tactic(auto, using(crate::proofs::Telling::tells_failed, crate::proofs::Telling::tells_taken))]
    fn make(&mut self)
        ensures { TellsOnce self.old.telling self.new.telling }
    {
        let told = self.tell();
        let teller = &self.agent.teller;
        let now = self.agent.now();
        let is_taken = matches!(told, Ok(200..=299));
        if is_taken {
            self.telling.take();
            teller.taken.add(1);
        } else {
            self.telling.fail(now);
            teller.failed.add(1);
        }
        self.log(&told, is_taken, now);
    }

    /// Waits for a ring or for the time of the notice, or sends the notice if it is due; then notes the ring that came.
    #[tactic(auto, using(crate::proofs::Telling::tells_none, crate::proofs::Telling::tells_sent))]
    fn turn(&mut self)
        ensures { Tells self.old.telling self.new.telling }
    {
        let agent = self.agent;
        match self.telling.millis_left(agent.now()) {
            Some(0) => self.make(),
            left => agent.teller.wait(&agent.rt, left),
        }
        agent.teller.pass_to(&agent.rt, &mut self.telling);
    }
}

/// Tells the application of the ring, again and again after a failure, for ever.
fn tell_application<R: Host>(agent: Arc<Agent<R>, Global>, alloc: Global, at: Address) {
    let agent = &*agent;
    let mut notifier = Notifier {
        agent,
        alloc,
        at,
        telling: Telling::new(),
        notice: Notice::new(),
    };
    for _ in agent.rt.forever() {
        notifier.turn();
    }
}

/// Starts the thread that tells the application at an address of the ring, if it is told.
///
/// # Errors
///
/// - `NoThread`: the system gave no thread.
/// - `Memory`: out of memory.
pub fn start_notices<R: System>(
    rt: &R,
    alloc: Global,
    agent: &Arc<Agent<R>, Global>,
    app: Option<Address>,
) -> Result<(), AgentError>
    ensures { app ≡ None → result ≡ Ok tt }
{
    let Some(at) = app else {
        return Ok(());
    };
    let agent = Arc::try_clone(agent)?;
    let started = thread::spawn(rt, move || tell_application(agent, alloc, at));
    let _thread = started.map_err(|_| AgentError::NoThread)?;
    Ok(())
}
