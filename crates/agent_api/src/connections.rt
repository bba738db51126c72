//! HTTP connections of clients: what comes over one while a worker serves it, and what goes.
ghost use Rattle.std.specs.Prelude.{◌≡◌, ◌<◌, ◌++◌, IsSome, IsTrue, Ok, length};
ghost use Rattle.std.specs.Io.{ReadsAtMost, WritesAtMost};
ghost use Rattle.http_server.specs.Connection.{config_of, history};
ghost use Rattle.http_server.specs.History.{IsDone};
ghost use Rattle.agent_http.specs.Visits.{IsSettled, connection_limits};
ghost use Rattle.agent_http.specs.declared.pumps.Pause.TheVariants as pause;
ghost use Rattle.agent_api.specs.Connections.{SendsAnswers};

use crate::api::Api;
use agent_http::{Came, Kept, Pause, pump};
use agent_node::Agent;
use agent_state::{Flag, Host, Question};
use crossbeam_channel::Receiver;
use http_server::Connection;
use std::io;
use std::io::{ErrorKind, Read, Write};
use std::net::TcpStream;

/// The most milliseconds for which a connection may be idle between requests, and from the first byte of a request to its last.
pub const MAX_IDLE: u64 = 30_000;

/// The most times in a row that a worker waits for the next bytes of a connection, before it parks it, while enough others are free.
const MAX_WAITS: u32 = 20;

/// The requests of a visit, each of which has to come in its time.
#[derive(Drop)]
pub struct Requests<'a, R> {
    pub agent: &'a Agent<R>,
    pub stream: &'a TcpStream,
    /// The connections that wait for a worker.
    pub ready: &'a Receiver<reactor::Connection<Kept>>,
    /// Whether an answer was written since the last read.
    pub is_answering: &'a Flag,
    /// The millisecond at which the time of the request that is read, or of the next, is up.
    pub until: u64,
    /// Whether it has read before.
    pub has_read: bool,
    pub came: Came,
    /// The question that is to wait, and is counted. Its bytes are not read.
    pub question: Option<Question>,
    /// Set if the request that is read is a question for which there is no place to wait.
    pub is_turned_away: &'a Flag,
}

impl<'a, R: Host> Requests<'a, R> {
    /// Returns whether another connection waits for this worker, since none is free.
    fn is_needed(&self) -> bool {
        self.agent.is_crowded() && !self.ready.is_empty()
    }

    /// Returns whether the worker may wait on after nothing came: enough others are free, and HTTP is not to end.
    fn may_wait(&self) -> bool {
        self.agent.has_spare_workers() && !self.agent.life.is_stopping.get()
    }

    /// Reads once. An interrupted read is as one in which nothing came.
    fn read_once(&mut self, buf: &mut [u8]) -> io::Result<usize>
        ensures { ReadsAtMost result buf.new }
    {
        let mut stream = self.stream;
        match stream.read(buf) {
            Err(error) if error.kind() == ErrorKind::Interrupted => {
                Err(ErrorKind::WouldBlock.into())
            }
            outcome => outcome,
        }
    }

    /// Reads once. A read in which nothing comes is made again while enough workers are free. After the first of a visit nothing is read while
    /// other connections wait for a worker.
    fn read_some(&mut self, buf: &mut [u8]) -> io::Result<usize>
        ensures { ReadsAtMost result buf.new }
    {
        for _ in 0..MAX_WAITS {
            if self.has_read && self.is_needed() {
                break;
            }
            self.has_read = true;
            match self.read_once(buf) {
                Err(error) if error.kind() == ErrorKind::WouldBlock && self.may_wait() => {}
                outcome => return outcome,
            }
        }
        Err(ErrorKind::WouldBlock.into())
    }

    /// Reads from the question that has waited.
    fn read_unread(&mut self, buf: &mut [u8]) -> io::Result<usize>
        ensures { ReadsAtMost result buf.new }
    {
        let mut unread = self.came.unread.as_slice();
        let count = unread.read(buf)?;
        let read = count.min(self.came.unread.len());
        self.came.unread.drain(..read);
        Ok(count)
    }

    /// Returns whether these bytes, the last that came, start with a question that is to wait. They are then kept, and not read.
    fn sets_aside(&mut self, bytes: &[u8]) -> bool
        ensures question { IsTrue result → IsSome self.new.question }
        ensures kept { IsTrue result → self.new.came.unread.items ≡ self.old.came.unread.items ++ bytes.now }
    {
        let agent = self.agent;
        let Some(question) = Question::of(bytes, &agent.key_field) else {
            return false;
        };
        if !self.came.framing.is_between()
            || agent.life.is_stopping.get()
            || !agent.watchers.is_known(&agent.rt, &question)
        {
            return false;
        }
        if !agent.watchers.count.add_below(agent.max_questions()) {
            self.is_turned_away.set(true);
            return false;
        }
        if self.came.unread.extend_from_slice(bytes).is_err() {
            agent.watchers.count.subtract(1);
            return false;
        }
        self.question = Some(question);
        true
    }

    /// Reads what is next, from the question that has waited or from the client, unless that is a question which is to wait.
    fn read_next(&mut self, buf: &mut [u8]) -> io::Result<usize>
        ensures { ReadsAtMost result buf.new }
    {
        if self.came.framing.is_between() {
            self.is_turned_away.set(false);
        }
        let has_waited = !self.came.unread.is_empty();
        let count = if has_waited {
            self.read_unread(buf)?
        } else {
            self.read_some(buf)?
        };
        let bytes = buf.get(..count).unwrap_or(&[]);
        if !has_waited && self.sets_aside(bytes) {
            return Err(ErrorKind::WouldBlock.into());
        }
        self.came.framing.take(bytes);
        Ok(count)
    }
}

/// The first read after an answer starts the time of the next request.
impl<'a, R: Host> Read for Requests<'a, R> {
    fn read(&mut self, buf: &mut [u8]) -> io::Result<usize> {
        let now = self.agent.now().number();
        if self.is_answering.get() {
            self.is_answering.set(false);
            self.until = now.saturating_add(MAX_IDLE);
        }
        if now >= self.until {
            return Err(ErrorKind::TimedOut.into());
        }
        self.read_next(buf)
    }
}

/// The answers of a visit.
#[derive(Drop)]
pub struct Answers<'a> {
    pub stream: &'a TcpStream,
    /// Whether an answer was written since the last read.
    pub is_answering: &'a Flag,
}

/// An interrupted write is as one for which there is no room.
impl<'a> Write for Answers<'a> {
    fn write(&mut self, buf: &[u8]) -> io::Result<usize> {
        self.is_answering.set(true);
        let mut stream = self.stream;
        match stream.write(buf) {
            Err(error) if error.kind() == ErrorKind::Interrupted => {
                Err(ErrorKind::WouldBlock.into())
            }
            outcome => outcome,
        }
    }

    fn flush(&mut self) -> io::Result<()> {
        Ok(())
    }
}

/// Serves a connection over its reader and its writer until it is done, or one of them would block. Where it waits for its client, each whole
/// request that came is answered, and each answer is written. Where it waits for room, a part of an answer is not written.
///
/// # Errors
///
/// - Each other error of the reader, and of the writer.
pub fn serve_over<R: Host, I: Read, O: Write>(
    api: &mut Api<'_, '_, R>,
    connection: &mut Connection,
    reader: &mut I,
    writer: &mut O,
) -> io::Result<Pause>
    requires { config_of connection.old ≡ connection_limits }
    ensures answers { SendsAnswers api.old.agent.now.own api.old.agent.now.replicas api.old.agent.now.key_field (history connection.old) (history connection.new) (I.remaining reader.old) (I.remaining reader.new) (O.contents writer.old) (O.contents writer.new) api.old.caller.now api.new.caller.now }
    ensures settled { result ≡ Ok pause.Input → IsSettled (history connection.new) }
    ensures owing { result ≡ Ok pause.Room → 0 < length (history connection.new).pending }
    ensures done { result ≡ Ok pause.Done → IsDone (history connection.new) }
    ensures limits { config_of connection.new ≡ connection_limits }
{
    pump(connection, api, reader, writer)
}
