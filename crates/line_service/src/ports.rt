//! The port of a node. A connection of another node holds a place there and no thread until its line is whole.
ghost use Rattle.std.specs.Prelude.{◌≡◌, ◌⊎◌, ◌≤◌, ◌/◌, ◌++◌, ℕ, List, length, Ok, IfOk, IfErr, IsFalse, IsTrue, min, take};
ghost use Rattle.std.specs.Io.KnownBytes.{Consumes};
ghost use Rattle.line_service.specs.Ports.{is_over, is_over_with};

use crate::answers::Answer;
use crate::stopwatches::{Stopwatch, millis_of};
use crossbeam_channel::Receiver;
use message_core::WireError;
use reactor::{Connection, Lot, Places, Reactor, Timing, max_descriptors};
use std::alloc::Global;
use std::io;
use std::io::{ErrorKind, Read};
use std::net::{Net, TcpListener, TcpStream};
use std::sync::{Arc, Mutex, Wait};
use std::time::{Clock, Duration};
use wire_json::MAX_LINE;

/// The most connections whose line is awaited at a time.
pub const MAX_PLACES: u64 = 1_000;

/// The most bytes that are read at once.
pub const MAX_READ: usize = 16_384;

/// The most reads of one visit, enough for the longest line.
const MAX_READS: usize = MAX_LINE / MAX_READ + 2;

/// The milliseconds between two looks for connections whose time is up.
const BETWEEN_SWEEPS: u64 = 100;

/// The bytes that came over a connection, which holds no place any more.
#[derive(Drop)]
pub struct Arrival {
    /// The connection, whose reads and writes do not wait.
    pub stream: TcpStream,
    /// The bytes of the line; `Io` if it was not whole in time, or the stream failed, and `Memory` if an allocation failed.
    pub line: Result<Vec<u8>, WireError>,
    /// The millisecond at which it was to be whole.
    pub until: u64,
}

/// The result of a turn at a port.
#[derive(Drop)]
pub enum Turn {
    /// What came over a connection is to be answered.
    Came(Arrival),
    /// Nothing is to be answered: the rest of a line is awaited, or a part of an answer was written.
    Parked,
    /// Connections were watched and accepted, or the system let none be accepted.
    Watched(io::Result<bool>),
    /// The port is closed.
    Closed,
}

/// What is kept of a connection that waits.
#[derive(Drop)]
enum Kept {
    /// The line so far.
    Line(Vec<u8>),
    /// The answer, of which a part was not taken yet.
    Answer(Answer),
}

/// The port of a node. The threads that answer make its turns: one of them at a time watches the connections, and the others wait until it has one.
#[derive(Drop)]
pub struct Port {
    reactor: Mutex<Reactor<Kept>>,
    lot: Arc<Lot<Kept>, Global>,
    ready: Receiver<Connection<Kept>>,
    /// The milliseconds for which a line is awaited, and an answer taken.
    limit: u64,
}

/// Returns how many connections may wait at a node's port where these descriptors are left: half of them, and at most 1,000.
pub fn places_with(descriptors: u64) -> u64
    ensures { result ≡ min (descriptors / 2) MAX_PLACES }
{
    (descriptors / 2).min(MAX_PLACES)
}

/// How far a line has come.
#[derive(Clone, Copy, Debug, PartialEq, Eq)]
enum Progress {
    /// It is over, or the stream has ended.
    Whole,
    /// More of it came.
    More,
    /// Nothing came: the read would block, or a signal interrupted it.
    Waits,
}

/// Returns whether a line is over with these bytes at its end, if it was not before: they have a newline, or it is longer than a line may be.
fn is_over(line: &[u8], came: &[u8]) -> bool
    ensures { result ≡ is_over_with line.now came.now }
{
    line.len() > MAX_LINE || came.contains(&b'\n')
}

/// Reads once, and adds what came to the line so far. Returns how many bytes came, 0 if the stream has ended.
///
/// # Errors
///
/// - The error of the stream.
/// - `OutOfMemory`: out of memory for what came.
fn read_on<S: Read>(stream: &mut S, buffer: &mut [u8], line: &mut Vec<u8>) -> io::Result<usize>
    ensures read { IfOk result (λ n. Consumes (S.remaining stream.old) (S.remaining stream.new) (take n buffer.new)) }
    ensures line { IfOk result (λ n. line.new.items ≡ line.old.items ++ take n buffer.new) }
    ensures few { IfOk result (λ n. n ≤ length buffer.new) }
    ensures err { IfErr result (λ _. line.new.items ≡ line.old.items) }
{
    let count = stream.read(buffer)?;
    if line.extend_from_slice(&buffer[..count]).is_err() {
        return Err(ErrorKind::OutOfMemory.into());
    }
    Ok(count)
}

/// Reads once what came over a stream, and adds it to the line so far, which is not over. Returns how far the line has come.
///
/// # Errors
///
/// - `Memory`: an allocation failed.
/// - `Io`: the stream failed.
fn read_more<S: Read>(
    stream: &mut S,
    buffer: &mut [u8],
    line: &mut Vec<u8>,
) -> Result<Progress, WireError>
    ensures came { (came : List ℕ) × (line.new.items ≡ line.old.items ++ came) }
    ensures whole { result ≡ Ok Progress.Whole → (line.new.items ≡ line.old.items) ⊎ IsTrue (is_over line.new.items) }
    ensures more { result ≡ Ok Progress.More → IsFalse (is_over line.old.items) → IsFalse (is_over line.new.items) }
    ensures waits { result ≡ Ok Progress.Waits → line.new.items ≡ line.old.items }
    ensures err { IfErr result (λ _. line.new.items ≡ line.old.items) }
{
    match read_on(stream, buffer, line) {
        Ok(0) => Ok(Progress::Whole),
        Ok(count) if is_over(line, &buffer[..count]) => Ok(Progress::Whole),
        Ok(_) => Ok(Progress::More),
        Err(error) => match error.kind() {
            ErrorKind::WouldBlock | ErrorKind::Interrupted => Ok(Progress::Waits),
            ErrorKind::OutOfMemory => Err(WireError::Memory),
            _ => Err(WireError::Io),
        },
    }
}

/// Reads what has come over a stream that does not block, and adds it to the line so far, which is not over. Returns whether the line is whole: it is over,
/// or the stream has ended.
///
/// # Errors
///
/// - `Memory`: an allocation failed.
/// - `Io`: the stream failed.
fn read_all<S: Read>(
    stream: &mut S,
    buffer: &mut [u8],
    line: &mut Vec<u8>,
) -> Result<bool, WireError> {
    for _ in 0..MAX_READS {
        match read_more(stream, buffer, line)? {
            Progress::Whole => return Ok(true),
            Progress::More => {}
            Progress::Waits => return Ok(false),
        }
    }
    Ok(false)
}

impl Port {
    /// Makes the port of a listener, with these places, whose limit is set. A line has to be whole within the time limit, and an answer taken.
    ///
    /// # Errors
    ///
    /// - The error of the system, which gave no descriptor, or let none be watched.
    /// - `OutOfMemory`: an allocation failed.
    pub fn new<R: Net>(
        rt: &R,
        alloc: Global,
        listener: TcpListener,
        places: Arc<Places, Global>,
        limit: Duration,
    ) -> io::Result<Self> {
        let limit = millis_of(limit);
        let timing = Timing {
            patience: None,
            idle: limit,
            between_sweeps: BETWEEN_SWEEPS,
            hands_over_late: true,
        };
        let (reactor, ready) = Reactor::new(rt, alloc, listener, places, timing)?;
        let lot = Arc::try_clone(reactor.lot()).map_err(|_| ErrorKind::OutOfMemory)?;
        Ok(Port {
            reactor: Mutex::new(reactor),
            lot,
            ready,
            limit,
        })
    }

    /// Makes the port of a listener, with 1,000 places, or as many as half of the descriptors of this process.
    ///
    /// # Errors
    ///
    /// - Those of [`Port::new`].
    pub fn open<R: Net>(
        rt: &R,
        alloc: Global,
        listener: TcpListener,
        limit: Duration,
    ) -> io::Result<Self> {
        let places = Places::new();
        places.set_limit(places_with(max_descriptors().unwrap_or(u64::MAX)) as usize);
        let places = Arc::new(alloc, places).map_err(|_| ErrorKind::OutOfMemory)?;
        Port::new(rt, alloc, listener, places, limit)
    }

    /// Returns its places.
    pub fn places(&self) -> &Places {
        self.lot.places()
    }

    /// Closes the port, once a thread makes a turn: no connection is accepted any more, and those whose line is not whole are closed. What came before is
    /// still answered, and answers are written until their time is up.
    pub fn close(&self) {
        self.lot.end();
    }

    /// Returns a connection of a port that closes which is ready. If there is none, closes all that wait for their line, and watches those whose answers wait for
    /// a tenth of a second.
    fn last_ready<R: Wait>(
        &self,
        rt: &R,
        reactor: &mut Reactor<Kept>,
        now: u64,
    ) -> Result<Connection<Kept>, Turn> {
        reactor.close();
        for limit in [0, BETWEEN_SWEEPS] {
            reactor.wait(Duration::from_millis(limit));
            let _none = reactor.turn(rt, now);
            if let Ok(connection) = self.ready.try_recv(rt) {
                return Ok(connection);
            }
            reactor.close_idle(rt);
            if self.lot.waiting(rt) == 0 {
                return Err(Turn::Closed);
            }
        }
        Err(Turn::Parked)
    }

    /// Returns a connection that is ready. If there is none, watches them, once no other thread does, until there may be one or a tenth of a second
    /// is over, and returns what came of that.
    fn next_ready<R: Wait + Clock>(
        &self,
        rt: &R,
        stopwatch: &Stopwatch,
    ) -> Result<Connection<Kept>, Turn> {
        let mut reactor = self.reactor.lock(rt);
        if let Ok(connection) = self.ready.try_recv(rt) {
            return Ok(connection);
        }
        if self.lot.is_ending() {
            let now = stopwatch.moment(rt).number();
            return self.last_ready(rt, &mut *reactor, now);
        }
        reactor.wait(Duration::from_millis(BETWEEN_SWEEPS));
        let watched = reactor.turn(rt, stopwatch.moment(rt).number());
        Err(Turn::Watched(watched))
    }

    /// Gives back what came over a connection, which holds its place no more.
    fn came(&self, stream: TcpStream, line: Result<Vec<u8>, WireError>, until: u64) -> Turn {
        self.lot.release();
        Turn::Came(Arrival {
            stream,
            line,
            until,
        })
    }

    /// Writes what a connection takes of its answer. It waits to take the rest if one is left at this millisecond, unless its time is up.
    fn write<R: Wait>(&self, rt: &R, now: u64, stream: TcpStream, mut answer: Answer, until: u64) {
        match answer.write_on(&mut &stream) {
            Ok(false) if now < until => {
                let waiting = Connection {
                    stream,
                    kept: Some(Kept::Answer(answer)),
                    is_full: true,
                    until,
                };
                self.lot.park(rt, waiting, now);
            }
            _ => self.lot.close(stream),
        }
    }

    /// Answers over a connection that came, by a line and its newline, and does not wait for that: what is not taken immediately is written by later turns,
    /// within the time limit from now on. Until then the connection holds a place; if none is free, the connection that has waited longest is closed for it.
    /// The connection is closed once its answer is taken or the time is up, and if it fails, if there is no place, or if out of memory.
    pub fn answer<R: Wait + Clock>(
        &self,
        rt: &R,
        stopwatch: &Stopwatch,
        stream: TcpStream,
        line: Vec<u8>,
    ) {
        let Some(mut answer) = Answer::new(line) else {
            return;
        };
        if let Ok(false) = answer.write_on(&mut &stream) {
            let now = stopwatch.moment(rt).number();
            if self.lot.take_place(rt, now) {
                self.write(rt, now, stream, answer, now.saturating_add(self.limit));
            }
        }
    }

    /// Reads what came over a connection, or writes on its answer. It waits for the rest of its line if that is not whole at this millisecond, unless its
    /// time is up or the port closes.
    fn visit<R: Wait>(
        &self,
        rt: &R,
        alloc: Global,
        now: u64,
        buffer: &mut [u8],
        visited: Connection<Kept>,
    ) -> Turn {
        let Connection {
            stream,
            kept,
            until,
            ..
        } = visited;
        let mut line = match kept {
            Some(Kept::Answer(answer)) => {
                self.write(rt, now, stream, answer, until);
                return Turn::Parked;
            }
            Some(Kept::Line(line)) => line,
            None => Vec::new(alloc),
        };
        match read_all(&mut &stream, buffer, &mut line) {
            Ok(true) => self.came(stream, Ok(line), until),
            Ok(false) if now < until && !self.lot.is_ending() => {
                let waiting = Connection {
                    stream,
                    kept: Some(Kept::Line(line)),
                    is_full: false,
                    until,
                };
                match self.lot.try_park(rt, waiting, now) {
                    Ok(()) => Turn::Parked,
                    Err(refused) => self.came(refused.stream, Err(WireError::Memory), until),
                }
            }
            Ok(false) => self.came(stream, Err(WireError::Io), until),
            Err(error) => self.came(stream, Err(error), until),
        }
    }

    /// Makes a turn, by this buffer: returns what came over a connection, if that is to be answered, or what else was done.
    pub fn turn<R: Wait + Clock>(
        &self,
        rt: &R,
        alloc: Global,
        stopwatch: &Stopwatch,
        buffer: &mut [u8],
    ) -> Turn {
        match self.next_ready(rt, stopwatch) {
            Ok(connection) => {
                let now = stopwatch.moment(rt).number();
                self.visit(rt, alloc, now, buffer, connection)
            }
            Err(turn) => turn,
        }
    }
}
