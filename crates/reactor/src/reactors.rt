//! The reactor: the part of it that its thread has.
use crate::arrivals::{Arrived, look_at};
use crate::lots::{Connection, Lot, WAKER};
use crate::places::Places;
use crate::shortages::is_short;
use crossbeam_channel::{Receiver, Sender, bounded};
use mio::unix::SourceFd;
use mio::{Events, Interest, Poll, Token};
use std::alloc::Global;
use std::io;
use std::io::ErrorKind;
use std::net::{Net, TcpListener, TcpStream};
use std::os::fd::AsRawFd;
use std::sync::{Arc, Wait};
use std::time::Duration;

/// The token of the listener.
const LISTENER: Token = Token(usize::MAX - 1);

/// The most events, and the most connections accepted, of one turn.
const MAX_EVENTS: usize = 256;

/// The milliseconds after which it accepts again where that failed, or where there was no place.
const BETWEEN_TRIES: u64 = 100;

/// The milliseconds for which a connection waits until it may be closed for another, if workers wait for it: its client may be about to send.
const LEAST_WAIT: u64 = 100;

/// The time limits of connections.
#[derive(Clone, Copy, Debug)]
pub struct Timing {
    /// For how long a read or a write of a worker waits; None: it does not wait. If it does, a connection is closed for another only after
    /// a tenth of a second.
    pub patience: Option<Duration>,
    /// The milliseconds for which a connection may send nothing at first.
    pub idle: u64,
    /// The milliseconds between two looks for connections whose time is up.
    pub between_sweeps: u64,
    /// Whether a connection whose time is up goes to a worker. Else it is closed.
    pub hands_over_late: bool,
}

/// A reactor, for the one thread that makes its turns.
#[derive(Drop)]
pub struct Reactor<K> {
    lot: Arc<Lot<K>, Global>,
    poll: Poll,
    events: Events,
    /// None once it ends.
    listener: Option<TcpListener>,
    ready: Sender<Connection<K>>,
    timing: Timing,
    /// Whether connections may wait to be accepted.
    is_called: bool,
    /// Whether the system let none be accepted when it was last asked.
    is_failing: bool,
    /// The millisecond of the last look for connections whose time is up.
    swept: u64,
}

/// Returns the error of the system for an allocation that failed.
fn no_memory() -> io::Error {
    io::Error::from(ErrorKind::OutOfMemory)
}

impl<K: Drop> Reactor<K> {
    /// Makes a reactor for the connections of a listener, with these places, whose limit is set. Returns it with the queue of the connections
    /// that are ready, which holds them all and has no sender once the reactor is dropped.
    ///
    /// # Errors
    ///
    /// - The error of the system, which gave no descriptor, or let none be watched.
    /// - `OutOfMemory`: an allocation failed.
    pub fn new<R: Net>(
        rt: &R,
        alloc: Global,
        listener: TcpListener,
        places: Arc<Places, Global>,
        timing: Timing,
    ) -> io::Result<(Self, Receiver<Connection<K>>)> {
        listener.set_nonblocking(true)?;
        let poll = Poll::new(rt)?;
        let descriptor = listener.as_raw_fd();
        poll.registry()
            .register(&mut SourceFd(&descriptor), LISTENER, Interest::READABLE)?;
        let (ready, queue) = bounded(alloc, places.limit()).map_err(|_| no_memory())?;
        let least_wait = timing.patience.map_or(0, |_| LEAST_WAIT);
        let lot = Lot::new(alloc, &poll, places, least_wait)?;
        let lot = Arc::new(alloc, lot).map_err(|_| no_memory())?;
        let reactor = Reactor {
            lot,
            poll,
            events: Events::with_capacity(alloc, MAX_EVENTS).map_err(|_| no_memory())?,
            listener: Some(listener),
            ready,
            timing,
            is_called: true,
            is_failing: false,
            swept: 0,
        };
        Ok((reactor, queue))
    }

    /// Returns the lot.
    pub fn lot(&self) -> &Arc<Lot<K>, Global> {
        &self.lot
    }

    /// Waits until a connection comes or is ready, a place is free or the reactor is to end; for this time at most.
    pub fn wait(&mut self, most: Duration) {
        let limit = if self.is_failing || self.lot.places().is_wanted() {
            most.min(Duration::from_millis(BETWEEN_TRIES))
        } else if self.is_called {
            Duration::from_millis(0)
        } else {
            most
        };
        let _polled = self.poll.poll(&mut self.events, Some(limit));
    }

    /// Sends what is ready to the workers, closes what is late at this millisecond, or sends it, too, and accepts what came. Returns whether more may
    /// wait to be accepted.
    ///
    /// # Errors
    ///
    /// - The error of the system that let no connection be accepted. It is tried again at the next turn.
    pub fn turn<R: Wait>(&mut self, rt: &R, now: u64) -> io::Result<bool> {
        let is_called = self.hand_over(rt) || self.lot.places().is_wanted();
        if now >= self.swept.saturating_add(self.timing.between_sweeps) {
            self.swept = now;
            self.end_late(rt, now);
        }
        if !is_called && !self.is_called && !self.lot.is_ending() {
            return Ok(false);
        }
        let accepted = self.accept_some(rt, now);
        self.is_failing = accepted.is_err();
        self.lot.places().note(self.is_failing);
        self.is_called = !matches!(&accepted, Ok(false));
        accepted
    }

    /// Closes the connections whose time is up at this millisecond, or sends them to the workers.
    fn end_late<R: Wait>(&self, rt: &R, now: u64) {
        if !self.timing.hands_over_late {
            return self.lot.close_late(rt, now);
        }
        for key in 0..self.lot.slots(rt) {
            if let Some(connection) = self.lot.take_late(rt, key, now) {
                let _sent = self.ready.send(rt, connection);
            }
        }
    }

    /// Sends the connections that are ready to the workers. Returns whether others may wait to be accepted.
    fn hand_over<R: Wait>(&self, rt: &R) -> bool {
        let mut is_called = false;
        for event in self.events.iter() {
            match event.token() {
                LISTENER | WAKER => is_called = true,
                Token(key) => {
                    if let Some(connection) = self.lot.take(rt, key) {
                        let _sent = self.ready.send(rt, connection);
                    }
                }
            }
        }
        is_called
    }

    /// Returns whether a connection may be accepted at this millisecond. A place is wanted only while a connection waits to be accepted.
    fn has_room<R: Wait>(&self, rt: &R, listener: &TcpListener, now: u64) -> bool {
        if !self.lot.may_admit(rt, now) && look_at(listener) == Arrived::Nothing {
            let _wish = self.lot.places().take_wish();
            return false;
        }
        self.lot.has_room(rt, now)
    }

    /// Accepts connections that came, as far as there are places. If descriptors or memory run out, the connection that has waited longest is
    /// closed, and the turn ends with the one that is accepted for it. Returns whether more may wait.
    fn accept_some<R: Wait>(&self, rt: &R, now: u64) -> io::Result<bool> {
        let Some(listener) = &self.listener else {
            return Ok(false);
        };
        let mut has_closed = false;
        for _ in 0..MAX_EVENTS {
            if !self.has_room(rt, listener, now) {
                return Ok(false);
            }
            match listener.accept() {
                Ok((stream, _)) => {
                    self.admit(rt, stream, now)?;
                    if has_closed {
                        return Ok(true);
                    }
                }
                Err(error) => match error.kind() {
                    ErrorKind::WouldBlock => return Ok(false),
                    ErrorKind::Interrupted | ErrorKind::ConnectionAborted => {}
                    _ if !has_closed && is_short(&error) && self.lot.close_longest(rt, now) => {
                        has_closed = true;
                    }
                    _ => return Err(error),
                },
            }
        }
        Ok(true)
    }

    /// Has the reads and writes of a stream wait as long as those of workers do.
    fn set_patience(&self, stream: &TcpStream) -> io::Result<()> {
        if self.timing.patience.is_none() {
            return stream.set_nonblocking(true);
        }
        stream.set_read_timeout(self.timing.patience)?;
        stream.set_write_timeout(self.timing.patience)
    }

    /// Parks a connection that was accepted, or sends it to a worker if that does not wait. If all places are taken, the connection that has waited longest
    /// is closed for it.
    ///
    /// # Errors
    ///
    /// - `OutOfMemory`: the memory or the system is short for it. It is closed.
    fn admit<R: Wait>(&self, rt: &R, stream: TcpStream, now: u64) -> io::Result<()> {
        if !self.lot.take_place(rt, now) {
            return Ok(());
        }
        let _set = stream.set_nodelay(true);
        if self.set_patience(&stream).is_err() {
            self.lot.close(stream);
            return Ok(());
        }
        let connection = Connection {
            stream,
            kept: None,
            is_full: false,
            until: now.saturating_add(self.timing.idle),
        };
        if self.timing.patience.is_none() {
            let _sent = self.ready.send(rt, connection);
            return Ok(());
        }
        match self.lot.try_park(rt, connection, now) {
            Ok(()) => Ok(()),
            Err(connection) => {
                self.lot.close(connection.stream);
                Err(no_memory())
            }
        }
    }

    /// Closes the listener: no connection is accepted any more.
    pub fn close(&mut self) {
        self.listener = None;
    }

    /// Closes each connection that waits for something to read, and each that is parked for that from now on.
    pub fn close_idle<R: Wait>(&self, rt: &R) {
        self.lot.close_idle(rt);
    }
}
