//! Streams that are read and written until a moment at the latest.
ghost use Rattle.std.specs.Prelude.{◌≡◌, ◌≢◌, ◌≤◌, ◌<◌, IfOk, IfErr};
ghost use Rattle.std.specs.Duration.{as_nanos};
ghost use Rattle.std.specs.Io.{ReadsAtMost, WritesAtMost};
ghost use Rattle.std.specs.Io.KnownBytes.{Keeps, ReadConsumes, WriteAppends};
ghost use Rattle.std.specs.IoError.{error_kind};
ghost use Rattle.transport.specs.Deadlines.{deadline_of, limit_of, stream_of};

use std::io;
use std::io::{ErrorKind, Read, Write};
use std::net::OpenStream;
use std::time::{Clock, Duration, Instant};

/// A limit of time that runs.
#[derive(Drop)]
pub struct Deadline<'a, C> {
    clock: &'a C,
    start: Instant,
    limit: Duration,
}

impl<'a, C: Clock> Deadline<'a, C> {
    /// Starts the limit now, by this clock.
    ///
    /// # Errors
    ///
    /// - The error of the clock.
    pub fn after(clock: &'a C, limit: Duration) -> io::Result<Self>
        ensures { IfOk result (λ d. limit_of d ≡ limit) }
    {
        let start = Instant::now(clock)?;
        Ok(Deadline::since(clock, start, limit))
    }

    /// The limit that began at an instant of this clock.
    pub(crate) fn since(clock: &'a C, start: Instant, limit: Duration) -> Self
        ensures { limit_of result ≡ limit }
    {
        Deadline {
            clock,
            start,
            limit,
        }
    }

    /// Returns the time that is left, which is more than 0.
    ///
    /// # Errors
    ///
    /// - `TimedOut`: no time is left.
    /// - The error of the clock.
    pub fn left(&self) -> io::Result<Duration>
        ensures { IfOk result (λ d. (0 < as_nanos d) × (as_nanos d ≤ as_nanos (limit_of self.now))) }
    {
        let spent = self.start.elapsed(self.clock)?;
        let left = self.limit.saturating_sub(spent);
        if left.is_zero() {
            return Err(io::Error::from(ErrorKind::TimedOut));
        }
        Ok(left)
    }
}

/// A stream with one deadline for all that is read from it and written to it, however few bytes the other side takes or
/// gives at a time.
#[derive(Drop)]
pub struct Timed<'a, S, C> {
    stream: S,
    deadline: Deadline<'a, C>,
}

impl<'a, S, C> Timed<'a, S, C> {
    /// The stream until the deadline.
    pub fn new(stream: S, deadline: Deadline<'a, C>) -> Self
        ensures stream { stream_of result ≡ stream }
        ensures deadline { deadline_of result ≡ deadline.entry }
    {
        Timed { stream, deadline }
    }

    /// The same stream until another deadline.
    pub fn until(self, deadline: Deadline<'a, C>) -> Self
        ensures stream { stream_of result ≡ stream_of self.entry }
        ensures deadline { deadline_of result ≡ deadline.entry }
    {
        Timed {
            stream: self.stream,
            deadline,
        }
    }

    /// The stream without a deadline.
    pub fn into_inner(self) -> S
        ensures { result ≡ stream_of self.entry }
    {
        self.stream
    }
}

impl<'a, S: Read + OpenStream, C: Clock> Timed<'a, S, C> {
    /// Reads once, for no longer than the time that is left.
    fn read_once(&mut self, buf: &mut [u8]) -> io::Result<usize>
        ensures bound { ReadsAtMost result buf.new }
        ensures bytes { ReadConsumes (S.remaining (stream_of self.old)) (S.remaining (stream_of self.new)) result buf.new }
    {
        let left = self.deadline.left()?;
        self.stream.set_read_timeout(Some(left))?;
        self.stream.read(buf)
    }
}

impl<'a, S: Write + OpenStream, C: Clock> Timed<'a, S, C> {
    /// Writes once, for no longer than the time that is left.
    fn write_once(&mut self, buf: &[u8]) -> io::Result<usize>
        ensures bound { WritesAtMost result buf.now }
        ensures bytes { WriteAppends (S.contents (stream_of self.old)) (S.contents (stream_of self.new)) result buf.now }
    {
        let left = self.deadline.left()?;
        self.stream.set_write_timeout(Some(left))?;
        self.stream.write(buf)
    }

    /// Flushes once.
    fn flush_once(&mut self) -> io::Result<()>
        ensures { Keeps (S.contents (stream_of self.old)) (S.contents (stream_of self.new)) }
    {
        self.stream.flush()
    }
}

/// A read that a signal interrupts is tried again until the deadline.
impl<'a, S: Read + OpenStream, C: Clock> Read for Timed<'a, S, C> {
    ghost remaining = { λ t. S.remaining (stream_of t) };

    fn read(&mut self, buf: &mut [u8]) -> io::Result<usize>
        ensures bound { ReadsAtMost result buf.new }
        ensures bytes { ReadConsumes (S.remaining (stream_of self.old)) (S.remaining (stream_of self.new)) result buf.new }
        ensures retried { IfErr result (λ e. error_kind e ≢ ErrorKind.Interrupted) }
    {
        'reads: for _ in 0..u64::MAX {
            match self.read_once(buf) {
                Ok(count) => return Ok(count),
                Err(fault) if fault.kind() == ErrorKind::Interrupted => {}
                Err(fault) => return Err(fault),
            }
        }
        Err(io::Error::from(ErrorKind::TimedOut))
    }
}

/// A write or a flush that a signal interrupts is tried again until the deadline.
impl<'a, S: Write + OpenStream, C: Clock> Write for Timed<'a, S, C> {
    ghost contents = { λ t. S.contents (stream_of t) };

    fn write(&mut self, buf: &[u8]) -> io::Result<usize>
        ensures bound { WritesAtMost result buf.now }
        ensures bytes { WriteAppends (S.contents (stream_of self.old)) (S.contents (stream_of self.new)) result buf.now }
        ensures retried { IfErr result (λ e. error_kind e ≢ ErrorKind.Interrupted) }
    {
        'writes: for _ in 0..u64::MAX {
            match self.write_once(buf) {
                Ok(count) => return Ok(count),
                Err(fault) if fault.kind() == ErrorKind::Interrupted => {}
                Err(fault) => return Err(fault),
            }
        }
        Err(io::Error::from(ErrorKind::TimedOut))
    }

    fn flush(&mut self) -> io::Result<()>
        ensures bytes { Keeps (S.contents (stream_of self.old)) (S.contents (stream_of self.new)) }
        ensures retried { IfErr result (λ e. error_kind e ≢ ErrorKind.Interrupted) }
    {
        'flushes: for _ in 0..u64::MAX {
            match self.flush_once() {
                Ok(()) => return Ok(()),
                Err(fault) if fault.kind() == ErrorKind::Interrupted => {}
                Err(fault) => return Err(fault),
            }
            if self.deadline.left().is_err() {
                return Err(io::Error::from(ErrorKind::TimedOut));
            }
        }
        Err(io::Error::from(ErrorKind::TimedOut))
    }
}
