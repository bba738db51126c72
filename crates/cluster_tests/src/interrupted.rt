//! Streams with a deadline, whose calls a signal interrupts.
use std::io;
use std::io::{ErrorKind, Read, Write};
use std::net::OpenStream;
use std::process::Abort;
use std::time::{Clock, Duration, Instant};
use transport::{Deadline, Timed};

/// A stream whose first calls, this many, are interrupted before it gives and takes all that it is asked for.
#[derive(Drop)]
struct Interrupted {
    left: u64,
}

impl Interrupted {
    /// Counts one call. `Interrupted` if it is one of them.
    fn count(&mut self) -> io::Result<()> {
        if self.left == 0 {
            return Ok(());
        }
        self.left -= 1;
        Err(io::Error::from(ErrorKind::Interrupted))
    }
}

impl Read for Interrupted {
    fn read(&mut self, buf: &mut [u8]) -> io::Result<usize> {
        self.count()?;
        Ok(buf.len())
    }
}

impl Write for Interrupted {
    fn write(&mut self, buf: &[u8]) -> io::Result<usize> {
        self.count()?;
        Ok(buf.len())
    }

    fn flush(&mut self) -> io::Result<()> {
        self.count()
    }
}

impl OpenStream for Interrupted {
    fn set_read_timeout(&self, _limit: Option<Duration>) -> io::Result<()> {
        Ok(())
    }

    fn set_write_timeout(&self, _limit: Option<Duration>) -> io::Result<()> {
        Ok(())
    }
}

/// What is read, written and flushed.
#[derive(Clone, Copy)]
enum Call {
    Read,
    Write,
    Flush,
}

/// The result of a call of four bytes; by a flush, of none.
fn answer<S: Read + Write>(stream: &mut S, call: Call) -> Result<usize, ErrorKind> {
    let answer = match call {
        Call::Read => stream.read(&mut [0u8; 4]),
        Call::Write => stream.write(b"aaaa"),
        Call::Flush => stream.flush().and(Ok(0)),
    };
    match answer {
        Ok(count) => Ok(count),
        Err(error) => Err(error.kind()),
    }
}

/// The result of a call on a stream with this limit, whose first calls, this many, are interrupted.
fn answer_within<R: Clock + Abort>(
    rt: &R,
    limit: Duration,
    left: u64,
    call: Call,
) -> Result<usize, ErrorKind> {
    let deadline = Deadline::after(rt, limit).ok().expect(rt, "a clock");
    answer(&mut Timed::new(Interrupted { left }, deadline), call)
}

/// Each call, and its result in the end.
static CALLS: [(Call, usize); 3] = [(Call::Read, 4), (Call::Write, 4), (Call::Flush, 0)];

/// A stream of which the first 0, 1, 2 and 1,000 calls are interrupted, with a limit of an hour: a read and a write of four bytes, and a
/// flush.
#[test]
fn what_is_interrupted_is_tried_again(rt: HostRuntime) {
    let hour = Duration::from_secs(3_600);
    for &left in &[0, 1, 2, 1_000] {
        for &(call, wanted) in &CALLS {
            assert!(&rt; answer_within(&rt, hour, left, call) == Ok(wanted));
        }
    }
}

/// A stream of which all calls are, with a limit of 20 milliseconds: timed out each time, and not before it.
#[test]
fn what_is_always_interrupted_ends_at_its_deadline(rt: HostRuntime) {
    let limit = Duration::from_millis(20);
    for &(call, _) in &CALLS {
        let start = Instant::now(&rt).ok().expect(&rt, "a clock");
        let answer = answer_within(&rt, limit, u64::MAX, call);
        let spent = start.elapsed(&rt).ok().expect(&rt, "a clock");
        assert!(&rt; answer == Err(ErrorKind::TimedOut) && spent >= limit);
    }
}
