//! A peer on a stream of the test's own, by a clock that moves only where the peer is waited for.
use std::cell::Cell;
use std::io;
use std::io::{ErrorKind, Read, Write};
use std::net::{Net, OpenListener, OpenStream, SocketAddr};
use std::os::fd::{AsRawFd, RawFd};
use std::sync::Wait;
use std::time::{Clock, Duration};

/// Longer than anything is waited for.
pub(crate) const NEVER: u64 = 1_000_000_000;

/// How a peer receives and sends. Times are in milliseconds.
#[derive(Clone, Copy)]
pub(crate) struct Manner {
    /// How long it takes to be connected to.
    pub(crate) connects: u64,
    /// How long it takes to take each byte.
    pub(crate) takes: u64,
    /// What it says. It is unresponsive then.
    pub(crate) says: &'static str,
    /// When it has said that; its bytes come at equal distances.
    pub(crate) by: u64,
}

/// A peer that is connected to immediately, takes all immediately, and is unresponsive.
pub(crate) const SILENT: Manner = Manner {
    connects: 0,
    takes: 0,
    says: "",
    by: 0,
};

/// A peer that has said this by a moment.
pub(crate) fn saying(says: &'static str, by: u64) -> Manner {
    Manner { says, by, ..SILENT }
}

/// A peer, with its clock.
#[derive(Drop)]
pub(crate) struct Peer {
    manner: Manner,
    /// The millisecond that it is.
    pub(crate) now: Cell<u64>,
    said: Cell<usize>,
    /// How many bytes it has taken.
    pub(crate) taken: Cell<usize>,
    /// For how long a read of its stream waits.
    reading: Cell<Option<Duration>>,
    /// For how long a write waits.
    writing: Cell<Option<Duration>>,
}

impl Peer {
    /// A peer at the start of its time.
    pub(crate) fn new(manner: Manner) -> Peer {
        Peer {
            manner,
            now: Cell::new(0),
            said: Cell::new(0),
            taken: Cell::new(0),
            reading: Cell::new(None),
            writing: Cell::new(None),
        }
    }

    /// Waits for so long, if so long a wait does not end before; else until it ends, in vain. Nothing waits without an end.
    fn wait(&self, time: u64, limit: Option<Duration>) -> io::Result<()> {
        let Some(limit) = limit else {
            return Err(io::Error::from(ErrorKind::Other));
        };
        let limit = u64::try_from(limit.as_millis()).unwrap_or(NEVER);
        self.now.set(self.now.get().saturating_add(time.min(limit)));
        if time < limit {
            Ok(())
        } else {
            Err(io::Error::from(ErrorKind::WouldBlock))
        }
    }
}

/// A connection to a peer.
#[derive(Drop)]
pub(crate) struct Wire<'a> {
    pub(crate) peer: &'a Peer,
}

impl<'a> Read for Wire<'a> {
    fn read(&mut self, buf: &mut [u8]) -> io::Result<usize> {
        let Some(to) = buf.first_mut() else {
            return Ok(0);
        };
        let peer = self.peer;
        let (says, said) = (peer.manner.says.as_bytes(), peer.said.get());
        let count = says.len();
        let comes = if said < count {
            peer.manner.by.saturating_mul(said as u64 + 1) / count as u64
        } else {
            NEVER
        };
        peer.wait(comes.saturating_sub(peer.now.get()), peer.reading.get())?;
        let Some(&byte) = says.get(said) else {
            return Err(io::Error::from(ErrorKind::WouldBlock));
        };
        peer.said.set(said.wrapping_add(1));
        *to = byte;
        Ok(1)
    }
}

impl<'a> Write for Wire<'a> {
    fn write(&mut self, buf: &[u8]) -> io::Result<usize> {
        if buf.is_empty() {
            return Ok(0);
        }
        let peer = self.peer;
        peer.wait(peer.manner.takes, peer.writing.get())?;
        peer.taken.set(peer.taken.get().wrapping_add(1));
        Ok(1)
    }

    fn flush(&mut self) -> io::Result<()> {
        Ok(())
    }
}

impl<'a> OpenStream for Wire<'a> {
    fn set_read_timeout(&self, dur: Option<Duration>) -> io::Result<()> {
        self.peer.reading.set(dur);
        Ok(())
    }

    fn set_write_timeout(&self, dur: Option<Duration>) -> io::Result<()> {
        self.peer.writing.set(dur);
        Ok(())
    }
}

/// A listener without connections.
impl<'a> OpenListener for Wire<'a> {
    type Stream = Wire<'a>;

    fn accept(&self) -> io::Result<(Wire<'a>, SocketAddr)> {
        Err(io::Error::from(ErrorKind::Unsupported))
    }
}

impl<'a> AsRawFd for Wire<'a> {
    fn as_raw_fd(&self) -> RawFd {
        -1
    }
}

/// A network in which each address is the peer's, with the peer's clock.
#[derive(Drop)]
pub(crate) struct Town<'a, R> {
    pub(crate) rt: &'a R,
    pub(crate) peer: &'a Peer,
}

impl<'a, R> Net for Town<'a, R> {
    type Stream = Wire<'a>;

    type Listener = Wire<'a>;

    fn bind(&self, _addr: SocketAddr) -> io::Result<Wire<'a>> {
        Err(io::Error::from(ErrorKind::Unsupported))
    }

    fn connect(&self, _addr: SocketAddr) -> io::Result<Wire<'a>> {
        Err(io::Error::from(ErrorKind::Unsupported))
    }

    fn connect_timeout(&self, _addr: SocketAddr, timeout: Duration) -> io::Result<Wire<'a>> {
        let peer = self.peer;
        peer.wait(peer.manner.connects, Some(timeout))?;
        Ok(Wire { peer })
    }
}

impl<'a, R> Clock for Town<'a, R> {
    fn monotonic(&self) -> io::Result<Duration> {
        Ok(Duration::from_millis(self.peer.now.get()))
    }

    fn since_1970(&self) -> io::Result<Duration> {
        self.monotonic()
    }
}

impl<'a, R: Wait> Wait for Town<'a, R> {}
