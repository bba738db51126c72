//! That a server makes no round before its period is over, by a clock that each look at it moves by a millisecond: it is slower than
//! the system's, so that a rest is over by the one long before it is by the other, as where a thread is woken early; and that a round
//! is made at the moment that it is.
ghost use Rattle.locked_node.specs.Passes.{Fits};

use crate::connections::{is_due, server_of};
use crate::shared::{System, check_again};
use change_core::Status;
use cli_net::Echo;
use hash_ring::SumHash;
use locked_node::NodePass;
use server::{Server, make_rounds};
use std::cell::Cell;
use std::io;
use std::io::ErrorKind;
use std::net::{Net, SocketAddr, TcpListener, TcpStream};
use std::sync::Wait;
use std::time::{Clock, Duration};

/// The milliseconds between two rounds, more than there are looks at the clock in a round.
const PERIOD: u64 = 8;

/// After how many rounds they are ended.
const ROUNDS: u32 = 3;

/// A network in which no peer is reached, with a clock that continues by a millisecond with each look, and the rounds of a server there.
#[derive(Drop)]
struct Desert<'a, R> {
    rt: &'a R,
    server: &'a Server<SumHash, Echo>,
    /// How many looks there were.
    looks: Cell<u64>,
    /// The moment of the last round, or else the start.
    last: Cell<u64>,
    /// How many were made.
    rounds: Cell<u32>,
    /// How many of them were made before their period was over.
    early: Cell<u32>,
}

impl<'a, R> Net for Desert<'a, R> {
    type Stream = TcpStream;

    type Listener = TcpListener;

    fn bind(&self, _addr: SocketAddr) -> io::Result<TcpListener> {
        Err(io::Error::from(ErrorKind::Unsupported))
    }

    fn connect(&self, _addr: SocketAddr) -> io::Result<TcpStream> {
        Err(io::Error::from(ErrorKind::Unsupported))
    }

    /// A round is made, whose target is asked for; after enough of them they are ended.
    fn connect_timeout(&self, _addr: SocketAddr, _timeout: Duration) -> io::Result<TcpStream> {
        let now = self.looks.get();
        if now.saturating_sub(self.last.get()) < PERIOD {
            self.early.set(self.early.get().wrapping_add(1));
        }
        self.last.set(now);
        self.rounds.set(self.rounds.get().wrapping_add(1));
        if self.rounds.get() >= ROUNDS {
            self.server.end();
        }
        Err(io::Error::from(ErrorKind::TimedOut))
    }
}

impl<'a, R> Clock for Desert<'a, R> {
    fn monotonic(&self) -> io::Result<Duration> {
        self.looks.set(self.looks.get().wrapping_add(1));
        Ok(Duration::from_millis(self.looks.get()))
    }

    fn since_1970(&self) -> io::Result<Duration> {
        self.monotonic()
    }
}

impl<'a, R: Wait> Wait for Desert<'a, R> {}

/// After how many milliseconds a suspect is faulty.
const SUSPECT: u64 = 1_000;

/// How many rounds a server makes until they are ended, how many of them too early, and the millisecond that it then is.
fn rounds_of(
    rt: &impl System,
    server: &Server<SumHash, Echo>,
    pass: &mut NodePass<SumHash>,
) -> (u32, u32, u64)
    requires { Fits server.now.node pass.old }
    ensures { Fits server.now.node pass.new }
{
    let desert = Desert {
        rt,
        server,
        looks: Cell::new(0),
        last: Cell::new(0),
        rounds: Cell::new(0),
        early: Cell::new(0),
    };
    make_rounds(server, pass, &&desert, rt.alloc(), PERIOD);
    (desert.rounds.get(), desert.early.get(), desert.looks.get())
}

/// How many rounds a server makes until they are ended, how many of them too early, and whether the node that it
/// suspects since the first of them is due as faulty so long after the last millisecond of the first period, and after
/// now; None if out of memory.
fn rounds(rt: &impl System) -> Option<(u32, u32, Option<bool>, Option<bool>)> {
    let (server, mut pass) = server_of(rt, SUSPECT, Some(Status::Alive))?;
    let (made, early, now) = rounds_of(rt, &server, &mut pass);
    let is_early = is_due(rt, &server, &mut pass, SUSPECT + PERIOD - 1);
    let is_due = is_due(rt, &server, &mut pass, SUSPECT.saturating_add(now));
    Some((made, early, is_early, is_due))
}

/// Three rounds with 8 milliseconds between them, by a clock that each look at it moves by one, so that a rest by the system's clock is
/// over before it is by this one: none is made before its 8 have passed; ended in the third one, there is no fourth. A suspicion of the
/// first of those rounds, to be faulty 1,000 later, is not due 1,000 after the last millisecond of the first period, and is due 1,000
/// after the last round.
#[test]
fn no_round_comes_before_its_period_is_over(rt: HostRuntime) {
    let wanted = Some((ROUNDS, 0, Some(false), Some(true)));
    check_again!(&rt, rounds(&rt) == wanted);
}
