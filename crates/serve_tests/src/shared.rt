//! A server in its own thread, how it is connected to, and how it is let end.
use crate::peers::Page;
use crate::plans::{PATIENCE, Plan, local, words_of};
use change_core::Address;
use cli_net::{Runtime, ServeError, serve_run, serve_within};
use server::Timeouts;
use std::alloc::Global;
use std::cell::Cell;
use std::env::Env;
use std::io::Read;
use std::net::{Net, Shutdown, TcpListener, TcpStream};
use std::process::Abort;
use std::sync::atomic::{AtomicBool, Ordering};
use std::sync::{Arc, Wait};
use std::thread;
use std::thread::JoinHandle;
use std::time::Duration;
use transport::{Limits, socket_address};

/// What a test without threads and sockets needs of the system.
pub(crate) trait Host: Wait + AllocGlobal + Env + Abort {}

impl<R: Wait + AllocGlobal + Env + Abort> Host for R {}

/// The same with threads and sockets. Each thread has a copy of it.
pub(crate) trait System: Host + Runtime + Net<Listener = TcpListener, Stream = TcpStream> {}

impl<R: Host + Runtime + Net<Listener = TcpListener, Stream = TcpStream>> System for R {}

/// Checks that an allocation is to fail, as the environment says if `scripts/fail-alloc` runs a test: else something went wrong though
/// there was enough memory. It takes no memory.
pub(crate) fn check_refused(rt: &impl Host) {
    let mut number = [0u8; 32];
    assert!(rt; rt.var("FAIL_ALLOC", &mut number).is_ok());
}

/// Checks that an attempt comes out as it is to: the first, or another if an allocation failed.
macro_rules! check_again {
    ($rt:expr, $attempt:expr $(, $told:literal)?) => {{
        // (the proof of a test wants the types named of which `System` speaks)
        let _sockets: Option<(std::net::TcpListener, std::net::TcpStream)> = None;
        let is_so = $attempt || {
            crate::shared::check_refused($rt);
            $attempt
        };
        assert!($rt; is_so $(, $told)?);
    }};
}

pub(crate) use check_again;

/// How often a test tries again what may still happen, a millisecond apart.
const TRIES: u32 = 1_000_000;

/// Waits for a line of this many milliseconds, and more time for each call of a link than it needs on a busy machine.
pub(crate) fn timeouts(line: u64) -> Timeouts {
    let patience = Duration::from_millis(PATIENCE);
    let links = Limits {
        ping: patience,
        helper: patience,
        other: patience,
    };
    Timeouts {
        line: Duration::from_millis(line),
        links,
    }
}

/// How a server ended, and how much of its page was not written.
type Ended = (Result<(), ServeError>, usize);

/// Serves once.
fn serve_once(rt: &impl System, plan: &Plan) -> Ended {
    let (alloc, words) = (rt.alloc(), words_of(rt, rt.alloc(), plan));
    let mut page = Page(plan.page.as_bytes());
    let outcome = match plan.line {
        None => serve_run(rt, alloc, &words, &mut page),
        Some(line) => serve_within(rt, alloc, timeouts(line), &words, &mut page).map(|_node| ()),
    };
    (outcome, page.0.len())
}

/// Serves, and rings then. If the port is in use, it is tried again, as often as the plan allows.
fn serve(rt: &impl System, plan: &Plan, bell: &AtomicBool) -> Ended {
    let mut ended = serve_once(rt, plan);
    for _ in 1..plan.tries {
        if ended.0 != Err(ServeError::CannotListen) {
            break;
        }
        thread::sleep(rt, Duration::from_millis(1));
        ended = serve_once(rt, plan);
    }
    bell.store(true, Ordering::SeqCst);
    ended
}

/// A server that was started.
#[derive(Drop)]
pub(crate) struct Running {
    pub(crate) address: Address,
    /// How many connections to it were made.
    made: Cell<u64>,
    bell: Arc<AtomicBool, Global>,
    thread: JoinHandle<Ended>,
}

impl Running {
    pub(crate) fn has_ended(&self) -> bool {
        self.bell.load(Ordering::SeqCst)
    }
}

/// Starts a server; None if an allocation failed or the thread was not made.
pub(crate) fn start(rt: &impl System, plan: &Plan) -> Option<Running> {
    let bell = Arc::new(rt.alloc(), AtomicBool::new(false)).ok()?;
    let rung = Arc::try_clone(&bell).ok()?;
    let (host, plan) = (*rt, *plan);
    let thread = thread::spawn(rt, move || serve(&host, &plan, &*rung)).ok()?;
    Some(Running {
        address: local(rt, plan.port),
        made: Cell::new(0),
        bell,
        thread,
    })
}

/// A connection to a server, once it listens, on which nothing is waited for longer than patience lasts; None if it has
/// ended.
pub(crate) fn connect(rt: &impl System, server: &Running) -> Option<TcpStream> {
    let (to, wait) = (
        socket_address(server.address),
        Duration::from_millis(PATIENCE),
    );
    for _ in 0..TRIES {
        if let Ok(stream) = TcpStream::connect_timeout(rt, &to, wait) {
            server.made.set(server.made.get().wrapping_add(1));
            stream.set_read_timeout(Some(wait)).ok()?;
            stream.set_write_timeout(Some(wait)).ok()?;
            return Some(stream);
        }
        if server.has_ended() {
            return None;
        }
        thread::sleep(rt, Duration::from_millis(1));
    }
    None
}

/// Connects to a server, sends nothing, and waits until it hangs up; whether it did so by itself, as a server does and
/// the system for one that has ended does not.
fn knock(rt: &impl System, server: &Running) -> bool {
    let Some(mut stream) = connect(rt, server) else {
        return false;
    };
    let _said = stream.shutdown(Shutdown::Write);
    stream.read(&mut [0]).unwrap_or(1) == 0
}

/// Knocks at a server until all of its requests are used up; whether each knock was served, so that no connection before used up more
/// than one.
pub(crate) fn spend(rt: &impl System, server: &Running, requests: u64) -> bool {
    for _ in server.made.get()..requests {
        if !knock(rt, server) {
            return false;
        }
    }
    server.made.get() == requests
}

/// Waits until a server has ended, without help or knocking at it; whether it has.
fn ends(rt: &impl System, server: &Running, knocks: bool) -> bool {
    for _ in 0..TRIES {
        if server.has_ended() {
            return true;
        }
        if !knocks || !knock(rt, server) {
            thread::sleep(rt, Duration::from_millis(1));
        }
    }
    false
}

/// Whether a server ended with all of its page written, by itself where it had what it was to have; else it is knocked at until it ends,
/// and that is false.
pub(crate) fn ends_well(rt: &impl System, server: Running, is_served: bool) -> bool {
    let has_ended = is_served && ends(rt, &server, false);
    ends(rt, &server, true) && server.thread.join(rt) == (Ok(()), 0) && has_ended
}

/// Waits for the turn of a test, since all tests of all processes use the same ports, and keeps it.
pub(crate) fn turn(rt: &impl System) -> TcpListener {
    let turns = socket_address(local(rt, 29_170));
    for _ in 0..TRIES {
        if let Ok(turn) = TcpListener::bind(rt, turns) {
            return turn;
        }
        thread::sleep(rt, Duration::from_millis(1));
    }
    panic!(rt; "no turn")
}
