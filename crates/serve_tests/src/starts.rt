//! Servers that are started and stopped, and requests that find their owner over TCP.
ghost use Rattle.std.specs.Prelude.{IfSome};
ghost use Rattle.locked_node.specs.Passes.{Fits};

use crate::plans::{PATIENCE, incarnation, local, told};
use crate::shared::{Host, System, check_again, check_refused, timeouts, turn};
use change_core::{Digest, Moment, Status};
use cli_net::Echo;
use hash_ring::Sha256Hash;
use locked_node::NodePass;
use message_core::{Changes, Content, Keys, Message, News, Text};
use node_core::View;
use peer_core::{Clock, Link, Member, RequestError};
use server::{Running, Server, Settings, start};
use std::cell::Cell;
use std::io::{Read, Write};
use std::net::{Net, TcpStream};
use std::sync::Wait;
use std::{fs, time};
use transport::{TcpLink, socket_address};

/// The port of the node that asks.
const OWN: u16 = 29_184;

/// The port of the node that is dead, at which nothing listens.
const DEAD: u16 = 29_185;

/// The port of the node that takes over.
const NEXT: u16 = 29_186;

/// Starts a node with a server that echoes at a port: two workers, no rounds; it waits as long as need be. Returns it with a handle, or None
/// if an allocation failed.
pub(crate) fn start_node<R: System>(
    rt: &R,
    port: u16,
) -> Option<(Running<Sha256Hash, Echo, R>, NodePass<Sha256Hash>)>
    ensures { IfSome result (λ r. Fits r.0.server.node r.1) }
{
    let address = local(rt, port);
    let mut settings = Settings::new(address, incarnation(rt, 1));
    settings.workers = 2;
    settings.period = 0;
    settings.timeouts = timeouts(PATIENCE);
    let echo = Echo { address };
    let Ok((running, mut handles)) = start(rt, rt.alloc(), Sha256Hash, echo, &settings) else {
        return None;
    };
    let handle = handles.pop()?;
    Some((running, handle))
}

/// Starts a server and stops it; returns how many workers have ended, or None if an allocation failed.
fn start_and_stop(rt: &impl System) -> Option<usize> {
    let (running, _handle) = start_node(rt, OWN)?;
    Some(running.stop(rt).workers.len())
}

/// How many files this process has open, sockets among them; None if an allocation failed.
fn count_files(rt: &HostRuntime) -> Option<usize> {
    let mut count = 0usize;
    for entry in fs::read_dir(rt, "/proc/self/fd").ok()? {
        entry.ok()?;
        count = count.wrapping_add(1);
    }
    Some(count)
}

/// A server with two workers at 127.0.0.1:29184 is started and stopped 100 times: both workers end each time, and the process has as many
/// files open in the end as at the start.
#[test]
fn a_server_stops_as_often_as_it_starts(rt: HostRuntime) {
    let _turn = turn(&rt);
    let mut before = count_files(&rt);
    if before.is_none() {
        check_refused(&rt);
        before = count_files(&rt);
    }
    assert!(&rt; before.is_some());
    for _ in 0..100 {
        check_again!(&rt, start_and_stop(&rt) == Some(2));
    }
    check_again!(&rt, count_files(&rt) == before);
}

/// Pings the node at OWN with the news that the node at a port has this status; None if out of memory, or it does not answer.
fn tell<R: Host + Net + time::Clock + Copy>(rt: &R, port: u16, status: Status) -> Option<()> {
    let news = News {
        checksum: Digest::new([0; 32]),
        changes: Changes::from_slice(rt.alloc(), &[told(rt, port, status)]).ok()?,
    };
    let message = Message {
        source: local(rt, NEXT),
        source_incarnation: incarnation(rt, 1),
        content: Content::Ping(news),
    };
    let mut link = TcpLink::with_limits(*rt, timeouts(PATIENCE).links);
    let answer = link.call(rt, rt.alloc(), local(rt, OWN), &message);
    answer.is_ok().then_some(())
}

/// Connects six times to the node at OWN, which has two workers, and sends a part of a line or nothing. Then pings it. Returns the connections, or
/// None if an allocation failed or the ping is not answered.
fn ping_beside_others(rt: &impl System) -> Option<Vec<TcpStream>> {
    let mut others = Vec::new(rt.alloc());
    for part in ["", "{", "", "{", "", "{"] {
        let mut stream = TcpStream::connect(rt, socket_address(local(rt, OWN))).ok()?;
        stream.write_all(part.as_bytes()).ok()?;
        others.push(stream).ok()?;
    }
    tell(rt, DEAD, Status::Alive)?;
    Some(others)
}

/// Starts a server, pings it while it has connections without a whole line, and stops it. Returns how many of these it held at the end, and how many bytes came
/// over them; None if an allocation failed or the ping is not answered.
fn hold_others(rt: &impl System) -> Option<(usize, usize)> {
    let (running, _handle) = start_node(rt, OWN)?;
    let others = ping_beside_others(rt);
    let held = running.server().places().open();
    running.stop(rt);
    let mut came = 0usize;
    for mut stream in others? {
        came = came.wrapping_add(stream.read(&mut [0; 64]).unwrap_or(0));
    }
    Some((held, came))
}

/// A server of two workers answers while six connections say nothing or too little, each of which it waits for. It closes them when it stops.
#[test]
fn connections_without_a_line_hold_no_worker(rt: HostRuntime) {
    let _turn = turn(&rt);
    check_again!(&rt, hold_others(&rt) == Some((6, 0)));
}

/// A clock that is at once at the moment that it is to wait for. At its first wait the node at OWN hears that the one at DEAD is faulty,
/// if it is to.
#[derive(Drop)]
struct Steps<R> {
    rt: R,
    tells: bool,
    now: Cell<u64>,
    waits: Cell<u32>,
}

impl<R: Host + Net + time::Clock + Copy> Clock for Steps<R> {
    ghost time = { record { told = λ _. Unit {0}; waited = λ _. Unit {0} } };

    fn now(&self) -> Moment {
        Moment::new(self.now.get()).unwrap_or(Moment::beginning())
    }

    fn wait_until<W: Wait>(&self, _rt: &W, moment: u64) {
        if self.tells && self.waits.get() == 0 {
            let _heard = tell(&self.rt, DEAD, Status::Faulty);
        }
        self.now.set(moment);
        self.waits.set(self.waits.get().wrapping_add(1));
    }
}

/// A key that the node at DEAD owns, and without it the one at NEXT.
fn key_of(rt: &impl System, view: &View<Sha256Hash>) -> Option<&'static str> {
    let wanted = [local(rt, DEAD), local(rt, NEXT)];
    for key in [
        "zzzz0", "zzzz1", "zzzz2", "zzzz3", "zzzz4", "zzzz5", "zzzz6", "zzzz7",
    ] {
        let owners = view.owners(key.as_bytes(), 2).ok()?;
        if owners.as_slice() == wanted.as_slice() {
            return Some(key);
        }
    }
    None
}

/// What a request comes to: what is answered, how often it waited, and the moment of the last wait.
type Asked = (Result<Text, RequestError>, u32, u64);

/// A request by a member of the node at OWN for a key of the node at DEAD; None if an allocation failed.
fn request<R: System>(
    rt: &R,
    member: &mut Member<'_, Sha256Hash, TcpLink<R>>,
    handler: &Echo,
    tells: bool,
) -> Option<Asked> {
    tell(rt, DEAD, Status::Alive)?;
    tell(rt, NEXT, Status::Alive)?;
    let view = member.view(rt).ok()?;
    let key = Text::new(rt.alloc(), key_of(rt, &view)?).ok()?;
    let keys = Keys::new(rt.alloc(), key).ok()?;
    let body = Text::new(rt.alloc(), "hello").ok()?;
    let clock = Steps {
        rt: *rt,
        tells,
        now: Cell::new(0),
        waits: Cell::new(0),
    };
    let answer = member.request(rt, &mut &*handler, &clock, keys, body);
    Some((answer, clock.waits.get(), clock.now.get()))
}

/// The same by a handle of a server's node.
fn request_by(
    rt: &impl System,
    server: &Server<Sha256Hash, Echo>,
    handle: &mut NodePass<Sha256Hash>,
    tells: bool,
) -> Option<Asked>
    requires { Fits server.now.node handle.old }
{
    let mut link = TcpLink::with_limits(*rt, timeouts(PATIENCE).links);
    let mut member = Member::new(&server.node, handle, &mut link, rt.alloc());
    request(rt, &mut member, &server.handler, tells)
}

/// The same by the handle of a server at OWN, which is started and stopped.
fn request_from(rt: &impl System, tells: bool) -> Option<Asked> {
    let (running, mut handle) = start_node(rt, OWN)?;
    let asked = request_by(rt, running.server(), &mut handle, tells);
    running.stop(rt);
    asked
}

/// The same while a server at NEXT serves.
fn request_between(rt: &impl System, tells: bool) -> Option<Asked> {
    let (running, _handle) = start_node(rt, NEXT)?;
    let asked = request_from(rt, tells);
    running.stop(rt);
    asked
}

/// Whether the next owner answers a request, after one wait, where the first one is said to be faulty meanwhile.
fn finds_next(rt: &impl System) -> bool {
    match request_between(rt, true) {
        Some((Ok(text), 1, 3_000)) => text.as_str() == "127.0.0.1:29186 hello",
        _ => false,
    }
}

/// Whether a request whose owner stays dead is given up, after three waits.
fn is_given_up(rt: &impl System) -> bool {
    let asked = request_between(rt, false);
    matches!(asked, Some((Err(RequestError::RetriesSpent), 3, 21_000)))
}

/// Servers at 127.0.0.1:29184 and 29186, and a dead node at 29185, which the first holds as alive. The first asks for a key that the dead
/// node owns, and without it the node at 29186. If the first hears at its first wait, until 3,000, that the dead node is faulty, the node
/// at 29186 answers `127.0.0.1:29186 hello`. If not, the request fails four times, with waits until 3,000, 9,000 and 21,000, and its
/// retries are spent.
#[test]
fn a_request_finds_the_next_owner_or_is_given_up(rt: HostRuntime) {
    let _turn = turn(&rt);
    check_again!(&rt, finds_next(&rt));
    check_again!(&rt, is_given_up(&rt));
}
