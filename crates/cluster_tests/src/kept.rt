//! A link whose connections are kept, over a network of the test's own.
use crate::messages::{content, member, message, request};
use crate::shared::{Host, again};
use change_core::Address;
use kept_links::{KeptLink, Pool};
use message_core::{Content, Message};
use peer_core::{Link, LinkError};
use std::cell::Cell;
use std::io;
use std::io::{ErrorKind, Read, Write};
use std::net::{OpenStream, SocketAddr};
use std::time::{Clock, Duration};
use transport::{Dial, Limits};

/// What a node does at the end of an answer, and until the next request.
#[derive(Clone, Copy)]
struct Manner {
    answer: &'static str,
    /// What is at hand to be read in the meantime; None if nothing, 0 bytes if it closed.
    waits: Option<usize>,
    /// The milliseconds until the next request.
    rest: u64,
    /// The number of lines that are answered. At the next one the connection is closed.
    answers: u64,
}

/// A reply with what stands before its newline, and what comes with it.
const MARKED: &str =
    "{\"body\":\"hi\",\"kind\":\"reply\",\"source\":\"10.0.0.1:1\",\"sourceIncarnationNumber\":7} \n";

const PLAIN: &str =
    "{\"body\":\"hi\",\"kind\":\"reply\",\"source\":\"10.0.0.1:1\",\"sourceIncarnationNumber\":7}\n";

const FOLLOWED: &str =
    "{\"body\":\"hi\",\"kind\":\"reply\",\"source\":\"10.0.0.1:1\",\"sourceIncarnationNumber\":7} \n{";

const TWO: &str =
    "{\"body\":\"hi\",\"kind\":\"reply\",\"source\":\"10.0.0.1:1\",\"sourceIncarnationNumber\":7} \n \n";

/// The nodes of a network, which all do the same.
#[derive(Drop)]
struct Nodes {
    manner: Manner,
    now: Cell<u64>,
    /// How many connections were made.
    dialled: Cell<u64>,
    /// How many lines were answered.
    answered: Cell<u64>,
    /// How many marked lines came.
    marked: Cell<u64>,
}

/// A connection to one of them.
#[derive(Drop)]
struct Line<'a> {
    nodes: &'a Nodes,
    /// Whether a line came whose answer is not yet read.
    is_asked: bool,
}

impl<'a> Read for Line<'a> {
    fn read(&mut self, buf: &mut [u8]) -> io::Result<usize> {
        let nodes = self.nodes;
        let text = nodes.manner.answer;
        let answer = text.as_bytes();
        if !self.is_asked || buf.len() < answer.len() {
            return Err(io::Error::from(ErrorKind::WouldBlock));
        }
        self.is_asked = false;
        let answered = nodes.answered.get();
        if answered >= nodes.manner.answers {
            return Ok(0);
        }
        nodes.answered.set(answered.wrapping_add(1));
        buf[..answer.len()].copy_from_slice(answer);
        Ok(answer.len())
    }
}

impl<'a> Write for Line<'a> {
    fn write(&mut self, buf: &[u8]) -> io::Result<usize> {
        self.is_asked = true;
        if buf.ends_with(b" \n") {
            self.nodes
                .marked
                .set(self.nodes.marked.get().wrapping_add(1));
        }
        Ok(buf.len())
    }

    fn flush(&mut self) -> io::Result<()> {
        Ok(())
    }
}

impl<'a> OpenStream for Line<'a> {
    fn set_read_timeout(&self, _limit: Option<Duration>) -> io::Result<()> {
        Ok(())
    }

    fn set_write_timeout(&self, _limit: Option<Duration>) -> io::Result<()> {
        Ok(())
    }

    fn set_nonblocking(&self, _nonblocking: bool) -> io::Result<()> {
        Ok(())
    }

    fn peek(&self, buf: &mut [u8]) -> io::Result<usize> {
        match self.nodes.manner.waits {
            Some(count) => Ok(count.min(buf.len())),
            None => Err(io::Error::from(ErrorKind::WouldBlock)),
        }
    }
}

impl<'a> Dial for &'a Nodes {
    type Stream = Line<'a>;

    ghost leads = { λ _ _. Unit {0} };

    ghost dialled = { λ _ _ _ _ _. Unit {0} };

    fn dial(&mut self, _to: &SocketAddr, _limit: Duration) -> io::Result<Line<'a>> {
        let nodes = *self;
        nodes.dialled.set(nodes.dialled.get().wrapping_add(1));
        Ok(Line {
            nodes,
            is_asked: false,
        })
    }
}

impl Clock for Nodes {
    fn monotonic(&self) -> io::Result<Duration> {
        Ok(Duration::from_millis(self.now.get()))
    }

    fn since_1970(&self) -> io::Result<Duration> {
        self.monotonic()
    }
}

/// Sends a message to two nodes in turn, until a connection is found closed; the number of connections made, and of marked lines. None if an
/// allocation failed.
fn dialled_for(
    rt: &impl Host,
    manner: Manner,
    to: &[Address; 2],
    message: &Message,
) -> Option<(u64, u64)> {
    let nodes = Nodes {
        manner,
        now: Cell::new(5),
        dialled: Cell::new(0),
        answered: Cell::new(0),
        marked: Cell::new(0),
    };
    let pool = Pool::new(rt.alloc(), 4);
    let cluster = None;
    let mut link = KeptLink::new(&nodes, &nodes, Some(&pool), &cluster, Limits::standard());
    for address in to {
        match link.call(rt, rt.alloc(), *address, message) {
            Ok(_) => {}
            Err(LinkError::Closed) => break,
            Err(_) => return None,
        }
        nodes.now.set(nodes.now.get().wrapping_add(manner.rest));
    }
    Some((nodes.dialled.get(), nodes.marked.get()))
}

/// A message that is sent to two nodes in turn makes the wanted number of connections and of marked lines.
fn check(rt: &impl Host, manner: Manner, to: &[Address; 2], message: &Message, wanted: (u64, u64)) {
    assert!(rt; again!(rt, dialled_for(rt, manner, to, message) == Some(wanted)));
}

fn make_manner(answer: &'static str, waits: Option<usize>, rest: u64) -> Manner {
    Manner {
        answer,
        waits,
        rest,
        answers: u64::MAX,
    }
}

/// How a node answers, what waits in the meantime, for how long, and how many connections two requests to it take.
static MANNERS: [(&str, Option<usize>, u64, u64); 9] = [
    (MARKED, None, 0, 1),
    (MARKED, None, 49, 1),
    (MARKED, None, 50, 2),
    (MARKED, Some(0), 0, 2),
    (MARKED, Some(1), 0, 2),
    (PLAIN, None, 0, 2),
    (PLAIN, Some(0), 0, 2),
    (FOLLOWED, None, 0, 2),
    (TWO, None, 0, 2),
];

/// Two requests to one node that keeps connections or does not, that closes them or sends more in the meantime, and between which they
/// rest for long or not: the second goes over the first one's connection, or over another, and both are answered.
#[test]
fn a_connection_is_kept_if_both_sides_keep_it(rt: HostRuntime) {
    let to = [member(&rt, 1), member(&rt, 1)];
    let forward = request(&rt, ("a", "b"), "body");
    for &(answer, waits, rest, wanted) in &MANNERS {
        let manner = make_manner(answer, waits, rest);
        check(&rt, manner, &to, &forward, (wanted, 2));
    }
}

/// A request to each of two nodes, and two pings to one, by nodes that keep each connection: each goes over its own, and a ping is not marked.
#[test]
fn a_connection_is_kept_for_requests_of_its_node(rt: HostRuntime) {
    let (first, second) = (member(&rt, 1), member(&rt, 3));
    let keeps = make_manner(MARKED, None, 0);
    let forward = request(&rt, ("a", "b"), "body");
    check(&rt, keeps, &[first, second], &forward, (2, 2));
    let ping = message(&rt, 2, Content::Ping(content(&rt, &[])));
    check(&rt, keeps, &[first, first], &ping, (2, 0));
}

/// Two requests to a node that keeps its connection and closes it at the second one: that goes over no other.
#[test]
fn a_request_goes_over_one_connection(rt: HostRuntime) {
    let to = [member(&rt, 1), member(&rt, 1)];
    let forward = request(&rt, ("a", "b"), "body");
    let mut closes = make_manner(MARKED, None, 0);
    closes.answers = 1;
    check(&rt, closes, &to, &forward, (1, 2));
}
