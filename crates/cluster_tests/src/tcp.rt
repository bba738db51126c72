//! A link over sockets, and a peer of the test's own.
use crate::messages::{content, member, message, news, number_of, ping, request};
use crate::shared::{Host, System, check_refused, comes, made};
use change_core::{Address, Status};
use peer_core::{Link, LinkError};
use std::alloc::Global;
use std::io::{BufReader, Read, Write};
use std::net::{Net, TcpListener, TcpStream};
use std::process::Abort;
use std::thread::JoinHandle;
use std::time::{Clock, Duration};
use std::{io, thread};
use transport::{Limits, TcpLink, send_owned_line, socket_address};
use wire_json::{Content, Field, Message, WireError, encode, read_line};

/// A ping that tells of 10.0.0.9:1.
fn any_ping(rt: &impl Host) -> Message {
    ping(rt, 9, news(rt, 9, 1, Status::Alive))
}

/// How fast a peer answers, and how long a link waits.
#[derive(Clone, Copy, PartialEq, Eq)]
enum Pace {
    /// At once; an hour for each call, so that a busy machine fails none.
    AtOnce,
    /// After white space over three seconds in all; two seconds for a ping, in which also a busy machine gives a peer its line.
    Slow,
}

fn limits_at(pace: Pace) -> Limits {
    let hour = Duration::from_secs(3_600);
    Limits {
        ping: match pace {
            Pace::AtOnce => hour,
            Pace::Slow => Duration::from_secs(2),
        },
        helper: hour,
        other: hour,
    }
}

/// The next line; None if an allocation failed, or nothing came.
fn heard<S: Read + Drop>(alloc: Global, stream: S) -> Option<Vec<u8>> {
    let mut reader = BufReader::new(alloc, stream).ok()?;
    let line = read_line(alloc, &mut reader).ok();
    drop(reader);
    line?
}

/// Writes these bytes, at this pace.
fn write_at<W: Write>(rt: &impl System, stream: &mut W, pace: Pace, bytes: &[u8]) {
    if pace == Pace::Slow {
        for _ in 0..30 {
            thread::sleep(rt, Duration::from_millis(100));
            if stream.write(b" ").is_err() {
                return;
            }
        }
    }
    let _written = stream.write_all(bytes);
}

/// Reads a line of a connection, and writes these bytes. It gives the line back.
fn answer_on(
    rt: &impl System,
    stream: &mut TcpStream,
    pace: Pace,
    bytes: &[u8],
) -> Option<Vec<u8>> {
    let line = heard(rt.alloc(), &mut *stream)?;
    write_at(rt, stream, pace, bytes);
    Some(line)
}

/// The same with one connection that it accepts.
fn answer_once(
    rt: &impl System,
    listener: &TcpListener,
    pace: Pace,
    bytes: &[u8],
) -> Option<Vec<u8>> {
    let (mut stream, _) = listener.accept().ok()?;
    let line = answer_on(rt, &mut stream, pace, bytes);
    drop(stream);
    line
}

/// Connects, writes these bytes and hangs up.
fn knock<R: System + Net<Listener = TcpListener, Stream = TcpStream>>(
    rt: &R,
    to: Address,
    bytes: &[u8],
) -> Option<()> {
    let wait = Duration::from_secs(10);
    let mut stream = TcpStream::connect_timeout(rt, &socket_address(to), wait).ok()?;
    let written = stream.write_all(bytes);
    drop(stream);
    written.ok()
}

/// A port of this machine that is listened at; none where there was none.
fn listen<R: System + Net<Listener = TcpListener, Stream = TcpStream>>(
    rt: &R,
) -> Option<(TcpListener, Address)> {
    let listener = TcpListener::bind(rt, "127.0.0.1:0").ok()?;
    let to = address_of(&listener);
    Some(listener).zip(to)
}

/// The address that is listened at.
fn address_of(listener: &TcpListener) -> Option<Address> {
    let port = listener.local_addr().ok()?.port();
    Address::new(0x7f00_0001, port)
}

/// What comes back for a message.
#[derive(Clone, Copy, PartialEq, Eq)]
enum Said {
    /// An Ack of 10.0.0.3:1.
    Ack,
    /// Another answer.
    Other,
    /// No answer.
    Fault(LinkError),
}

/// What an answer is, which is let go.
fn said_in(answer: Result<Message, LinkError>) -> Said {
    match &answer {
        Ok(message) => {
            let is_ack = matches!(&message.content, Content::Ack(_));
            if is_ack && number_of(message.source) == 3 {
                Said::Ack
            } else {
                Said::Other
            }
        }
        Err(fault) => Said::Fault(*fault),
    }
}

/// The answer of a link, and how often it then has failed.
type Answered = (Said, u64);

const OUT_OF_MEMORY: Said = Said::Fault(LinkError::Memory);

/// A peer in its own thread that answers one connection by these bytes; None if an allocation failed or the thread was
/// not made.
fn start_peer(
    rt: &impl System,
    listener: TcpListener,
    pace: Pace,
    bytes: &[u8],
) -> Option<JoinHandle<Option<Vec<u8>>>> {
    let bytes = Vec::from_slice(rt.alloc(), bytes).ok()?;
    let runtime = *rt;
    thread::spawn(
        rt,
        move || answer_once(&runtime, &listener, pace, bytes.as_slice()),
    )
    .ok()
}

/// What a link answers to a message, and how often it then has failed.
fn answer_of<N: Net + Clock>(
    rt: &impl Host,
    link: &mut TcpLink<N>,
    to: Address,
    message: &Message,
) -> Answered {
    let said = said_in(link.call(rt, rt.alloc(), to, message));
    (said, link.failures())
}

/// The same of a link with the limits of this pace, for which a peer waits: one that is not connected to is knocked at.
fn answer_by_peer<R: System + Net<Listener = TcpListener, Stream = TcpStream>>(
    rt: &R,
    pace: Pace,
    to: Address,
    message: &Message,
) -> Answered {
    let mut link = TcpLink::with_limits(rt, limits_at(pace));
    let answered = answer_of(rt, &mut link, to, message);
    drop(link);
    if answered.0 == OUT_OF_MEMORY {
        let _knocked = knock(rt, to, b"");
    }
    answered
}

/// Whether a peer has read this message; None if an allocation failed.
fn has_read(alloc: Global, line: Option<Vec<u8>>, message: &Message) -> Option<bool> {
    let (line, wanted) = line.zip(encode(alloc, message).ok())?;
    let is_read = line.as_slice() == wanted.as_slice();
    drop(line);
    drop(wanted);
    Some(is_read)
}

/// What a link answers to a message, which a peer reads, where the peer then writes these bytes at this pace; None if an
/// allocation failed.
fn try_call<R: System + Net<Listener = TcpListener, Stream = TcpStream>>(
    rt: &R,
    pace: Pace,
    message: &Message,
    bytes: &[u8],
) -> Option<Answered> {
    let (listener, to) = listen(rt)?;
    let peer = start_peer(rt, listener, pace, bytes)?;
    let answered = answer_by_peer(rt, pace, to, message);
    let is_read = has_read(rt.alloc(), peer.join(rt), message)?;
    if answered.0 == OUT_OF_MEMORY {
        return None;
    }
    assert!(rt; is_read);
    Some(answered)
}

/// Checks what a link answers, the message let go; if an allocation failed, with another peer.
fn check<R: System + Net<Listener = TcpListener, Stream = TcpStream>>(
    rt: &R,
    pace: Pace,
    message: Message,
    bytes: &[u8],
    wanted: Answered,
) {
    comes!(rt; try_call(rt, pace, &message, bytes) => Some(wanted), |answered| answered.is_none());
}

/// An Ack of 10.0.0.3:1, as a line.
fn ack_line(rt: &impl Host) -> Vec<u8> {
    let ack = message(rt, 3, Content::Ack(content(rt, &[])));
    let mut line = made!(rt, encode(rt.alloc(), &ack));
    drop(ack);
    made!(rt, line.push(b'\n'));
    line
}

const HEARD: Answered = (Said::Ack, 0);

const LEFT: Answered = (Said::Fault(LinkError::Io), 1);

const CLOSED: Answered = (Said::Fault(LinkError::Closed), 1);

/// A line that is not an answer.
fn faulty(error: WireError) -> Answered {
    (Said::Fault(LinkError::Wire(error)), 0)
}

/// Over sockets: a ping is answered by an ack, and the peer gives back what it has read, which is the ping's line.
#[test]
fn a_line_goes_out_and_a_line_comes_back(rt: HostRuntime) {
    let line = ack_line(&rt);
    check(&rt, Pace::AtOnce, any_ping(&rt), line.as_slice(), HEARD);
}

/// A peer that closes at once: closed, one failure. One that answers `[]`, `{` or `{}`: not an object, not JSON, kind is missing; no
/// failure.
#[test]
fn what_is_no_answer_is_a_fault(rt: HostRuntime) {
    let rows = [
        ("", CLOSED),
        ("[]\n", faulty(WireError::NotObject)),
        ("{", faulty(WireError::BadJson)),
        ("{}\n", faulty(WireError::MissingField(Field::Kind))),
    ];
    for &(text, wanted) in &rows {
        check(&rt, Pace::AtOnce, any_ping(&rt), text.as_bytes(), wanted);
    }
}

/// What a link answers to a ping where the peer hangs up at once and reads nothing; None if an allocation failed.
fn try_unread<R: System + Net<Listener = TcpListener, Stream = TcpStream>>(
    rt: &R,
    message: &Message,
) -> Option<Answered> {
    let (listener, to) = listen(rt)?;
    let peer = thread::spawn(rt, move || listener.accept().is_ok()).ok()?;
    let answered = answer_by_peer(rt, Pace::AtOnce, to, message);
    assert!(rt; peer.join(rt));
    if answered.0 == OUT_OF_MEMORY {
        return None;
    }
    Some(answered)
}

/// A peer that hangs up without reading the ping: the link failed, or was closed if the peer was sooner; one failure.
#[test]
fn a_peer_that_reads_nothing_is_a_fault(rt: HostRuntime) {
    let ping = any_ping(&rt);
    let mut answered = try_unread(&rt, &ping);
    if answered.is_none() {
        check_refused(&rt);
        answered = try_unread(&rt, &ping);
    }
    drop(ping);
    assert!(rt; answered == Some(LEFT) || answered == Some(CLOSED));
}

/// An answer that is cut behind any of its bytes: not JSON, no failure; without its newline alone it is heard.
#[test]
fn an_answer_may_be_cut_anywhere(rt: HostRuntime) {
    let mut line = ack_line(&rt);
    let mut wanted = HEARD;
    for _ in 1..line.len() {
        let _last = line.pop();
        check(&rt, Pace::AtOnce, any_ping(&rt), line.as_slice(), wanted);
        wanted = faulty(WireError::BadJson);
    }
}

/// A peer that writes thirty bytes of white space over three seconds and then its answer: left at a limit of two seconds, the link
/// failed, one failure.
#[test]
fn a_peer_that_drips_is_left_at_the_limit(rt: HostRuntime) {
    let line = ack_line(&rt);
    check(&rt, Pace::Slow, any_ping(&rt), line.as_slice(), LEFT);
}

/// The same peer is heard where the question is a ping-req, whose limit is longer.
#[test]
fn a_helper_has_longer_than_a_pinged_node(rt: HostRuntime) {
    let line = ack_line(&rt);
    let asked = Content::PingReq(content(&rt, &[]), member(&rt, 3));
    let asked = message(&rt, 9, asked);
    check(&rt, Pace::Slow, asked, line.as_slice(), HEARD);
}

/// This many letters.
fn letters(rt: &impl Host, count: usize) -> Vec<u8> {
    let mut letters = Vec::new(rt.alloc());
    made!(rt, letters.resize(count, b'a'));
    letters
}

/// A peer that answers 1,048,577 letters: line too long, no failure.
#[test]
fn an_answer_may_be_too_long(rt: HostRuntime) {
    let endless = letters(&rt, 1_048_577);
    let asked = message(&rt, 9, Content::NotOwner);
    let too_long = faulty(WireError::LineTooLong);
    check(&rt, Pace::AtOnce, asked, endless.as_slice(), too_long);
}

/// The first port of this machine, an unused one.
fn nobody(rt: &impl Abort) -> Address {
    Address::new(0x7f00_0001, 1).expect(rt, "an address")
}

/// Checks what a link that has failed this often answers to a message; if out of memory, when it is asked again.
fn check_link<R: System + Net<Listener = TcpListener, Stream = TcpStream>>(
    rt: &R,
    failures: u64,
    to: Address,
    message: Message,
    wanted: Answered,
) {
    let mut link = TcpLink::new(rt).after_failures(failures);
    comes!(rt; answer_of(rt, &mut link, to, &message) => wanted, |answered| answered.0 == OUT_OF_MEMORY);
}

/// Nothing listens, as is assumed of port 1 of 127.0.0.1: the link failed, one failure each time.
#[test]
fn nobody_listens(rt: HostRuntime) {
    for failures in 0..2 {
        let wanted = (Said::Fault(LinkError::Io), failures + 1);
        check_link(&rt, failures, nobody(&rt), any_ping(&rt), wanted);
    }
}

/// Whether the first that connects where a spent link was to send is one that knocks.
fn sends_nothing<R: System + Net<Listener = TcpListener, Stream = TcpStream>>(
    rt: &R,
) -> Option<bool> {
    let (listener, to) = listen(rt)?;
    let spent = (Said::Fault(LinkError::Spent), u64::MAX);
    check_link(rt, u64::MAX, to, any_ping(rt), spent);
    let line = match knock(rt, to, b"knock\n") {
        Some(()) => answer_once(rt, &listener, Pace::AtOnce, b""),
        None => None,
    };
    drop(listener);
    let line = line?;
    let is_first = line.as_slice() == b"knock".as_slice();
    drop(line);
    Some(is_first)
}

/// A link whose failures are 2^64 - 1: spent, its failures stay, and the first to connect where it was to send is another.
#[test]
fn a_spent_link_sends_nothing(rt: HostRuntime) {
    comes!(&rt; sends_nothing(&rt) => Some(true), |is_first| is_first.is_none());
}

/// A forward with a body of 1,048,577 letters, for a port where nothing listens: line too long, no failure.
#[test]
fn a_message_too_long_is_not_sent(rt: HostRuntime) {
    let body = letters(&rt, 1_048_577);
    let body = str::from_utf8(body.as_slice()).ok().expect(&rt, "letters");
    let request = request(&rt, ("a", "b"), body);
    let too_long = faulty(WireError::LineTooLong);
    check_link(&rt, 0, nobody(&rt), request, too_long);
}

/// A writer that takes all that it is given, and counts how often and how much that is.
#[derive(Drop)]
struct Tally {
    writes: u64,
    bytes: usize,
}

impl Write for Tally {
    fn write(&mut self, buf: &[u8]) -> io::Result<usize> {
        self.writes = self.writes.wrapping_add(1);
        self.bytes = self.bytes.wrapping_add(buf.len());
        Ok(buf.len())
    }

    fn flush(&mut self) -> io::Result<()> {
        Ok(())
    }
}

const EMPTY: Tally = Tally {
    writes: 0,
    bytes: 0,
};

/// How long a line is, and how long it is with its newline.
static LENGTHS: [(usize, usize); 5] = [
    (0, 1),
    (1, 2),
    (8_191, 8_192),
    (8_192, 8_193),
    (100_000, 100_001),
];

/// Lines of 0, 1, 8,191, 8,192 and 100,000 letters: each goes out in one write with its newline.
#[test]
fn a_line_and_its_newline_are_one_write(rt: HostRuntime) {
    for &(length, bytes) in &LENGTHS {
        let tally = made!(&rt, send_owned_line(EMPTY, letters(&rt, length)));
        assert!(&rt; tally.writes == 1 && tally.bytes == bytes);
    }
}
