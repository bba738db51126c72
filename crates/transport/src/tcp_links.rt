//! A link over sockets: one connection for each call, one line out and one line in.
ghost use Rattle.std.specs.Prelude.{◌≡◌, ◌≢◌, ◌⊎◌, ◌<◌, ◌-◌, ◌^◌, ◌++◌, ◌∷◌, [], Err, IfErr, IfOk, IfSome, IsOk, IsOkUnless, vec_capacity, vec_len};
ghost use Rattle.std.specs.Io.KnownBytes.{Appends};
ghost use Rattle.transport.specs.Deadlines.{deadline_of, limit_of, stream_of};
ghost use Rattle.transport.specs.Limits.{IsStandard, limit_for};
ghost use Rattle.transport.specs.Sockets.{CallsOver, IsExchanged, IsSocketOf, IsTooLong, LeadsTo, failures_over, limits_of, net_of};
ghost use Rattle.peer_core.specs.Links.{IsNamed, fault_named};
ghost use Rattle.wire_json.specs.Input.{line_of};
ghost use Rattle.wire_json.specs.Lines.{IsLine};
ghost use Rattle.wire_json.specs.Messages.{MessageForm};

use crate::deadlines::{Deadline, Timed};
use crate::dials::Dial;
use change_core::Address;
use message_core::{Content, Message, WireError};
use peer_core::{Link, LinkError};
use std::alloc::Global;
use std::io::{BufReader, Read, Write};
use std::net::{IpAddr, Ipv4Addr, SocketAddr};
use std::sync::Wait;
use std::time::{Clock, Duration, Instant};
use wire_json::{decode, encode, read_line};

/// The time limits of a call of a link as a whole: connecting, writing the line and reading the answer's.
#[derive(Clone, Copy, Debug, PartialEq, Eq)]
pub struct Limits {
    /// For a Ping.
    pub ping: Duration,
    /// For a PingReq, whose helper waits for the answer to its ping in between.
    pub helper: Duration,
    /// For any other message.
    pub other: Duration,
}

impl Limits {
    /// 500 milliseconds for a Ping, 1,250 for a PingReq and 5,000 for any other message: a round that asks three helpers takes
    /// less than the 5 seconds for which a suspect may refute.
    pub fn standard() -> Self
        ensures { IsStandard result }
    {
        Limits {
            ping: Duration::from_millis(500),
            helper: Duration::from_millis(1_250),
            other: Duration::from_millis(5_000),
        }
    }

    /// The limit for a call with this content.
    pub fn limit_for(&self, content: &Content) -> Duration
        ensures { result ≡ limit_for self.now content.now }
    {
        match content {
            Content::Ping(_) => self.ping,
            Content::PingReq(_, _) => self.helper,
            _ => self.other,
        }
    }
}

/// Returns the IPv4 address and the port of an address.
pub fn socket_address(address: Address) -> SocketAddr
    ensures { IsSocketOf address result }
{
    SocketAddr::new(
        IpAddr::V4(Ipv4Addr::from_bits(address.ip())),
        address.port(),
    )
}

/// Returns a link's error for an error of a line.
pub fn fault_of(fault: WireError) -> LinkError
    ensures { result ≡ fault_named fault }
{
    match fault {
        WireError::Io => LinkError::Io,
        WireError::Memory => LinkError::Memory,
        fault => LinkError::Wire(fault),
    }
}

/// The line with its newline.
fn with_newline(line: Vec<u8>) -> Result<Vec<u8>, LinkError>
    ensures whole { IfOk result (λ v. v.items ≡ line.items ++ 10 ∷ []) }
    ensures room { vec_len line < vec_capacity line → IsOk result }
    ensures err { IsOkUnless result LinkError.Memory }
{
    let mut line = line;
    match line.push(b'\n') {
        Ok(()) => Ok(line),
        Err(_) => Err(LinkError::Memory),
    }
}

/// Writes all the bytes and flushes, and gives the stream back. The only error is `Io`.
#[tactic(auto, using(crate::proofs::Kept::kept_after))]
fn write_whole<W: Write + Drop>(stream: W, bytes: &[u8]) -> Result<W, LinkError>
    ensures written { IfOk result (λ w. Appends (W.contents stream) (W.contents w) bytes.now) }
    ensures err { IsOkUnless result LinkError.Io }
{
    let mut stream = stream;
    if stream.write_all(bytes).is_err() {
        return Err(LinkError::Io);
    }
    match stream.flush() {
        Ok(()) => Ok(stream),
        Err(_) => Err(LinkError::Io),
    }
}

/// Writes a line and its newline, and gives the stream back. Both are passed to the stream together, so that over a socket the
/// newline waits for no acknowledgement of the line. They go out of the line's own buffer: nothing is allocated if that has room
/// for one byte more. After an error the stream is dropped.
///
/// # Errors
///
/// - `Memory`: out of memory for the newline. There was no output.
/// - `Io`: a write failed, after a part of the line.
pub fn send_owned_line<W: Write + Drop>(stream: W, line: Vec<u8>) -> Result<W, LinkError>
    ensures written { IfOk result (λ w. Appends (W.contents stream) (W.contents w) (line.items ++ 10 ∷ [])) }
    ensures room { vec_len line < vec_capacity line → IsOkUnless result LinkError.Io }
    ensures err { IfErr result (λ e. (e ≡ LinkError.Io) ⊎ (e ≡ LinkError.Memory)) }
{
    match with_newline(line) {
        Ok(line) => write_whole(stream, &line),
        Err(fault) => Err(fault),
    }
}

/// The message that the next line is.
fn get<S: Read + Drop>(alloc: Global, stream: S) -> Result<Message, LinkError>
    ensures came { IfOk result (λ m. IfSome (S.remaining stream) (λ xs. IsLine (λ v. MessageForm v m) (line_of xs))) }
    ensures named { IfErr result IsNamed }
    ensures unspent { IfErr result (λ e. e ≢ LinkError.Spent) }
{
    let Ok(mut reader) = BufReader::new(alloc, stream) else {
        return Err(LinkError::Memory);
    };
    match read_line(alloc, &mut reader) {
        Ok(Some(line)) => match decode(alloc, &line) {
            Ok(message) => Ok(message),
            Err(fault) => Err(fault_of(fault)),
        },
        Ok(None) => Err(LinkError::Closed),
        Err(fault) => Err(fault_of(fault)),
    }
}

/// A link over sockets. Each call opens a connection to the address, writes the message as a line, and reads the answer as a
/// line. What is not done within the limit for its message counts as a failure.
#[derive(Debug, Drop)]
pub struct TcpLink<N> {
    net: N,
    limits: Limits,
    failures: u64,
}

impl<N> TcpLink<N> {
    /// A link that has not failed yet, over this network, with the standard limits.
    pub fn new(net: N) -> Self
        ensures net { net_of result ≡ net }
        ensures limits { IsStandard (limits_of result) }
        ensures failures { failures_over result ≡ 0 }
    {
        TcpLink::with_limits(net, Limits::standard())
    }

    /// A link that has not failed yet, over this network, with these limits.
    pub fn with_limits(net: N, limits: Limits) -> Self
        ensures net { net_of result ≡ net }
        ensures limits { limits_of result ≡ limits }
        ensures failures { failures_over result ≡ 0 }
    {
        TcpLink {
            net,
            limits,
            failures: 0,
        }
    }

    /// Returns the same link with this number of failures: it continues the count of a link that it replaces.
    pub fn after_failures(self, failures: u64) -> Self
        ensures net { net_of result ≡ net_of self }
        ensures limits { limits_of result ≡ limits_of self }
        ensures failures { failures_over result ≡ failures }
    {
        let TcpLink {
            net,
            limits,
            failures: _,
        } = self;
        TcpLink {
            net,
            limits,
            failures,
        }
    }
}

/// Writes a line and its newline to a stream, and returns the message that the next line is.
fn exchange<S: Read + Write + Drop>(
    alloc: Global,
    stream: S,
    line: Vec<u8>,
) -> Result<Message, LinkError>
    ensures came { IfOk result (λ m. (asked : S) × Appends (S.contents stream) (S.contents asked) (line.items ++ 10 ∷ []) × IfSome (S.remaining asked) (λ xs. IsLine (λ v. MessageForm v m) (line_of xs))) }
    ensures named { IfErr result IsNamed }
    ensures unspent { IfErr result (λ e. e ≢ LinkError.Spent) }
{
    let stream = send_owned_line(stream, line)?;
    get(alloc, stream)
}

impl<N: Dial + Clock> TcpLink<N> {
    /// The connection until the end of the limit for a message with this content, which began at this instant.
    fn within(
        &self,
        stream: N::Stream,
        start: Instant,
        content: &Content,
    ) -> Timed<'_, N::Stream, N>
        ensures limit { limit_of (deadline_of result) ≡ limit_for (limits_of self.now) content.now }
        ensures stream { stream_of result ≡ stream }
    {
        let limit = self.limits.limit_for(content);
        Timed::new(stream, Deadline::since(&self.net, start, limit))
    }

    /// Sends a message over a new connection, and gives the one that comes back within its limit, which runs from before the
    /// connection was made. A link that is spent is not to send.
    fn ask(&mut self, alloc: Global, to: Address, message: &Message) -> Result<Message, LinkError>
        requires { failures_over self.old < 2 ^ 64 - 1 }
        ensures exchanged { IfOk result (IsExchanged (LeadsTo N.leads) N.Stream.contents N.Stream.remaining to message.now) }
        ensures once { CallsOver N.dialled N.Stream.contents N.Stream.remaining to message.now result self.old self.new }
        ensures failures { failures_over self.new ≡ failures_over self.old }
        ensures named { IfErr result IsNamed }
        ensures unspent { IfErr result (λ e. e ≢ LinkError.Spent) }
        ensures long { IsTooLong message.now → (result ≡ Err (LinkError.Wire WireError.LineTooLong)) ⊎ (result ≡ Err LinkError.Memory) }
    {
        let line = match encode(alloc, message) {
            Ok(line) => line,
            Err(fault) => return Err(fault_of(fault)),
        };
        let limit = self.limits.limit_for(&message.content);
        let Ok(start) = Instant::now(&self.net) else {
            return Err(LinkError::Io);
        };
        let Ok(stream) = self.net.dial(&socket_address(to), limit) else {
            return Err(LinkError::Io);
        };
        exchange(alloc, self.within(stream, start, &message.content), line)
    }
}

impl<N: Dial + Clock> Link for TcpLink<N> {
    ghost use Rattle.std.specs.Prelude.{◌+◌, ◌↔◌};
    ghost use Rattle.peer_core.specs.Links.{any_answer, failures_in};

    ghost may_answer = { λ _ _ _. Unit {0} };

    ghost went = { CallsOver N.dialled N.Stream.contents N.Stream.remaining };

    ghost failed = { λ l. l.failures };

    fn failures(&self) -> u64 {
        self.failures
    }

    fn call<R: Wait>(
        &mut self,
        _rt: &R,
        alloc: Global,
        to: Address,
        message: &Message,
    ) -> Result<Message, LinkError>
        ensures came { any_answer to message.now result }
        ensures went { CallsOver N.dialled N.Stream.contents N.Stream.remaining to message.now result self.old self.new }
        ensures exchanged { IfOk result (IsExchanged (LeadsTo N.leads) N.Stream.contents N.Stream.remaining to message.now) }
        ensures failures { failures_over self.new ≡ failures_over self.old + failures_in result }
        ensures spent { result ≡ Err LinkError.Spent ↔ failures_over self.old ≡ 2 ^ 64 - 1 }
        ensures named { IfErr result IsNamed }
        ensures long { IsTooLong message.now → failures_over self.old < 2 ^ 64 - 1
            → (result ≡ Err (LinkError.Wire WireError.LineTooLong)) ⊎ (result ≡ Err LinkError.Memory) }
    {
        if self.failures == u64::MAX {
            return Err(LinkError::Spent);
        }
        let answer = self.ask(alloc, to, message);
        if matches!(&answer, Err(LinkError::Io | LinkError::Closed)) {
            self.failures += 1;
        }
        answer
    }
}
