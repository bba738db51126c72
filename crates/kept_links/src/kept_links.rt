//! A link over sockets that keeps the connections over which requests went.
ghost use Rattle.std.specs.Prelude.{◌≡◌, ◌≢◌, ◌<◌, ◌-◌, ◌^◌, ◌⊎◌, ◌↔◌, Err, IfErr, IfOk, IfSome, IsTrue, false};
ghost use Rattle.transport.specs.Deadlines.{limit_of, stream_of};
ghost use Rattle.transport.specs.Limits.{limit_for};
ghost use Rattle.transport.specs.Sockets.{IsTooLong};
ghost use Rattle.kept_links.specs.Exchanges.{CallsKept, IsAskedAs, IsMessageOf, IsSameBut, IsSentAs, cluster_over, failures_over, is_kept, is_forward, keeps_over, limits_over, net_over, spares_over, Takes};
ghost use Rattle.kept_links.specs.Marks.{inner_of};
ghost use Rattle.peer_core.specs.Links.{IsNamed};
ghost use Rattle.wire_json.specs.Input.{line_of};

use crate::marks::{Marked, marked_line, noted};
use crate::pools::Spares;
use change_core::Address;
use cluster_names::{ClusterName, Line, line_sent, next_line, sorted};
use message_core::{Content, Message, WireError};
use peer_core::{Link, LinkError};
use std::alloc::Global;
use std::io;
use std::io::{Read, Write};
use std::sync::Wait;
use std::time::Clock;
use transport::{Deadline, Dial, Limits, Timed, fault_of, send_owned_line, socket_address};
use wire_json::{decode, encode};

/// Returns the message that a line is. One of another cluster is none, and is put aside.
fn message_in(
    alloc: Global,
    cluster: &Option<ClusterName>,
    foreign: &mut Option<Vec<u8>>,
    line: Vec<u8>,
) -> Result<Message, LinkError>
    ensures came { IfOk result (λ m. IsMessageOf cluster.now line.items m) }
    ensures named { IfErr result IsNamed }
    ensures unspent { IfErr result (λ e. e ≢ LinkError.Spent) }
{
    match sorted(alloc, cluster, line) {
        Ok(Line::Own(own)) => match decode(alloc, &own) {
            Ok(message) => Ok(message),
            Err(fault) => Err(fault_of(fault)),
        },
        Ok(Line::Foreign(line)) => {
            *foreign = Some(line);
            Err(LinkError::Closed)
        }
        Err(_) => Err(LinkError::Memory),
    }
}

/// Returns the message that the next line is. A line of another cluster is none, and is put aside.
fn get<S: Read + Drop>(
    alloc: Global,
    cluster: &Option<ClusterName>,
    foreign: &mut Option<Vec<u8>>,
    stream: S,
) -> Result<Message, LinkError>
    ensures came { IfOk result (λ m. IfSome (S.remaining stream) (λ xs. IsMessageOf cluster.now (line_of xs) m)) }
    ensures named { IfErr result IsNamed }
    ensures unspent { IfErr result (λ e. e ≢ LinkError.Spent) }
{
    match next_line(alloc, stream) {
        Ok(Some(line)) => message_in(alloc, cluster, foreign, line),
        Ok(None) => Err(LinkError::Closed),
        Err(fault) => Err(fault_of(fault)),
    }
}

/// Returns whether a message is a Forward.
fn is_forward(message: &Message) -> bool
    ensures { result ≡ is_forward message.now.content }
{
    matches!(&message.content, Content::Forward(_, _))
}

/// Returns the line of a message as a node of this cluster sends it, marked if its connection is to be kept.
fn line_for(
    alloc: Global,
    cluster: &Option<ClusterName>,
    message: &Message,
    is_kept: bool,
) -> Result<Vec<u8>, LinkError>
    ensures sent { IfOk result (λ line. IsSentAs cluster.now is_kept message.now line.items) }
    ensures named { IfErr result IsNamed }
    ensures unspent { IfErr result (λ e. e ≢ LinkError.Spent) }
    ensures long { IsTooLong message.now → (result ≡ Err (LinkError.Wire WireError.LineTooLong)) ⊎ (result ≡ Err LinkError.Memory) }
{
    let line = match encode(alloc, message) {
        Ok(line) => line_sent(alloc, cluster, line),
        Err(fault) => Err(fault),
    };
    match line {
        Ok(line) if is_kept => Ok(marked_line(line)),
        Ok(line) => Ok(line),
        Err(fault) => Err(fault_of(fault)),
    }
}

/// A link over sockets. With a pool, a Forward goes over a connection that rests there, or else over a new one, and asks the other node to keep it;
/// if that does, it goes to the pool after the answer. Any other message goes over a new connection, as over a `TcpLink`. A message is sent
/// once: if it fails over a connection that rested, it does not go over another. What is not done within the limit for its message counts as
/// a failure. Where the cluster has a name, each line has it, and an answer without it is none: the call ends as if the connection had been closed.
#[derive(Drop)]
pub struct KeptLink<'a, N, C, P> {
    net: N,
    clock: &'a C,
    pool: Option<P>,
    cluster: &'a Option<ClusterName>,
    limits: Limits,
    failures: u64,
    /// The line of another cluster that answered the last call; None if none did.
    foreign: Option<Vec<u8>>,
    /// The error of the system by which the last call failed; None if it did not fail by one.
    fault: Option<io::Error>,
}

impl<'a, N, C, P> KeptLink<'a, N, C, P> {
    /// A link of a node of this cluster that has not failed yet, over this network, by this clock, with these limits, whose connections rest in this pool
    /// if it has one.
    pub fn new(
        net: N,
        clock: &'a C,
        pool: Option<P>,
        cluster: &'a Option<ClusterName>,
        limits: Limits,
    ) -> Self
        ensures net { net_over result ≡ net }
        ensures cluster { cluster_over result ≡ cluster.now }
        ensures limits { limits_over result ≡ limits }
        ensures pool { (content : Content) → keeps_over result content ≡ is_kept pool content }
        ensures failures { failures_over result ≡ 0 }
    {
        KeptLink {
            net,
            clock,
            pool,
            cluster,
            limits,
            failures: 0,
            foreign: None,
            fault: None,
        }
    }

    /// Returns the network that the link uses.
    pub fn net(&self) -> &N
        ensures { result.now ≡ net_over self.now }
    {
        &self.net
    }

    /// Returns the line of another cluster that answered the last call; None if none did.
    pub fn foreign(&self) -> Option<&[u8]> {
        self.foreign.as_deref()
    }

    /// Returns the error of the system by which the last call failed; None if it did not fail by one.
    pub fn fault(&self) -> Option<io::Error> {
        self.fault
    }

    /// Returns whether the connection of a message is to be kept: a Forward's, if the link has a pool.
    fn is_kept(&self, message: &Message) -> bool
        ensures { result ≡ keeps_over self.now message.now.content }
    {
        match self.pool {
            Some(_) => is_forward(message),
            None => false,
        }
    }
}

impl<'a, N, C, P: Drop> KeptLink<'a, N, C, P> {
    /// Sets the time limits and the count of failures, and gives the pool up: each call opens a connection from then on.
    pub fn reset(&mut self, limits: Limits, failures: u64)
        ensures net { net_over self.new ≡ net_over self.old }
        ensures cluster { cluster_over self.new ≡ cluster_over self.old }
        ensures limits { limits_over self.new ≡ limits }
        ensures pool { (content : Content) → keeps_over self.new content ≡ false }
        ensures failures { failures_over self.new ≡ failures }
    {
        self.pool = None;
        self.limits = limits;
        self.failures = failures;
    }
}

impl<'a, N, C: Clock, P> KeptLink<'a, N, C, P> {
    /// Starts the limit for a message with this content.
    fn deadline_for(&self, content: &Content) -> io::Result<Deadline<'a, C>>
        ensures { IfOk result (λ d. limit_of d ≡ limit_for (limits_over self.now) content.now) }
    {
        Deadline::after(self.clock, self.limits.limit_for(content))
    }
}

impl<'a, N, C: Clock, P: Spares> KeptLink<'a, N, C, P> {
    /// Takes a connection to an address that rests for a message whose connection is kept; None if there is none.
    fn spare<R: Wait>(&mut self, rt: &R, to: Address, is_kept: bool) -> Option<P::Stream>
        ensures took { Takes P.took is_kept to result (spares_over self.old) (spares_over self.new) }
        ensures same { IsSameBut self.old self.new }
    {
        match &mut self.pool {
            Some(pool) if is_kept => pool.take(rt, self.clock, to),
            _ => None,
        }
    }

    /// Writes a line and its newline to a connection to an address, and returns the message that the next line is. Then the connection rests,
    /// if the other node keeps it.
    fn exchange<R: Wait>(
        &mut self,
        rt: &R,
        alloc: Global,
        to: Address,
        stream: Timed<'_, P::Stream, C>,
        line: Vec<u8>,
    ) -> Result<Message, LinkError>
        ensures came { IfOk result (IsAskedAs P.Stream.contents P.Stream.remaining (cluster_over self.old) line.items (stream_of stream.entry)) }
        ensures same { IsSameBut self.old self.new }
        ensures spares { spares_over self.new ≡ spares_over self.old }
        ensures named { IfErr result IsNamed }
        ensures unspent { IfErr result (λ e. e ≢ LinkError.Spent) }
    {
        let mut stream = Marked::new(stream);
        let answer = match send_owned_line(&mut stream, line) {
            Ok(stream) => get(alloc, self.cluster, &mut self.foreign, stream),
            Err(fault) => Err(fault),
        };
        self.fault = stream.fault;
        if let Some(pool) = &self.pool {
            if answer.is_ok() && stream.is_marked() {
                let stream = stream.into_inner().into_inner();
                pool.keep(rt, self.clock, to, stream);
            }
        }
        answer
    }
}

impl<'a, N: Dial<Stream = P::Stream>, C: Clock, P: Spares> KeptLink<'a, N, C, P> {
    /// Sends a message once, and gives the one that comes back within its limit, which runs from before the connection was made. A link
    /// that is spent is not to send.
    fn ask<R: Wait>(
        &mut self,
        rt: &R,
        alloc: Global,
        to: Address,
        message: &Message,
    ) -> Result<Message, LinkError>
        requires { failures_over self.old < 2 ^ 64 - 1 }
        ensures went { CallsKept N.dialled N.leads P.took P.Stream.contents P.Stream.remaining to message.now result self.old self.new }
        ensures failures { failures_over self.new ≡ failures_over self.old }
        ensures named { IfErr result IsNamed }
        ensures unspent { IfErr result (λ e. e ≢ LinkError.Spent) }
        ensures long { IsTooLong message.now → (result ≡ Err (LinkError.Wire WireError.LineTooLong)) ⊎ (result ≡ Err LinkError.Memory) }
    {
        let is_kept = self.is_kept(message);
        let line = line_for(alloc, self.cluster, message, is_kept)?;
        let Ok(deadline) = self.deadline_for(&message.content) else {
            return Err(LinkError::Io);
        };
        if let Some(stream) = self.spare(rt, to, is_kept) {
            return self.exchange(rt, alloc, to, Timed::new(stream, deadline), line);
        }
        let limit = self.limits.limit_for(&message.content);
        let dialled = self.net.dial(&socket_address(to), limit);
        let Ok(stream) = noted(dialled, &mut self.fault) else {
            return Err(LinkError::Io);
        };
        self.exchange(rt, alloc, to, Timed::new(stream, deadline), line)
    }
}

impl<'a, N: Dial<Stream = P::Stream>, C: Clock, P: Spares> Link for KeptLink<'a, N, C, P> {
    ghost use Rattle.std.specs.Prelude.{◌+◌, ◌↔◌};
    ghost use Rattle.peer_core.specs.Links.{any_answer, failures_in};

    ghost may_answer = { λ _ _ _. Unit {0} };

    ghost went = { CallsKept N.dialled N.leads P.took P.Stream.contents P.Stream.remaining };

    ghost failed = { λ l. l.failures };

    fn failures(&self) -> u64 {
        self.failures
    }

    fn call<R: Wait>(
        &mut self,
        rt: &R,
        alloc: Global,
        to: Address,
        message: &Message,
    ) -> Result<Message, LinkError>
        ensures came { any_answer to message.now result }
        ensures went { CallsKept N.dialled N.leads P.took P.Stream.contents P.Stream.remaining to message.now result self.old self.new }
        ensures failures { failures_over self.new ≡ failures_over self.old + failures_in result }
        ensures spent { result ≡ Err LinkError.Spent ↔ failures_over self.old ≡ 2 ^ 64 - 1 }
        ensures named { IfErr result IsNamed }
        ensures long { IsTooLong message.now → failures_over self.old < 2 ^ 64 - 1
            → (result ≡ Err (LinkError.Wire WireError.LineTooLong)) ⊎ (result ≡ Err LinkError.Memory) }
    {
        self.foreign = None;
        self.fault = None;
        if self.failures == u64::MAX {
            return Err(LinkError::Spent);
        }
        let answer = self.ask(rt, alloc, to, message);
        if matches!(&answer, Err(LinkError::Io | LinkError::Closed)) {
            self.failures += 1;
        }
        answer
    }
}
