//! Requests that may end early: after a send of which nothing is known, one that is to be sent at most once; and one whose wait is over.
ghost use Rattle.std.specs.Prelude.{◌≡◌, ◌||◌, ◌+◌, ◌-◌, ◌^◌, ◌↔◌, None, Err, IfErr, false, is_err, true};
ghost use Rattle.peer_core.specs.Links.{IsNamed, failures_in};
ghost use Rattle.agent_node.specs.PeerLinks.{failures_by};
ghost use Rattle.agent_api.specs.Onces.{MayConnect, ends_request, is_unsure, net_of, noted_by, unnoted, was_made};

use crate::patience::{Patience, limits_within};
use agent_node::{NotedLink, PeerLink, source_of};
use agent_state::Host;
use change_core::Address;
use message_core::{Content, Message};
use peer_core::{Link, LinkError};
use std::alloc::Global;
use std::io;
use std::net::{SocketAddr, TcpStream};
use std::sync::Wait;
use std::time::Duration;
use transport::Dial;

/// A network that counts its connections.
#[derive(Drop)]
pub struct CountedNet<N> {
    net: N,
    /// The number of connections that were made, modulo 2^64.
    made: u64,
}

impl<N: Dial<Stream = TcpStream>> Dial for CountedNet<N> {
    ghost use Rattle.agent_api.specs.Onces.{Dials};

    type Stream = TcpStream;

    ghost leads = { N.leads };

    // a connection is counted
    ghost dialled = { Dials N.dialled };

    fn dial(&mut self, to: &SocketAddr, limit: Duration) -> io::Result<TcpStream> {
        let stream = self.net.dial(to, limit)?;
        self.made = self.made.wrapping_add(1);
        Ok(stream)
    }
}

/// Returns whether, by this answer, the node that was called may have performed a request without its reply: it answered otherwise than by a Reply or a
/// NotOwner, or it gave no answer, and a connection to it was made.
fn is_unsure(answer: &Result<Message, LinkError>, was_made: bool) -> bool
    ensures { result ≡ is_unsure answer.now was_made }
{
    match answer {
        Ok(message) => !matches!(&message.content, Content::Reply(_) | Content::NotOwner),
        Err(_) => was_made,
    }
}

/// Returns whether an answer ends a request: it is neither a Reply nor a NotOwner, and the wait is over, or a node may have performed a request that may not
/// be performed twice.
fn ends_request(
    answer: &Result<Message, LinkError>,
    is_unsure: bool,
    is_repeatable: bool,
    is_late: bool,
) -> bool
    ensures { result ≡ ends_request answer.now is_unsure is_repeatable is_late }
{
    let is_last = is_late || (is_unsure && !is_repeatable);
    match answer {
        Ok(message) => is_last
            && !matches!(&message.content, Content::Reply(_) | Content::NotOwner),
        Err(_) => is_last,
    }
}

/// A link over which one request is sent. It ends the request by the one error of a link after which it is not sent again: once a node may have performed it
/// without a reply, if it may not be performed twice, and once its wait is over.
#[derive(Drop)]
pub struct OnceLink<'l, 'a, R, N> {
    patience: &'l Patience<'a, R>,
    /// The link of the agent that notes each call.
    noted: &'l mut NotedLink<'a, R>,
    /// The link over which each send opens a connection.
    link: PeerLink<'a, R, CountedNet<N>>,
    is_repeatable: bool,
    failures: u64,
    /// The node that gave the answer to the last call; None if there was none, or if it ended the request.
    pub last: Option<Address>,
    /// Whether a node may have performed the request without a reply.
    pub is_unsure: bool,
    /// Whether the last call ended the request.
    pub is_over: bool,
}

impl<'l, 'a, R: Host, N: Dial<Stream = TcpStream>> OnceLink<'l, 'a, R, N> {
    /// Makes a link for one request over this network, whose calls a link of the agent notes.
    pub fn new(
        patience: &'l Patience<'a, R>,
        noted: &'l mut NotedLink<'a, R>,
        net: N,
        is_repeatable: bool,
    ) -> Self
        ensures noted { noted_by result ≡ unnoted is_repeatable }
        ensures net { (net_of result).net ≡ net }
        ensures failures { result.failures ≡ 0 }
    {
        let agent = patience.agent;
        let net = CountedNet { net, made: 0 };
        OnceLink {
            patience,
            noted,
            link: PeerLink::new(agent, net, agent.timeouts.links),
            is_repeatable,
            failures: 0,
            last: None,
            is_unsure: false,
            is_over: false,
        }
    }

    /// Refuses to send, as a link that is spent.
    fn refuse(&mut self) -> Result<Message, LinkError>
        ensures error { result ≡ Err LinkError.Spent }
        ensures over { self.new.is_over ≡ false }
        ensures last { self.new.last ≡ None }
        ensures unsure { self.new.is_unsure ≡ self.old.is_unsure }
        ensures repeatable { self.new.is_repeatable ≡ self.old.is_repeatable }
        ensures failures { self.new.failures ≡ self.old.failures }
        ensures net { net_of self.new ≡ net_of self.old }
    {
        self.is_over = false;
        self.last = None;
        Err(LinkError::Spent)
    }

    /// Ends the request.
    fn end(&mut self) -> Result<Message, LinkError>
        ensures error { result ≡ Err LinkError.Memory }
        ensures over { self.new.is_over ≡ true }
        ensures last { self.new.last ≡ None }
        ensures unsure { self.new.is_unsure ≡ self.old.is_unsure }
        ensures repeatable { self.new.is_repeatable ≡ self.old.is_repeatable }
        ensures failures { self.new.failures ≡ self.old.failures }
        ensures net { net_of self.new ≡ net_of self.old }
    {
        self.is_over = true;
        self.last = None;
        Err(LinkError::Memory)
    }

    /// Sends a message within this many milliseconds, once, over a new connection.
    fn send(
        &mut self,
        alloc: Global,
        to: Address,
        message: &Message,
        millis: u64,
    ) -> Result<Message, LinkError>
        ensures connects { MayConnect N.dialled to (net_of self.old) (net_of self.new) }
        ensures unmade { was_made (net_of self.old).made (net_of self.new).made ≡ false → is_err result ≡ true }
        ensures unsure { self.new.is_unsure ≡ (self.old.is_unsure || is_unsure result (was_made (net_of self.old).made (net_of self.new).made)) }
        ensures repeatable { self.new.is_repeatable ≡ self.old.is_repeatable }
        ensures failures { self.new.failures ≡ self.old.failures }
        ensures counted { failures_by self.new.link ≡ self.old.failures + failures_in result }
        ensures spent { result ≡ Err LinkError.Spent ↔ self.old.failures ≡ 2 ^ 64 - 1 }
        ensures named { IfErr result IsNamed }
    {
        let agent = self.patience.agent;
        let made = self.link.net().made;
        self.link
            .reset(limits_within(agent.timeouts.links, millis), self.failures);
        let answer = self.link.call(&agent.rt, alloc, to, message);
        let was_made = self.link.net().made != made;
        self.is_unsure = self.is_unsure || is_unsure(&answer, was_made);
        answer
    }

    /// Notes an answer. That none came in what was left of the wait says nothing of the node.
    fn note(
        &mut self,
        to: Address,
        message: &Message,
        answer: &Result<Message, LinkError>,
        is_late: bool,
    )
        ensures same { noted_by self.new ≡ noted_by self.old }
        ensures net { net_of self.new ≡ net_of self.old }
        ensures failures { self.new.failures ≡ self.old.failures }
        ensures counted { failures_by self.new.link ≡ failures_by self.old.link }
    {
        if is_late && answer.is_err() {
            self.patience.agent.counters.forwards.add(1);
        } else {
            self.noted.take(to, message, answer, self.link.fault());
        }
    }
}

impl<'l, 'a, R: Host, N: Dial<Stream = TcpStream>> Link for OnceLink<'l, 'a, R, N> {
    ghost use Rattle.peer_core.specs.Links.{any_answer};
    ghost use Rattle.agent_api.specs.Onces.{sends_once};

    ghost may_answer = { any_answer };

    ghost went = { sends_once N.dialled };

    ghost failed = { λ n. n.failures };

    fn failures(&self) -> u64 {
        self.failures
    }

    #[tactic(auto, using(crate::proofs::Unsure::went_spent))]
    fn call<W: Wait>(
        &mut self,
        _rt: &W,
        alloc: Global,
        to: Address,
        message: &Message,
    ) -> Result<Message, LinkError> {
        if self.failures == u64::MAX {
            return self.refuse();
        }
        let left = self.patience.left();
        if left == 0 {
            return self.end();
        }
        let answer = self.send(alloc, to, message, left);
        let is_late = self.patience.left() == 0;
        self.note(to, message, &answer, is_late);
        if ends_request(&answer, self.is_unsure, self.is_repeatable, is_late) {
            return self.end();
        }
        self.is_over = false;
        self.last = source_of(&answer);
        self.failures = self.link.failures();
        answer
    }
}
