//! A link between the nodes of a cluster, which notes what is of another one.
ghost use Rattle.std.specs.Prelude.{◌≡◌, false};
ghost use Rattle.kept_links.specs.Exchanges.{keeps_over};
ghost use Rattle.message_core.specs.declared.messages.Content.{Content};
ghost use Rattle.agent_node.specs.PeerLinks.{failures_by, net_by};

use crate::agents::Agent;
use crate::rejections::{note_foreign_line, note_own_line};
use agent_state::Host;
use change_core::Address;
use kept_links::{KeptLink, Pool};
use message_core::Message;
use peer_core::{Link, LinkError};
use std::alloc::Global;
use std::io;
use std::net::TcpStream;
use std::sync::Wait;
use transport::{Dial, Limits, socket_address};

/// A link of an agent over sockets, whose lines have the name of the agent's cluster if it has one. A line of another cluster or of none does not
/// count as an answer: it is noted, and the call ends as if the connection had been closed.
#[derive(Drop)]
pub struct PeerLink<'a, R, N> {
    agent: &'a Agent<R>,
    link: KeptLink<'a, N, R, &'a Pool<TcpStream>>,
}

impl<'a, R, N> PeerLink<'a, R, N> {
    /// Makes a link of this agent over this network, with these time limits. Each call opens a connection.
    pub fn new(agent: &'a Agent<R>, net: N, limits: Limits) -> Self
        ensures failures { failures_by result ≡ 0 }
        ensures net { net_by result ≡ net }
        ensures unkept { (content : Content) → keeps_over result.link content ≡ false }
    {
        PeerLink {
            agent,
            link: KeptLink::new(net, &agent.rt, None, &agent.cluster, limits),
        }
    }

    /// Sets the time limits and the count of failures. Each call opens a connection from then on.
    pub fn reset(&mut self, limits: Limits, failures: u64)
        ensures failures { failures_by self.new ≡ failures }
        ensures net { net_by self.new ≡ net_by self.old }
        ensures unkept { (content : Content) → keeps_over self.new.link content ≡ false }
    {
        self.link.reset(limits, failures);
    }

    /// Returns the network that the link uses.
    pub fn net(&self) -> &N
        ensures { result.now ≡ net_by self.now }
    {
        self.link.net()
    }
}

impl<'a, R: Host> PeerLink<'a, R, R> {
    /// Makes a link of this agent with these time limits, which sends requests over the agent's connections that rest, if it can.
    pub fn kept(agent: &'a Agent<R>, limits: Limits) -> Self
        ensures failures { failures_by result ≡ 0 }
    {
        let pool = Some(&agent.spares);
        PeerLink {
            agent,
            link: KeptLink::new(agent.rt, &agent.rt, pool, &agent.cluster, limits),
        }
    }
}

impl<'a, R: Host, N> PeerLink<'a, R, N> {
    /// Returns the error of the system by which the last call failed; None if it did not fail by one.
    pub fn fault(&self) -> Option<io::Error> {
        self.link.fault()
    }

    /// Notes whose the answer of an address was: of another cluster, or of this one.
    fn note(&self, to: Address, answer: &Result<Message, LinkError>) {
        match self.link.foreign() {
            Some(line) => note_foreign_line(self.agent, to, &socket_address(to), line),
            None if answer.is_ok() => note_own_line(self.agent, to),
            None => {}
        }
    }
}

impl<'a, R: Host, N: Dial<Stream = TcpStream>> Link for PeerLink<'a, R, N> {
    ghost use Rattle.std.specs.Prelude.{◌+◌, ◌-◌, ◌^◌, ◌↔◌, Err, IfErr};
    ghost use Rattle.peer_core.specs.Links.{IsNamed, failures_in, any_answer};
    ghost use Rattle.agent_node.specs.PeerLinks.{ConnectsAtMostOnce, failures_by};

    ghost may_answer = { any_answer };

    ghost went = { λ _ _ _ _ _. Unit {0} };

    ghost failed = { λ l. failures_by l };

    fn failures(&self) -> u64 {
        self.link.failures()
    }

    fn call<W: Wait>(
        &mut self,
        rt: &W,
        alloc: Global,
        to: Address,
        message: &Message,
    ) -> Result<Message, LinkError>
        ensures came { any_answer to message.now result }
        ensures went { Unit {0} }
        ensures failures { failures_by self.new ≡ failures_by self.old + failures_in result }
        ensures spent { result ≡ Err LinkError.Spent ↔ failures_by self.old ≡ 2 ^ 64 - 1 }
        ensures named { IfErr result IsNamed }
        ensures connects { ConnectsAtMostOnce N.dialled to message.now result self.old.link self.new.link }
    {
        let answer = self.link.call(rt, alloc, to, message);
        self.note(to, &answer);
        answer
    }
}
