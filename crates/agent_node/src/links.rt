//! A link that notes the node that gave its last answer, and a handler that notes whether it was called, so that a reply can
//! name the node that gave it.
ghost use Rattle.std.specs.Prelude.{◌≡◌, ◌↔◌, ◌⊎◌, IsTrue, None, false};
ghost use Rattle.agent_node.specs.PeerLinks.{failures_by};
ghost use Rattle.agent_node.specs.Noting.{disowned_by, disowned_with, source_of};

use crate::agents::Agent;
use crate::peer_links::PeerLink;
use crate::rejections::note_answer;
use agent_state::Host;
use change_core::Address;
use forward_core::MAX_SENDS;
use log::{info, warn};
use message_core::{Content, Keys, Message, Text};
use peer_core::{HandlerFault, HandlerMut, Link, LinkError};
use std::alloc::Global;
use std::io;
use std::sync::Wait;
use std::time::{Duration, Instant};
use transport::Limits;

/// Returns whether a call failed by this node's own link, which says nothing of the other node.
fn is_own(error: LinkError) -> bool
    ensures { IsTrue result ↔ ((error ≡ LinkError.Memory) ⊎ (error ≡ LinkError.Spent)) }
{
    matches!(error, LinkError::Memory | LinkError::Spent)
}

/// Returns the node that gave an answer; None if there is none.
pub fn source_of(answer: &Result<Message, LinkError>) -> Option<Address>
    ensures { result ≡ source_of answer.now }
{
    match answer {
        Ok(message) => Some(message.source),
        Err(_) => None,
    }
}

/// Returns how many requests in a row were answered by a NotOwner, after this number of them and one that was answered by this content.
fn disowned_by(disowned: u32, content: &Content) -> u32
    ensures { result ≡ disowned_by disowned content.now }
{
    match content {
        Content::NotOwner => disowned.saturating_add(1),
        _ => 0,
    }
}

/// A link of an agent. It notes the node that gave the last answer, counts the requests sent and the calls that failed, and
/// logs that a node does not answer, that it does again, and that this node's own link fails.
#[derive(Drop)]
pub struct NotedLink<'a, R> {
    agent: &'a Agent<R>,
    link: PeerLink<'a, R, R>,
    /// The node that gave the answer to the last call; None if there was none. A reply may be another node's than the one
    /// called, which relayed the request.
    pub last: Option<Address>,
    /// The number of requests in a row whose owner, by this node's view, answered that it is not.
    disowned: u32,
}

impl<'a, R: Host> NotedLink<'a, R> {
    /// Makes a link of this agent, with its time limits.
    pub fn new(agent: &'a Agent<R>) -> Self
        ensures last { result.last ≡ None }
    {
        NotedLink::with_limits(agent, agent.timeouts.links)
    }

    /// Makes a link of this agent that awaits the answer to a message, unless that is a ping or goes by way of a helper, for this many milliseconds at most.
    pub fn within(agent: &'a Agent<R>, millis: u64) -> Self
        ensures last { result.last ≡ None }
    {
        let limits = Limits {
            other: Duration::from_millis(millis),
            ..agent.timeouts.links
        };
        NotedLink::with_limits(agent, limits)
    }

    /// Makes a link of this agent with these time limits.
    fn with_limits(agent: &'a Agent<R>, limits: Limits) -> Self
        ensures last { result.last ≡ None }
    {
        NotedLink {
            agent,
            link: PeerLink::kept(agent, limits),
            last: None,
            disowned: 0,
        }
    }

    /// Returns how many requests in a row were answered so, with this answer of their owner by this node's view: it is not
    /// the owner. Warns, unless the log said so last, if there are as many as there are sends of a request.
    fn disowned_with(&self, owner: Address, answer: &Result<Message, LinkError>) -> u32
        ensures { result ≡ disowned_with self.now.disowned answer.now }
    {
        let Ok(message) = answer else {
            return 0;
        };
        let disowned = disowned_by(self.disowned, &message.content);
        let is_disowned = disowned > 0;
        if is_disowned && disowned < MAX_SENDS {
            return disowned;
        }
        let Agent { rt, disowners, .. } = self.agent;
        if disowners.note(rt, owner, is_disowned, self.agent.now()) && is_disowned {
            warn!(self.agent.log(); "{owner} does not own what this node's members give it: members or --replicas differ");
        }
        disowned
    }

    /// Takes the answer of a node to a message, with the error of the system if the call failed by one: notes who gave it, counts, and logs.
    pub fn take(
        &mut self,
        to: Address,
        message: &Message,
        answer: &Result<Message, LinkError>,
        fault: Option<io::Error>,
    )
        ensures failures { failures_by self.new.link ≡ failures_by self.old.link }
        ensures noted { self.new.last ≡ source_of answer.now }
    {
        self.last = source_of(answer);
        if matches!(&message.content, Content::Forward(_, _)) {
            self.agent.counters.forwards.add(1);
            self.disowned = self.disowned_with(to, answer);
        }
        self.note(to, answer, fault);
        note_answer(self.agent, to, message, answer);
    }

    /// Logs that a node did not answer, and why.
    fn warn_silent(&self, to: Address, error: LinkError, fault: Option<io::Error>) {
        match fault {
            Some(fault) => warn!(self.agent.log(); "{to} did not answer: {error}: {fault}"),
            None => warn!(self.agent.log(); "{to} did not answer: {error}"),
        }
    }

    /// Counts a failed call of a node, and logs it, or that the node answers, unless the log said so last.
    fn note(&self, to: Address, answer: &Result<Message, LinkError>, fault: Option<io::Error>) {
        let Agent {
            rt,
            own,
            notices,
            ..
        } = self.agent;
        let now = self.agent.now();
        if answer.is_err() {
            self.agent.counters.link_failures.add(1);
        }
        match answer {
            Ok(_) => {
                if notices.note(rt, to, false, now) {
                    info!(self.agent.log(); "{to} answers again");
                }
                if notices.note(rt, *own, false, now) {
                    info!(self.agent.log(); "messages are sent again");
                }
            }
            Err(error) if is_own(*error) => {
                if notices.note(rt, *own, true, now) {
                    warn!(self.agent.log(); "messages fail at this node: {error}");
                }
            }
            Err(error) => {
                if notices.note(rt, to, true, now) {
                    self.warn_silent(to, *error, fault);
                }
            }
        }
    }
}

impl<'a, R: Host> Link for NotedLink<'a, R> {
    ghost use Rattle.agent_node.specs.PeerLinks.{failures_by};
    ghost use Rattle.peer_core.specs.Links.{any_answer};
    ghost use Rattle.agent_node.specs.Noting.{notes_source};

    ghost may_answer = { any_answer };

    // the node that gave the answer is noted
    ghost went = { λ to message answer old new. notes_source to message answer old.last new.last };

    ghost failed = { λ n. failures_by n.link };

    fn failures(&self) -> u64 {
        self.link.failures()
    }

    fn call<W: Wait>(
        &mut self,
        rt: &W,
        alloc: Global,
        to: Address,
        message: &Message,
    ) -> Result<Message, LinkError> {
        let start = Instant::now(&self.agent.rt).ok();
        let answer = self.link.call(rt, alloc, to, message);
        if answer.is_ok() && matches!(&message.content, Content::Ping(_)) {
            self.agent.counters.pings.add_since(&self.agent.rt, start);
        }
        let fault = self.link.fault();
        self.take(to, message, &answer, fault);
        answer
    }
}

/// A handler that notes whether it was called.
#[derive(Drop)]
pub struct NotedHandler<A> {
    handler: A,
    pub was_asked: bool,
}

impl<A> NotedHandler<A> {
    /// Makes the handler, which was not called.
    pub fn new(handler: A) -> Self
        ensures asked { result.was_asked ≡ false }
    {
        NotedHandler {
            handler,
            was_asked: false,
        }
    }
}

impl<A: HandlerMut> HandlerMut for NotedHandler<A> {
    ghost use Rattle.agent_node.specs.Noting.{notes_handling};

    // a call is noted
    ghost handled = { notes_handling A.handled };

    fn handle_mut<R: Wait>(
        &mut self,
        rt: &R,
        alloc: Global,
        keys: &Keys,
        body: &Text,
    ) -> Result<Text, HandlerFault> {
        self.was_asked = true;
        self.handler.handle_mut(rt, alloc, keys, body)
    }
}
