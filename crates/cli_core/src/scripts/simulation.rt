//! The nodes of a script, its messages and its moment.
ghost use Rattle.std.specs.Prelude.{◌≡◌, ◌+◌, ◌<◌, ◌≤◌, ◌⊎◌, length, option_copied, IfOk, IfErr};
ghost use Rattle.hash_ring.specs.Points.{IsReplicas};
ghost use Rattle.cli_core.specs.Simulated.{IsRefusedFor, Obeys, beginning, message_of, most_messages, with_message};

use crate::scripts::answers::Answer;
use crate::scripts::faults::ScriptError;
use crate::scripts::lines::{Birth, Command, Question};
use crate::scripts::messages::Sent;
use crate::scripts::nodes::{
    ask_at, incarnation_at, initial_node, ping_at, place_of, put_at, receive_at,
};
use change_core::{Address, Moment};
use hash_ring::PointHash;
use message_core::Message;
use node_core::{NodeState, Received};
use std::alloc::Global;
use std::marker::Model;

/// The greatest number of nodes of a script.
pub const MAX_NODES: usize = 64;

/// The greatest number of messages that a script keeps.
pub const MAX_MESSAGES: usize = 65_536;

/// The nodes of a script in the order of their making, its messages by their numbers, and its moment. Contracts see the
/// script.
#[derive(Drop)]
pub struct Simulation<H: PointHash> {
    hash: H,
    replicas: u32,
    moment: Moment,
    nodes: Vec<NodeState<H>>,
    messages: Vec<Sent>,
    alloc: Global,
}

impl<H: PointHash> Model for Simulation<H> {
    ghost use Rattle.hash_ring.specs.Points.{IsReplicas};
    ghost use Rattle.cli_core.specs.Simulated.{Simulated, nodes_in};

    ghost Value = { Simulated H };

    ghost view = { λ a. record {
      hash = a.hash;
      replicas = a.replicas;
      moment = a.moment;
      nodes = nodes_in a.nodes.items;
      messages = a.messages.items;
    } };

    ghost invariant = { λ a. IsReplicas a.replicas };
}

impl<H: PointHash> Simulation<H> {
    /// No nodes and no messages, at moment 0.
    pub fn new(alloc: Global, hash: H, replicas: u32) -> Self
        requires { IsReplicas replicas }
        ensures { result ≡ beginning hash replicas }
    {
        Simulation {
            hash,
            replicas,
            moment: Moment::beginning(),
            nodes: Vec::new(alloc),
            messages: Vec::new(alloc),
            alloc,
        }
    }

    /// Runs a command, and returns its answer.
    ///
    /// # Errors
    ///
    /// A script ends at any error. The first that applies is returned.
    ///
    /// - `UnknownNode`, `NodeExists`, `TooManyNodes`, `UnknownMessage`, `TooManyMessages`, `IncarnationNotGreater`: the
    ///   command does not fit the nodes and messages of the script.
    /// - `OutOfMemory`: out of memory. The call of the node may have been made.
    pub fn obey(&mut self, command: &Command<'_>) -> Result<Answer, ScriptError>
        ensures answer { IfOk result (λ answer. Obeys H.hash_of self.old command.now answer self.new) }
        ensures fault { IfErr result (λ f. IsRefusedFor H.hash_of self.old command.now f) }
    {
        match command {
            Command::Node(birth) => self.make(birth),
            Command::At(moment) => {
                self.moment = *moment;
                Ok(Answer::Done)
            }
            Command::Ask(address, question) => self.ask(*address, question),
            Command::Send(address, target) => self.send(*address, *target),
            Command::Deliver(number) => self.deliver(*number),
            Command::Restart(birth) => self.restart(birth),
        }
    }

    /// Makes a node.
    fn make(&mut self, birth: &Birth) -> Result<Answer, ScriptError>
        ensures answer { IfOk result (λ answer. Obeys H.hash_of self.old (Command.Node birth.now) answer self.new) }
        ensures fault { IfErr result (λ f. IsRefusedFor H.hash_of self.old (Command.Node birth.now) f) }
    {
        if place_of(self.nodes.as_slice(), birth.address).is_some() {
            return Err(ScriptError::NodeExists);
        }
        if self.nodes.len() >= MAX_NODES {
            return Err(ScriptError::TooManyNodes);
        }
        let node = initial_node(self.alloc, self.hash, self.replicas, self.moment, birth)?;
        self.nodes.push(node)?;
        Ok(Answer::Done)
    }

    /// Starts a node again, at a greater incarnation.
    fn restart(&mut self, birth: &Birth) -> Result<Answer, ScriptError>
        ensures answer { IfOk result (λ answer. Obeys H.hash_of self.old (Command.Restart birth.now) answer self.new) }
        ensures fault { IfErr result (λ f. IsRefusedFor H.hash_of self.old (Command.Restart birth.now) f) }
    {
        let Some(place) = place_of(self.nodes.as_slice(), birth.address) else {
            return Err(ScriptError::UnknownNode);
        };
        let held = incarnation_at(self.nodes.as_slice(), place, birth.address);
        if birth.incarnation.number() <= held.number() {
            return Err(ScriptError::IncarnationNotGreater);
        }
        let node = initial_node(self.alloc, self.hash, self.replicas, self.moment, birth)?;
        put_at(&mut self.nodes, place, birth.address, node);
        Ok(Answer::Done)
    }

    /// Asks the node of an address.
    fn ask(&mut self, address: Address, question: &Question<'_>) -> Result<Answer, ScriptError>
        ensures answer { IfOk result (λ answer. Obeys H.hash_of self.old (Command.Ask address question.now) answer self.new) }
        ensures fault { IfErr result (λ f. IsRefusedFor H.hash_of self.old (Command.Ask address question.now) f) }
    {
        ask_at(&mut self.nodes, address, self.moment, question)
    }

    /// Keeps the ping of one address to another.
    fn send(&mut self, address: Address, target: Address) -> Result<Answer, ScriptError>
        ensures answer { IfOk result (λ answer. Obeys H.hash_of self.old (Command.Send address target) answer self.new) }
        ensures fault { IfErr result (λ f. IsRefusedFor H.hash_of self.old (Command.Send address target) f) }
    {
        let Some(place) = place_of(self.nodes.as_slice(), address) else {
            return Err(ScriptError::UnknownNode);
        };
        if self.messages.len() >= MAX_MESSAGES {
            return Err(ScriptError::TooManyMessages);
        }
        let message = ping_at(&mut self.nodes, place, address, target)?;
        let number = keep(&mut self.messages, target, message)?;
        Ok(Answer::Message(number))
    }

    /// Has the message of a number received, and keeps the answer to it.
    fn deliver(&mut self, number: u64) -> Result<Answer, ScriptError>
        ensures answer { IfOk result (λ answer. Obeys H.hash_of self.old (Command.Deliver number) answer self.new) }
        ensures fault { IfErr result (λ f. IsRefusedFor H.hash_of self.old (Command.Deliver number) f) }
    {
        let Some(sent) = message_at(self.messages.as_slice(), number) else {
            return Err(ScriptError::UnknownMessage);
        };
        let to = sent.to;
        let sender = sent.message.source;
        let Some(place) = place_of(self.nodes.as_slice(), to) else {
            return Ok(Answer::Lost);
        };
        match receive_at(&mut self.nodes, place, to, &sent.message, self.moment) {
            Received::Done(taken) => Ok(Answer::Taken(taken)),
            Received::Answer(taken, message) => {
                let number = keep(&mut self.messages, sender, message)?;
                Ok(Answer::Answered(taken, number))
            }
            Received::NoAnswer(_) => Err(ScriptError::OutOfMemory),
            Received::Stopped(stopped) => Ok(Answer::Stopped(stopped)),
            Received::NotGossip => Ok(Answer::Nothing),
        }
    }
}

/// The message of a number, from 1.
fn message_at(messages: &[Sent], number: u64) -> Option<&Sent>
    ensures { option_copied result ≡ message_of messages.now number }
{
    let place = number.checked_sub(1)?;
    messages.get(place as usize)
}

/// Keeps a message under the next number.
fn keep(messages: &mut Vec<Sent>, to: Address, message: Message) -> Result<u64, ScriptError>
    ensures number { IfOk result (λ n. (length messages.old.items < most_messages) × (n ≡ length messages.old.items + 1)
        × (messages.new.items ≡ with_message messages.old.items to message)) }
    ensures fault { IfErr result (λ f. ((f ≡ ScriptError.OutOfMemory) × (length messages.old.items < most_messages))
        ⊎ ((f ≡ ScriptError.TooManyMessages) × (most_messages ≤ length messages.old.items))) }
{
    let kept = messages.len();
    if kept >= MAX_MESSAGES {
        return Err(ScriptError::TooManyMessages);
    }
    messages.push(Sent { to, message })?;
    Ok(kept as u64 + 1)
}
