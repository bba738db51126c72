//! Messages that come to a node.
ghost use Rattle.std.specs.Prelude.{◌≡◌};
ghost use Rattle.node_core.specs.Receiving.{ReceiveStep, as_answered, as_taken};

use crate::errors::NodeError;
use crate::events::{Received, Stopped, Taken};
use crate::node::NodeState;
use change_core::Moment;
use hash_ring::PointHash;
use message_core::{Content, Message};

impl<H: PointHash> NodeState<H> {
    /// Processes the changes of a message, at a moment, and makes its answer: to a join the whole membership; to a ping
    /// the changes to pass on to its sender, or, if there are none and the digests differ, the whole membership
    /// (ringpop-go, package swim). A message that is not of the membership changes nothing.
    pub fn receive(&mut self, message: &Message, moment: Moment) -> Received
        ensures step { ReceiveStep self.old.node message.now moment result self.new.node }
    {
        match &message.content {
            Content::Join(news) => match self.take(news.changes.as_slice(), moment) {
                Ok(taken) => answered(taken, self.joined()),
                Err(stopped) => Received::Stopped(stopped),
            },
            Content::Ping(news) => match self.take(news.changes.as_slice(), moment) {
                Ok(taken) => answered(taken, self.ack(message.source, news.checksum)),
                Err(stopped) => Received::Stopped(stopped),
            },
            Content::Joined(news)
            | Content::Ack(news)
            | Content::PingReq(news, _)
            | Content::PingReqAck(news, _, _) => taken(self.take(news.changes.as_slice(), moment)),
            Content::Forward(_, _) | Content::Reply(_) | Content::NotOwner | Content::Refused(_) =>
                Received::NotGossip,
        }
    }
}

/// Returns the result of a message whose changes were processed, by its answer.
fn answered(taken: Taken, answer: Result<Message, NodeError>) -> Received
    ensures { result ≡ as_answered taken answer }
{
    match answer {
        Ok(message) => Received::Answer(taken, message),
        Err(_) => Received::NoAnswer(taken),
    }
}

/// Returns the result of a message that needs no answer, by the result of its changes.
fn taken(outcome: Result<Taken, Stopped>) -> Received
    ensures { result ≡ as_taken outcome }
{
    match outcome {
        Ok(taken) => Received::Done(taken),
        Err(stopped) => Received::Stopped(stopped),
    }
}
