//! Reading an answer that came over a link.
ghost use Rattle.std.specs.Prelude.{◌≡◌};
ghost use Rattle.peer_core.specs.Links.{IsAckOf, IsHeard, IsJoined, TellsOf, word_on};

use crate::errors::LinkError;
use change_core::Address;
use message_core::{Content, Kind, Message};

/// The result of asking another node.
#[derive(Drop)]
pub(crate) enum Heard {
    /// The answer that was wanted.
    Answer(Message),
    /// Another answer, an error of the link included.
    Other,
    /// Out of memory for the request or for its answer.
    OutOfMemory,
}

/// Returns the Ack of the target, if the answer is one.
pub(crate) fn expect_ack(answer: Result<Message, LinkError>, target: Address) -> Heard
    ensures { IsHeard (IsAckOf target) answer result }
{
    match answer {
        Ok(message) => {
            let is_ack = message.content.kind() == Kind::Ack;
            if is_ack && message.source == target {
                Heard::Answer(message)
            } else {
                Heard::Other
            }
        }
        Err(LinkError::Memory) => Heard::OutOfMemory,
        Err(_) => Heard::Other,
    }
}

/// Returns the Joined, if the answer is one.
pub(crate) fn expect_joined(answer: Result<Message, LinkError>) -> Heard
    ensures { IsHeard IsJoined answer result }
{
    match answer {
        Ok(message) => {
            if message.content.kind() == Kind::Joined {
                Heard::Answer(message)
            } else {
                Heard::Other
            }
        }
        Err(LinkError::Memory) => Heard::OutOfMemory,
        Err(_) => Heard::Other,
    }
}

/// Returns whether the target was reached, if the content is a PingReqAck about it.
pub(crate) fn word_on_target(content: &Content, target: Address) -> Option<bool>
    ensures { result ≡ word_on target content.now }
{
    match content {
        Content::PingReqAck(_, about, reached) if *about == target => Some(*reached),
        _ => None,
    }
}

/// Returns the PingReqAck about the target, if the answer is one.
pub(crate) fn expect_verdict(answer: Result<Message, LinkError>, target: Address) -> Heard
    ensures { IsHeard (TellsOf target) answer result }
{
    match answer {
        Ok(message) => {
            if word_on_target(&message.content, target).is_some() {
                Heard::Answer(message)
            } else {
                Heard::Other
            }
        }
        Err(LinkError::Memory) => Heard::OutOfMemory,
        Err(_) => Heard::Other,
    }
}
