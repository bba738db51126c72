//! The calls of a node as values, and what they answer.
use crate::errors::NodeError;
use crate::lists::{ChangeList, KeyBytes};
use change_core::{Address, Change, Digest, Entry, Moment};
use detector_core::{Addresses, Probe, Running, Said};
use message_core::{Changes, Message, Text};
use thiserror::Error;

/// The number of changes that altered an entry, and how many of these were refuted.
#[derive(Clone, Copy, Debug, PartialEq, Eq)]
pub struct Taken {
    pub applied: usize,
    pub refuted: usize,
}

/// The cause for which a batch of changes stopped.
#[derive(Clone, Copy, Debug, PartialEq, Eq, Error)]
pub enum StopCause {
    /// The next change calls for a refutation, and no incarnation is left for it.
    #[error("no incarnation is left")]
    Exhausted,
    /// The next change is about an unknown address, and as many members are held as may be.
    #[error("too many members")]
    Full,
    /// Out of memory.
    #[error("out of memory")]
    Memory,
}

/// A batch that stopped: its first `taken` changes were processed, old ones counted too, and no other.
#[derive(Clone, Copy, Debug, PartialEq, Eq, Error)]
#[error("stopped after {taken} changes: {cause}")]
pub struct Stopped {
    pub taken: usize,
    pub cause: StopCause,
}

/// The result of a message that was received.
#[derive(Debug, Drop)]
pub enum Received {
    /// Its changes are processed, and it needs no answer.
    Done(Taken),
    /// Its changes are processed, and this is the answer.
    Answer(Taken, Message),
    /// Its changes are processed, and the answer is missing: out of memory.
    NoAnswer(Taken),
    /// A change stopped the batch, and no answer is made.
    Stopped(Stopped),
    /// The message is not of the membership, and is ignored.
    NotGossip,
}

/// The result of a probe that was lost.
#[derive(Debug, Drop)]
pub enum NodeLost {
    /// These members are to be asked to ping the target.
    Ask(Addresses),
    /// There is no helper to ask: the target is suspect, by this change if it was alive.
    Suspect(Option<Change>),
}

/// The result of a helper's report.
#[derive(Clone, Copy, Debug, PartialEq, Eq)]
pub enum NodeOutcome {
    /// Another helper has not answered.
    Waiting,
    /// The target was reached.
    Reached,
    /// The target is suspect, by this change where it was held as alive.
    Suspect(Option<Change>),
    /// Every helper failed.
    Inconclusive,
}

/// A call of a node, with its arguments.
#[derive(Debug, Drop)]
pub enum Event {
    Take(Changes, Moment),
    Receive(Message, Moment),
    JoinMessage,
    PingTo(Address),
    PingReqTo {
        helper: Address,
        target: Address,
    },
    PingReqAckTo {
        requester: Address,
        target: Address,
        reached: bool,
    },
    Leave,
    Rejoin,
    Expire(Moment),
    Probe,
    Acked(u64),
    Lost(u64, Moment),
    HelperSaid {
        number: u64,
        helper: Address,
        said: Said,
        moment: Moment,
    },
    Running,
    Own,
    Member(Address),
    Len,
    Owner(KeyBytes),
    Owners(KeyBytes, usize),
    Members,
    DigestText,
    Digest,
}

/// The reply to a call: a variant for each variant of `Event`, under its name.
#[derive(Debug, Drop)]
pub enum Reply {
    Take(Result<Taken, Stopped>),
    Receive(Received),
    JoinMessage(Result<Message, NodeError>),
    PingTo(Result<Message, NodeError>),
    PingReqTo(Result<Message, NodeError>),
    PingReqAckTo(Result<Message, NodeError>),
    Leave(Result<Change, NodeError>),
    Rejoin(Result<Change, NodeError>),
    Expire(Result<Option<Change>, NodeError>),
    Probe(Result<Option<Probe>, NodeError>),
    Acked(Result<(), NodeError>),
    Lost(Result<NodeLost, NodeError>),
    HelperSaid(Result<NodeOutcome, NodeError>),
    Running(Option<Running>),
    Own(Change),
    Member(Option<Entry>),
    Len(usize),
    Owner(Option<Address>),
    Owners(Result<Addresses, NodeError>),
    Members(Result<ChangeList, NodeError>),
    DigestText(Result<Text, NodeError>),
    Digest(Result<Digest, NodeError>),
}
