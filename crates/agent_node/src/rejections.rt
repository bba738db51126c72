//! What is refused: messages of this node by other nodes, joins among them, and lines at this node's port.
ghost use Rattle.std.specs.Prelude.{◌≡◌};
ghost use Rattle.agent_node.specs.Rejections.{reason_of};

use crate::agents::Agent;
use agent_core::RefusalCounts;
use agent_state::{Count, Host, Notices};
use change_core::Address;
use cluster_names::{BEFORE_NAME, is_name};
use line_service::Input;
use log::{info, warn};
use message_core::{Content, Message, Reason};
use peer_core::LinkError;
use std::alloc::Global;
use std::net::{SocketAddr, TcpStream};
use std::sync::{Mutex, Wait};

/// The counts of what is refused, and what the log said last of it.
#[derive(Drop)]
pub struct Refused {
    joined: Count,
    join_refused: Count,
    join_failed: Count,
    messages: Count,
    malformed: Count,
    memory: Count,
    cluster: Count,
    /// Why a host refused the last Join that was answered; None if none was.
    join: Mutex<Option<Reason>>,
    /// What the log said last of nodes that refuse and, at the node's own address, of lines that it refuses.
    notices: Notices,
    /// What the log said last of lines of other clusters, by the address that was asked for them or, at the node's own address, that came here.
    strangers: Notices,
}

/// Returns the reason of an answer that is a refusal.
fn reason_of(answer: &Result<Message, LinkError>) -> Option<Reason>
    ensures { result ≡ reason_of answer.now }
{
    match answer {
        Ok(
            Message {
                content: Content::Refused(reason),
                ..
            },
        ) => Some(*reason),
        _ => None,
    }
}

impl Refused {
    /// Makes the counts, each of them 0.
    pub fn new(alloc: Global) -> Self {
        Refused {
            joined: Count::new(),
            join_refused: Count::new(),
            join_failed: Count::new(),
            messages: Count::new(),
            malformed: Count::new(),
            memory: Count::new(),
            cluster: Count::new(),
            join: Mutex::new(None),
            notices: Notices::new(alloc),
            strangers: Notices::new(alloc),
        }
    }

    /// Returns why a host refused the last Join that was answered; None if none was.
    pub fn join<W: Wait>(&self, rt: &W) -> Option<Reason> {
        *self.join.lock(rt)
    }

    /// Returns the counts.
    pub fn counts(&self) -> RefusalCounts {
        RefusalCounts {
            joined: self.joined.get(),
            join_refused: self.join_refused.get(),
            join_failed: self.join_failed.get(),
            messages: self.messages.get(),
            malformed: self.malformed.get(),
            memory: self.memory.get(),
            cluster: self.cluster.get(),
        }
    }

    /// Counts a Join by its answer, which is a refusal if there is a reason.
    fn note_join<W: Wait>(&self, rt: &W, is_answered: bool, reason: Option<Reason>) {
        if !is_answered {
            return self.join_failed.add(1);
        }
        *self.join.lock(rt) = reason;
        if reason.is_some() {
            self.join_refused.add(1);
        } else {
            self.joined.add(1);
        }
    }
}

/// Notes the answer of a node to a message of this one, and logs that the node refuses it, or no longer does.
pub fn note_answer<R: Host>(
    agent: &Agent<R>,
    to: Address,
    message: &Message,
    answer: &Result<Message, LinkError>,
) {
    let Agent { rt, refused, .. } = agent;
    let reason = reason_of(answer);
    if matches!(&message.content, Content::Join(_)) {
        refused.note_join(rt, answer.is_ok(), reason);
    }
    // (nothing is said of an answer while no node has refused a message)
    if answer.is_err() || reason.is_none() && refused.messages.get() == 0 {
        return;
    }
    let is_news = refused.notices.note(rt, to, reason.is_some(), agent.now());
    match reason {
        Some(reason) => {
            refused.messages.add(1);
            if is_news {
                let reason = reason.word();
                warn!(agent.log(); "{to} refused a message of this node: {reason}");
            }
        }
        None => {
            if is_news {
                info!(agent.log(); "{to} refuses this node's messages no longer");
            }
        }
    }
}

/// Counts a line at this node's port that is refused, and logs that there are some, or that lines are read again.
pub fn note_input<R: Host>(agent: &Agent<R>, stream: &TcpStream, input: &Input) {
    let Agent {
        rt,
        refused,
        own,
        ..
    } = agent;
    let is_refused = matches!(input, Input::Refused(_));
    // (nothing is said of a line while none was refused)
    if !is_refused && refused.malformed.get() == 0 && refused.memory.get() == 0 {
        return;
    }
    let is_news = refused.notices.note(rt, *own, is_refused, agent.now());
    match input {
        Input::Refused(reason) => {
            match reason {
                Reason::Memory => refused.memory.add(1),
                _ => refused.malformed.add(1),
            }
            if is_news {
                let reason = reason.word();
                match stream.peer_addr() {
                    Ok(from) => warn!(agent.log(); "a line of {from} was refused: {reason}"),
                    Err(_) => warn!(agent.log(); "a line was refused: {reason}"),
                }
            }
        }
        Input::Message(_) | Input::Nothing => {}
    }
}

/// Notes that a line of this node's cluster came from this address.
pub fn note_own_line<R: Host>(agent: &Agent<R>, at: Address) {
    let _news = agent
        .refused
        .strangers
        .note(&agent.rt, at, false, agent.now());
}

/// Returns the name of a cluster that a line has, as the log says it; None if it has none.
fn name_in(line: &[u8]) -> Option<&str> {
    let rest = line.strip_prefix(BEFORE_NAME)?;
    let end = rest.iter().position(|byte| *byte == b'"')?;
    let name = &rest[..end];
    if is_name(name) {
        str::from_utf8(name).ok()
    } else {
        None
    }
}

/// Counts a line from a socket that is of another cluster or of none, and logs it unless the log said so last of this address.
pub fn note_foreign_line<R: Host>(agent: &Agent<R>, at: Address, from: &SocketAddr, line: &[u8]) {
    let refused = &agent.refused;
    refused.cluster.add(1);
    let Some(own) = &agent.cluster else {
        return;
    };
    if !refused.strangers.note(&agent.rt, at, true, agent.now()) {
        return;
    }
    match name_in(line) {
        Some(name) => {
            warn!(agent.log(); "a line of {from} was refused: it is of cluster {name}, and this node of {own}");
        }
        None => {
            warn!(agent.log(); "a line of {from} was refused: it names no cluster, and this node is of {own}");
        }
    }
}
