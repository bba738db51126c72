//! What comes over the connections of other nodes, whose lines have the name of their cluster if it has one.
ghost use Rattle.std.specs.Prelude.{◌≡◌};
ghost use Rattle.agent_peers.specs.Lines.{HearsOwn, IsHeardBy, input_of};

use agent_node::{Agent, note_foreign_line, note_input, note_own_line};
use agent_state::Host;
use cluster_names::{ClusterName, next_line};
use line_service::{Input, hear};
use message_core::{Reason, WireError};
use std::alloc::Global;
use std::io::Read;
use std::net::TcpStream;

/// An input, or a line of another cluster, that came over a connection of another node.
#[derive(Debug, Drop)]
pub enum Heard {
    /// An input.
    Input(Input),
    /// A line of another cluster or of none.
    Foreign(Vec<u8>),
}

/// Returns what a line is that came to a node of a cluster of this name.
fn heard_by(alloc: Global, name: &ClusterName, line: Vec<u8>) -> Heard
    ensures { IsHeardBy name.now line.items result }
{
    match name.take_off(alloc, &line) {
        Ok(Some(plain)) => Heard::Input(hear(alloc, plain.as_slice())),
        Ok(None) => Heard::Foreign(line),
        Err(_) => Heard::Input(Input::Refused(Reason::Memory)),
    }
}

/// Reads one line, as [`hear`] does. Where the cluster has a name, a line without it is not read as a message.
pub fn hear_own<S: Read + Drop>(alloc: Global, cluster: &Option<ClusterName>, stream: S) -> Heard
    ensures { HearsOwn cluster.now (S.remaining stream) result }
{
    let Some(name) = cluster else {
        return Heard::Input(hear(alloc, stream));
    };
    match next_line(alloc, stream) {
        Ok(Some(line)) => heard_by(alloc, name, line),
        Ok(None) | Err(WireError::Io) => Heard::Input(Input::Nothing),
        Err(WireError::Memory) => Heard::Input(Input::Refused(Reason::Memory)),
        Err(_) => Heard::Input(Input::Refused(Reason::Malformed)),
    }
}

/// Returns the input of what was heard over a connection, noted: a line of another cluster or of none is refused.
pub fn input_of<R: Host>(agent: &Agent<R>, stream: &TcpStream, heard: Heard) -> Input
    ensures { result ≡ input_of heard }
{
    match heard {
        Heard::Input(input) => {
            note_own_line(agent, agent.own);
            note_input(agent, stream, &input);
            input
        }
        Heard::Foreign(line) => {
            if let Ok(from) = stream.peer_addr() {
                note_foreign_line(agent, agent.own, &from, &line);
            }
            Input::Refused(Reason::Malformed)
        }
    }
}
