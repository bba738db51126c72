//! Dissemination: the changes that a node passes on, each until it has been issued often enough.
#![tactic(auto)]

mod errors;
mod gossip;
pub mod laws;
mod pending;

pub use errors::GossipError;
pub use gossip::{Gossip, MAX_FACTOR};
