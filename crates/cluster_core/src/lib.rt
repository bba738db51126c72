//! Nodes of one process that are served, and links between them over channels.
#![tactic(auto)]

mod channel_links;
mod clusters;
mod copies;
mod seats;

pub use channel_links::ChannelLink;
pub use clusters::{Cluster, StartError, StopError};
