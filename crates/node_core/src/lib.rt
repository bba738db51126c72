//! The node of one thread: what it holds, and what each call does and answers.
#![tactic(auto)]

mod configs;
mod edits;
mod errors;
mod events;
mod expiring;
pub mod laws;
mod lists;
mod lookups;
mod makers;
mod node;
mod pingable;
mod probes;
mod receiving;
mod replies;
mod rings;
mod runs;
mod taking;
mod views;

pub use configs::{Config, ConfigField, MAX_WORKERS};
pub use errors::NodeError;
pub use events::{Event, NodeLost, NodeOutcome, Received, Reply, StopCause, Stopped, Taken};
pub use lists::{ChangeList, KeyBytes};
pub use node::NodeState;
pub use replies::{Replies, Run, RunRefused};
pub use runs::run;
pub use views::View;
