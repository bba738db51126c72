//! The node that threads share: each call of it is made in one turn of a lock, and its reply is the one-thread node's
//! at a point of one legal history. All that the caller's pass had seen is a prefix of that history.
#![tactic(auto)]

mod changes;
mod errors;
mod held;
pub mod laws;
mod lookups;
mod makers;
mod node;
mod probes;
mod turns;

pub use errors::CloseRefused;
pub use held::{Held, NodeCall};
pub use node::{LockedNode, NodePass};

// What its calls take and answer, so that a user names this crate alone.
pub use change_core::{
    Address, Change, Digest, Entry, Incarnation, Moment, Sourced, Status, Weight,
};
pub use detector_core::{Addresses, Probe, Running, Said};
pub use hash_ring::{PointHash, Sha256Hash, SumHash};
pub use message_core::{Changes, Content, Keys, Kind, Message, News, Reason, Text};
pub use node_core::{
    ChangeList, Config, ConfigField, NodeError, NodeLost, NodeOutcome, NodeState, Received,
    StopCause, Stopped, Taken, View,
};
pub use turn_lock::{CloseError, LockError, NewError};
