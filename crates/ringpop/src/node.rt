//! The node of one thread, whose calls never wait: for a transport of one's own.

pub use change_core::{ChangeError, Digest, Entry, Moment, Sourced};
pub use detector_core::{Addresses, Probe, Running as RunningProbe, Said};
pub use node_core::{
    Event, KeyBytes, NodeError, NodeLost, NodeOutcome, NodeState, Received, Reply, StopCause,
    Stopped, Taken,
};
