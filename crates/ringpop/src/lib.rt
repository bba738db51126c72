//! One import for a service that shards its work over the nodes of a cluster.
//!
//! A service writes a [`Handler`], starts a node and its server by [`start`], and takes a [`Seat`] at it: by that it joins hosts and sends
//! requests, and the node that owns a request's keys answers.
//!
//! What stands in a call of these is here, too, or in one of four modules: [`cluster`] has nodes in one process, links and a member of
//! one's own; [`node`] the node that never waits; [`ring`] the ring by itself; [`wire`] messages.
#![tactic(auto)]

pub mod cluster;
pub mod node;
pub mod ring;
pub mod wire;

pub use change_core::{Address, Change, Incarnation, Status, Weight};
pub use hash_ring::{PointHash, Sha256Hash};
pub use locked_node::NodePass;
pub use message_core::{Keys, Text, WireError};
pub use node_core::{ChangeList, Config, ConfigField, View};
pub use peer_core::{
    CallError, Handler, HandlerFault, JoinError, LeaveError, RejoinError, RequestError,
};
pub use server::{
    EndError, Ended, HealingPlan, MAX_HANDLES, RoundClock, Running, Runtime, Seat, Server,
    ServerError, Settings, StartError, Timeouts, start,
};
pub use transport::Limits;
pub use turn_lock::LockError;
