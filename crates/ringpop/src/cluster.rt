//! Nodes in one process over channels, and what a service calls a node by over a link, a clock and a handle of its own.

pub use cluster_core::{ChannelLink, Cluster, StartError, StopError};
pub use locked_node::{CloseRefused, LockedNode};
pub use peer_core::{Clock, ClusterError, Healing, Link, LinkError, Member, Round, RoundError};
pub use server::{ServerClock, Stopwatch};
pub use transport::{Dial, TcpLink};
pub use turn_lock::{CloseError, NewError};
