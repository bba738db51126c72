//! The node of an agent, as a thread of the agent calls it, the link over which it calls other nodes, and the state that the threads share.
#![tactic(auto)]

mod agents;
mod callers;
mod digests;
mod errors;
mod host_files;
mod lifecycles;
mod links;
mod peer_links;
mod rejections;
mod tellers;

pub use agents::{Agent, Phase};
pub use callers::{Caller, Node, Passes};
pub use digests::digest_of;
pub use errors::{AgentError, unwatched};
pub use host_files::{Hosts, renew_hosts};
pub use lifecycles::Lifecycle;
pub use links::{NotedHandler, NotedLink, source_of};
pub use peer_links::PeerLink;
pub use rejections::{Refused, note_foreign_line, note_input, note_own_line};
pub use tellers::{MAX_NOTICE_MILLIS, Teller};
