//! The talk of a node with its peers: rounds of gossip, joining, serving, and requests that find their owner, over any
//! link, handler and clock.
#![tactic(auto)]

mod asking;
mod clocks;
mod correcting;
mod errors;
mod forwarding;
mod gossiping;
mod handlers;
mod healing;
mod hearing;
mod joining;
pub mod laws;
mod links;
mod meeting;
mod member_errors;
mod members;
mod probing;
mod rounds;
mod serving;
mod steps;

pub use clocks::Clock;
pub use correcting::correcting_round;
pub use errors::{ClusterError, HandlerFault, LinkError};
pub use forwarding::handle_or_forward;
pub use gossiping::gossip_round;
pub use handlers::{Handler, HandlerMut};
pub use healing::{Healing, heal};
pub use joining::join;
pub use links::Link;
pub use member_errors::{CallError, JoinError, LeaveError, RejoinError, RequestError, RoundError};
pub use members::Member;
pub use rounds::Round;
pub use serving::{refuse, serve_one};
pub use steps::{allowed, let_in};
