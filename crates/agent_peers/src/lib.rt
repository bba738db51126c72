//! What an agent and other nodes ask of each other: the node's port, requests that are passed on, rounds, and joins.
#![tactic(auto)]

mod admissions;
mod hands;
mod hosts;
mod lines;
mod peers;
mod ports;
mod relays;
mod rounds;
mod tombstones;

pub use hands::end_hands;
pub use hosts::start_joins;
pub use ports::{READERS, start_port};
pub use rounds::start_rounds;
