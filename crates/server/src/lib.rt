//! A server of one node over TCP, for any handler: threads that serve connections and one that makes the rounds, from `start` to
//! `stop`.
#![tactic(auto)]

mod connections;
mod errors;
mod healing;
mod promises;
mod round_clocks;
mod rounds;
mod running;
mod runtimes;
mod seats;
mod servers;
mod starting;
mod threads;

pub use connections::serve_connection;
pub use errors::{EndError, ServerError};
pub use healing::HealingPlan;
pub use line_service::{Input, Port, ServerClock, Stopwatch, Timeouts, hear, respond};
pub use reactor::Places;
pub use round_clocks::RoundClock;
pub use rounds::make_rounds;
pub use running::{Ended, Running};
pub use runtimes::Runtime;
pub use seats::Seat;
pub use servers::{Server, work};
pub use starting::{MAX_HANDLES, Settings, StartError, start};
