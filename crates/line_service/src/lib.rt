//! The line service of a node: the port to which lines of other nodes come, what it answers to one, within which limits, and the clock by which it does.
#![tactic(auto)]

mod answering;
mod answers;
mod clocks;
mod inputs;
mod ports;
mod stopwatches;
mod timeouts;

pub use answering::respond;
pub use clocks::ServerClock;
pub use inputs::{Input, hear, hear_arrived};
pub use ports::{Arrival, MAX_PLACES, MAX_READ, Port, Turn, places_with};
pub use stopwatches::{Stopwatch, millis_of};
pub use timeouts::Timeouts;
