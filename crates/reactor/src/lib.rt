//! A reactor: one thread accepts the connections of a listener and watches those that wait, so that a connection with nothing to read needs
//! no thread. One that becomes ready goes to a worker, which serves it while its client asks, and then parks it again.
#![tactic(auto)]

mod arrivals;
mod descriptors;
mod lots;
mod places;
mod reactors;
mod shortages;

pub use arrivals::{Arrived, look_at};
pub use descriptors::max_descriptors;
pub use lots::{Connection, Lot};
pub use places::Places;
pub use reactors::{Reactor, Timing};
pub use shortages::is_short;
