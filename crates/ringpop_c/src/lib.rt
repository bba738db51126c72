//! The node of one thread for C: a handle that the caller holds, numbers and buffers in, numbers and buffers out. An
//! export makes at most one call of the node in its handle, and returns the number of a `Code`.
#![tactic(auto)]

mod asserting;
mod buffers;
mod codes;
mod configs;
mod entries;
mod handles;
pub mod laws;
mod lookups;
mod makers;
mod messages;
mod owners;
mod probes;
mod reading;
mod receiving;
mod slots;
mod taking;
mod views;

pub use codes::Code;
pub use configs::RingpopConfig;
pub use entries::RingpopEntry;
pub use handles::{RingpopNode, RingpopView};
pub use owners::RingpopAddress;
pub use slots::{BoxedNode, BoxedView};
