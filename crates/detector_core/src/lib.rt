//! Failure detection by random probing (SWIM, DSN 2002): which member is probed next, what became of a probe, and
//! which suspicion has run out.
#![tactic(auto)]

mod addresses;
mod asked;
mod errors;
mod helpers;
pub mod laws;
mod order;
mod prober;
mod timers;

pub use addresses::Addresses;
pub use asked::{Outcome, Said};
pub use errors::DetectorError;
pub use prober::{Lost, Probe, Prober, Running};
pub use timers::{Due, Timers};
