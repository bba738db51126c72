//! Scripts: several nodes in one process, driven by a command a line.

mod answers;
mod asked;
mod faults;
mod lines;
mod messages;
mod nodes;
mod readers;
mod runs;
mod simulation;

pub use faults::{ScriptError, SimError};
pub use runs::sim_run;
