//! The run of a command line: what its words start, the agent among them, and the errors of the program with what is printed behind them.
#![tactic(auto)]

mod agents;
mod hints;
mod program_errors;
mod runs;

pub use agents::agent_run;
pub use hints::explain;
pub use program_errors::Fault;
pub use runs::words_run;
