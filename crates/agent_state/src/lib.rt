//! What the threads of an agent share that knows no node: counters and flags, the log and what it said last, the places of requests that wait, the
//! questions that wait until the ring changes, and what the process uses.
#![tactic(auto)]

mod changes;
mod counters;
mod journals;
mod notices;
mod processes;
mod systems;
mod waiting;
mod watchers;

pub use changes::{is_refuted, log_changes, log_since_start};
pub use counters::{Count, Counters, Flag, Times, told};
pub use journals::{LogError, Logger, share_log, start_log};
pub use notices::Notices;
pub use processes::Process;
pub use systems::{Host, System};
pub use waiting::Waiting;
pub use watchers::{MAX_QUESTIONS, Question, Watchers, date};
