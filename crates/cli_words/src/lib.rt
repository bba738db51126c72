//! The arguments of the command line.
#![tactic(auto)]

mod agent_reading;
mod agent_words;
mod bad_arguments;
mod cluster_options;
mod cluster_words;
mod commands;
mod faults;
mod help;
mod hosts_options;
mod log_options;
mod words;

pub use agent_words::{AgentWords, FollowingWords, LogLevel};
pub use bad_arguments::{BadArgument, bad_argument};
pub use faults::WordsError;
pub use words::{ClusterWords, Words, read_words, words_not_text};
