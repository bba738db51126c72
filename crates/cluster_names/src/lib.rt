//! The names of clusters, and lines that have one: a node of a cluster with a name refuses the lines of all others.
#![tactic(auto)]

pub mod laws;
mod lines;
mod names;

pub use lines::{Line, line_sent, next_line, sorted};
pub use names::{BEFORE_NAME, ClusterName, MAX_NAME_BYTES, is_name};
