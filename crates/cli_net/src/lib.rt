//! The program's commands that speak to nodes, over any reader, writer and network: `serve`, `ask`, `members` and `tell`.
#![tactic(auto)]

mod asking;
mod commands;
mod dialled;
mod echoes;
mod faults;
mod hints;
mod looks;
mod nodes;
mod owners;
mod questions;
mod serving;
mod telling;

pub use asking::{ask_over, ask_run};
pub use cli_core::{
    AskAnyWords, AskWords, ClusterCommand, MAX_REQUESTS, MembersForm, MembersWords, ServeWords,
};
pub use commands::{ClusterCommandError, cluster_command_run};
pub use dialled::{DialledLink, Named};
pub use echoes::Echo;
pub use faults::{AskError, ServeError, TellError};
pub use hints::explain_command;
pub use looks::members_over;
pub use owners::ask_any_over;
pub use server::Runtime;
pub use serving::{ClosedNode, serve_run, serve_within};
pub use telling::tell_over;
