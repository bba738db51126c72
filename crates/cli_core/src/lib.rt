//! The commands of the program, from bytes read to bytes written: `fold`, `hash`, `owner` and `sim`.
#![tactic(auto)]

mod counted;
mod faults;
mod fold;
mod hashes;
pub mod laws;
mod members;
mod outputs;
mod owners;
mod scripts;
mod subcommands;
mod tables;
mod words;

pub use faults::{LineError, RunError};
pub use fold::{fold_run, fold_text};
pub use hashes::{hash_run, hash_text};
pub use owners::{owner_run, ring_of};
pub use scripts::{ScriptError, SimError, sim_run};
pub use subcommands::{Subcommand, SubcommandError, subcommand_run};
pub use tables::table_text;
pub use words::{
    AskAnyWords, AskWords, ClusterCommand, MAX_REQUESTS, MembersForm, MembersWords, OwnerWords,
    ServeWords, SimWords,
};
