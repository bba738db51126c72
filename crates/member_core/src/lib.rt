//! The members of a list of changes, kept as a table and updated one change at a time.
#![tactic(auto)]

mod entries;
mod errors;
pub mod laws;
mod memberships;
mod tables;
mod verdicts;

pub use errors::MemberError;
pub use memberships::Members;
pub use tables::MemberTable;
pub use verdicts::Verdict;
