//! The tests of `cli_core`.
mod changes;
pub(crate) mod fakes;
mod folds;
mod reads;
mod refusals;
mod runs;
mod scripts;
mod subcommands;
