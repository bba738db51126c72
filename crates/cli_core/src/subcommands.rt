//! The subcommands of the program, each with its arguments.
ghost use Rattle.std.specs.Prelude.{◌≡◌, IfErr, OnOk};
ghost use Rattle.cli_core.specs.Subcommands.{Fails, Finishes, Reads};
ghost use Rattle.cli_core.specs.declared.subcommands.SubcommandError.TheVariants.{Run, Sim};

use crate::faults::RunError;
use crate::fold::fold_run;
use crate::hashes::hash_run;
use crate::owners::owner_run;
use crate::scripts::{SimError, sim_run};
use crate::words::{OwnerWords, SimWords};
use std::alloc::Global;
use std::io::{Read, Write};
use thiserror::Error;

/// A subcommand with its arguments.
#[derive(Clone, Copy, Debug, PartialEq, Eq)]
pub enum Subcommand<'a> {
    /// The members' digest text and digest.
    Fold,
    /// The hash of a text.
    Hash(&'a str),
    /// The owners of a key.
    Owner(OwnerWords<'a>),
    /// The answers to a script.
    Sim(SimWords),
}

/// The errors of a subcommand.
#[derive(Clone, Copy, Debug, PartialEq, Eq, Error)]
pub enum SubcommandError {
    /// That of `fold`, `hash` and `owner`.
    #[error("{0}")]
    Run(RunError),
    /// That of `sim`.
    #[error("{0}")]
    Sim(SimError),
}

impl From<RunError> for SubcommandError {
    ghost from_gives = { λ e f. f ≡ Run e };

    fn from(fault: RunError) -> SubcommandError {
        SubcommandError::Run(fault)
    }
}

impl From<SimError> for SubcommandError {
    ghost from_gives = { λ e f. f ≡ Sim e };

    fn from(fault: SimError) -> SubcommandError {
        SubcommandError::Sim(fault)
    }
}

/// Runs the subcommand over the reader and the writer. `hash` reads nothing.
///
/// # Errors
///
/// - `Run`: the error of `fold_run`, `hash_run` or `owner_run`.
/// - `Sim`: the error of `sim_run`.
pub fn subcommand_run<R: Read, W: Write>(
    alloc: Global,
    subcommand: &Subcommand<'_>,
    reader: &mut R,
    writer: &mut W,
) -> Result<(), SubcommandError>
    ensures output { OnOk result (Finishes subcommand.now
        (R.remaining reader.old) (W.contents writer.old) (W.contents writer.new)) }
    ensures fault { IfErr result (λ e. Fails subcommand.now e
        (R.remaining reader.old) (W.contents writer.old) (W.contents writer.new)) }
    ensures unread { Reads subcommand.now (R.remaining reader.old) (R.remaining reader.new) }
{
    match subcommand {
        Subcommand::Fold => fold_run(alloc, reader, writer)?,
        Subcommand::Hash(text) => hash_run(alloc, text, writer)?,
        Subcommand::Owner(words) => owner_run(alloc, words, reader, writer)?,
        Subcommand::Sim(words) => sim_run(alloc, words, reader, writer)?,
    }
    Ok(())
}
