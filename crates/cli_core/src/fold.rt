//! Change lines in, the digest text and the digest of their members out.
ghost use Rattle.std.specs.Prelude.{◌≡◌, ◌∷◌, ◌++◌, [], IfOk, IfErr, IfSome, OnOk, IsOkUnless, string_bytes};
ghost use Rattle.cli_core.specs.Changes.{IsRefused};
ghost use Rattle.cli_core.specs.Runs.{Leaves, Writes};
ghost use Rattle.cli_core.specs.Fold.{fold_text};

use crate::faults::RunError;
use crate::members::read_members;
use crate::outputs::write_text;
use member_core::MemberTable;
use std::alloc::Global;
use std::io::{Read, Write};

/// Returns the digest text and the digest, a line each, without the last newline.
///
/// # Errors
///
/// - `OutOfMemory`: out of memory.
pub fn fold_text(alloc: Global, table: &MemberTable) -> Result<String, RunError>
    ensures text { IfOk result (λ s. string_bytes s ++ 10 ∷ [] ≡ fold_text table.now.members) }
    ensures refusal { IsOkUnless result RunError.OutOfMemory }
{
    let digest = table.digest().map_err(|_| RunError::OutOfMemory)?;
    let digits = digest.text(alloc).map_err(|_| RunError::OutOfMemory)?;
    let mut text = table.digest_text().map_err(|_| RunError::OutOfMemory)?;
    write!(text, "\n{digits}")?;
    Ok(text)
}

/// Reads change lines to the end, and writes the digest text of their members and its SHA-256, a line each.
///
/// # Errors
///
/// - `AtLine`: a line has an error; the first one is named. There is no output.
/// - `OutOfMemory`: out of memory. There is no output.
/// - `CannotWrite`: the writer failed. A prefix of the output is written.
pub fn fold_run<R: Read, W: Write>(
    alloc: Global,
    reader: &mut R,
    writer: &mut W,
) -> Result<(), RunError>
    ensures output { OnOk result (Writes fold_text
        (R.remaining reader.old) (W.contents writer.old) (W.contents writer.new)) }
    ensures fault { IfErr result (λ e. IfSome (R.remaining reader.old) (λ input. IsRefused input e)) }
    ensures left { IfErr result (λ e. Leaves fold_text e
        (R.remaining reader.old) (W.contents writer.old) (W.contents writer.new)) }
{
    let table = read_members(alloc, reader)?;
    let text = fold_text(alloc, &table)?;
    write_text(writer, text.as_str())
}
