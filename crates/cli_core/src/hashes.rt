//! The hash of a text out.
ghost use Rattle.std.specs.Prelude.{◌≡◌, ◌∷◌, ◌++◌, [], IfOk, IfErr, OnOk, IsOkUnless, string_bytes};
ghost use Rattle.std.specs.Io.KnownBytes.{Appends};
ghost use Rattle.cli_core.specs.Hash.{hash_text};
ghost use Rattle.cli_core.specs.Runs.{LeavesPart};

use crate::faults::RunError;
use crate::outputs::write_text;
use hash_ring::{PointHash, Sha256Hash};
use std::alloc::Global;
use std::io::Write;

/// Returns the 16 lower-case hexadecimal digits of a text's `Sha256Hash`.
///
/// # Errors
///
/// - `OutOfMemory`: out of memory.
pub fn hash_text(alloc: Global, text: &str) -> Result<String, RunError>
    ensures text { IfOk result (λ s. string_bytes s ≡ hash_text text.now) }
    ensures refusal { IsOkUnless result RunError.OutOfMemory }
{
    let hash = Sha256Hash.hash(text.as_bytes());
    Ok(format!(in alloc; "{hash:016x}")?)
}

/// Writes the digits of a text's hash and a newline.
///
/// # Errors
///
/// - `OutOfMemory`: out of memory. There is no output.
/// - `CannotWrite`: the writer failed. A prefix of the output is written.
pub fn hash_run<W: Write>(alloc: Global, text: &str, writer: &mut W) -> Result<(), RunError>
    ensures ok { OnOk result (Appends (W.contents writer.old) (W.contents writer.new)
        (hash_text text.now ++ 10 ∷ [])) }
    ensures left { IfErr result (λ e. LeavesPart (hash_text text.now ++ 10 ∷ []) e
        (W.contents writer.old) (W.contents writer.new)) }
{
    let digits = hash_text(alloc, text)?;
    write_text(writer, digits.as_str())
}
