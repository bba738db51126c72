//! A text out.
ghost use Rattle.std.specs.Prelude.{◌≡◌, ◌∷◌, ◌++◌, [], IfErr, OnOk, IsOkUnless};
ghost use Rattle.std.specs.Io.KnownBytes.{Appends};
ghost use Rattle.cli_core.specs.Runs.{LeavesPart};

use crate::faults::RunError;
use std::io::Write;
use wire_json::write_line;

/// Writes the text and a newline, and flushes.
///
/// # Errors
///
/// - `CannotWrite`: the writer failed. A prefix of them is written.
pub fn write_text<W: Write>(writer: &mut W, text: &str) -> Result<(), RunError>
    ensures ok { OnOk result (Appends (W.contents writer.old) (W.contents writer.new) (text.now ++ 10 ∷ [])) }
    ensures left { IfErr result (λ e. LeavesPart (text.now ++ 10 ∷ []) e
        (W.contents writer.old) (W.contents writer.new)) }
    ensures refusal { IsOkUnless result RunError.CannotWrite }
{
    write_line(writer, text.as_bytes()).map_err(|_| RunError::CannotWrite)
}
