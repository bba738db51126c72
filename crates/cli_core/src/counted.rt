//! The lines of an input, one after another, counted from 1.
ghost use Rattle.std.specs.Prelude.{◌≡◌, ◌≤◌, vec_len, IfOk, IfErr, IfSome, IsSome};
ghost use Rattle.change_core.specs.Numbers.{greatest_number};
ghost use Rattle.wire_json.specs.Lines.{max_line};
ghost use Rattle.cli_core.specs.Counted.{IsCountedAs, IsCountedFault, ReadsLine};

use change_core::MAX_NUMBER;
use message_core::WireError;
use std::alloc::Global;
use std::io::Read;
use wire_json::read_line;

/// Returns the read line of this number. If it can't be counted, that is None at the end of the input, and an
/// error for any line.
fn counted(
    number: u64,
    read: Result<Option<Vec<u8>>, WireError>,
) -> Result<Option<Vec<u8>>, WireError>
    ensures { IsCountedAs number read result }
{
    if number <= MAX_NUMBER {
        return read;
    }
    match read {
        Ok(None) => Ok(None),
        Err(WireError::Memory) => Err(WireError::Memory),
        _ => Err(WireError::Io),
    }
}

/// Reads the line of this number; None at the end of the input. Lines are counted from 1 to 9007199254740991.
///
/// # Errors
///
/// - `LineTooLong`: the line has more than 1,048,576 bytes.
/// - `Io`: the reader failed, or the line can't be counted, whatever it is.
/// - `Memory`: out of memory for the line.
pub(crate) fn next_line<R: Read>(
    alloc: Global,
    reader: &mut R,
    number: u64,
) -> Result<Option<Vec<u8>>, WireError>
    ensures read { IfSome (R.remaining reader.old) (λ xs. ReadsLine xs result (R.remaining reader.new)) }
    ensures counted { IfOk result (λ line. IsSome line → number ≤ greatest_number) }
    ensures short { IfOk result (λ line. IfSome line (λ v. vec_len v ≤ max_line)) }
    ensures fault { IfErr result (λ e. IsCountedFault number e) }
{
    let read = read_line(alloc, reader);
    counted(number, read)
}
