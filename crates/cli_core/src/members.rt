//! Change lines in, their members out.
ghost use Rattle.std.specs.Prelude.{◌≡◌, ◌≤◌, ◌++◌, ◌∷◌, [], true, length, IfOk, IfErr, IfSome, OnOk};
ghost use Rattle.change_core.specs.declared.changes.Sourced.{Sourced};
ghost use Rattle.change_core.specs.Members.{members};
ghost use Rattle.change_core.specs.Numbers.{greatest_number, most_members};
ghost use Rattle.cli_core.specs.Changes.{Hears, IsChangeLine, IsCounted, IsHeard, IsLineFault, IsRefused};

use crate::counted::next_line;
use crate::faults::{LineError, RunError};
use change_core::MAX_MEMBERS;
use member_core::{MemberError, MemberTable};
use std::alloc::Global;
use std::io::Read;
use wire_json::decode_change;

/// Takes the change that a line is.
fn take_line(alloc: Global, table: &mut MemberTable, line: &[u8]) -> Result<(), LineError>
    requires { table.old.max ≡ most_members }
    ensures ok { OnOk result ((c : Sourced) × IsChangeLine line.now c
        × (table.new.members ≡ members (table.old.members ++ c.change ∷ []))) }
    ensures err { IfErr result (λ fault. IsLineFault table.old.members line.now fault) }
    ensures fits { OnOk result (length table.new.members ≤ most_members) }
    ensures max { table.new.max ≡ most_members }
{
    let heard = decode_change(alloc, line)?;
    match table.take(heard.change) {
        Ok(_) => Ok(()),
        Err(MemberError::Full) => Err(LineError::TooManyMembers),
        Err(MemberError::Memory) => Err(LineError::OutOfMemory),
        Err(MemberError::BadLimit) => unreachable!(),
    }
}

/// Reads the line of this number and applies its change; false at the end of the input. A line that can't be counted is
/// `ReadFailed`, whatever it is, or `OutOfMemory` if reading it runs out of memory.
fn hear<R: Read>(
    alloc: Global,
    reader: &mut R,
    table: &mut MemberTable,
    number: u64,
) -> Result<bool, LineError>
    requires { table.old.max ≡ most_members }
    ensures heard { IfSome (R.remaining reader.old)
        (λ xs. Hears xs table.old.members result (R.remaining reader.new) table.new.members) }
    ensures counted { IfOk result (λ more. more ≡ true → number ≤ greatest_number) }
    ensures own { IfErr result (λ fault. IsCounted number fault) }
    ensures fits { IfOk result (λ more. more ≡ true → length table.new.members ≤ most_members) }
    ensures max { table.new.max ≡ most_members }
{
    let Some(line) = next_line(alloc, reader, number)? else {
        return Ok(false);
    };
    take_line(alloc, table, line.as_slice())?;
    Ok(true)
}

/// Reads change lines to the end, and returns their members. Lines are counted from 1 to 9007199254740991.
///
/// # Errors
///
/// - `AtLine`: the first line with an error, and the error. A line past the last number is `ReadFailed`, or
///   `OutOfMemory` if reading it runs out of memory.
/// - `OutOfMemory`: out of memory for something else than a line.
pub fn read_members<R: Read>(alloc: Global, reader: &mut R) -> Result<MemberTable, RunError>
    ensures ok { IfOk result (λ table. IfSome (R.remaining reader.old) (λ input.
        IsHeard input table.members)) }
    ensures err { IfErr result (λ fault. IfSome (R.remaining reader.old) (λ input. IsRefused input fault)) }
    ensures unwritten { IfErr result (λ fault. fault ≡ RunError.CannotWrite → ⊥) }
{
    let mut table = MemberTable::new(alloc, MAX_MEMBERS).unwrap();
    let mut number = 1;
    'lines: loop {
        match hear(alloc, reader, &mut table, number) {
            Ok(true) => number += 1,
            Ok(false) => return Ok(table),
            Err(fault) => return Err(RunError::AtLine(number, fault)),
        }
    }
}
