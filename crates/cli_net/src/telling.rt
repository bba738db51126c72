//! Changes that a running node is told, a line each.
ghost use Rattle.std.specs.Prelude.{◌≡◌, ◌≤◌, ◌+◌, true, Err, IfErr, IfOk, IfSome, IsOkUnless, OnOk, length, string_bytes};
ghost use Rattle.change_core.specs.Numbers.{most_members};
ghost use Rattle.change_core.specs.Numeral.{number_text};
ghost use Rattle.cli_net.specs.Membership.{IsUnwritten, WritesSeen};
ghost use Rattle.cli_net.specs.Telling.{Gives, HearsChange, IsNoNews, IsUntold, TakesTurn, Tells, count_line};
ghost use Rattle.cli_net.specs.declared.faults.AskError.{AskError};

use crate::faults::{AskError, TellError};
use crate::looks::look;
use crate::questions::write_text;
use change_core::{Address, MAX_MEMBERS, Sourced};
use cli_core::LineError;
use message_core::Changes;
use peer_core::Link;
use std::alloc::Global;
use std::io::{Read, Write};
use std::sync::Wait;
use wire_json::{decode_change, read_line};

/// The greatest number of changes of a message, which is that of a cluster's members.
const MAX_CHANGES: usize = MAX_MEMBERS;

/// Reads one change line; none at the end of the input.
fn read_change<R: Read>(alloc: Global, reader: &mut R) -> Result<Option<Sourced>, LineError>
    ensures heard { IfSome (R.remaining reader.old) (λ xs. HearsChange xs result (R.remaining reader.new)) }
{
    let Some(line) = read_line(alloc, reader)? else {
        return Ok(None);
    };
    let change = decode_change(alloc, line.as_slice())?;
    Ok(Some(change))
}

/// Reads the next line, and puts its change behind the others; false at the end of the input.
fn hear<R: Read>(
    alloc: Global,
    reader: &mut R,
    changes: &mut Vec<Sourced>,
) -> Result<bool, TellError>
    requires { length changes.old.items ≤ most_members }
    ensures heard { IfSome (R.remaining reader.old)
        (λ xs. TakesTurn xs changes.old.items result (R.remaining reader.new) changes.new.items) }
    ensures unasked { (e : AskError) → result ≡ Err (TellError.Asked e) → ⊥ }
    ensures few { IfOk result (λ _. length changes.new.items ≤ most_members) }
    ensures grows { IfOk result (λ more. more ≡ true → length changes.new.items ≡ length changes.old.items + 1) }
{
    let number = changes.len() as u64 + 1;
    let change = match read_change(alloc, reader) {
        Ok(Some(change)) => change,
        Ok(None) => return Ok(false),
        Err(fault) => return Err(TellError::AtLine(number, fault)),
    };
    if changes.len() == MAX_CHANGES {
        return Err(TellError::TooManyChanges);
    }
    match changes.push(change) {
        Ok(()) => Ok(true),
        Err(_) => Err(TellError::AtLine(number, LineError::OutOfMemory)),
    }
}

/// Reads change lines to the end, at most 4,096, or up to the first line with an error.
fn read_changes<R: Read>(alloc: Global, reader: &mut R) -> Result<Changes, TellError>
    ensures given { IfOk result (λ changes. Gives (R.remaining reader.old) changes) }
    ensures fault { IfErr result (IsNoNews (R.remaining reader.old)) }
{
    let mut changes = Vec::new(alloc);
    'lines: while hear(alloc, reader, &mut changes)? {}
    match Changes::from_vec(changes) {
        Ok(changes) => Ok(changes),
        Err(_) => unreachable!(),
    }
}

/// The decimal digits of a number.
fn count_text(alloc: Global, count: usize) -> Result<String, AskError>
    ensures text { IfOk result (λ s. string_bytes s ≡ number_text count) }
    ensures refusal { IsOkUnless result AskError.OutOfMemory }
{
    Ok(format!(in alloc; "{count}")?)
}

/// Passes these changes to the node, and writes how many members it then holds.
fn tell_changes<R: Wait, L: Link, W: Write>(
    rt: &R,
    alloc: Global,
    link: &mut L,
    host: Address,
    changes: Changes,
    writer: &mut W,
) -> Result<(), AskError>
    ensures told { OnOk result (WritesSeen L.may_answer host changes count_line
        (W.contents writer.old) (W.contents writer.new)) }
    ensures fault { IfErr result (λ e. IsUnwritten L.may_answer host changes count_line e
        (W.contents writer.old) (W.contents writer.new)) }
{
    let (_news, table) = look(rt, alloc, link, host, changes)?;
    let text = count_text(alloc, table.len())?;
    write_text(writer, text.as_bytes())
}

/// Reads change lines to the end, at most 4,096, passes them to the node, and writes how many members it then holds, in
/// decimal, and a newline. Without a line the node is asked all the same.
///
/// # Errors
///
/// - `AtLine`: a line has an error; the first one is named. The node is not asked, and there is no output.
/// - `TooManyChanges`: there are more than 4,096 changes. The node is not asked, and there is no output.
/// - `Asked`: an error of `members_over`. The node may have processed some of the changes.
pub fn tell_over<R: Wait, L: Link, I: Read, W: Write>(
    rt: &R,
    alloc: Global,
    link: &mut L,
    host: Address,
    reader: &mut I,
    writer: &mut W,
) -> Result<(), TellError>
    ensures told { OnOk result (Tells L.may_answer host (I.remaining reader.old) (W.contents writer.old) (W.contents writer.new)) }
    ensures fault { IfErr result (λ e. IsUntold L.may_answer host (I.remaining reader.old) e
        (W.contents writer.old) (W.contents writer.new)) }
{
    let changes = read_changes(alloc, reader)?;
    Ok(tell_changes(rt, alloc, link, host, changes, writer)?)
}
