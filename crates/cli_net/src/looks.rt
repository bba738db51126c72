//! The members that a running node holds.
ghost use Rattle.std.specs.Prelude.{◌≡◌, ◌≤◌, ◌∷◌, ◌++◌, [], length, map, IfOk, IfErr, OnOk, IsOkUnless};
ghost use Rattle.std.specs.List.{flat_map};
ghost use Rattle.std.specs.Io.KnownBytes.{Appends};
ghost use Rattle.change_core.specs.Members.{members};
ghost use Rattle.change_core.specs.Numbers.{most_members};
ghost use Rattle.serde_json.specs.Written.{compact_text};
ghost use Rattle.wire_json.specs.Forms.{change_data};
ghost use Rattle.cli_core.specs.Changes.{change_of};
ghost use Rattle.cli_core.specs.Fold.{fold_text};
ghost use Rattle.cli_core.specs.Table.{table_text};
ghost use Rattle.cli_net.specs.Membership.{IsNotSeen, IsSeen, IsUnwritten, LeavesText, WritesSeen, change_line, membership_text, told_members};

use crate::faults::AskError;
use crate::questions::{join_with, write_text};
use change_core::{Address, MAX_MEMBERS, Sourced};
use cli_core::{MembersForm, fold_text, table_text};
use member_core::{MemberError, MemberTable};
use message_core::{Changes, News};
use peer_core::Link;
use std::alloc::Global;
use std::io::Write;
use std::sync::Wait;
use wire_json::encode_change;

/// Returns the members of these changes.
fn folded(alloc: Global, changes: &[Sourced]) -> Result<MemberTable, AskError>
    requires { length changes.now ≤ most_members }
    ensures members { IfOk result (λ t. t.members ≡ members (map change_of changes.now)) }
    ensures refusal { IsOkUnless result AskError.OutOfMemory }
{
    let mut table = MemberTable::new(alloc, MAX_MEMBERS).unwrap();
    'changes: for sourced in changes {
        match table.take(sourced.change) {
            Ok(_) => {}
            Err(MemberError::Memory) => return Err(AskError::OutOfMemory),
            Err(MemberError::Full | MemberError::BadLimit) => unreachable!(),
        }
    }
    Ok(table)
}

/// Returns the membership that a node holds once it has processed these changes, as it answers a join.
///
/// # Errors
///
/// - `OutOfMemory`: out of memory, here or in the link.
/// - `NoAnswer`: no message came.
/// - `Refused`: the node refused the join, for this reason.
/// - `Unexpected`: any other message came, or its digest is not that of the members.
pub fn look<R: Wait, L: Link>(
    rt: &R,
    alloc: Global,
    link: &mut L,
    host: Address,
    changes: Changes,
) -> Result<(News, MemberTable), AskError>
    ensures seen { IfOk result (λ seen. IsSeen L.may_answer host changes seen.0) }
    ensures members { IfOk result (λ seen. seen.1.members ≡ told_members seen.0) }
    ensures fault { IfErr result (λ e. IsNotSeen L.may_answer host changes e) }
{
    let news = join_with(rt, alloc, link, host, changes)?;
    let table = folded(alloc, news.changes.as_slice())?;
    let digest = table.digest().map_err(|_| AskError::OutOfMemory)?;
    if digest.bytes() != news.checksum.bytes() {
        return Err(AskError::Unexpected);
    }
    Ok((news, table))
}

/// Does as `look`, without changes.
///
/// # Errors
///
/// - The errors of `look`.
pub fn look_only<R: Wait, L: Link>(
    rt: &R,
    alloc: Global,
    link: &mut L,
    host: Address,
) -> Result<(News, MemberTable), AskError>
    ensures seen { IfOk result (λ seen. IsSeen L.may_answer host [] seen.0) }
    ensures members { IfOk result (λ seen. seen.1.members ≡ told_members seen.0) }
    ensures fault { IfErr result (λ e. IsNotSeen L.may_answer host [] e) }
{
    let Ok(nothing) = Changes::from_vec(Vec::new(alloc)) else {
        unreachable!()
    };
    look(rt, alloc, link, host, nothing)
}

/// The line of a change, without its newline.
fn line_of(alloc: Global, change: &Sourced) -> Result<Vec<u8>, AskError>
    ensures text { IfOk result (λ b. b.items ≡ compact_text (change_data change.now)) }
    ensures refusal { IsOkUnless result AskError.OutOfMemory }
{
    encode_change(alloc, change).map_err(|_| AskError::OutOfMemory)
}

/// The lines of changes; the last newline is left to the writing.
fn change_lines(alloc: Global, first: &Sourced, others: &[Sourced]) -> Result<Vec<u8>, AskError>
    ensures text { IfOk result (λ v. v.items ++ 10 ∷ [] ≡ flat_map change_line (first.now ∷ others.now)) }
    ensures refusal { IsOkUnless result AskError.OutOfMemory }
{
    let mut lines = line_of(alloc, first)?;
    'others: for other in others {
        let line = line_of(alloc, other)?;
        lines.extend_from_slice(b"\n")?;
        lines.extend_from_slice(line.as_slice())?;
    }
    Ok(lines)
}

/// Writes changes, a line each; no change, no output.
fn write_changes<W: Write>(
    alloc: Global,
    changes: &[Sourced],
    writer: &mut W,
) -> Result<(), AskError>
    ensures ok { OnOk result (Appends (W.contents writer.old) (W.contents writer.new) (flat_map change_line changes.now)) }
    ensures left { IfErr result (λ e. LeavesText (flat_map change_line changes.now) e
        (W.contents writer.old) (W.contents writer.new)) }
{
    let Some((first, others)) = changes.split_first() else {
        return Ok(());
    };
    let lines = change_lines(alloc, first, others)?;
    write_text(writer, lines.as_slice())
}

/// Writes the digest text of members and its digest, a line each.
fn write_members<W: Write>(
    alloc: Global,
    table: &MemberTable,
    writer: &mut W,
) -> Result<(), AskError>
    ensures ok { OnOk result (Appends (W.contents writer.old) (W.contents writer.new) (fold_text table.now.members)) }
    ensures left { IfErr result (λ e. LeavesText (fold_text table.now.members) e
        (W.contents writer.old) (W.contents writer.new)) }
{
    let text = fold_text(alloc, table).map_err(|_| AskError::OutOfMemory)?;
    write_text(writer, text.as_str().as_bytes())
}

/// Writes members as a table.
fn write_table<W: Write>(alloc: Global, table: &MemberTable, writer: &mut W) -> Result<(), AskError>
    ensures ok { OnOk result (Appends (W.contents writer.old) (W.contents writer.new) (table_text table.now.members)) }
    ensures left { IfErr result (λ e. LeavesText (table_text table.now.members) e
        (W.contents writer.old) (W.contents writer.new)) }
{
    let members = table.list().map_err(|_| AskError::OutOfMemory)?;
    let text = table_text(alloc, members.as_slice()).map_err(|_| AskError::OutOfMemory)?;
    write_text(writer, text.as_str().as_bytes())
}

/// Asks the node for its membership, and writes its digest text and digest, a line each, as `fold` does; or its
/// change lines, or a table for eyes. The node's members don't change by it. After any error but `CannotWrite` there was no
/// output.
///
/// # Errors
///
/// - `OutOfMemory`: out of memory, here or in the link.
/// - `NoAnswer`: no message came.
/// - `Refused`: the node refused the join, for this reason.
/// - `Unexpected`: any other message came, or its digest is not that of the members.
/// - `CannotWrite`: the writer failed. A prefix of the text is written.
pub fn members_over<R: Wait, L: Link, W: Write>(
    rt: &R,
    alloc: Global,
    link: &mut L,
    host: Address,
    form: MembersForm,
    writer: &mut W,
) -> Result<(), AskError>
    ensures written { OnOk result (WritesSeen L.may_answer host [] (membership_text form)
        (W.contents writer.old) (W.contents writer.new)) }
    ensures fault { IfErr result (λ e. IsUnwritten L.may_answer host [] (membership_text form) e
        (W.contents writer.old) (W.contents writer.new)) }
{
    let (news, members) = look_only(rt, alloc, link, host)?;
    match form {
        MembersForm::Lines => write_changes(alloc, news.changes.as_slice(), writer),
        MembersForm::Table => write_table(alloc, &members, writer),
        MembersForm::Digest => write_members(alloc, &members, writer),
    }
}
