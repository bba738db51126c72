//! A request to whichever node owns its key.
ghost use Rattle.std.specs.Prelude.{◌≡◌, IfOk, IfErr, OnOk, Some, None};
ghost use Rattle.change_core.specs.declared.changes.Change.{Change};
ghost use Rattle.change_core.specs.Members.{IsMemberList};
ghost use Rattle.hash_ring.specs.Points.{IsReplicas, owner};
ghost use Rattle.hash_ring.specs.Serving.{servers_of};
ghost use Rattle.cli_core.specs.Owner.{hash_by};
ghost use Rattle.cli_net.specs.Asking.{LeavesReply, WritesReply};
ghost use Rattle.cli_net.specs.Owning.{IsAnswered, IsNoOwner, IsOwner, IsUnanswered, IsUnnamed};

use crate::asking::reply_of;
use crate::faults::AskError;
use crate::looks::look_only;
use crate::questions::write_text;
use change_core::{Address, Change};
use cli_core::{AskAnyWords, ring_of};
use hash_ring::{PointHash, Sha256Hash, SumHash};
use message_core::{Reason, Text};
use peer_core::Link;
use std::alloc::Global;
use std::io::Write;
use std::sync::Wait;

/// Returns the owner of a key among members. `Refused` with `nobody` if none of them serves, as a node would answer.
fn owner_by<H: PointHash>(
    alloc: Global,
    hash: H,
    replicas: u32,
    members: &[Change],
    key: &str,
) -> Result<Address, AskError>
    requires replicas { IsReplicas replicas }
    requires members { IsMemberList members.now }
    ensures owner { IfOk result (λ a. owner (H.hash_of hash) replicas (servers_of members.now) key.now ≡ Some a) }
    ensures fault { IfErr result (IsUnnamed (owner (H.hash_of hash) replicas (servers_of members.now) key.now)) }
{
    let ring = ring_of(alloc, hash, replicas, members).map_err(|_| AskError::OutOfMemory)?;
    match ring.owner(key.as_bytes()) {
        Some(owner) => Ok(owner),
        None => Err(AskError::Refused(Reason::Nobody)),
    }
}

/// Does as `owner_by`, under the hash of the arguments.
fn owner_in(alloc: Global, words: &AskAnyWords<'_>, members: &[Change]) -> Result<Address, AskError>
    requires { IsMemberList members.now }
    ensures owner { IfOk result (λ a. owner (hash_by words.now.sum) words.now.replicas (servers_of members.now) words.now.key.now ≡ Some a) }
    ensures fault { IfErr result (IsUnnamed (owner (hash_by words.now.sum) words.now.replicas (servers_of members.now) words.now.key.now)) }
{
    if words.sum {
        owner_by(alloc, SumHash, words.replicas, members, words.key)
    } else {
        owner_by(alloc, Sha256Hash, words.replicas, members, words.key)
    }
}

/// Returns the owner of the key, by the membership that the host holds.
///
/// # Errors
///
/// - The errors of `members_over` but `CannotWrite`, for the membership.
/// - `Refused` with `nobody`: no member serves.
pub fn find_owner<R: Wait, L: Link>(
    rt: &R,
    alloc: Global,
    link: &mut L,
    words: &AskAnyWords<'_>,
) -> Result<Address, AskError>
    ensures owner { IfOk result (IsOwner L.may_answer words.now.host (hash_by words.now.sum) words.now.replicas words.now.key.now) }
    ensures fault { IfErr result (IsNoOwner L.may_answer words.now.host (hash_by words.now.sum) words.now.replicas words.now.key.now) }
{
    let (_news, table) = look_only(rt, alloc, link, words.host)?;
    let members = table.list().map_err(|_| AskError::OutOfMemory)?;
    owner_in(alloc, words, members.as_slice())
}

/// Returns the reply of the owner of the key, by the membership that the host holds.
fn owner_reply<R: Wait, L: Link>(
    rt: &R,
    alloc: Global,
    link: &mut L,
    words: &AskAnyWords<'_>,
) -> Result<Text, AskError>
    ensures answered { IfOk result (IsAnswered L.may_answer words.now.host (hash_by words.now.sum) words.now.replicas
        words.now.key.now words.now.body.now) }
    ensures fault { IfErr result (IsUnanswered L.may_answer words.now.host (hash_by words.now.sum) words.now.replicas
        words.now.key.now words.now.body.now) }
{
    let owner = find_owner(rt, alloc, link, words)?;
    reply_of(rt, alloc, link, owner, words.key, words.body)
}

/// Does as `owner_reply`, and again if the node that was asked answers that it is not the owner.
fn reply_of_any<R: Wait, L: Link>(
    rt: &R,
    alloc: Global,
    link: &mut L,
    words: &AskAnyWords<'_>,
) -> Result<Text, AskError>
    ensures answered { IfOk result (IsAnswered L.may_answer words.now.host (hash_by words.now.sum) words.now.replicas
        words.now.key.now words.now.body.now) }
    ensures fault { IfErr result (IsUnanswered L.may_answer words.now.host (hash_by words.now.sum) words.now.replicas
        words.now.key.now words.now.body.now) }
{
    match owner_reply(rt, alloc, link, words) {
        Err(AskError::NotOwner) => owner_reply(rt, alloc, link, words),
        replied => replied,
    }
}

/// Asks the host for its membership, and sends the request to the owner of the key among these members. If that node
/// answers that it is not the owner the same is done again. Writes the reply's text and a newline; without a reply
/// there is no output.
///
/// # Errors
///
/// - The errors of `members_over`, for the membership.
/// - The errors of `ask_over`, for the request; `Refused` with `nobody` also if no member serves.
pub fn ask_any_over<R: Wait, L: Link, W: Write>(
    rt: &R,
    alloc: Global,
    link: &mut L,
    words: &AskAnyWords<'_>,
    writer: &mut W,
) -> Result<(), AskError>
    ensures answered { OnOk result (WritesReply
        (IsAnswered L.may_answer words.now.host (hash_by words.now.sum) words.now.replicas words.now.key.now words.now.body.now)
        (W.contents writer.old) (W.contents writer.new)) }
    ensures fault { IfErr result (λ e. LeavesReply
        (IsAnswered L.may_answer words.now.host (hash_by words.now.sum) words.now.replicas words.now.key.now words.now.body.now)
        (IsUnanswered L.may_answer words.now.host (hash_by words.now.sum) words.now.replicas words.now.key.now words.now.body.now)
        e (W.contents writer.old) (W.contents writer.new)) }
{
    let text = reply_of_any(rt, alloc, link, words)?;
    write_text(writer, text.as_str().as_bytes())
}
