//! Change lines in, the owners of a key among their members out.
ghost use Rattle.std.specs.Prelude.{◌≡◌, ◌∷◌, ◌++◌, [], take, IfOk, IfErr, IfSome, OnOk, IsOkUnless, string_bytes};
ghost use Rattle.std.specs.List.{flat_map};
ghost use Rattle.std.specs.Io.KnownBytes.{Appends};
ghost use Rattle.change_core.specs.Members.{IsMemberList};
ghost use Rattle.hash_ring.specs.Points.{IsReplicas, owners};
ghost use Rattle.hash_ring.specs.Serving.{servers_of};
ghost use Rattle.cli_core.specs.Changes.{IsRefused};
ghost use Rattle.cli_core.specs.Runs.{Leaves, LeavesPart, Writes};
ghost use Rattle.cli_core.specs.Owner.{hash_by, owner_line, owner_text};

use crate::faults::RunError;
use crate::members::read_members;
use crate::outputs::write_text;
use crate::words::OwnerWords;
use change_core::{Address, Change};
use hash_ring::{PointHash, Ring, Server, Sha256Hash, SumHash};
use member_core::MemberTable;
use std::alloc::Global;
use std::io::{Read, Write};

/// The members that serve, with their weights.
fn servers_among(alloc: Global, members: &[Change]) -> Result<Vec<Server>, RunError>
    ensures servers { IfOk result (λ servers. IsMemberList members.now → servers.items ≡ servers_of members.now) }
    ensures refusal { IsOkUnless result RunError.OutOfMemory }
{
    let mut servers = Vec::with_capacity(alloc, members.len())?;
    'members: for member in members {
        if member.status.serving() {
            servers.push_reserved(Server {
                address: member.address,
                weight: member.weight,
            });
        }
    }
    Ok(servers)
}

/// Makes the ring of the members that serve, by their weights.
///
/// # Errors
///
/// - `OutOfMemory`: out of memory.
pub fn ring_of<H: PointHash>(
    alloc: Global,
    hash: H,
    replicas: u32,
    members: &[Change],
) -> Result<Ring<H>, RunError>
    requires { IsReplicas replicas }
    ensures hash { IfOk result (λ ring. ring.hash ≡ hash) }
    ensures replicas { IfOk result (λ ring. ring.replicas ≡ replicas) }
    ensures servers { IfOk result (λ ring. IsMemberList members.now → ring.servers ≡ servers_of members.now) }
    ensures refusal { IsOkUnless result RunError.OutOfMemory }
{
    let servers = servers_among(alloc, members)?;
    let Ok(ring) = Ring::with_servers(alloc, hash, replicas, servers.as_slice()) else {
        return Err(RunError::OutOfMemory);
    };
    Ok(ring)
}

/// The addresses, a line each; the last newline is left to the writing.
fn owners_text(alloc: Global, first: Address, others: &[Address]) -> Result<String, RunError>
    ensures text { IfOk result (λ s. string_bytes s ++ 10 ∷ [] ≡ flat_map owner_line (first ∷ others.now)) }
    ensures refusal { IsOkUnless result RunError.OutOfMemory }
{
    let mut text = first.text(alloc).map_err(|_| RunError::OutOfMemory)?;
    'others: for other in others {
        write!(text, "\n{other}")?;
    }
    Ok(text)
}

/// Writes the addresses, a line each; no address, no output.
fn write_owners<W: Write>(alloc: Global, writer: &mut W, owners: &[Address]) -> Result<(), RunError>
    ensures ok { OnOk result (Appends (W.contents writer.old) (W.contents writer.new) (flat_map owner_line owners.now)) }
    ensures left { IfErr result (λ e. LeavesPart (flat_map owner_line owners.now) e
        (W.contents writer.old) (W.contents writer.new)) }
{
    let Some((first, others)) = owners.split_first() else {
        return Ok(());
    };
    let text = owners_text(alloc, *first, others)?;
    write_text(writer, text.as_str())
}

/// Returns the first owners of the key among the members of the table that serve, as many as requested or all there
/// are.
fn owners_among<H: PointHash>(
    alloc: Global,
    hash: H,
    words: &OwnerWords<'_>,
    table: &MemberTable,
) -> Result<Vec<Address>, RunError>
    ensures owners { IfOk result (λ named. IsMemberList table.now.members → named.items
        ≡ take words.now.count (owners (H.hash_of hash) words.now.replicas (servers_of table.now.members) words.now.key.now)) }
    ensures refusal { IsOkUnless result RunError.OutOfMemory }
{
    let Ok(members) = table.list() else {
        return Err(RunError::OutOfMemory);
    };
    let ring = ring_of(alloc, hash, words.replicas, members.as_slice())?;
    let Ok(owners) = ring.owners(words.key.as_bytes(), words.count) else {
        return Err(RunError::OutOfMemory);
    };
    Ok(owners)
}

/// `owner_run` under a hash.
fn owner_run_by<H: PointHash, R: Read, W: Write>(
    alloc: Global,
    hash: H,
    words: &OwnerWords<'_>,
    reader: &mut R,
    writer: &mut W,
) -> Result<(), RunError>
    ensures output { OnOk result (Writes
        (owner_text (H.hash_of hash) words.now.replicas words.now.count words.now.key.now)
        (R.remaining reader.old) (W.contents writer.old) (W.contents writer.new)) }
    ensures fault { IfErr result (λ e. IfSome (R.remaining reader.old) (λ input. IsRefused input e)) }
    ensures left { IfErr result (λ e. Leaves
        (owner_text (H.hash_of hash) words.now.replicas words.now.count words.now.key.now) e
        (R.remaining reader.old) (W.contents writer.old) (W.contents writer.new)) }
{
    let table = read_members(alloc, reader)?;
    let owners = owners_among(alloc, hash, words, &table)?;
    write_owners(alloc, writer, owners.as_slice())
}

/// Reads change lines to the end, and writes the first owners of the key among the members that serve, as many as
/// requested or all there are, a line each.
///
/// # Errors
///
/// - `AtLine`: a line has an error; the first one is named. There is no output.
/// - `OutOfMemory`: out of memory. There is no output.
/// - `CannotWrite`: the writer failed. A prefix of the output is written.
pub fn owner_run<R: Read, W: Write>(
    alloc: Global,
    words: &OwnerWords<'_>,
    reader: &mut R,
    writer: &mut W,
) -> Result<(), RunError>
    ensures output { OnOk result (Writes
        (owner_text (hash_by words.now.sum) words.now.replicas words.now.count words.now.key.now)
        (R.remaining reader.old) (W.contents writer.old) (W.contents writer.new)) }
    ensures fault { IfErr result (λ e. IfSome (R.remaining reader.old) (λ input. IsRefused input e)) }
    ensures left { IfErr result (λ e. Leaves
        (owner_text (hash_by words.now.sum) words.now.replicas words.now.count words.now.key.now) e
        (R.remaining reader.old) (W.contents writer.old) (W.contents writer.new)) }
{
    if words.sum {
        owner_run_by(alloc, SumHash, words, reader, writer)
    } else {
        owner_run_by(alloc, Sha256Hash, words, reader, writer)
    }
}
