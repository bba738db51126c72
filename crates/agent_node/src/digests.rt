//! The digest of the members that a node holds, and of its ring.
ghost use Rattle.std.specs.Prelude.{◌≡◌, IfOk};
ghost use Rattle.agent_node.specs.Digests.{digest_by, ring_digest};

use agent_core::on_ring;
use change_core::{Change, Digest, MAX_MEMBERS};
use member_core::MemberTable;
use std::alloc::{AllocError, Global};

/// Returns the digest of these members.
///
/// # Errors
///
/// - `AllocError`: out of memory.
pub fn digest_of(alloc: Global, members: &[Change]) -> Result<Digest, AllocError>
    ensures { IfOk result (λ digest. digest.bytes ≡ digest_by members.now) }
{
    let Ok(mut table) = MemberTable::new(alloc, MAX_MEMBERS) else {
        return Err(AllocError);
    };
    for change in members {
        if table.take(*change).is_err() {
            return Err(AllocError);
        }
    }
    table.digest().map_err(|_| AllocError)
}

/// Returns the digest of the ring of a node that holds these members.
///
/// # Errors
///
/// - `AllocError`: out of memory.
pub fn ring_digest(alloc: Global, members: &[Change]) -> Result<Digest, AllocError>
    ensures { IfOk result (λ digest. digest.bytes ≡ ring_digest members.now) }
{
    let servers = on_ring(alloc, members)?;
    digest_of(alloc, servers.as_slice())
}
