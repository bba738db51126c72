//! The members that a node pings: the serving ones but itself.
ghost use Rattle.std.specs.Prelude.{◌≡◌, ◌≢◌, ◌==◌, ◌&&◌, ◌<◌, [], not, min, length, count_by, IsTrue, IfOk, OnErr, IsOkUnless};
ghost use Rattle.std.specs.List.{list_any};
ghost use Rattle.std.specs.List.Sorted.{IsStrictlyIncreasing};
ghost use Rattle.change_core.specs.Members.{serving, IsMemberList};
ghost use Rattle.change_core.specs.Status.{is_serving};
ghost use Rattle.detector_core.specs.Helpers.{others};

use crate::errors::NodeError;
use change_core::{Address, Change};
use std::alloc::Global;

/// Returns the serving members of a list other than the node itself, ascending.
///
/// `Memory`: out of memory; never if the list is empty.
pub(crate) fn list_pingable(
    alloc: Global,
    members: &[Change],
    own: Address,
) -> Result<Vec<Address>, NodeError>
    requires { IsMemberList members.now }
    ensures list { IfOk result (λ v. v.items ≡ others (serving members.now) own) }
    ensures rising { IfOk result (λ v. IsStrictlyIncreasing v.items) }
    ensures out_of_memory { OnErr result (others (serving members.now) own ≢ []) }
    ensures refusal { IsOkUnless result NodeError.Memory }
{
    let count = count_pingable(members, own);
    let Ok(mut found) = Vec::with_capacity(alloc, count) else {
        return Err(NodeError::Memory);
    };
    for change in members {
        if is_pingable(own, change) {
            found.push_reserved(change.address);
        }
    }
    Ok(found)
}

/// Returns whether there is a helper to ask about a target: at most `helpers`, pingable and not the target.
pub(crate) fn can_ask(members: &[Change], own: Address, target: Address, helpers: usize) -> bool
    requires { IsMemberList members.now }
    ensures some { IsTrue result → 0 < min helpers (length (others (others (serving members.now) own) target)) }
    ensures none { IsTrue (not result) → min helpers (length (others (others (serving members.now) own) target)) ≡ 0 }
{
    helpers > 0 && has_other(members, own, target)
}

/// Returns whether one of the members is pingable and not the target.
fn has_other(members: &[Change], own: Address, target: Address) -> bool
    ensures { result ≡ list_any (λ c. (is_serving c.status && not (c.address == own)) && not (c.address == target)) members.now }
{
    members.iter().any(|change| is_pingable(own, change) && change.address != target)
}

/// Returns how many of the members are pingable.
fn count_pingable(members: &[Change], own: Address) -> usize
    ensures { result ≡ count_by (λ c. is_serving c.status && not (c.address == own)) members.now }
{
    members
        .iter()
        .filter(|change| is_pingable(own, change))
        .count()
}

/// Returns whether a member is pingable: it serves and is not the node itself.
fn is_pingable(own: Address, change: &Change) -> bool
    ensures { result ≡ (is_serving change.now.status && not (change.now.address == own)) }
{
    change.status.serving() && change.address != own
}
