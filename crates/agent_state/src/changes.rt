//! The log lines of members that changed.
ghost use Rattle.std.specs.Prelude.{◌≡◌, ◌↔◌, IsTrue, option_copied};
ghost use Rattle.agent_state.specs.Changes.{IsRefuted, entry_of};

use change_core::{Address, Change, Status};
use log::{Log, info, warn};

/// Logs a member that was not known before.
fn log_new<R: Log>(rt: &R, change: &Change) {
    let address = change.address;
    let status = change.status.word();
    let incarnation = change.incarnation.number();
    info!(rt; "{address} is new: {status}, incarnation {incarnation}");
}

/// The most by which refutations raise the node's incarnation between two rounds: each raises it by 1.
const MAX_RAISE: u64 = 10;

/// Logs how the node's own entry changed: it left or came back since `before`, if `has_moved`, or its incarnation was raised.
/// A refutation raises it by 1 since others held the node as suspect or faulty. If it was raised by much more, others hold the
/// node at an incarnation that this one has not stated.
fn log_own<R: Log>(rt: &R, before: &Change, after: &Change, has_moved: bool) {
    let incarnation = after.incarnation.number();
    match after.status {
        Status::Leave if has_moved => info!(rt; "this node has left, incarnation {incarnation}"),
        _ if incarnation.saturating_sub(before.incarnation.number()) > MAX_RAISE =>
            warn!(rt; "another node has this address, or the clock went back: others hold incarnation {incarnation}"),
        _ if has_moved => info!(rt; "this node is back, incarnation {incarnation}"),
        _ =>
            warn!(rt; "refuted: others held this node as suspect or faulty; incarnation {incarnation}"),
    }
}

/// Logs a member that changed and, if it is suspect, why. `is_silent` means that this node's own round could not reach it.
fn log_other<R: Log>(rt: &R, before: &Change, after: &Change, is_silent: bool) {
    let address = after.address;
    let was = before.status.word();
    let status = after.status.word();
    let incarnation = after.incarnation.number();
    match after.status {
        Status::Alive | Status::Leave if was == status => {
            info!(rt; "{address} is still {status}, incarnation {incarnation}")
        }
        Status::Alive | Status::Leave => {
            info!(rt; "{address} is {status}, was {was}; incarnation {incarnation}")
        }
        Status::Suspect if is_silent => {
            warn!(rt; "{address} is suspect, was {was}: it answered neither this node nor its helpers")
        }
        Status::Suspect => warn!(rt; "{address} is suspect, was {was}: another node says so"),
        Status::Faulty | Status::Tombstone => warn!(rt; "{address} is {status}, was {was}"),
    }
}

/// Returns the entry of an address among members.
fn entry_of<'a>(members: &'a [Change], address: &Address) -> Option<&'a Change>
    ensures { option_copied result ≡ entry_of members.now address.now }
{
    members.iter().find(|change| change.address == *address)
}

/// Returns whether the incarnation of the node's own entry changed from one list of members to a later one. If the node neither
/// left nor came back in the meantime, it was refuted.
pub fn is_refuted(own: &Address, before: &[Change], after: &[Change]) -> bool
    ensures { IsTrue result ↔ IsRefuted own.now before.now after.now }
{
    let (Some(before), Some(after)) = (entry_of(before, own), entry_of(after, own)) else {
        return false;
    };
    before.incarnation != after.incarnation
}

/// Logs a member that was known before, if it changed; `silent` is the member that this node's last round could not reach, if
/// there is one, and `has_moved` means that the node left or came back in the meantime.
fn log_known<R: Log>(
    rt: &R,
    own: &Address,
    before: &Change,
    after: &Change,
    silent: &Option<Address>,
    has_moved: bool,
) {
    if before == after {
        return;
    }
    if after.address == *own {
        return log_own(rt, before, after, has_moved);
    }
    log_other(rt, before, after, *silent == Some(after.address));
}

/// Logs how the members changed from one list to a later one, each ascending by address. The later list has each member
/// of the earlier. `silent` is the member that this node's last round could not reach, if there is one, and `has_moved` means
/// that the node left or came back in the meantime.
pub fn log_changes<R: Log>(
    rt: &R,
    own: &Address,
    before: &[Change],
    after: &[Change],
    silent: &Option<Address>,
    has_moved: bool,
) {
    let mut old = before.iter();
    let mut next = old.next();
    for change in after {
        let known = next.filter(|known| known.address == change.address);
        match known {
            Some(known) => {
                log_known(rt, own, known, change, silent, has_moved);
                next = old.next();
            }
            None => log_new(rt, change),
        }
    }
}

/// Logs how the node's own entry changed from the initial one to the one among these members, if it did.
pub fn log_since_start<R: Log>(rt: &R, initial: &Change, members: &[Change], has_moved: bool) {
    let Some(own) = entry_of(members, &initial.address) else {
        return;
    };
    if own.incarnation != initial.incarnation {
        log_own(rt, initial, own, has_moved);
    }
}
