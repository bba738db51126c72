ghost use Rattle.std.specs.Prelude.{◌≡◌, length, ◌+◌, ◌-◌, ◌*◌, ◌<◌, ◌≤◌, ◌^◌, All, nat_lt, map, IfOk, OnOk, OnErr};
ghost use Rattle.std.specs.List.{list_all};
ghost use Rattle.indexmap.specs.IndexMap.{values};
ghost use Rattle.gossip_core.specs.Dissemination.{most_factor, most_limit};
ghost use Rattle.gossip_core.specs.Pending.{subject, put_pending, issued, counted, below, digit_count, limit_for, NoneAbout, AllBelow, IsByAddress};

use change_core::{Address, Sourced};
use indexmap::IndexMap;
use std::alloc::{AllocError, Global};

/// A change that is still passed on, and how often it has been issued.
#[derive(Clone, Copy)]
pub struct Pending {
    pub sourced: Sourced,
    pub count: u32,
}

impl Pending {
    /// Returns the address that the change is about.
    fn subject(&self) -> Address
        ensures { result ≡ subject self.now }
    {
        self.sourced.change.address
    }
}

/// The pending changes by address, in the order in which their addresses were first put.
pub(crate) type PendingMap = IndexMap<Address, Pending>;

/// All changes, in their order.
pub(crate) fn all_of(alloc: Global, pending: &PendingMap) -> Result<Vec<Sourced>, AllocError>
    ensures items { IfOk result (λ v. v.items ≡ map (λ p. p.sourced) (values pending.now)) }
    ensures out_of_memory { OnErr result (0 < length (values pending.now)) }
{
    let mut changes = Vec::with_capacity(alloc, pending.len())?;
    'changes: for index in 0..pending.len() {
        changes.push_reserved(pending[index].sourced);
    }
    Ok(changes)
}

/// Puts a change under its address, replacing the one before it, or last. It has not been issued.
pub(crate) fn put(pending: &mut PendingMap, sourced: Sourced) -> Result<(), AllocError>
    requires { IsByAddress pending.old }
    ensures ok { OnOk result (values pending.new ≡ put_pending (values pending.old) sourced) }
    ensures out_of_memory { OnErr result (NoneAbout sourced.change.address (values pending.old)) }
    ensures err { OnErr result (values pending.new ≡ values pending.old) }
    ensures by_address { IsByAddress pending.new }
{
    let fresh = Pending { sourced, count: 0 };
    pending.insert(fresh.subject(), fresh)?;
    Ok(())
}

/// Returns the first `at_most` changes that may go to `target`, and raises the count of each by 1.
pub(crate) fn issue_first(
    alloc: Global,
    pending: &mut PendingMap,
    target: Address,
    at_most: usize,
) -> Result<Vec<Sourced>, AllocError>
    requires countable { All (λ p. p.count < 2 ^ 32 - 1) (values pending.old) }
    requires by_address { IsByAddress pending.old }
    ensures issued { IfOk result (λ v. v.items ≡ issued target at_most (values pending.old)) }
    ensures counted { OnOk result (values pending.new ≡ counted target at_most (values pending.old)) }
    ensures err { OnErr result (values pending.new ≡ values pending.old) }
    ensures out_of_memory { OnErr result (0 < at_most) }
    ensures some { OnErr result (0 < length (values pending.old)) }
    ensures by_address { IsByAddress pending.new }
{
    let mut changes = Vec::with_capacity(alloc, at_most.min(pending.len()))?;
    'changes: for index in 0..pending.len() {
        if changes.len() == at_most {
            break;
        }
        let sourced = pending[index].sourced;
        if sourced.source != target {
            pending[index].count += 1;
            changes.push_reserved(sourced);
        }
    }
    Ok(changes)
}

/// Returns whether no change has reached the limit.
fn all_below(pending: &PendingMap, limit: u32) -> bool
    ensures { result ≡ list_all (λ p. nat_lt p.count limit) (values pending.now) }
{
    pending.values().all(|p| p.count < limit)
}

/// Drops the changes that have reached the limit. If there is none, nothing is moved.
pub(crate) fn drop_spent(pending: &mut PendingMap, limit: u32)
    requires { IsByAddress pending.old }
    ensures below { values pending.new ≡ below limit (values pending.old) }
    ensures by_address { IsByAddress pending.new }
{
    if all_below(pending, limit) {
        return;
    }
    pending.retain(
        |_address: &Address, p: &mut Pending| -> bool
            ensures { (result ≡ nat_lt p.old.count limit) × (p.new ≡ p.old) }
        { p.count < limit },
    );
}

/// Drops the changes that have reached a new limit. All are below the one before it, so they are looked at only where it falls.
pub(crate) fn follow_limit(pending: &mut PendingMap, before: u32, limit: u32)
    requires by_address { IsByAddress pending.old }
    requires unspent { AllBelow before (values pending.old) }
    ensures below { values pending.new ≡ below limit (values pending.old) }
    ensures by_address { IsByAddress pending.new }
{
    if limit < before {
        drop_spent(pending, limit);
    }
}

/// The number of decimal digits of `n`, where 0 has one.
fn decimal_digits(n: usize) -> u32
    ensures digits { result ≡ digit_count n }
    ensures within { (1 ≤ result) × (result ≤ 20) }
{
    n.checked_ilog10().unwrap_or(0) + 1
}

/// Returns how often a change is issued while `n` members serve.
pub(crate) fn limit_at(factor: u32, n: usize) -> u32
    requires { factor ≤ most_factor }
    ensures value { result ≡ limit_for factor n }
    ensures positive { 1 ≤ factor → 1 ≤ result }
    ensures within { result ≤ most_limit }
{
    factor * decimal_digits(n)
}
