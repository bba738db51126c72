ghost use Rattle.std.specs.Prelude.{◌≡◌, ◌<◌, ◌≤◌, ◌↔◌, [], length, map, IfOk, IsOk, OnOk, OnErr, IsOkUnless};
ghost use Rattle.gossip_core.specs.Dissemination.{Dissemination, most_factor, with_news, adjusted, after_issue, IsWhole};
ghost use Rattle.gossip_core.specs.Pending.{issued, limit_for, NoneAbout};

use crate::errors::GossipError;
use crate::pending::{self, PendingMap};
use change_core::{Address, Sourced};
use indexmap::IndexMap;
use std::alloc::Global;
use std::marker::Model;

/// The greatest piggyback factor.
pub const MAX_FACTOR: u32 = 1_000;

/// The changes that a node passes on. Contracts see the factor, the limit and the list of pending changes.
#[derive(Drop)]
pub struct Gossip {
    pending: PendingMap,
    factor: u32,
    limit: u32,
    alloc: Global,
}

impl Model for Gossip {
    ghost use Rattle.gossip_core.specs.Dissemination.{Dissemination};

    ghost Value = { Dissemination };

    ghost use Rattle.gossip_core.specs.Kept.{seen, IsKept};

    ghost view = { seen };

    ghost invariant = { IsKept };
}

impl Gossip {
    /// Makes an empty pending list, with the limit of one serving member. The factor `piggyback` is from 1 to
    /// [`MAX_FACTOR`]. Allocates nothing.
    ///
    /// # Errors
    ///
    /// - `BadFactor`: the factor is out of that range.
    pub fn new(alloc: Global, piggyback: u32) -> Result<Self, GossipError>
        ensures made { IfOk result (λ g. g ≡ record { factor = piggyback; limit = limit_for piggyback 1; pending = [] }) }
        ensures within { IsOk result ↔ ((1 ≤ piggyback) × (piggyback ≤ most_factor)) }
        ensures refusal { IsOkUnless result GossipError.BadFactor }
    {
        if piggyback == 0 || piggyback > MAX_FACTOR {
            return Err(GossipError::BadFactor);
        }
        Ok(Gossip {
            pending: IndexMap::new(alloc),
            factor: piggyback,
            limit: pending::limit_at(piggyback, 1),
            alloc,
        })
    }

    /// Makes a change pending with count 0: it replaces the one about its address, or goes last. After an error nothing
    /// has changed.
    ///
    /// # Errors
    ///
    /// - `Memory`: out of memory; never if a change about its address is pending.
    pub fn put(&mut self, sourced: Sourced) -> Result<(), GossipError>
        ensures ok { OnOk result (self.new ≡ with_news self.old sourced) }
        ensures err { OnErr result (self.new ≡ self.old) }
        ensures refusal { IsOkUnless result GossipError.Memory }
        ensures out_of_memory { OnErr result (NoneAbout sourced.change.address self.old.pending) }
    {
        pending::put(&mut self.pending, sourced)?;
        Ok(())
    }

    /// Sets the limit for `n` serving members, the factor times the decimal digits of `n`, and drops the changes that
    /// have been issued as often: none, if the limit does not fall. Allocates nothing.
    ///
    /// The rule is this project's own, after ringpop-go, package swim.
    pub fn adjust(&mut self, n: usize)
        ensures { self.new ≡ adjusted self.old n }
    {
        let before = self.limit;
        self.limit = pending::limit_at(self.factor, n);
        pending::follow_limit(&mut self.pending, before, self.limit);
    }

    /// Issues to `target` the first `at_most` changes that did not come from it. The count of each rises by 1, and a
    /// change whose count reaches the limit is dropped. After an error nothing is issued, and nothing has changed.
    ///
    /// # Errors
    ///
    /// - `Memory`: out of memory for the result; never if `at_most` is 0 or nothing is pending.
    pub fn issue_for(
        &mut self,
        target: Address,
        at_most: usize,
    ) -> Result<Vec<Sourced>, GossipError>
        ensures issued { IfOk result (λ v. v.items ≡ issued target at_most self.old.pending) }
        ensures ok { OnOk result (self.new ≡ after_issue self.old target at_most) }
        ensures err { OnErr result (self.new ≡ self.old) }
        ensures out_of_memory { OnErr result ((0 < at_most) × (0 < length self.old.pending)) }
        ensures refusal { IsOkUnless result GossipError.Memory }
    {
        let issued = pending::issue_first(self.alloc, &mut self.pending, target, at_most)?;
        pending::drop_spent(&mut self.pending, self.limit);
        Ok(issued)
    }

    /// Returns how often a change is issued before it is dropped.
    pub fn limit(&self) -> u32
        ensures { result ≡ self.now.limit }
    {
        self.limit
    }

    /// The number of pending changes.
    pub fn len(&self) -> usize
        ensures len { result ≡ length self.now.pending }
        ensures whole { IsWhole self.now }
    {
        self.pending.len()
    }

    /// Returns the pending changes, in the order in which their addresses were first put.
    ///
    /// # Errors
    ///
    /// - `Memory`: out of memory for the result; never if nothing is pending.
    pub fn pending(&self) -> Result<Vec<Sourced>, GossipError>
        ensures pending { IfOk result (λ v. v.items ≡ map (λ p. p.sourced) self.now.pending) }
        ensures out_of_memory { OnErr result (0 < length self.now.pending) }
        ensures refusal { IsOkUnless result GossipError.Memory }
    {
        Ok(pending::all_of(self.alloc, &self.pending)?)
    }
}
