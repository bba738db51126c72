//! The places of requests that wait for other nodes. Each owner has a share of them, so that one that is slow or dead does
//! not keep requests from the others.
ghost use Rattle.std.specs.Prelude.{◌≡◌, ◌≤◌, ◌<◌, [], IfOk, IfSome, length, position, vec_capacity};
ghost use Rattle.agent_core.specs.Shares.{OneSparesOthers, count_for, is_for, may_wait, waiting_with, waiting_without};

use change_core::Address;
use std::alloc::{AllocError, Global};
use std::marker::Model;

/// The most requests of a node's own keys that wait at a time.
pub const MAX_OWN: u64 = 96;

/// The most requests that wait for other nodes.
pub const MAX_WAITING: usize = 128;

/// The number of places from which on an owner has no more than its share.
const MAX_UNSHARED: usize = 64;

/// The share of each owner: the number of its requests that may wait while others have the rest.
pub const OWNER_SHARE: usize = 32;

/// The requests that wait for other nodes. Contracts see a list with the owner of each.
#[derive(Debug, Drop)]
pub struct Shares {
    owners: Vec<Address>,
}

impl Model for Shares {
    ghost use Rattle.std.specs.Prelude.{◌≤◌, ℕ, List, vec_capacity};
    ghost use Rattle.agent_core.specs.Shares.{IsShared};

    ghost Value = { List ℕ };

    ghost view = { λ s. s.owners.items };

    ghost invariant = { λ s. IsShared s.owners.items × (128 ≤ vec_capacity s.owners) };
}

/// Returns how many of these requests wait for an owner.
fn count_for(waiting: &[Address], owner: Address) -> usize
    ensures { result ≡ count_for owner waiting.now }
{
    waiting.iter().filter(|it| **it == owner).count()
}

/// Returns whether another request may wait for an owner.
fn may_wait(waiting: &[Address], owner: Address) -> bool
    ensures { result ≡ may_wait owner waiting.now }
{
    let total = waiting.len();
    total < MAX_UNSHARED || (total < MAX_WAITING && count_for(waiting, owner) < OWNER_SHARE)
}

/// Returns the place of the first of these requests that waits for an owner.
fn first_for(waiting: &[Address], owner: Address) -> Option<usize>
    ensures found { result ≡ position (is_for owner) waiting.now }
    ensures within { IfSome result (λ i. i < length waiting.now) }
{
    waiting.iter().position(|it| *it == owner)
}

/// Removes the first of these requests that waits for an owner, if one does.
fn remove_one(waiting: &mut Vec<Address>, owner: Address)
    ensures rest { waiting.new.items ≡ waiting_without owner waiting.old.items }
    ensures capacity { vec_capacity waiting.new ≡ vec_capacity waiting.old }
{
    let place = first_for(waiting, owner);
    if let Some(place) = place {
        waiting.remove(place);
    }
}

impl Shares {
    /// Makes the places, of which none is taken.
    ///
    /// # Errors
    ///
    /// - `AllocError`: out of memory.
    pub fn new(alloc: Global) -> Result<Self, AllocError>
        ensures { IfOk result (λ shares. shares ≡ []) }
    {
        let owners = Vec::with_capacity(alloc, MAX_WAITING)?;
        Ok(Shares { owners })
    }

    /// Takes a place for a request that waits for an owner, if one may. Returns whether it took one. There are 128 places; while
    /// 64 or more are taken, an owner gets no more than 32.
    pub fn take(&mut self, owner: Address) -> bool
        ensures taken { result ≡ may_wait owner self.old }
        ensures waiting { self.new ≡ waiting_with owner self.old }
        ensures spared { OneSparesOthers self.old }
    {
        if !may_wait(self.owners.as_slice(), owner) {
            return false;
        }
        self.owners.push_reserved(owner);
        true
    }

    /// Gives back a place that a request for an owner took.
    pub fn give_back(&mut self, owner: Address)
        ensures { self.new ≡ waiting_without owner self.old }
    {
        remove_one(&mut self.owners, owner);
    }

    /// Returns how many places are taken.
    pub fn len(&self) -> usize
        ensures len { result ≡ length self.now }
        ensures bound { result ≤ MAX_WAITING }
    {
        self.owners.len()
    }
}
