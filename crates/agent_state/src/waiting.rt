//! The requests of keys that wait at this node, for its application or for other owners.
use crate::counters::Count;
use agent_core::{MAX_OWN, Shares, WaitingCounts};
use change_core::Address;
use std::alloc::{AllocError, Global};
use std::sync::{Mutex, Wait};

/// The requests of keys that wait. Those of this node's own keys and those of other owners' keys take no place of each other.
#[derive(Drop)]
pub struct Waiting {
    own: Count,
    others: Mutex<Shares>,
    /// How many requests found no place.
    refused: Count,
}

impl Waiting {
    /// Makes the places, of which none is taken.
    ///
    /// # Errors
    ///
    /// - `AllocError`: out of memory.
    pub fn new(alloc: Global) -> Result<Self, AllocError> {
        Ok(Waiting {
            own: Count::new(),
            others: Mutex::new(Shares::new(alloc)?),
            refused: Count::new(),
        })
    }

    /// Takes a place for a request of a key of this owner, at the node with its own address. Returns whether it took one.
    pub fn take<W: Wait>(&self, rt: &W, own: Address, owner: Address) -> bool {
        let is_taken = if owner == own {
            self.own.add_below(MAX_OWN)
        } else {
            self.others.lock(rt).take(owner)
        };
        if !is_taken {
            self.refused.add(1);
        }
        is_taken
    }

    /// Gives back the place of such a request.
    pub fn give_back<W: Wait>(&self, rt: &W, own: Address, owner: Address) {
        if owner == own {
            self.own.subtract(1);
        } else {
            self.others.lock(rt).give_back(owner);
        }
    }

    /// Returns how many requests wait, and how many found no place.
    pub fn counts<W: Wait>(&self, rt: &W) -> WaitingCounts {
        WaitingCounts {
            own: self.own.get(),
            others: self.others.lock(rt).len() as u64,
            refused: self.refused.get(),
        }
    }
}
