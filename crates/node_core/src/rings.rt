//! The node's ring, and the copy of it that views share.
ghost use Rattle.std.specs.Prelude.{◌≡◌, ◌≤◌, ◌<◌, [], ◌∷◌, length, take, IfOk, OnOk, OnErr, IsOk, IsOkUnless};
ghost use Rattle.std.specs.Arc.{arc_value};
ghost use Rattle.hash_ring.specs.Points.{IsReplicas, owner, owners};
ghost use Rattle.hash_ring.specs.RingModel.{ring_of, HasRoom};
ghost use Rattle.hash_ring.specs.Servers.{shares, with_server, without};

use change_core::{Address, Weight};
use hash_ring::{PointHash, Ring, RingError};
use std::alloc::Global;
use std::marker::Model;
use std::sync::Arc;

/// A ring, and the last copy of it that was shared, while it is still the same. Contracts see the ring alone.
#[derive(Drop)]
pub(crate) struct SharedRing<H: PointHash> {
    ring: Ring<H>,
    shown: Option<Arc<Ring<H>>>,
    alloc: Global,
}

impl<H: PointHash> Model for SharedRing<H> {
    ghost use Rattle.std.specs.Prelude.{◌≡◌, IfSome};
    ghost use Rattle.std.specs.Arc.{arc_value};
    ghost use Rattle.hash_ring.specs.RingModel.{RingModel};

    ghost Value = { RingModel H };

    ghost view = { λ r. r.ring };

    ghost invariant = { λ r. IfSome r.shown (λ shown. arc_value shown ≡ record r.ring { room = (arc_value shown).room }) };
}

impl<H: PointHash> SharedRing<H> {
    /// Makes the ring of one server, not shared yet. `Memory`: out of memory.
    pub(crate) fn of_one(
        alloc: Global,
        hash: H,
        replicas: u32,
        address: Address,
        weight: Weight,
    ) -> Result<Self, RingError>
        requires { IsReplicas replicas }
        ensures ring { IfOk result (λ r. r ≡ ring_of hash (H.hash_of hash) replicas (record { address = address; weight = weight } ∷ []) r.room) }
        ensures refusal { IsOkUnless result RingError.Memory }
    {
        let mut ring = Ring::new(alloc, hash, replicas)?;
        ring.reserve_for(address, weight)?;
        ring.add(address, weight);
        Ok(SharedRing {
            ring,
            shown: None,
            alloc,
        })
    }

    /// Returns the number of servers.
    pub(crate) fn len(&self) -> usize
        ensures count { result ≡ length self.now.servers }
        ensures kept { self.now ≡ ring_of self.now.hash (H.hash_of self.now.hash) self.now.replicas self.now.servers self.now.room }
    {
        self.ring.len()
    }

    /// Makes room for a server, as the ring does.
    pub(crate) fn reserve_for(&mut self, address: Address, weight: Weight) -> Result<(), RingError>
        ensures room { OnOk result (HasRoom self.new (record { address = address; weight = weight })) }
        ensures same { self.new ≡ record self.old { room = self.new.room } }
        ensures out_of_memory { OnErr result (shares address self.old.servers < weight) }
        ensures refusal { IsOkUnless result RingError.Memory }
    {
        self.ring.reserve_for(address, weight)
    }

    /// Adds a server, as the ring does.
    pub(crate) fn add(&mut self, address: Address, weight: Weight)
        requires { HasRoom self.old (record { address = address; weight = weight }) }
        ensures ring { self.new ≡ ring_of self.old.hash (H.hash_of self.old.hash) self.old.replicas (with_server (record { address = address; weight = weight }) self.old.servers) self.new.room }
    {
        if self.ring.add_late(address, weight) {
            self.shown = None;
        }
    }

    /// Merges what was added, as the ring does.
    pub(crate) fn settle(&mut self)
        ensures same { self.new ≡ record self.old { room = self.new.room } }
        ensures room { self.old.room ≤ self.new.room }
    {
        self.ring.settle();
    }

    /// Removes a server, as the ring does.
    pub(crate) fn remove(&mut self, address: Address)
        ensures ring { self.new ≡ ring_of self.old.hash (H.hash_of self.old.hash) self.old.replicas (without address self.old.servers) self.new.room }
    {
        if self.ring.remove(address) {
            self.shown = None;
        }
    }

    /// The owner of a key.
    pub(crate) fn owner(&self, key: &[u8]) -> Option<Address>
        ensures first { result ≡ owner (H.hash_of self.now.hash) self.now.replicas self.now.servers key.now }
    {
        self.ring.owner(key)
    }

    /// Returns the first owners of a key. `Memory`: out of memory.
    pub(crate) fn owners(&self, key: &[u8], count: usize) -> Result<Vec<Address>, RingError>
        ensures named { IfOk result (λ named. named.items ≡ take count (owners (H.hash_of self.now.hash) self.now.replicas self.now.servers key.now)) }
        ensures out_of_memory { OnErr result ((0 < count) × (0 < length self.now.servers)) }
        ensures refusal { IsOkUnless result RingError.Memory }
    {
        self.ring.owners(key, count)
    }

    /// Returns the ring as it is now, shared by all callers since it last changed; the first of them copies it.
    /// `Memory`: out of memory.
    pub(crate) fn shared(&mut self) -> Result<Arc<Ring<H>>, RingError>
        ensures same { self.new ≡ self.old }
        ensures shown { IfOk result (λ shown. arc_value shown ≡ record self.old { room = (arc_value shown).room }) }
        ensures refusal { IsOkUnless result RingError.Memory }
    {
        if let Some(shown) = &self.shown
            && let Ok(another) = Arc::try_clone(shown)
        {
            return Ok(another);
        }
        let shown = Arc::new(self.alloc, self.ring.copy()?)?;
        self.shown = Arc::try_clone(&shown).ok();
        Ok(shown)
    }
}
