//! The ring, kept up to date as servers are added and removed.
ghost use Rattle.std.specs.Prelude.{◌≡◌, ℕ, List, ◌+◌, ◌-◌, ◌*◌, ◌^◌, ◌<◌, ◌≤◌, ◌↔◌, [], ◌∷◌, ◌++◌, length, take, drop, not, false, is_some, IsOk, IfOk, IfSome, IfNone, Err, OnOk, OnErr, IsOkUnless, vec_len, vec_capacity};
ghost use Rattle.hash_ring.specs.Points.{IsReplicas, IsNearest, owner, owners};
ghost use Rattle.hash_ring.specs.Servers.{has_weight, weight_of, with_each, with_server, without};
ghost use Rattle.hash_ring.specs.declared.servers.Server.{Server};

use crate::errors::RingError;
use crate::hash::PointHash;
use crate::late::merge_late;
use crate::lists::Lists;
use crate::points::{MAX_REPLICAS, point_count, push_points};
use crate::search::{next_server, owners_from_both};
use crate::servers::{Server, has_weight, weight_among};
use crate::sorted::place;
use change_core::{Address, Weight};
use std::alloc::Global;
use std::marker::Model;

/// A consistent hash ring: each server has `replicas` points for each unit of its weight, and a key belongs to the server whose point
/// comes first at or after the key's hash (ringpop-go, package hashring). Contracts see the hash, `replicas`, the servers with their
/// weights, the points, and how many more points there is room for.
///
/// A ring is settled where all its points are in one sorted list. `add` and `remove` keep it so. `add_late` leaves new points in a second
/// list until `settle` merges them; look-ups return the same before, and take longer.
#[derive(Drop)]
pub struct Ring<H: PointHash> {
    hash: H,
    replicas: u32,
    lists: Lists,
}

impl<H: PointHash> Model for Ring<H> {
    ghost use Rattle.std.specs.Prelude.{vec_capacity};
    ghost use Rattle.hash_ring.specs.RingModel.{RingModel, ring_model, IsKept};

    ghost Value = { RingModel H };

    ghost view = { λ r. ring_model r.hash r.replicas r.lists.servers r.lists.points r.lists.late };

    ghost invariant = { λ r. IsKept (H.hash_of r.hash) r.replicas r.lists.servers.items r.lists.points.items r.lists.late.items (vec_capacity r.lists.late) (vec_capacity r.lists.points) };
}

impl<H: PointHash> Ring<H> {
    ghost use Rattle.hash_ring.specs.RingModel.{ring_of, HasRoom};

    /// Makes a ring without servers, of `replicas` points for each unit of a server's weight.
    ///
    /// # Errors
    ///
    /// - `BadReplicas`: `replicas` is not from 1 to 1,000.
    pub fn new(alloc: Global, hash: H, replicas: u32) -> Result<Self, RingError>
        ensures range { IsOk result ↔ IsReplicas replicas }
        ensures empty { IfOk result (λ r. r ≡ ring_of hash (H.hash_of hash) replicas [] r.room) }
        ensures refusal { IsOkUnless result RingError.BadReplicas }
    {
        if replicas < 1 || replicas > MAX_REPLICAS {
            return Err(RingError::BadReplicas);
        }
        Ok(Ring {
            hash,
            replicas,
            lists: Lists::new(alloc),
        })
    }

    /// Makes the ring of these servers. Of two with one address the later counts. All points are sorted together, so it takes less time
    /// than an `add` for each.
    ///
    /// # Errors
    ///
    /// - `BadReplicas`: `replicas` is not from 1 to 1,000.
    /// - `Memory`: out of memory; never without servers.
    pub fn with_servers(
        alloc: Global,
        hash: H,
        replicas: u32,
        servers: &[Server],
    ) -> Result<Self, RingError>
        ensures made { IfOk result (λ r. r ≡ ring_of hash (H.hash_of hash) replicas (with_each servers.now []) r.room) }
        ensures refusal { IsReplicas replicas → IsOkUnless result RingError.Memory }
        ensures bad_replicas { (IsReplicas replicas → ⊥) → result ≡ Err RingError.BadReplicas }
        ensures out_of_memory { IsReplicas replicas → OnErr result (0 < length servers.now) }
    {
        // `Ring::new` refuses what is out of range.
        if servers.is_empty() || replicas < 1 || replicas > MAX_REPLICAS {
            return Ring::new(alloc, hash, replicas);
        }
        let mut lists = Lists::new(alloc);
        lists.fill(hash, replicas, servers)?;
        Ok(Ring {
            hash,
            replicas,
            lists,
        })
    }

    /// Returns the number of servers.
    pub fn len(&self) -> usize
        ensures count { result ≡ length self.now.servers }
        // The points that are kept are those of the servers, after any calls.
        ensures kept { self.now ≡ ring_of self.now.hash (H.hash_of self.now.hash) self.now.replicas self.now.servers self.now.room }
    {
        self.lists.servers.len()
    }

    /// Returns whether the ring has a server at this address.
    pub fn contains(&self, address: Address) -> bool
        ensures { result ≡ is_some (weight_of address self.now.servers) }
    {
        self.weight(address).is_some()
    }

    /// Returns the weight of the server at this address, if the ring has one.
    pub fn weight(&self, address: Address) -> Option<Weight>
        ensures { result ≡ weight_of address self.now.servers }
    {
        weight_among(&self.lists.servers, address)
    }

    /// Reserves room for adding a server, unless the ring has it with at least this weight. What room there is never
    /// shrinks, and nothing else changes.
    ///
    /// # Errors
    ///
    /// - `Memory`: out of memory; never if there is room.
    pub fn reserve_for(&mut self, address: Address, weight: Weight) -> Result<(), RingError>
        ensures room { OnOk result (HasRoom self.new (record { address = address; weight = weight })) }
        ensures enough { HasRoom self.old (record { address = address; weight = weight }) → IsOk result }
        ensures same { self.new ≡ record self.old { room = self.new.room } }
        ensures grown { self.old.room ≤ self.new.room }
        ensures refusal { IsOkUnless result RingError.Memory }
    {
        if has_weight(&self.lists.servers, address, weight) {
            return Ok(());
        }
        let count = point_count(self.replicas, weight) as usize;
        self.lists.reserve(count)
    }

    /// Adds a server and its points, or replaces its points by those of the new weight. Returns whether the ring changed: it does unless
    /// it has the server with this weight. Requires room (`reserve_for`), or the server with at least this weight; allocates nothing.
    /// A change leaves the ring settled. For several servers `add_late` for each and then one `settle` are faster.
    pub fn add(&mut self, address: Address, weight: Weight) -> bool
        requires { HasRoom self.old (record { address = address; weight = weight }) }
        ensures ring { self.new ≡ ring_of self.old.hash (H.hash_of self.old.hash) self.old.replicas (with_server (record { address = address; weight = weight }) self.old.servers) self.new.room }
        ensures added { result ≡ not (has_weight weight (weight_of address self.old.servers)) }
        ensures unchanged { result ≡ false → self.new ≡ self.old }
    {
        let added = self.add_late(address, weight);
        if added {
            self.settle();
        }
        added
    }

    /// Adds a server as `add` does, with the same result and the same requirement, but leaves its points for the next `settle` to
    /// merge. Until then look-ups return the same and take longer. For several servers, one after another.
    pub fn add_late(&mut self, address: Address, weight: Weight) -> bool
        requires { HasRoom self.old (record { address = address; weight = weight }) }
        ensures ring { self.new ≡ ring_of self.old.hash (H.hash_of self.old.hash) self.old.replicas (with_server (record { address = address; weight = weight }) self.old.servers) self.new.room }
        ensures added { result ≡ not (has_weight weight (weight_of address self.old.servers)) }
        ensures unchanged { result ≡ false → self.new ≡ self.old }
    {
        if self.weight(address) == Some(weight) {
            return false;
        }
        let count = point_count(self.replicas, weight);
        self.lists.take_out(address);
        let Ok(_) = place(&mut self.lists.servers, Server { address, weight }) else {
            unreachable!()
        };
        push_points(&mut self.lists.late, self.hash, address, count);
        true
    }

    /// Sorts the points that `add_late` left and merges them into the others, in one pass, so that look-ups are fast again. Servers and
    /// points stay the same, and the room does not shrink. Allocates nothing, and does nothing on a settled ring.
    pub fn settle(&mut self)
        ensures same { self.new ≡ record self.old { room = self.new.room } }
        ensures room { self.old.room ≤ self.new.room }
    {
        merge_late(
            &mut self.lists.points,
            &mut self.lists.starts,
            &mut self.lists.late,
        );
    }

    /// Removes a server and its points. Returns whether the ring had it; if not, servers and points are unchanged. The room does not
    /// shrink. Allocates nothing. A change leaves the ring settled.
    pub fn remove(&mut self, address: Address) -> bool
        ensures ring { self.new ≡ ring_of self.old.hash (H.hash_of self.old.hash) self.old.replicas (without address self.old.servers) self.new.room }
        ensures removed { result ≡ is_some (weight_of address self.old.servers) }
        ensures unchanged { result ≡ false → self.new ≡ record self.old { room = self.new.room } }
        ensures room { self.old.room ≤ self.new.room }
    {
        self.lists.take_out(address)
    }

    /// Returns the owner of a key: the server of the first point at or after the key's hash, wrapping around to the least point. None
    /// if and only if the ring has no servers. Allocates nothing.
    pub fn owner(&self, key: &[u8]) -> Option<Address>
        ensures first { result ≡ owner (H.hash_of self.now.hash) self.now.replicas self.now.servers key.now }
        ensures nearest { IfSome result (IsNearest (H.hash_of self.now.hash) self.now.replicas self.now.servers key.now) }
        ensures empty { IfNone result (self.now.servers ≡ []) }
    {
        next_server(
            &self.lists.points,
            &self.lists.starts,
            &self.lists.late,
            self.hash.hash(key),
        )
    }

    /// Returns the first `count` owners of a key, the owner first, or all servers if there are fewer: the servers by
    /// their distance from the key, and at one distance by address.
    ///
    /// # Errors
    ///
    /// - `Memory`: out of memory; never if `count` is 0 or the ring has no servers.
    pub fn owners(&self, key: &[u8], count: usize) -> Result<Vec<Address>, RingError>
        ensures named { IfOk result (λ named. named.items ≡ take count (owners (H.hash_of self.now.hash) self.now.replicas self.now.servers key.now)) }
        ensures out_of_memory { OnErr result ((0 < count) × (0 < length self.now.servers)) }
        ensures refusal { IsOkUnless result RingError.Memory }
    {
        let alloc = *self.lists.servers.allocator();
        let hash = self.hash.hash(key);
        let count = count.min(self.lists.servers.len());
        if count == 0 {
            return Ok(Vec::new(alloc));
        }
        owners_from_both(
            alloc,
            &self.lists.points,
            &self.lists.starts,
            &self.lists.late,
            hash,
            count,
        )
    }

    /// Makes a separate ring that equals this one, except for its room.
    ///
    /// # Errors
    ///
    /// - `Memory`: out of memory; never without servers.
    pub fn copy(&self) -> Result<Self, RingError>
        ensures same { IfOk result (λ ring. ring ≡ record self.now { room = ring.room }) }
        ensures out_of_memory { OnErr result (0 < length self.now.servers) }
        ensures refusal { IsOkUnless result RingError.Memory }
    {
        let alloc = *self.lists.servers.allocator();
        if self.lists.servers.is_empty() {
            return Ring::new(alloc, self.hash, self.replicas);
        }
        let mut lists = Lists::new(alloc);
        lists.fill_as(&self.lists, self.replicas)?;
        Ok(Ring {
            hash: self.hash,
            replicas: self.replicas,
            lists,
        })
    }
}
