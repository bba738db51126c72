//! A view of a node's ring, for lookups without the node.
ghost use Rattle.std.specs.Prelude.{◌≡◌};
ghost use Rattle.std.specs.Arc.{arc_value};
ghost use Rattle.hash_ring.specs.Points.{owner};
ghost use Rattle.node_core.specs.Step.{NamesOwners};
ghost use Rattle.node_core.specs.Viewing.{viewed};

use crate::errors::NodeError;
use change_core::{Address, Change, Incarnation};
use detector_core::Addresses;
use hash_ring::{PointHash, Ring};
use std::marker::Model;
use std::sync::Arc;

/// A node's address, incarnation and ring. It names the owners of keys as the node did when the view was made, whatever
/// changes afterwards, and makes no call of the node. Views between two changes of the ring share one copy of it, in any
/// threads.
#[derive(Drop)]
pub struct View<H: PointHash> {
    own: Address,
    incarnation: Incarnation,
    ring: Arc<Ring<H>>,
}

impl<H: PointHash> Model for View<H> {
    ghost use Rattle.std.specs.Arc.{arc_value};
    ghost use Rattle.node_core.specs.Viewing.{Viewed, viewed};

    ghost Value = { Viewed H };

    ghost view = { λ v. viewed v.own v.incarnation (arc_value v.ring) };
}

impl<H: PointHash> View<H> {
    /// The view of the node of this own entry, whose ring this is.
    pub(crate) fn of(own: &Change, ring: Arc<Ring<H>>) -> Self
        ensures { result ≡ viewed own.now.address own.now.incarnation (arc_value ring) }
    {
        View {
            own: own.address,
            incarnation: own.incarnation,
            ring,
        }
    }

    /// The address of the node.
    pub fn own(&self) -> Address
        ensures { result ≡ self.now.own }
    {
        self.own
    }

    /// Returns the incarnation of the node's own entry.
    pub fn incarnation(&self) -> Incarnation
        ensures { result ≡ self.now.incarnation }
    {
        self.incarnation
    }

    /// Returns the owner of a key: of the servers the one nearest to it. None if and only if the view has no server. It
    /// takes no memory and hashes the key alone.
    pub fn owner(&self, key: &[u8]) -> Option<Address>
        ensures { result ≡ owner (H.hash_of self.now.hash) self.now.replicas self.now.servers key.now }
    {
        self.ring.owner(key)
    }

    /// Returns the first `count` owners of a key, the owner first, or all servers if there are fewer.
    ///
    /// # Errors
    ///
    /// - `Memory`: out of memory; never if `count` is 0 or the view has no server.
    pub fn owners(&self, key: &[u8], count: usize) -> Result<Addresses, NodeError>
        ensures { NamesOwners (H.hash_of self.now.hash) self.now.replicas self.now.servers key.now count result }
    {
        match self.ring.owners(key, count) {
            Ok(named) => Ok(Addresses::from_vec(named)),
            Err(_) => Err(NodeError::Memory),
        }
    }
}
