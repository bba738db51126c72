//! Lookups of a node's members and its ring. They change nothing that contracts see.
ghost use Rattle.std.specs.Prelude.{◌≡◌, slice_get};
ghost use Rattle.change_core.specs.Members.{digest_text};
ghost use Rattle.detector_core.specs.Picks.{running_of};
ghost use Rattle.hash_ring.specs.Serving.{servers_of};
ghost use Rattle.node_core.specs.Messages.{digest_of};
ghost use Rattle.node_core.specs.Step.{Answers, NamesOwners, owners_by};
ghost use Rattle.node_core.specs.Viewing.{view_of};

use crate::errors::NodeError;
use crate::lists::ChangeList;
use crate::node::NodeState;
use crate::views::View;
use change_core::{Address, Digest};
use detector_core::{Addresses, Running};
use hash_ring::PointHash;
use message_core::Text;

impl<H: PointHash> NodeState<H> {
    /// Returns the owner of a key: of the serving members the one nearest to it (ringpop-go, package hashring). None if
    /// and only if no member serves. It takes no memory and hashes the key alone.
    pub fn owner(&self, key: &[u8]) -> Option<Address>
        ensures { result ≡ slice_get (owners_by H.hash_of self.now.node key.now) 0 }
    {
        self.ring.owner(key)
    }

    /// Returns the first `count` owners of a key, the owner first, or all serving members if there are fewer.
    ///
    /// # Errors
    ///
    /// - `Memory`: out of memory; never if `count` is 0 or no member serves.
    pub fn owners(&self, key: &[u8], count: usize) -> Result<Addresses, NodeError>
        ensures { NamesOwners (H.hash_of self.now.node.hash) self.now.node.config.replicas (servers_of self.now.node.members) key.now count result }
    {
        Ok(Addresses::from_vec(self.ring.owners(key, count)?))
    }

    /// Returns the members, ascending by address.
    ///
    /// # Errors
    ///
    /// - `Memory`: out of memory.
    pub fn members(&self) -> Result<ChangeList, NodeError>
        ensures { Answers self.now.node.members result }
    {
        Ok(ChangeList::from_vec(self.members.list()?))
    }

    /// Returns the members as one line of text. Each list of members has a different text.
    ///
    /// # Errors
    ///
    /// - `Memory`: out of memory.
    pub fn digest_text(&self) -> Result<Text, NodeError>
        ensures { Answers (digest_text self.now.node.members) result }
    {
        Ok(Text::from_string(self.members.digest_text()?))
    }

    /// Returns the SHA-256 of the digest text (FIPS 180-4).
    ///
    /// # Errors
    ///
    /// - `Memory`: out of memory for the text.
    pub fn digest(&self) -> Result<Digest, NodeError>
        ensures { Answers (digest_of self.now.node.members) result }
    {
        Ok(self.members.digest()?)
    }

    /// Returns the ring as it is now. It names the owners of keys as the node does now, whatever changes later. The
    /// points are copied by the first view after a change of the ring, and the next ones share that copy; nothing is
    /// hashed.
    ///
    /// # Errors
    ///
    /// - `Memory`: out of memory for the copy.
    pub fn view(&mut self) -> Result<View<H>, NodeError>
        ensures answer { Answers (view_of self.old.node) result }
        ensures same { self.new ≡ self.old }
    {
        let own = self.members.own();
        Ok(View::of(&own, self.ring.shared()?))
    }

    /// The probe that runs, with the helper of least address that was asked and has not answered.
    pub fn running(&self) -> Option<Running>
        ensures { result ≡ running_of self.now.node.probing }
    {
        self.prober.running()
    }
}
