//! The node, over its parts.
ghost use Rattle.std.specs.Prelude.{◌≡◌, ◌≤◌, ◌↔◌, [], Some, None, Err, length, option_map, IfOk, IfErr, OnOk, OnErr, IsOkUnless};
ghost use Rattle.change_core.specs.Change.{entry_of};
ghost use Rattle.change_core.specs.Members.{greatest};
ghost use Rattle.detector_core.specs.Choices.{seeded};
ghost use Rattle.gossip_core.specs.Dissemination.{most_factor, with_news};
ghost use Rattle.gossip_core.specs.Pending.{limit_for};
ghost use Rattle.node_core.specs.declared.configs.ConfigField.{ConfigField};
ghost use Rattle.node_core.specs.Configs.{bad_field};
ghost use Rattle.node_core.specs.Edits.{entry_in, membership_of, MayEdit};
ghost use Rattle.node_core.specs.Invariant.{IsSeen};
ghost use Rattle.node_core.specs.Node.{altered, asserted_by, own_change};
ghost use Rattle.node_core.specs.Parts.{seen_of};
ghost use Rattle.node_core.specs.Room.{WantsRoom};
ghost use Rattle.node_core.specs.World.{initial_node};

use crate::configs::Config;
use crate::edits::{Edit, alter_parts};
use crate::errors::NodeError;
use crate::rings::SharedRing;
use change_core::{Address, Change, Entry, Incarnation, Moment, Sourced};
use detector_core::{Prober, Timers};
use gossip_core::{Gossip, GossipError};
use hash_ring::PointHash;
use member_core::Members;
use std::alloc::Global;
use std::fmt;
use std::marker::Model;

/// The node of one thread: the members as it holds them, the ring of those that serve, the changes that it still passes
/// on, the deadlines of others' suspect and faulty entries, and its probe (SWIM, DSN 2002; ringpop-go, package swim).
/// The caller passes each moment; the node reads no clock. Contracts see the node and the points of its ring.
#[derive(Drop)]
pub struct NodeState<H: PointHash> {
    pub(crate) config: Config,
    pub(crate) members: Members,
    pub(crate) ring: SharedRing<H>,
    pub(crate) gossip: Gossip,
    pub(crate) timers: Timers,
    pub(crate) prober: Prober,
    pub(crate) moment: Moment,
    pub(crate) alloc: Global,
}

impl<H: PointHash> Model for NodeState<H> {
    ghost use Rattle.node_core.specs.Node.{Seen};
    ghost use Rattle.node_core.specs.Parts.{AreParts, seen_in};

    ghost Value = { Seen H };

    ghost view = { λ a. seen_in (record {
      config = a.config;
      members = a.members;
      ring = a.ring;
      gossip = a.gossip;
      timers = a.timers;
      probing = a.prober;
      moment = a.moment;
    }) };

    ghost invariant = { λ a. AreParts H.hash_of (record {
      config = a.config;
      members = a.members;
      ring = a.ring;
      gossip = a.gossip;
      timers = a.timers;
      probing = a.prober;
      moment = a.moment;
    }) };
}

impl<H: PointHash> NodeState<H> {
    /// Makes a node alone in its cluster, alive at this incarnation with the weight of the configuration. `seed`
    /// decides its random choices, and `moment` is the first that it knows.
    ///
    /// # Errors
    ///
    /// - `BadConfig`: a field is out of its range; the first such field is named. This is checked before any
    ///   allocation.
    /// - `Memory`: out of memory.
    pub fn new(
        alloc: Global,
        config: Config,
        hash: H,
        own: Address,
        incarnation: Incarnation,
        seed: u64,
        moment: Moment,
    ) -> Result<Self, NodeError>
        ensures initial_node { IfOk result (λ n. n ≡ seen_of H.hash_of (initial_node hash config own incarnation moment (seeded seed))) }
        ensures bad_config { (field : ConfigField) → (result ≡ Err (NodeError.BadConfig field)) ↔ (bad_field config ≡ Some field) }
        ensures refusal { IfErr result (λ e. bad_field config ≡ None → e ≡ NodeError.Memory) }
    {
        if let Some(field) = config.bad_field() {
            return Err(NodeError::BadConfig(field));
        }
        let ring = SharedRing::of_one(alloc, hash, config.replicas, own, config.weight)?;
        let members = Members::new(alloc, own, incarnation, config.weight, config.max_members)?;
        let gossip = first_news(alloc, config.piggyback, &members.own())?;
        Ok(NodeState {
            config,
            members,
            ring,
            gossip,
            timers: Timers::new(alloc),
            prober: Prober::new(alloc, seed, config.helpers, 0),
            moment,
            alloc,
        })
    }

    /// Returns the number of members that the node holds, itself among them.
    pub fn len(&self) -> usize
        ensures count { result ≡ length self.now.node.members }
        // What holds of a node between any two calls.
        ensures whole { IsSeen H.hash_of self.now }
    {
        self.members.len()
    }

    /// Returns the node's own entry, as a change.
    pub fn own(&self) -> Change
        ensures { result ≡ own_change self.now.node }
    {
        self.members.own()
    }

    /// Returns the entry that the node holds of an address.
    pub fn member(&self, address: Address) -> Option<Entry>
        ensures { result ≡ option_map entry_of (greatest self.now.node.members address) }
    {
        self.members.get(address)
    }
}

impl<H: PointHash> NodeState<H> {
    /// Makes one alteration in all parts, or none in any.
    pub(crate) fn alter(&mut self, edit: Edit, news: &Sourced) -> Result<(), NodeError>
        requires may { MayEdit (membership_of self.old.node) edit }
        requires entry { entry_in edit ≡ Some news.now.change }
        ensures ok { OnOk result (self.new.node ≡ altered self.old.node news.now) }
        ensures err { OnErr result (self.new ≡ self.old) }
        ensures out_of_memory { OnErr result (WantsRoom self.old.node news.now.change) }
        ensures refusal { IsOkUnless result NodeError.Memory }
    {
        let config = self.config;
        let moment = self.moment;
        alter_parts(
            &mut self.members,
            &mut self.ring,
            &mut self.gossip,
            &mut self.timers,
            &config,
            moment,
            edit,
            news,
        )
    }

    /// Merges the points of the members that were added to the ring: at the end of each call that may have added some, so that
    /// look-ups find them all merged.
    pub(crate) fn settle(&mut self)
        ensures { self.new ≡ self.old }
    {
        self.ring.settle();
    }
}

/// Its own entry, how many members it holds, and its moment: the lists may be long.
impl<H: PointHash> fmt::Debug for NodeState<H> {
    fn fmt<F: fmt::Write>(&self, f: &mut fmt::Formatter<F>) -> fmt::Result {
        f.debug_struct("NodeState")
            .field("own", &self.own())
            .field("members", &self.len())
            .field("moment", &self.moment)
            .finish_non_exhaustive()
    }
}

/// Makes the pending list of a new node: its first entry. `Memory`: out of memory.
fn first_news(alloc: Global, piggyback: u32, birth: &Change) -> Result<Gossip, GossipError>
    requires { (1 ≤ piggyback) × (piggyback ≤ most_factor) }
    ensures news { IfOk result (λ g. g ≡ with_news (record { factor = piggyback; limit = limit_for piggyback 1; pending = [] }) (asserted_by birth.now.address birth.now)) }
    ensures refusal { IsOkUnless result GossipError.Memory }
{
    let mut gossip = Gossip::new(alloc, piggyback)?;
    gossip.put(sourced_by_self(birth))?;
    Ok(gossip)
}

/// A change of the node's own entry, said by itself.
pub(crate) fn sourced_by_self(change: &Change) -> Sourced
    ensures { result ≡ asserted_by change.now.address change.now }
{
    Sourced {
        change: *change,
        source: change.address,
        source_incarnation: change.incarnation,
    }
}
