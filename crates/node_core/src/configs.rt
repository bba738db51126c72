//! The configuration of a node.
ghost use Rattle.std.specs.Prelude.{◌≡◌, IsTrue, ◌↔◌};
ghost use Rattle.node_core.specs.Configs.{bad_field, field_name, standard};

use change_core::{MAX_MEMBERS, MAX_NUMBER, Weight};
use gossip_core::MAX_FACTOR;
use hash_ring::MAX_REPLICAS;
use std::fmt;

/// The greatest number of threads that serve a node of a cluster.
pub const MAX_WORKERS: u32 = 16;

/// The configuration of a node, apart from its address and its hash.
#[derive(Clone, Copy, Debug, PartialEq, Eq)]
pub struct Config {
    /// The number of points of the ring for each unit of a server's weight, from 1 to 1,000. More points spread the
    /// keys more evenly; each change of the ring then costs more.
    pub replicas: u32,
    /// The greatest number of members, the node itself among them, from 1 to 4,096. Changes about others past it are
    /// refused.
    pub max_members: usize,
    /// The time in milliseconds until a suspect becomes faulty, from 1 to 2^53 - 1. A longer time gives a slow node
    /// more chance to refute; a dead one keeps its keys longer.
    pub suspect_ms: u64,
    /// The time in milliseconds until a faulty member becomes a tombstone, from 1 to 2^53 - 1.
    pub faulty_ms: u64,
    /// The number of members that are asked to ping a target that did not answer, from 0 to 16. More helpers make a
    /// false suspicion rarer and cost more messages.
    pub helpers: usize,
    /// The number of times that a change is passed on for each decimal digit of the number of serving members, from 1
    /// to 1,000.
    pub piggyback: u32,
    /// The greatest number of changes in a message, from 1 to 4,096.
    pub per_message: usize,
    /// The node's number of shares of the ring.
    pub weight: Weight,
}

/// A field of a configuration.
#[derive(Clone, Copy, Debug, PartialEq, Eq)]
pub enum ConfigField {
    Replicas,
    MaxMembers,
    SuspectMs,
    FaultyMs,
    Helpers,
    Piggyback,
    PerMessage,
}

impl ConfigField {
    /// Its name in `Config`.
    pub fn name(self) -> &'static str
        ensures { result.now ≡ field_name self }
    {
        match self {
            ConfigField::Replicas => "replicas",
            ConfigField::MaxMembers => "max_members",
            ConfigField::SuspectMs => "suspect_ms",
            ConfigField::FaultyMs => "faulty_ms",
            ConfigField::Helpers => "helpers",
            ConfigField::Piggyback => "piggyback",
            ConfigField::PerMessage => "per_message",
        }
    }
}

impl fmt::Display for ConfigField {
    ghost use Rattle.std.specs.Prelude.{Some};

    ghost output = { λ f. Some (field_name f) };

    fn fmt<W: fmt::Write>(&self, f: &mut fmt::Formatter<W>) -> fmt::Result {
        f.write_str(self.name())
    }
}

/// The greatest number of helpers that can be asked about a lost target.
const MAX_HELPERS: usize = 16;

impl Config {
    /// Returns a configuration that suits most clusters: 100 points of the ring for each unit of weight, up to 4,096
    /// members, 5 seconds until a suspect is faulty and a day until it is a tombstone, 3 helpers, 15 times passed on
    /// for each digit of the number of serving members, 64 changes in a message, and the weight 1. The points, both
    /// waits, the helpers and the factor are ringpop-go's, the rest is this project's own.
    pub fn standard() -> Self
        ensures { result ≡ standard }
    {
        let Some(weight) = Weight::new(1) else {
            unreachable!()
        };
        Config {
            replicas: 100,
            max_members: MAX_MEMBERS,
            suspect_ms: 5_000,
            faulty_ms: 86_400_000,
            helpers: 3,
            piggyback: 15,
            per_message: 64,
            weight,
        }
    }

    /// Returns the first field that is out of its range, in the order of the fields.
    pub(crate) fn bad_field(&self) -> Option<ConfigField>
        ensures { result ≡ bad_field self.now }
    {
        if self.replicas < 1 || self.replicas > MAX_REPLICAS {
            return Some(ConfigField::Replicas);
        }
        if self.max_members < 1 || self.max_members > MAX_MEMBERS {
            return Some(ConfigField::MaxMembers);
        }
        if self.suspect_ms < 1 || self.suspect_ms > MAX_NUMBER {
            return Some(ConfigField::SuspectMs);
        }
        if self.faulty_ms < 1 || self.faulty_ms > MAX_NUMBER {
            return Some(ConfigField::FaultyMs);
        }
        if self.helpers > MAX_HELPERS {
            return Some(ConfigField::Helpers);
        }
        if self.piggyback < 1 || self.piggyback > MAX_FACTOR {
            return Some(ConfigField::Piggyback);
        }
        if self.per_message < 1 || self.per_message > MAX_MEMBERS {
            return Some(ConfigField::PerMessage);
        }
        None
    }
}
