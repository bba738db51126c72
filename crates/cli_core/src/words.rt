//! The arguments of the commands: those of commands that read lines, and those of commands that speak to nodes.
ghost use Rattle.std.specs.Prelude.{◌≤◌, ◌<◌, ◌^◌, vec_len};
ghost use Rattle.change_core.specs.Numbers.{greatest_number, most_members};
ghost use Rattle.hash_ring.specs.Points.{IsReplicas};
ghost use Rattle.node_core.specs.Workers.{IsCrew};
ghost use Rattle.cli_core.specs.Words.{IsPerMessage, IsPiggyback, IsRequests};

use change_core::{Address, Incarnation, Weight};

/// The arguments of `owner`.
#[derive(Clone, Copy, Debug, PartialEq, Eq)]
pub struct OwnerWords<'a> {
    /// The number of owners to name, 0 to 4,096.
    pub count: usize,
    /// The number of a server's points for each unit of its weight, 1 to 1,000.
    pub replicas: u32,
    /// True if the hash is the sum of the bytes instead of SHA-256's first eight.
    pub sum: bool,
    /// The key.
    pub key: &'a str,
    pub ghost few: { count ≤ most_members },
    pub ghost replicas_range: { IsReplicas replicas },
}

/// The arguments of `sim`.
#[derive(Clone, Copy, Debug, PartialEq, Eq)]
pub struct SimWords {
    /// The number of a server's points for each unit of its weight, 1 to 1,000.
    pub replicas: u32,
    /// True if the hash is the sum of the bytes instead of SHA-256's first eight.
    pub sum: bool,
    pub ghost replicas_range: { IsReplicas replicas },
}

/// The greatest number of connections that a server serves.
pub const MAX_REQUESTS: u64 = 1_000_000;

/// The arguments of `serve`.
#[derive(Debug, PartialEq, Drop)]
pub struct ServeWords {
    /// The address at which the node listens, and by which the others name it.
    pub address: Address,
    /// The node's first incarnation, and its seed.
    pub incarnation: Incarnation,
    /// The number of connections that are served, 1 to 1,000,000; those of gossip count.
    pub requests: u64,
    /// The number of connections that are served at a time, 1 to 16.
    pub workers: u32,
    /// Milliseconds between two rounds of gossip, at most 9,007,199,254,740,991; 0 makes none.
    pub period: u64,
    /// The number of a server's points for each unit of its weight, 1 to 1,000.
    pub replicas: u32,
    /// The node's weight.
    pub weight: Weight,
    /// How many changes a message carries at most, 1 to 4,096.
    pub per_message: usize,
    /// How often a change is passed on for each decimal digit of the number of serving members, 1 to 1,000.
    pub piggyback: u32,
    /// Whether members that parted are met again: after each tenth round the node pings one member at random, whatever it
    /// holds it as, and sends a Join to one of the hosts, if it does not hold that host as serving.
    pub heal: bool,
    /// True if the hash is the sum of the bytes instead of SHA-256's first eight.
    pub sum: bool,
    /// The nodes that are asked to admit the node, before it listens.
    pub hosts: Vec<Address>,
    pub ghost requests_range: { IsRequests requests },
    pub ghost workers_range: { IsCrew workers },
    pub ghost period_range: { period ≤ greatest_number },
    pub ghost replicas_range: { IsReplicas replicas },
    pub ghost per_message_range: { IsPerMessage per_message },
    pub ghost piggyback_range: { IsPiggyback piggyback },
    pub ghost few: { vec_len hosts < 2 ^ 32 },
}

/// The arguments of `ask`.
#[derive(Clone, Copy, Debug, PartialEq, Eq)]
pub struct AskWords<'a> {
    /// The node that is asked.
    pub address: Address,
    /// The key.
    pub key: &'a str,
    /// The request.
    pub body: &'a str,
}

/// The arguments of `ask --any`.
#[derive(Clone, Copy, Debug, PartialEq, Eq)]
pub struct AskAnyWords<'a> {
    /// A node of the cluster, which is asked for the members.
    pub host: Address,
    /// The number of a server's points in the cluster for each unit of its weight, 1 to 1,000.
    pub replicas: u32,
    /// True if the cluster's hash is the sum of the bytes instead of SHA-256's first eight.
    pub sum: bool,
    /// The key.
    pub key: &'a str,
    /// The request.
    pub body: &'a str,
    pub ghost replicas_range: { IsReplicas replicas },
}

/// The form in which members are written.
#[derive(Clone, Copy, Debug, PartialEq, Eq)]
pub enum MembersForm {
    /// The digest text and the digest, as `fold` does.
    Digest,
    /// A change line for each member.
    Lines,
    /// A table for eyes.
    Table,
}

/// The arguments of `members`.
#[derive(Clone, Copy, Debug, PartialEq, Eq)]
pub struct MembersWords {
    /// The node that is asked.
    pub host: Address,
    /// How the members are written.
    pub form: MembersForm,
}

/// A command that speaks to nodes, with its arguments.
#[derive(Debug, PartialEq, Drop)]
pub enum ClusterCommand<'a> {
    /// A node that serves.
    Serve(ServeWords),
    /// A request to a node.
    Ask(AskWords<'a>),
    /// A request to the owner of its key.
    AskAny(AskAnyWords<'a>),
    /// The members that a node holds.
    Members(MembersWords),
    /// Passes changes to a node.
    Tell(Address),
}
