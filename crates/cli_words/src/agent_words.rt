//! The arguments of `agent`.
ghost use Rattle.std.specs.Prelude.{◌≤◌};
ghost use Rattle.hash_ring.specs.Points.{IsReplicas};

use change_core::{Address, Incarnation, Weight};
use cluster_names::ClusterName;
use http_header::HeaderName;

/// The greatest number of requests of other nodes that the application is given at a time.
pub const MAX_HANDS: u64 = 256;

/// The greatest number of HTTP connections that are open at a time.
pub const MAX_HTTP_CONNECTIONS: u64 = 65_536;

/// The greatest number of milliseconds between two rounds of an agent.
pub const MAX_PERIOD: u64 = 60_000;

/// The level of a log, which prints what is of this level or of one before it.
#[derive(Clone, Copy, Debug, PartialEq, Eq)]
pub enum LogLevel {
    /// Nothing.
    Off,
    /// Errors that end the program.
    Error,
    /// Events that may need a person's attention.
    Warn,
    /// Changes of members.
    Info,
    /// Details that help to find a bug.
    Debug,
}

/// The greatest number of seconds after which a node leaves if its application accepts no connection.
pub const MAX_LEAVE_AFTER: u64 = 86_400;

/// The way in which an agent follows its application into the ring and out of it.
#[derive(Clone, Copy, Debug, PartialEq, Eq)]
pub struct FollowingWords {
    /// Whether the node joins without waiting for its application.
    pub no_wait: bool,
    /// The seconds after which the node leaves if its application accepts no connection, at most 86,400; 0 if it never does.
    pub leave_after: u64,
    pub ghost leave_after_range: { leave_after ≤ 86400 },
}

/// The arguments of `agent`.
#[derive(Debug, PartialEq, Drop)]
pub struct AgentWords {
    /// The address by which other nodes name the node.
    pub address: Address,
    /// The address at which it listens, if it is another.
    pub bind: Option<Address>,
    /// The address at which HTTP is answered, if it is.
    pub http: Option<Address>,
    /// Whether that address may lie outside 127.0.0.0/8.
    pub http_any: bool,
    /// The address of the application, if there is one.
    pub app: Option<Address>,
    /// How the node follows that application.
    pub following: FollowingWords,
    /// Whether the application is told of the ring.
    pub tell_app: bool,
    /// Whether any HTTP request of a key is passed on to its owner's application.
    pub any_request: bool,
    /// The field that may name the key of such a request.
    pub key_field: HeaderName,
    /// The name of the cluster, if it has one.
    pub cluster: Option<ClusterName>,
    /// The path of a file that lists more hosts, if there is one.
    pub hosts_file: Option<String>,
    /// The most requests of other nodes that the application is given at a time, 1 to 256.
    pub hands: u32,
    /// The most HTTP connections that are open at a time, 1 to 65,536.
    pub http_connections: u32,
    /// Milliseconds between two rounds of gossip, 1 to 60,000.
    pub period: u64,
    /// The most changes that a message carries, 1 to 4,096.
    pub per_message: usize,
    /// The number of points that a server has for each unit of its weight, 1 to 1,000.
    pub replicas: u32,
    /// The node's weight.
    pub weight: Weight,
    /// The node's first incarnation, if it is given.
    pub incarnation: Option<Incarnation>,
    /// The level of the log.
    pub level: LogLevel,
    /// Whether each line of the log is a JSON object.
    pub log_json: bool,
    /// The nodes that are asked to admit the node.
    pub hosts: Vec<Address>,
    pub ghost hands_range: { (1 ≤ hands) × (hands ≤ 256) },
    pub ghost http_connections_range: { (1 ≤ http_connections) × (http_connections ≤ 65536) },
    pub ghost period_range: { (1 ≤ period) × (period ≤ 60000) },
    pub ghost per_message_range: { (1 ≤ per_message) × (per_message ≤ 4096) },
    pub ghost replicas_range: { IsReplicas replicas },
}
