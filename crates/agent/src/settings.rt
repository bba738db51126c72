//! The settings of an agent.
ghost use Rattle.std.specs.Prelude.{◌≡◌, None, cond};
ghost use Rattle.agent.specs.Settings.{is_local};

use change_core::{Address, Incarnation, Weight};
use cluster_names::ClusterName;
use http::HeaderName;
use log::LevelFilter;

/// The way in which an agent follows its application into the ring and out of it.
#[derive(Clone, Copy, Debug, PartialEq, Eq)]
pub struct Following {
    /// Whether the node joins without waiting for its application.
    pub no_wait: bool,
    /// The seconds after which the node leaves if its application accepts no connection; 0 if it never does.
    pub leave_after: u64,
}

/// The settings with which an agent starts.
#[derive(Debug, Drop)]
pub struct Settings {
    /// The address by which other nodes name the node.
    pub address: Address,
    /// The address at which it listens to other nodes.
    pub bind: Address,
    /// The address at which it answers HTTP, if it does.
    pub http: Option<Address>,
    /// Whether `http` may be an address other than those of the machine itself, 127.0.0.0/8.
    pub http_any: bool,
    /// The address of the application; without one the agent answers requests by an echo.
    pub app: Option<Address>,
    /// How the node follows that application.
    pub following: Following,
    /// Whether the application is told of the ring.
    pub tell_app: bool,
    /// The field that may name the key of a request, if any request of a key is passed on to its owner's application.
    pub key_field: Option<HeaderName>,
    /// The name of the cluster, if it has one.
    pub cluster: Option<ClusterName>,
    /// The most requests of other nodes that the application is given at a time.
    pub hands: u32,
    /// The most HTTP connections that are open at a time.
    pub http_connections: u32,
    /// The milliseconds between two rounds.
    pub period: u64,
    /// The most changes that a message carries.
    pub per_message: usize,
    /// The number of points that a server has for each unit of its weight.
    pub replicas: u32,
    /// The node's weight.
    pub weight: Weight,
    /// The node's first incarnation; without one it is the milliseconds since 1970.
    pub incarnation: Option<Incarnation>,
    /// The greatest level that the log prints.
    pub level: LevelFilter,
    /// Whether each line of the log is a JSON object.
    pub log_json: bool,
    /// The nodes that it asks to admit it.
    pub hosts: Vec<Address>,
    /// The path of a file that lists more of them, if there is one.
    pub hosts_file: Option<String>,
}

impl Settings {
    /// Returns whether the address for HTTP, if there is one, is in 127.0.0.0/8.
    pub fn is_http_local(&self) -> bool
        ensures { result ≡ is_local self.now.http }
    {
        match self.http {
            Some(address) => address.ip() >> 24 == 127,
            None => true,
        }
    }

    /// Returns the address of the application, if it is told of the ring.
    pub fn told_app(&self) -> Option<Address>
        ensures { result ≡ cond self.now.tell_app self.now.app None }
    {
        if self.tell_app { self.app } else { None }
    }
}
