//! The parts of an agent's counts.
ghost use Rattle.std.specs.Prelude.{◌≡◌, ◌<◌};
ghost use Rattle.agent_core.specs.Metrics.{bucket_of};

/// The number of buckets in which times are counted. A time is in the first bucket whose bound is not below it. The bounds are
/// 0.25, 0.5, 1, 5, 10, 50, 100 and 500 milliseconds, and 1, 5 and 10 seconds; the last bucket has none.
pub const BUCKETS: usize = 12;

/// Times that were counted.
#[derive(Clone, Copy, Debug, Default, PartialEq, Eq)]
pub struct TimeCounts {
    /// Their sum, in microseconds.
    pub micros: u64,
    /// The number of times in each bucket.
    pub buckets: [u64; BUCKETS],
}

/// Answers by status.
#[derive(Clone, Copy, Debug, Default, PartialEq, Eq)]
pub struct StatusCounts {
    /// Those with a status from 200 to 299.
    pub successes: u64,
    /// Those with a status from 300 to 399.
    pub redirections: u64,
    /// Those with a status from 400 to 499.
    pub client_errors: u64,
    /// Those with a status from 500 to 599.
    pub server_errors: u64,
}

/// Changes of what a node holds of members.
#[derive(Clone, Copy, Debug, Default, PartialEq, Eq)]
pub struct ChangeCounts {
    /// Entries of other members that became alive, or are still but at another incarnation or weight.
    pub alive: u64,
    /// Those that became suspect, and so on.
    pub suspect: u64,
    pub faulty: u64,
    pub leave: u64,
    pub tombstone: u64,
    /// Rounds after which the node's own entry had been refuted.
    pub refuted: u64,
}

/// The resources that a process uses; 0 for what the system does not tell.
#[derive(Clone, Copy, Debug, Default, PartialEq, Eq)]
pub struct ProcessCounts {
    /// The memory that it holds, in bytes.
    pub memory: u64,
    /// The descriptors that are open.
    pub descriptors: u64,
    /// The most that may be open.
    pub max_descriptors: u64,
    /// The processor time that it used, in milliseconds.
    pub cpu_millis: u64,
    /// When it started, in seconds since 1970.
    pub started: u64,
}

/// The connections at a port of an agent.
#[derive(Clone, Copy, Debug, Default, PartialEq, Eq)]
pub struct PortCounts {
    /// Those that are open.
    pub used: u64,
    /// The most that are open at a time.
    pub max: u64,
    /// Those that were closed for others, since no place was free.
    pub evicted: u64,
    /// How often the system let none be accepted.
    pub failures: u64,
}

/// The numbers of what was refused at an agent.
#[derive(Clone, Copy, Debug, Default, PartialEq, Eq)]
pub struct RefusalCounts {
    /// Joins that a host answered by letting the node join.
    pub joined: u64,
    /// Joins that a host refused.
    pub join_refused: u64,
    /// Joins that no answer came to.
    pub join_failed: u64,
    /// Messages of this node that another node refused.
    pub messages: u64,
    /// Lines at the node's port that were refused since they were no message.
    pub malformed: u64,
    /// Lines at the node's port that were refused since memory ran out.
    pub memory: u64,
    /// Lines of other nodes, answers among them, that were refused since they are of another cluster or of none.
    pub cluster: u64,
}

/// The lines of an agent's log.
#[derive(Clone, Copy, Debug, Default, PartialEq, Eq)]
pub struct LogCounts {
    /// Those that wait to be written.
    pub used: u64,
    /// The most that wait.
    pub max: u64,
    /// Those that were dropped, since they found no place or could not be written.
    pub dropped: u64,
}

/// The requests of keys that wait at an agent for the application of the key's owner.
#[derive(Clone, Copy, Debug, Default, PartialEq, Eq)]
pub struct WaitingCounts {
    /// Those of keys of this node.
    pub own: u64,
    /// Those of keys of other nodes.
    pub others: u64,
    /// Those that found no place since the agent started.
    pub refused: u64,
}

/// The connections between an agent and other nodes that are kept for the next request.
#[derive(Clone, Copy, Debug, Default, PartialEq, Eq)]
pub struct KeptCounts {
    /// Those to other nodes that rest between two requests.
    pub resting: u64,
    /// The most that rest at a time.
    pub max_resting: u64,
    /// The threads that wait for the next request of another node's.
    pub hands: u64,
    /// The most that wait so at a time.
    pub max_hands: u64,
    /// Requests that went over a connection that had rested.
    pub reused: u64,
    /// Connections that rested, or were to, and were closed.
    pub closed: u64,
}

/// Returns the bucket of a time in microseconds, from 0 to 11.
pub fn bucket_of(micros: u64) -> usize
    ensures bucket { result ≡ bucket_of micros }
    ensures range { result < BUCKETS }
{
    match micros {
        ..=250 => 0,
        ..=500 => 1,
        ..=1_000 => 2,
        ..=5_000 => 3,
        ..=10_000 => 4,
        ..=50_000 => 5,
        ..=100_000 => 6,
        ..=500_000 => 7,
        ..=1_000_000 => 8,
        ..=5_000_000 => 9,
        ..=10_000_000 => 10,
        _ => 11,
    }
}
