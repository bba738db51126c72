//! What a service imports, by `ringpop` alone: the calls, and each type that stands in one of them. A name that it does
//! not hand on fails the build.

use ringpop::cluster::{
    ChannelLink, Clock, CloseError, CloseRefused, Cluster, ClusterError, Dial, Healing, Link,
    LinkError, LockedNode, Member, NewError, Round, RoundError, ServerClock,
    StartError as ClusterStartError, StopError, Stopwatch, TcpLink,
};
use ringpop::node::{
    Addresses, ChangeError, Digest, Entry, Event, KeyBytes, Moment, NodeError, NodeLost,
    NodeOutcome, NodeState, Probe, Received, Reply, RunningProbe, Said, Sourced, StopCause,
    Stopped, Taken,
};
use ringpop::ring::{Ring, RingError, Server as RingServer};
use ringpop::wire::{Changes, Content, Field, Kind, Message, News, Reason};
use ringpop::{
    Address, CallError, Change, ChangeList, Config, ConfigField, EndError, Ended, Handler,
    HandlerFault, HealingPlan, Incarnation, JoinError, Keys, LeaveError, Limits, LockError,
    MAX_HANDLES, NodePass, PointHash, RejoinError, RequestError, RoundClock, Running, Runtime,
    Seat, Server, ServerError, Settings, Sha256Hash, StartError, Status, Text, Timeouts, View,
    Weight, WireError, start,
};

/// Takes what has another name here than in its own crate.
fn take_renamed(
    _error: &ClusterStartError<Sha256Hash>,
    _probe: RunningProbe,
    _server: RingServer,
) {}
