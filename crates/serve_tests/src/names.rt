//! The calls and types of the library, each by the crate under which it is documented: a name that moves fails the build.

use change_core::{Address, Change, Digest, Entry, Incarnation, Moment, Sourced, Status, Weight};
use cli_core::{fold_run, hash_text, owner_run, sim_run};
use cli_net::{ask_run, serve_run};
use cli_words::read_words;
use cluster_core::{ChannelLink, Cluster};
use detector_core::{Addresses, Due, Lost, Outcome, Probe, Prober, Running, Said, Timers};
use forward_core::{Attempt, Route, Step, route, route_keys};
use gossip_core::Gossip;
use hash_ring::{PointHash, Ring, Sha256Hash, SumHash, distance};
use locked_node::LockedNode;
use member_core::{MemberTable, Members, Verdict};
use node_core::laws::{merge, world};
use node_core::{
    ChangeList, Config, Event, KeyBytes, NodeLost, NodeOutcome, NodeState, Received, Replies,
    Reply, Run, RunRefused, Stopped, Taken, View, run,
};
use peer_core::{
    Clock, ClusterError, Handler, HandlerFault, Link, LinkError, Round, gossip_round,
    handle_or_forward, join, serve_one,
};
use transport::TcpLink;
use turn_lock::{Kept, LockError, Pass, TurnLock};
use wire_json::{
    Changes, Field, Keys, Message, Text, decode, decode_change, encode, encode_change, read_line,
    write_line,
};
