//! What the threads of an agent tell one another of its start, its service, and its end.
use agent_core::Watch;
use agent_state::{Count, Flag};
use std::sync::Mutex;
use std::thread::Parker;

/// The state of an agent between its start and its end.
#[derive(Drop)]
pub struct Lifecycle {
    /// Whether hosts are given, and not all were asked yet, nor has one answered: no request of a key is answered.
    pub is_starting: Flag,
    /// Whether a host has answered a join, or is held as serving; or there was none at the start, so that the node began by serving alone.
    pub has_joined: Flag,
    /// Whether the node has left the ring and is not back.
    pub has_left: Flag,
    /// The watch over the service, held while the node leaves or comes back.
    pub moving: Mutex<Watch>,
    /// Whether the service took a connection when it was looked at last.
    pub is_service_up: Flag,
    /// The moment at which the last round ended, and what heals after it, or that of the start.
    pub last_round: Count,
    /// Whether the node left or came back since the log last looked at its members. Set and read while `moving` is held.
    pub has_moved: Flag,
    /// Whether the node has left and the agent is to end.
    pub is_stopping: Flag,
    /// Whether a thread needed a pass and none was left.
    pub is_spent: Flag,
    /// The parker that is unparked when the agent is to end, when the last worker that answers HTTP has ended, and when no request of another node is left.
    pub wake: Parker,
    /// The parker that is unparked when the last rounds have spread that the node left.
    pub spread: Parker,
}

impl Lifecycle {
    /// Makes the state of an agent that starts with hosts, or with none, and whose node leaves after these seconds without its service; 0 if it never does.
    pub fn new(has_hosts: bool, leave_after: u64) -> Lifecycle {
        Lifecycle {
            is_starting: Flag::new(has_hosts),
            has_joined: Flag::new(!has_hosts),
            has_left: Flag::new(false),
            moving: Mutex::new(Watch::new(leave_after.saturating_mul(1_000))),
            is_service_up: Flag::new(true),
            last_round: Count::new(),
            has_moved: Flag::new(false),
            is_stopping: Flag::new(false),
            is_spent: Flag::new(false),
            wake: Parker::new(),
            spread: Parker::new(),
        }
    }

    /// Notes that the node has left. Who calls this holds `moving`.
    pub fn set_left(&self) {
        self.has_left.set(true);
        self.has_moved.set(true);
    }

    /// Notes that the node is back. Who calls this holds `moving`.
    pub fn set_back(&self) {
        self.has_left.set(false);
        self.has_moved.set(true);
    }
}
