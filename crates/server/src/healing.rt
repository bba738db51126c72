//! The plan of a server for healing a cluster whose members parted.
ghost use Rattle.server.specs.Starting.{IsHealedAs};

use change_core::Address;
use std::alloc::Global;

/// The plan of a server for healing a cluster whose members parted: its rounds correct each target whose Ack has
/// something else of the node than its own entry; and after each tenth round its node pings one member at random, also a
/// faulty one, and sends a Join to one of the hosts, at random too, if it does not hold that host as serving.
#[derive(Debug, Drop)]
pub struct HealingPlan {
    /// The node's address.
    pub own: Address,
    /// The addresses of other nodes; there may be none.
    pub hosts: Vec<Address>,
}

impl HealingPlan {
    /// Returns the plan of the node of this address, with these hosts, if it heals.
    pub fn of(heals: bool, own: Address, hosts: Vec<Address>) -> Option<Self>
        ensures { IsHealedAs heals own hosts.items result }
    {
        if heals {
            Some(HealingPlan { own, hosts })
        } else {
            None
        }
    }
}
