//! The descriptors of a process, and what an agent divides them among: sockets, above all.
ghost use Rattle.std.specs.Prelude.{◌≡◌, ◌≤◌, ◌+◌, ◌-◌, ◌*◌, ◌/◌, ℕ, max, min};
ghost use Rattle.agent_core.specs.Descriptors.{most_open, others_open, part_of};

/// The least number of descriptors with which an agent runs.
pub const MIN_DESCRIPTORS: u64 = 64;

/// The most descriptors that an agent has open in addition to those of a budget: 11 for its streams, listeners and watches, two for each of the five threads of
/// the node's port, one for each thread of the rounds, the joins, the application, the notices and the process, and one that each port accepts.
const OWN: u64 = 28;

/// The number of parts of which each kind of connection has one.
const PARTS: u64 = 16;

/// The most connections of other nodes that are open at the node's port.
pub const MAX_NODES: u64 = 1_000;

/// The most requests of other nodes that wait for a hand.
const MAX_QUEUED: u64 = 256;

/// The most connections that rest: those to other nodes, and those to the application.
const MAX_RESTING: u64 = 128;

/// The most requests of clients that are answered at a time, each of which may take another connection.
const MAX_ASKED: u64 = 256;

/// The most connections of each kind that an agent has at a time, so that all together never need more descriptors than there are.
#[derive(Clone, Copy, Debug, PartialEq, Eq)]
pub struct Budget {
    /// Those of HTTP clients. Each has a request at a time, which may take another connection, to the application or to another node.
    pub clients: u64,
    /// Those of other nodes at the node's port.
    pub nodes: u64,
    /// Those whose requests wait for a hand.
    pub queued: u64,
    /// The hands, each of which may have one of another node, and another one for its request.
    pub hands: u32,
    /// Those to other nodes that rest.
    pub spares: u64,
    /// Those to the application that rest.
    pub kept: u64,
}

/// Returns how many clients there may be, of this number that is wanted, where these descriptors are left for them and their requests.
fn clients_within(left: u64, wanted: u64) -> u64
    ensures wanted { result ≡ min (max (left / 2) (left - MAX_ASKED)) wanted }
    ensures fits { result + min result MAX_ASKED ≤ left }
{
    (left / 2).max(left.saturating_sub(MAX_ASKED)).min(wanted)
}

impl Budget {
    /// Divides this number of descriptors, where this number of clients is wanted, and these hands. Connections at the node's port get two sixteenths, those that
    /// wait for a hand three, and each other kind one, but none more than it can use. Clients get the rest.
    pub fn of(descriptors: u64, wanted: u32, hands: u32) -> Self
        ensures fits { MIN_DESCRIPTORS ≤ descriptors → most_open result ≤ descriptors }
        ensures clients { (left : ℕ) → MIN_DESCRIPTORS ≤ descriptors → others_open result + left ≡ descriptors → result.clients ≡ min (max (left / 2) (left - MAX_ASKED)) wanted }
        ensures nodes { result.nodes ≡ min (2 * part_of descriptors) MAX_NODES }
        ensures queued { result.queued ≡ min (3 * part_of descriptors) MAX_QUEUED }
        ensures hands { result.hands ≡ min (part_of descriptors) hands }
        ensures spares { result.spares ≡ min (part_of descriptors) MAX_RESTING }
        ensures kept { result.kept ≡ min (part_of descriptors) MAX_RESTING }
    {
        let shared = descriptors.saturating_sub(OWN);
        let part = shared / PARTS;
        let nodes = (2 * part).min(MAX_NODES);
        let queued = (3 * part).min(MAX_QUEUED);
        let hands = part.min(hands as u64) as u32;
        let resting = part.min(MAX_RESTING);
        let left = shared - (nodes + queued + 2 * hands as u64 + 2 * resting);
        Budget {
            clients: clients_within(left, wanted as u64),
            nodes,
            queued,
            hands,
            spares: resting,
            kept: resting,
        }
    }
}
