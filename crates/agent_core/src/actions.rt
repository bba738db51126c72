//! The actions that requests ask for.
use crate::key_lists::KeyList;
use crate::levels::LogLevel;
use crate::passing::Outgoing;
use message_core::Text;

/// An action that a request asks for.
#[derive(Debug, Drop)]
pub enum Action {
    /// The key's owner handles the request.
    Handle {
        key: Text,
        body: Text,
    },
    /// The key's owner handles this request. It is sent again, though the owner may have performed it, only if it may be
    /// performed twice.
    Pass {
        key: Text,
        request: Outgoing,
        is_repeatable: bool,
    },
    /// The answer has the first `count` owners of a key, 1 to 4,096, or all serving members if there are fewer.
    Owners {
        key: Text,
        count: usize,
    },
    /// The answer has the first `count` owners of each key; `null` for a key of this node if `only_others`.
    AllOwners {
        keys: KeyList,
        count: usize,
        only_others: bool,
    },
    /// The answer has the ring, unless its digest has this text.
    Ring {
        after: Option<Text>,
    },
    /// The answer has the members and their digest.
    Members,
    /// The answer has the digest of the members.
    Digest,
    /// The answer says whether the node handles requests.
    Health,
    /// The answer says whether the node makes rounds.
    Live,
    /// The answer has the counts.
    Metrics,
    /// The answer has the level of the log, which is this one from then on, if there is one.
    Log {
        level: Option<LogLevel>,
    },
    /// The answer is the page that shows the ring.
    Page,
    /// The node leaves the ring. It still sends requests to their owners.
    Leave,
    /// The node comes back to the ring after it left.
    Rejoin,
    /// The node leaves the ring, other nodes learn of it, and the program ends.
    Stop,
}
