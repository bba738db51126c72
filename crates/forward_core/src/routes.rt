use change_core::Address;

/// The node that handles a request (ringpop-go, package forward).
#[derive(Clone, Copy, Debug, PartialEq, Eq)]
pub enum Route {
    /// This node owns its keys.
    Here,
    /// The node of this address owns them.
    To(Address),
    /// No node does, since no member serves.
    Nobody,
}
