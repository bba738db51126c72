//! The way in which a node asks other nodes.
ghost use Rattle.std.specs.Prelude.{◌≡◌, ◌+◌, ◌-◌, ◌^◌, ◌↔◌, Err, IfErr};

use crate::errors::LinkError;
use change_core::Address;
use message_core::Message;
use std::alloc::Global;
use std::sync::Wait;

/// A way to ask other nodes: over sockets, over channels, or as a test needs it. One caller uses it at a time. No two
/// nodes that it reaches have one address: an answer would count as that of another node.
pub trait Link {
    ghost use Rattle.std.specs.Prelude.{ℕ};
    ghost use Rattle.peer_core.specs.Links.{MayAnswer, Went, failures_in, IsNamed};

    /// The answers that may come from an address to a message, errors included. The behaviour of a real peer is
    /// unknown, so a real link admits everything; code over any link can show an answer only by calling.
    ghost may_answer: { MayAnswer };

    /// One call of the link: an address, a message, its answer, and the state of the link before and after. A link can say
    /// by it what was sent; a real link says nothing. Code over any link can show a call only by calling.
    ghost went: { Went Self };

    ghost failed: { Self → ℕ };

    /// Returns how often a call returned `Io` or `Closed`.
    fn failures(&self) -> u64
        ensures { result ≡ failed self.now };

    /// Sends a message to an address and waits for the answer. It may block, and its caller with it, but holds up no
    /// other caller of the node: no turn of the node is held while it is called. An implementation must time out by
    /// itself: the caller cannot cancel it.
    ///
    /// It sends the message at most once and retries nothing: a Forward that was sent twice would be handled twice.
    /// This crate calls it once for each Ping, PingReq and Join that a node made, and for a Forward as often as
    /// `SendsRequest` says: up to four times, each but the last failed.
    ///
    /// # Errors
    ///
    /// - `Spent`: if and only if there have been as many failures as a `u64` holds. Nothing is sent.
    /// - `Io`, `Closed`: the call failed. Each counts as a failure.
    /// - `Wire`: the error of a line; but its `Io` is `Io` here, and its `Memory` is `Memory`.
    /// - `Memory`: out of memory.
    fn call<R: Wait>(
        &mut self,
        rt: &R,
        alloc: Global,
        to: Address,
        message: &Message,
    ) -> Result<Message, LinkError>
        ensures came { may_answer to message.now result }
        ensures went { went to message.now result self.old self.new }
        ensures failures { failed self.new ≡ failed self.old + failures_in result }
        ensures spent { result ≡ Err LinkError.Spent ↔ failed self.old ≡ 2 ^ 64 - 1 }
        ensures named { IfErr result IsNamed };
}
