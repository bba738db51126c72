//! Handlers of requests.
use crate::errors::HandlerFault;
use message_core::{Keys, Text};
use std::alloc::Global;
use std::sync::Wait;

/// A handler of the requests whose keys a node owns. Several threads may call one handler at the same time.
///
/// It may block, and its caller with it: the thread that serves the message, or the one that makes the request. It is
/// called while no turn of the node is held, so a slow one holds up no other caller of the node. It must not wait for
/// an answer of the nodes that it serves: if each of their threads waits so, none is left to answer.
pub trait Handler {
    ghost use Rattle.peer_core.specs.Handling.{MayHandle};

    /// The results that a request may have of a handler of this value, errors included; code over any handler can show one
    /// only by calling.
    ghost may_handle: { Self → MayHandle };

    /// Answers a request of these keys, 1 to 256, with this body. One request may come several times, here or at
    /// another node: the caller tries again if the answer was lost on its way. Here nothing is tried again: this result
    /// is the answer.
    ///
    /// # Errors
    ///
    /// - `Failed`: the request was not done.
    /// - `Memory`: out of memory.
    fn handle<R: Wait>(
        &self,
        rt: &R,
        alloc: Global,
        keys: &Keys,
        body: &Text,
    ) -> Result<Text, HandlerFault>
        ensures handled { may_handle self.now keys.now body.now result };
}

/// A handler that one caller uses at a time. It can tell contracts how often it is called; a `Handler` that is shared
/// can't, and a reference to it is one of these: `&mut &handler`.
pub trait HandlerMut {
    ghost use Rattle.peer_core.specs.Handling.{Handled};

    /// One call: the keys, the body, the result, and the state of the handler before and after. Code over any handler
    /// can show a call only by calling, and two calls are not one.
    ghost handled: { Handled Self };

    /// Answers a request, as `Handler::handle` does.
    ///
    /// # Errors
    ///
    /// - `Failed`: the request was not done.
    /// - `Memory`: out of memory.
    fn handle_mut<R: Wait>(
        &mut self,
        rt: &R,
        alloc: Global,
        keys: &Keys,
        body: &Text,
    ) -> Result<Text, HandlerFault>
        ensures handled { handled keys.now body.now result self.old self.new };
}

impl<'h, A: Handler> HandlerMut for &'h A {
    ghost use Rattle.peer_core.specs.Handling.{handled_shared};

    ghost handled = { handled_shared (λ handler. A.may_handle handler.now) };

    fn handle_mut<R: Wait>(
        &mut self,
        rt: &R,
        alloc: Global,
        keys: &Keys,
        body: &Text,
    ) -> Result<Text, HandlerFault> {
        self.handle(rt, alloc, keys, body)
    }
}
