//! The handler of a server's requests.

use change_core::Address;
use message_core::{Keys, Text};
use peer_core::{Handler, HandlerFault};
use std::alloc::Global;
use std::sync::Wait;

/// Answers each request with a node's address, a space and the body.
#[derive(Clone, Copy, Debug)]
pub struct Echo {
    /// The node's address.
    pub address: Address,
}

impl Handler for Echo {
    ghost use Rattle.cli_net.specs.Echoes.{MayEcho};

    ghost may_handle = { λ echo. MayEcho echo.address };

    fn handle<R: Wait>(
        &self,
        _rt: &R,
        alloc: Global,
        _keys: &Keys,
        body: &Text,
    ) -> Result<Text, HandlerFault>
        ensures handled { MayEcho self.now.address _keys.now body.now result }
    {
        let address = self.address;
        let body = body.as_str();
        match format!(in alloc; "{address} {body}") {
            Ok(text) => Ok(Text::from_string(text)),
            Err(_) => Err(HandlerFault::Memory),
        }
    }
}
