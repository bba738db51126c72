//! The messages that a script keeps.

use change_core::Address;
use message_core::Message;

/// A message, and its receiver.
#[derive(Drop)]
pub struct Sent {
    pub to: Address,
    pub message: Message,
}
