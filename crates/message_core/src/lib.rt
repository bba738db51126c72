//! The messages that nodes send to one another, the lists and texts in them, and the names of their parts in JSON.
#![tactic(auto)]

mod errors;
mod fields;
mod kinds;
mod messages;
mod parts;

pub use errors::WireError;
pub use fields::Field;
pub use kinds::{Kind, Reason};
pub use messages::{Content, Message, News};
pub use parts::{Changes, Keys, MAX_KEYS, Text};
