//! The messages that nodes send one another.

pub use message_core::{Changes, Content, Field, Kind, Message, News, Reason};
