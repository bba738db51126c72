//! Links between nodes whose connections are kept: a request goes over a connection that is there already, if the other node keeps it.
//!
//! A node asks for it by a space between a line and its newline, which to any reader of JSON is nothing, and the other node says by the same
//! space after its answer that it keeps the connection for the next line. One that does not know of this closes the connection.
#![tactic(auto)]

mod kept_links;
mod marks;
mod pools;

pub use kept_links::KeptLink;
pub use marks::{Marked, marked_line};
pub use pools::{Pool, Spares};
