//! Messages over sockets: a link that opens a connection for each call, how it connects, and how long a call may take.
#![tactic(auto)]

mod deadlines;
mod dials;
mod tcp_links;

pub use deadlines::{Deadline, Timed};
pub use dials::Dial;
pub use tcp_links::{Limits, TcpLink, fault_of, send_owned_line, socket_address};
