//! What came over a connection, found out without waiting.
use libc::net::{POLLIN, POLLRDHUP, poll};
use libc::types::pollfd;
use std::os::fd::AsRawFd;

/// The last arrival over a connection: what can be read of it.
#[derive(Clone, Copy, Debug, PartialEq, Eq)]
pub enum Arrived {
    /// Nothing.
    Nothing,
    /// Bytes that can be read.
    Bytes,
    /// Its end, or its failure, after bytes or without.
    End,
}

/// Returns what came over a connection, by one call of the system, which does not wait. Where that fails it is `End`. At a listener a connection that
/// waits to be accepted is `Bytes`.
pub fn look_at<S: AsRawFd>(stream: &S) -> Arrived {
    let mut polled = [pollfd {
        fd: stream.as_raw_fd(),
        events: POLLIN | POLLRDHUP,
        revents: 0,
    }];
    match poll(&mut polled, 0) {
        0 => Arrived::Nothing,
        1 if polled[0].revents == POLLIN => Arrived::Bytes,
        _ => Arrived::End,
    }
}
