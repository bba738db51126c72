//! The ring by itself.

pub use hash_ring::{Ring, RingError, Server};
