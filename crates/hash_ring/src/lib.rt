//! A consistent hash ring over servers with weights: points, the owner of a key and its next owners.
//!
//! The ring is that of ringpop-go, package hashring: a server has a number of points on a circle of 2^64 places, and a key belongs
//! to the server whose point comes first, clockwise, at or after the key's hash. Weights are this project's: a server has `replicas`
//! points for each unit of its weight.
#![tactic(auto)]

mod builds;
mod errors;
mod hash;
mod late;
pub mod laws;
mod lists;
mod points;
mod ring;
mod search;
mod servers;
mod sorted;
mod starts;

pub use errors::RingError;
pub use hash::{PointHash, Sha256Hash, SumHash};
pub use points::{MAX_REPLICAS, distance};
pub use ring::Ring;
pub use servers::Server;
