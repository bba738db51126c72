//! The routing of a request by its keys: to the one member that owns them all, in a few sends on a fixed schedule.
#![tactic(auto)]

mod attempts;
mod errors;
pub mod laws;
mod routes;
mod routing;

pub use attempts::{Attempt, Lent, MAX_SENDS, Step};
pub use errors::ForwardError;
pub use routes::Route;
pub use routing::{route, route_keys};
