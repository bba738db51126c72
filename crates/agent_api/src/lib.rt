//! What clients ask of an agent over HTTP: the port, the workers that serve its connections, and the answers.
#![tactic(auto)]

mod acceptors;
mod api;
mod connections;
mod http_refusals;
pub mod laws;
mod onces;
mod patience;
mod questions;
mod workers;

pub use acceptors::{HTTP_THREADS, end_http, start_http};
pub use onces::OnceLink;
