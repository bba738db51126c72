//! An agent: a node next to an application in any language. It gossips until it is stopped, answers HTTP, and has the application answer the requests
//! of the keys that it owns. This crate has its settings, its start and its end, the threads that look after the application and tell it of the ring, and
//! the theorems about requests to agents.
#![tactic(auto)]

pub mod laws;
mod notices;
mod runs;
mod services;
mod settings;

pub use agent_api::HTTP_THREADS;
pub use agent_node::AgentError;
pub use agent_state::System;
pub use runs::{NODE_THREADS, run};
pub use settings::{Following, Settings};
