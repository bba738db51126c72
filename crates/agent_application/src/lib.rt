//! The application of an agent, a program that answers requests over HTTP: how it is asked, and the handlers of a node that ask it or stand in for it.
#![tactic(auto)]

mod applications;

pub use applications::{Application, ApplicationOptions, Joining, Limited, Overloaded};
