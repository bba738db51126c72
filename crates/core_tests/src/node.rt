//! The tests of `node_core`, and of the theorems about several nodes.
mod agreement;
mod converging;
mod hash_tests;
mod limit_tests;
pub(crate) mod played;
mod reconciling;
mod stories;
pub(crate) mod tests;
pub(crate) mod view_tests;
mod witnesses;
