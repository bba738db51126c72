//! The tests of `forward_core`.
mod tests;
pub(crate) mod views;
