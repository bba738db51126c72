//! The tests of `locked_node`, and of the theorems about whole systems.
mod counted;
mod nodes;
mod probing;
mod tests;
mod worlds;
