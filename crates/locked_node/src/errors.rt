//! The error of closing a node.
use crate::node::{LockedNode, NodePass};
use hash_ring::PointHash;
use thiserror::Error;
use turn_lock::CloseError;

/// A node that was not closed, with the passes that were given.
#[derive(Debug, Drop, Error)]
#[error("{cause}")]
pub struct CloseRefused<H: PointHash> {
    pub node: LockedNode<H>,
    pub passes: Vec<NodePass<H>>,
    pub cause: CloseError,
}
