ghost use Rattle.std.specs.Prelude.{◌≡◌};
ghost use Rattle.gossip_core.specs.declared.errors.GossipError.TheVariants.{Memory};

use std::alloc::AllocError;
use thiserror::Error;

/// The errors of this crate's calls.
#[derive(Clone, Copy, Debug, PartialEq, Eq, Error)]
pub enum GossipError {
    #[error("bad piggyback factor")]
    BadFactor,
    #[error("out of memory")]
    Memory,
}

impl From<AllocError> for GossipError {
    ghost from_gives = { λ _ e. e ≡ Memory };

    fn from(_: AllocError) -> GossipError {
        GossipError::Memory
    }
}
