ghost use Rattle.std.specs.Prelude.{◌≡◌};
ghost use Rattle.detector_core.specs.declared.errors.DetectorError.TheVariants.{Memory};

use std::alloc::AllocError;
use thiserror::Error;

/// The errors of this crate's calls. If several apply, the first of them that a call can return is returned.
#[derive(Clone, Copy, Debug, PartialEq, Eq, Error)]
pub enum DetectorError {
    #[error("a probe is running")]
    Busy,
    #[error("no probe number is left")]
    Spent,
    #[error("not the running probe")]
    StaleProbe,
    #[error("not asked")]
    NotAsked,
    #[error("out of memory")]
    Memory,
}

impl From<AllocError> for DetectorError {
    ghost from_gives = { λ _ e. e ≡ Memory };

    fn from(_refused: AllocError) -> DetectorError {
        DetectorError::Memory
    }
}
