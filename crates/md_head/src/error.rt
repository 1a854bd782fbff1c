//! Why a summary is refused.
ghost use Rattle.std.specs.Prelude.{◌≡◌};
ghost use Rattle.md_head.specs.declared.error.HeadError.TheVariants.{NoMemory};

use std::alloc::AllocError;
use thiserror::Error;

/// Why a summary is refused: no message is, only a growth of memory.
#[derive(Clone, Copy, Debug, PartialEq, Eq, Error)]
pub enum HeadError {
    /// The memory for a value was refused.
    #[error("no memory")]
    NoMemory,
}

impl From<AllocError> for HeadError {
    ghost from_gives = { λ _ e. e ≡ NoMemory };

    fn from(_refused: AllocError) -> HeadError {
        HeadError::NoMemory
    }
}
