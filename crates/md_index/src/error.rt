//! Why an index is refused.
ghost use Rattle.std.specs.Prelude.{◌≡◌};
ghost use Rattle.md_index.specs.declared.error.IndexError.TheVariants.{NoMemory};

use std::alloc::AllocError;
use thiserror::Error;

/// Why an index is refused.
#[derive(Clone, Copy, Debug, PartialEq, Eq, Error)]
pub enum IndexError {
    /// The number of workers isn't 1 to 64.
    #[error("bad workers")]
    BadWorkers,

    /// A growth of memory was refused.
    #[error("no memory")]
    NoMemory,
}

impl From<AllocError> for IndexError {
    ghost from_gives = { λ _ e. e ≡ NoMemory };

    fn from(_refused: AllocError) -> IndexError {
        IndexError::NoMemory
    }
}
