ghost use Rattle.std.specs.Prelude.{◌≡◌};
ghost use Rattle.md_listing.specs.declared.error.ViewError.TheVariants.{NoMemory};

use std::alloc::{AllocError, AllocFailed};
use thiserror::Error;

/// Why a listing is refused.
#[derive(Clone, Copy, Debug, PartialEq, Eq, Error)]
pub enum ViewError {
    /// A folder number that isn't there.
    #[error("no folder")]
    NoFolder,

    /// A growth was refused.
    #[error("no memory")]
    NoMemory,
}

impl From<AllocError> for ViewError {
    ghost from_gives = { λ _ e. e ≡ NoMemory };

    fn from(_refused: AllocError) -> ViewError {
        ViewError::NoMemory
    }
}

impl<T: Drop> From<AllocFailed<T>> for ViewError {
    ghost from_gives = { λ _ e. e ≡ NoMemory };

    fn from(_refused: AllocFailed<T>) -> ViewError {
        ViewError::NoMemory
    }
}
