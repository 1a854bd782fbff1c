//! Why a name or a set of flags is refused.
ghost use Rattle.std.specs.Prelude.{◌≡◌};
ghost use Rattle.md_name.specs.declared.error.NameError.TheVariants.{NoMemory};

use std::alloc::{AllocError, AllocFailed};
use thiserror::Error;

/// Why a call of this crate was refused.
#[derive(Clone, Copy, Debug, PartialEq, Eq, Error)]
pub enum NameError {
    /// The host is empty, has over 100 bytes once escaped, or holds NUL, LF or CR.
    #[error("bad host")]
    BadHost,
    /// The microsecond is 1,000,000 or more.
    #[error("bad micro")]
    BadMicro,
    /// No memory was to be had.
    #[error("no memory")]
    NoMemory,
    /// A byte among the flags is no ASCII letter.
    #[error("bad flag")]
    BadFlag,
}

impl From<AllocError> for NameError {
    ghost from_gives = { λ _ e. e ≡ NoMemory };

    fn from(_error: AllocError) -> NameError {
        NameError::NoMemory
    }
}

impl<T: Drop> From<AllocFailed<T>> for NameError {
    ghost from_gives = { λ _ e. e ≡ NoMemory };

    fn from(_error: AllocFailed<T>) -> NameError {
        NameError::NoMemory
    }
}
