// The refusals of a store.
use std::alloc::AllocError;
use thiserror::Error;

/// Why nothing was listed.
#[derive(Clone, Copy, Debug, PartialEq, Eq, Error)]
pub enum ListError {
    /// A folder number that isn't there.
    #[error("no folder")]
    NoFolder,

    /// A growth was refused.
    #[error("no memory")]
    NoMemory,

    /// What is published could not be entered, or is shorter than what the pass holds, which never comes. It is met before the other two.
    #[error("closed")]
    Closed,
}

impl From<AllocError> for ListError {
    ghost use Rattle.std.specs.Prelude.{◌≡◌};
    ghost use Rattle.md_store.specs.declared.error.ListError.TheVariants.{NoMemory};

    ghost from_gives = { λ _ e. e ≡ NoMemory };

    fn from(_refused: AllocError) -> ListError {
        ListError::NoMemory
    }
}

/// Why no message was read, or why an effect is still not published.
#[derive(Clone, Copy, Debug, PartialEq, Eq, Error)]
pub enum StoreError {
    /// A growth was refused.
    #[error("no memory")]
    NoMemory,
}

impl From<AllocError> for StoreError {
    fn from(_refused: AllocError) -> StoreError {
        StoreError::NoMemory
    }
}

/// Why a store was not opened.
#[derive(Clone, Copy, Debug, PartialEq, Eq, Error)]
pub enum OpenError {
    /// Not 1 to 64 passes.
    #[error("bad passes")]
    BadPasses,

    /// A growth was refused.
    #[error("no memory")]
    NoMemory,

    /// A pass was refused its reader.
    #[error("no reader")]
    NoReader,
}
