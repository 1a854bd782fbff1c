//! The refusals of a world.
ghost use Rattle.std.specs.Prelude.{◌≡◌};
ghost use Rattle.md_jobs.specs.declared.error.CoreError.TheVariants.{NoMemory};

use std::alloc::{AllocError, AllocFailed};
use thiserror::Error;

/// Why a world refuses a call. After a refusal nothing has changed.
#[derive(Clone, Copy, Debug, PartialEq, Eq, Error)]
pub enum CoreError {
    /// A file name that is empty, over 255 bytes, or with a slash, NUL, LF or CR.
    #[error("bad name")]
    BadName,
    /// A unique part of over 200 bytes.
    #[error("long unique")]
    LongUnique,
    /// A unique part met before in new or cur of any folder.
    #[error("duplicate unique")]
    DuplicateUnique,
    /// A delivery or a copy under a name that is used: one that the directories held when the world was loaded or last settled, as a message's
    /// unique part or as a whole name in tmp, or that a delivery or copy makes which was submitted since.
    #[error("name used")]
    NameUsed,
    /// A folder number that isn't there.
    #[error("no folder")]
    NoFolder,
    /// A move into the folder where the message is looked for.
    #[error("same folder")]
    SameFolder,
    /// A unique name that is empty, over 200 bytes, begins with a dot, or holds a colon, a slash, NUL, LF or CR (maildir(5)).
    #[error("bad unique")]
    BadUnique,
    /// Not 1 to 16 tries.
    #[error("bad tries")]
    BadTries,
    /// Pieces of no byte.
    #[error("bad chunk")]
    BadChunk,
    /// 10,000 jobs are there.
    #[error("too many jobs")]
    TooManyJobs,
    /// A body of over 16,777,216 bytes.
    #[error("body too long")]
    BodyTooLong,
    /// No job of that number.
    #[error("no job")]
    NoJob,
    /// The job has its answer.
    #[error("answered")]
    Answered,
    /// A growth was refused.
    #[error("no memory")]
    NoMemory,
}

impl<T: Drop> From<AllocFailed<T>> for CoreError {
    ghost from_gives = { λ _ e. e ≡ NoMemory };

    fn from(_: AllocFailed<T>) -> Self {
        CoreError::NoMemory
    }
}

impl From<AllocError> for CoreError {
    ghost from_gives = { λ _ e. e ≡ NoMemory };

    fn from(_: AllocError) -> Self {
        CoreError::NoMemory
    }
}
