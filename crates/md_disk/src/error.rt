//! The refusals of calls.
use crate::cause::Cause;
use std::alloc::{AllocError, AllocFailed};
use std::io;

/// Why a call was not done.
#[derive(Drop)]
pub(crate) enum CallError {
    /// There was no memory for it, and it was not made.
    NoMemory,
    /// The system refused it, or it was not made of the system for this.
    Refused(Cause),
}

impl From<AllocError> for CallError {
    fn from(_: AllocError) -> Self {
        CallError::NoMemory
    }
}

impl<T: Drop> From<AllocFailed<T>> for CallError {
    fn from(_: AllocFailed<T>) -> Self {
        CallError::NoMemory
    }
}

impl From<Cause> for CallError {
    fn from(cause: Cause) -> Self {
        CallError::Refused(cause)
    }
}

impl From<io::Error> for CallError {
    fn from(error: io::Error) -> Self {
        CallError::Refused(Cause::System(error.kind()))
    }
}
