//! What makes the directory calls of jobs.
use md_dirs::{Place, Row};
use md_jobs::{DirReply, Purpose, Request};
use std::alloc::{AllocError, Global};

/// Makes directory calls on maildirs, which are numbered from 0. Each method but `second` makes one call, and says what was replied: any
/// error that is neither EEXIST nor ENOENT is `Fault`. Refused only when out of memory, and then no call was made.
pub trait System {
    /// The time in seconds since 1970, by the clock of this host.
    fn second(&self) -> u64;

    /// Makes a call that is no reading.
    fn make(&mut self, alloc: Global, request: &Request<'_>) -> Result<DirReply, AllocError>;

    /// Reads a directory for a message, for an errand of this purpose: the row of the first name that is its unique name, or its unique
    /// name, a colon and more. Another row is taken for none. What was read before may be told of a name that the errand acts on.
    fn look(
        &mut self,
        alloc: Global,
        folder: u32,
        place: Place,
        unique: &[u8],
        purpose: &Purpose,
    ) -> Result<(DirReply, Option<Row>), AllocError>;

    /// Reads tmp: its files, each with the second of its last use as its stamp.
    fn used_files(
        &mut self,
        alloc: Global,
        folder: u32,
    ) -> Result<(DirReply, Vec<Row>), AllocError>;
}
