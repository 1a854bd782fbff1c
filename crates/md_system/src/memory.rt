//! Directories in memory, as tests run jobs on them.
ghost use Rattle.std.specs.Prelude.{◌≡◌, []};

use crate::logged::Logged;
use crate::system::System;
use md_dirs::{DirError, Dirs, FileName, Path, Place, Row};
use md_jobs::{DirReply, PathRef, Purpose, Request};
use std::alloc::{AllocError, Global};

/// Directories in memory, at a moment that the caller sets.
#[derive(Drop)]
pub struct Memory<D> {
    /// The directories.
    pub dirs: D,
    /// The time in seconds since 1970.
    pub second: u64,
}

/// Directories in memory (`Dirs`) on which jobs are run: for tests, without a disk.
pub type InMemory<D> = Logged<Memory<D>>;

impl<D: Dirs> Logged<Memory<D>> {
    /// These directories, of which no call was made.
    pub fn new(dirs: D, second: u64) -> Self
        ensures log { result.log.entries ≡ [] }
        ensures dirs { result.system.dirs ≡ dirs }
        ensures second { result.system.second ≡ second }
    {
        Logged::over(Memory { dirs, second })
    }
}

impl<D: Dirs> System for Memory<D> {
    fn second(&self) -> u64 {
        self.second
    }

    fn make(&mut self, alloc: Global, request: &Request<'_>) -> Result<DirReply, AllocError> {
        reply_of(make(alloc, &mut self.dirs, self.second, request))
    }

    fn look(
        &mut self,
        _alloc: Global,
        folder: u32,
        place: Place,
        unique: &[u8],
        _purpose: &Purpose,
    ) -> Result<(DirReply, Option<Row>), AllocError> {
        match self.dirs.find(folder, place, unique) {
            Ok(row) => Ok((DirReply::Ok, row)),
            Err(error) => Ok((reply_of(Err(error))?, None)),
        }
    }

    fn used_files(
        &mut self,
        alloc: Global,
        folder: u32,
    ) -> Result<(DirReply, Vec<Row>), AllocError> {
        match self.dirs.list(folder, Place::Tmp) {
            Ok(rows) => Ok((DirReply::Ok, rows)),
            Err(error) => Ok((reply_of(Err(error))?, Vec::new(alloc))),
        }
    }
}

// What is replied to a call that ended so.
fn reply_of(made: Result<(), DirError>) -> Result<DirReply, AllocError> {
    match made {
        Ok(()) => Ok(DirReply::Ok),
        Err(DirError::Exists) => Ok(DirReply::Exists),
        Err(DirError::NotFound) => Ok(DirReply::NotFound),
        Err(DirError::Fault) => Ok(DirReply::Fault),
        Err(DirError::NoMemory) => Err(AllocError),
    }
}

// A path of its own.
fn owned(alloc: Global, path: &PathRef<'_>) -> Result<Path, AllocError> {
    Ok(Path {
        folder: path.folder(),
        place: path.place(),
        name: FileName::copied(alloc, path.name())?,
    })
}

// Makes a call.
fn make<D: Dirs>(
    alloc: Global,
    dirs: &mut D,
    second: u64,
    request: &Request<'_>,
) -> Result<(), DirError> {
    match request {
        Request::Create { path } => dirs.create(&owned(alloc, path)?, second),
        Request::Append { path, bytes } => dirs.append(&owned(alloc, path)?, bytes, second),
        Request::Link { old, new } => dirs.link(&owned(alloc, old)?, &owned(alloc, new)?),
        Request::Rename { old, new } => dirs.rename(&owned(alloc, old)?, &owned(alloc, new)?),
        Request::Unlink { path } => dirs.unlink(&owned(alloc, path)?),
        Request::List { .. } => Err(DirError::Fault),
    }
}
