//! Directory calls on a disk.
use crate::cause::Cause;
use crate::error::CallError;
use crate::paths::Folders;
use crate::reading::{find_name, names_once, no_directory, rested_name};
use md_dirs::{Bytes, Place, Row};
use md_jobs::{DirReply, PathRef, Purpose, Request};
use md_system::{Hints, System, Told};
use std::alloc::{AllocError, Global};
use std::cell::Cell;
use std::fs::{Files, Metadata, OpenFile, OpenOptions};
use std::io;
use std::io::{ErrorKind, Write};
use std::os::unix::fs::{MetadataExt, OpenOptionsExt};
use std::time::Clock;

/// The calls of the system on these maildirs. A call on a name that is not UTF-8 is a fault, and is not made.
#[derive(Drop)]
pub struct Calls<'r, R: Files + Clock> {
    pub(crate) files: &'r R,
    pub(crate) folders: Folders,
    pub(crate) hints: Hints,
    /// Whether a look is a fault that no hint answers.
    pub(crate) only_hints: bool,
    // The file of the delivery that is under way.
    open: Option<R::File>,
    // Whether a file is flushed before it is linked, and the directory after.
    sync: bool,
    // Whether a directory could not be flushed after a link that was done.
    unflushed: bool,
    // Why the last call was refused that was.
    cause: Cell<Option<Cause>>,
}

impl<'r, R: Files + Clock> Calls<'r, R> {
    /// Calls on these maildirs. With `sync` a file is flushed before it is linked, and the directory after the link; a file that can't be
    /// flushed is not linked, and the reply is a fault.
    pub fn new(files: &'r R, folders: Folders, sync: bool) -> Self {
        let hints = Hints::new(folders.allocator());
        Calls {
            files,
            folders,
            hints,
            only_hints: false,
            open: None,
            sync,
            unflushed: false,
            cause: Cell::new(None),
        }
    }

    /// Whether a directory could not be flushed after a link that was done: the message is in new, but may be lost if the machine stops.
    pub fn is_unflushed(&self) -> bool {
        self.unflushed
    }

    /// Why the last call that was not done was not: each reply but `Ok` has a cause, and a job that ends with `Fault` ends by its cause. A
    /// delivery that could not take its file away either has the cause of that.
    pub fn cause(&self) -> Option<Cause> {
        self.cause.get()
    }

    /// What is replied to a call, with its value, if it was done. Here alone a cause is kept.
    pub(crate) fn reply<T>(
        &self,
        made: Result<T, CallError>,
    ) -> Result<(DirReply, Option<T>), AllocError> {
        match made {
            Ok(value) => Ok((DirReply::Ok, Some(value))),
            Err(CallError::NoMemory) => Err(AllocError),
            Err(CallError::Refused(cause)) => {
                self.cause.set(Some(cause));
                Ok((cause.reply(), None))
            }
        }
    }

    /// The same of a list, which is empty where the call was not done.
    pub(crate) fn reply_list<T: Drop>(
        &self,
        alloc: Global,
        made: Result<Vec<T>, CallError>,
    ) -> Result<(DirReply, Vec<T>), AllocError> {
        let (reply, list) = self.reply(made)?;
        Ok((reply, list.unwrap_or(Vec::new(alloc))))
    }

    // Makes a call that is no reading.
    fn call(&mut self, alloc: Global, request: &Request<'_>) -> Result<(), CallError> {
        match request {
            Request::Create { path } => self.create(alloc, path),
            Request::Append { bytes, .. } => self.append(bytes),
            Request::Link { old, new } => self.link(alloc, old, new),
            Request::Rename { old, new } => self.rename(alloc, old, new),
            Request::Unlink { path } => self.unlink(alloc, path),
            Request::List { .. } => Err(unsupported()),
        }
    }

    // Makes an empty file that must not be there, and keeps it open.
    fn create(&mut self, alloc: Global, path: &PathRef<'_>) -> Result<(), CallError> {
        let path = self.folders.file(alloc, path)?;
        let mut how = OpenOptions::new();
        how.write(true).create_new(true).mode(0o600);
        let file = self
            .files
            .open_file(&how, path.as_str())
            .map_err(no_directory)?;
        self.open = Some(file);
        Ok(())
    }

    // Adds bytes to the file that was made.
    fn append(&mut self, bytes: &[u8]) -> Result<(), CallError> {
        match &mut self.open {
            Some(file) => Ok(file.write_all(bytes)?),
            None => Err(unsupported()),
        }
    }

    // Gives a file a second name. The file that was made is flushed before, and closed.
    fn link(
        &mut self,
        alloc: Global,
        old: &PathRef<'_>,
        new: &PathRef<'_>,
    ) -> Result<(), CallError> {
        let from = self.folders.file(alloc, old)?;
        let to = self.folders.file(alloc, new)?;
        let dir = self.folders.dir(alloc, new.folder(), new.place())?;
        if !self.flush() {
            return Err(CallError::Refused(Cause::Unflushed));
        }
        if let Err(error) = self.files.hard_link(from.as_str(), to.as_str()) {
            return Err(self.no_new_name(dir.as_str(), error));
        }
        if self.sync && !self.flush_dir(dir.as_str()) {
            self.unflushed = true;
        }
        Ok(())
    }

    // Why a name was not given in a directory by a link or a rename. ENOENT is of the old name only where the directory is there.
    fn no_new_name(&self, dir: &str, error: io::Error) -> CallError {
        if error.kind() == ErrorKind::NotFound && self.files.metadata(dir).is_err() {
            return CallError::Refused(Cause::NoPlace);
        }
        CallError::from(error)
    }

    // Flushes the file that was made, if there is one, and closes it. Whether that was done.
    fn flush(&mut self) -> bool {
        match self.open.take() {
            None => true,
            Some(file) => !self.sync || file.sync_all().is_ok(),
        }
    }

    fn flush_dir(&self, path: &str) -> bool {
        match self.files.open_file(&for_reading(), path) {
            Ok(dir) => dir.sync_all().is_ok(),
            Err(_) => false,
        }
    }

    // Gives a file another name, which must not be there as far as a look tells: std has no call that refuses to replace.
    fn rename(&self, alloc: Global, old: &PathRef<'_>, new: &PathRef<'_>) -> Result<(), CallError> {
        let from = self.folders.file(alloc, old)?;
        let to = self.folders.file(alloc, new)?;
        let dir = self.folders.dir(alloc, new.folder(), new.place())?;
        match self.files.symlink_metadata(to.as_str()) {
            // Where another process has just made this very call, the old name is gone, and that is the refusal.
            Ok(_) => {
                let _there = self.files.symlink_metadata(from.as_str())?;
                Err(CallError::Refused(Cause::NameTaken))
            }
            Err(error) if error.kind() == ErrorKind::NotFound => {
                match self.files.rename(from.as_str(), to.as_str()) {
                    Ok(()) => Ok(()),
                    Err(error) => Err(self.no_new_name(dir.as_str(), error)),
                }
            }
            Err(error) => Err(CallError::from(error)),
        }
    }

    fn unlink(&self, alloc: Global, path: &PathRef<'_>) -> Result<(), CallError> {
        let path = self.folders.file(alloc, path)?;
        Ok(self.files.remove_file(path.as_str())?)
    }

    /// Looks for the name of a message in a directory, for an errand: among the hints, and then in the directory, unless only hints count.
    pub(crate) fn find(
        &mut self,
        alloc: Global,
        folder: u32,
        place: Place,
        unique: &[u8],
        purpose: &Purpose,
    ) -> Result<Option<Bytes>, CallError> {
        match self.hints.tell(alloc, folder, place, unique, purpose)? {
            Told::Name(name) => Ok(Some(name)),
            Told::Elsewhere => Ok(None),
            Told::Shown(found) => rested_name(found),
            Told::Nothing if self.only_hints => Err(CallError::Refused(Cause::NotRead)),
            Told::Nothing => {
                let path = self.folders.dir(alloc, folder, place)?;
                find_name(alloc, self.files, path.as_str(), unique, purpose)
            }
        }
    }

    /// What the system says of a name, and not of a file that it is a symbolic link to.
    pub(crate) fn metadata(
        &self,
        alloc: Global,
        path: &PathRef<'_>,
    ) -> Result<Metadata, CallError> {
        let path = self.folders.file(alloc, path)?;
        Ok(self.files.symlink_metadata(path.as_str())?)
    }

    /// The regular files of tmp, each with the second of its last write or last read, the later one. A name that is gone by the look at it
    /// is left out, and so is one that is not UTF-8.
    pub(crate) fn files_of_tmp(&self, alloc: Global, folder: u32) -> Result<Vec<Row>, CallError> {
        let mut rows = Vec::new(alloc);
        let dir = self.folders.dir(alloc, folder, Place::Tmp)?;
        for name in names_once(alloc, self.files, dir.as_str())? {
            if let Some(used) = self.used_in_tmp(alloc, folder, name.as_slice())? {
                rows.push(row_of(name, used))?;
            }
        }
        Ok(rows)
    }

    // The second of the last write or last read of a name in tmp. None where it is no regular file, where it is gone, and where it is not
    // UTF-8, so that no call can be made on it.
    fn used_in_tmp(
        &self,
        alloc: Global,
        folder: u32,
        name: &[u8],
    ) -> Result<Option<u64>, CallError> {
        match self.metadata(alloc, &PathRef::new(folder, Place::Tmp, name)) {
            Ok(about) => Ok(used_at(&about)),
            Err(CallError::Refused(Cause::System(ErrorKind::NotFound) | Cause::NotText)) => {
                Ok(None)
            }
            Err(error) => Err(error),
        }
    }
}

impl<'r, R: Files + Clock> System for Calls<'r, R> {
    // 0 where there is no clock.
    fn second(&self) -> u64 {
        match self.files.since_1970() {
            Ok(now) => now.as_secs(),
            Err(_) => 0,
        }
    }

    fn make(&mut self, alloc: Global, request: &Request<'_>) -> Result<DirReply, AllocError> {
        let made = self.call(alloc, request);
        let (reply, _) = self.reply(made)?;
        Ok(reply)
    }

    fn look(
        &mut self,
        alloc: Global,
        folder: u32,
        place: Place,
        unique: &[u8],
        purpose: &Purpose,
    ) -> Result<(DirReply, Option<Row>), AllocError> {
        let found = self.find(alloc, folder, place, unique, purpose);
        let (reply, found) = self.reply(found)?;
        match found {
            Some(Some(name)) => Ok((reply, Some(row_of(name, 0)))),
            _ => Ok((reply, None)),
        }
    }

    fn used_files(
        &mut self,
        alloc: Global,
        folder: u32,
    ) -> Result<(DirReply, Vec<Row>), AllocError> {
        self.reply_list(alloc, self.files_of_tmp(alloc, folder))
    }
}

/// How a file or a directory is opened to be read.
pub(crate) fn for_reading() -> OpenOptions {
    let mut how = OpenOptions::new();
    how.read(true);
    how
}

// No job makes this call.
fn unsupported() -> CallError {
    CallError::Refused(Cause::System(ErrorKind::Unsupported))
}

// A row of a name. Sizes are not asked for: no job goes by them.
fn row_of(name: Bytes, stamp: u64) -> Row {
    Row {
        name,
        stamp,
        size: 0,
    }
}

// The second of a regular file's last write or last read, the later one.
fn used_at(about: &Metadata) -> Option<u64> {
    if about.is_file() {
        Some(second_of(about.mtime().max(about.atime())))
    } else {
        None
    }
}

// A time of the system in seconds since 1970. Before that it is 0.
fn second_of(time: i64) -> u64 {
    u64::try_from(time).unwrap_or(0)
}
