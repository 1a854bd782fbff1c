//! The directory calls and looks.
ghost use Rattle.std.specs.Prelude.{◌≡◌, ◌+◌, ◌^◌, ◌<◌, IsErrOf, IfOk, OnErr, IfSome, IsTrue, length, slice_get, IsPermutation};
ghost use Rattle.std.specs.Option.{option_map};
ghost use Rattle.md_dirs.specs.Path.{path_of};
ghost use Rattle.md_dirs.specs.State.{IsSound, bytes_at_path};
ghost use Rattle.md_dirs.specs.Calls.{Device, Obeys, create, append, link, rename, unlink, list};
ghost use Rattle.md_dirs.specs.Rows.{rows_of, row_named, old_names};
ghost use Rattle.md_dirs.specs.Lent.{AreNext};
ghost use Rattle.md_dirs.specs.Once.{HoldsEachOnce};
ghost use Rattle.md_dirs.specs.declared.calls.DirError.TheVariants.{NoMemory};

use crate::hashing::HashSeed;
use crate::old::push_old;
use crate::paths::{Path, Place};
use crate::rows::{Row, RowRef, first_named, is_below, is_below_info, is_named};
use md_name::{Bytes, FileName};
use std::alloc::{AllocError, AllocFailed, Global};
use std::collections::VecDeque;
use thiserror::Error;

/// Why a directory call was refused, or an image. After a refused call the directories are as they were; a refused image is
/// dropped.
#[derive(Clone, Copy, Debug, PartialEq, Eq, Error)]
pub enum DirError {
    /// The name that was to be made is there already, as POSIX's EEXIST.
    #[error("exists")]
    Exists,
    /// The name or the folder is not there, as POSIX's ENOENT.
    #[error("not found")]
    NotFound,
    /// The directories failed by themselves, as POSIX's EIO.
    #[error("fault")]
    Fault,
    /// Out of memory. A directory call answers it after all its other checks; an image may be refused so in place of
    /// another refusal.
    #[error("no memory")]
    NoMemory,
}

impl From<AllocError> for DirError {
    ghost from_gives = { λ _ e. e ≡ NoMemory };

    fn from(_: AllocError) -> Self {
        DirError::NoMemory
    }
}

impl<T: Drop> From<AllocFailed<T>> for DirError {
    ghost from_gives = { λ _ e. e ≡ NoMemory };

    fn from(_: AllocFailed<T>) -> Self {
        DirError::NoMemory
    }
}

/// Directories of mail files: `folders` maildirs, each with its tmp, new and cur.
///
/// Each of the calls is one atomic step, after POSIX's link, rename and unlink. `now` is the moment of the call in
/// seconds. A call may answer `Fault`, where the number of failures has risen by one, and `NoMemory`, after all its other
/// checks; neither changes anything. The looks, which take `&self`, are no steps: they take no memory and never fail, but
/// for `rows_from` and `rows_unordered`, which take memory for the rows that they lend.
pub trait Dirs {
    /// The folders, the names and the files; how often a call has failed by itself; and how many calls were made, `find` and
    /// `list_old` among them. A call that is refused when out of memory is none, and neither is a look.
    ghost device: { Self → Device };

    /// Makes an empty file, as POSIX's open with O_CREAT and O_EXCL. `NotFound` where the folder is not there, `Exists`
    /// where the name is.
    fn create(&mut self, path: &Path, now: u64) -> Result<(), DirError>
        ensures meets { Obeys (create path.now now) (device self.old) result (device self.new) };

    /// Adds bytes at a file's end and sets its stamp. `NotFound` where the name is not there: it goes by name.
    fn append(&mut self, path: &Path, bytes: &[u8], now: u64) -> Result<(), DirError>
        ensures meets { Obeys (append path.now bytes.now now) (device self.old) result (device self.new) };

    /// Adds all bytes of a body at a file's end and sets its stamp, as `append` does. Once that is done the directories may keep the body
    /// itself in place of a copy, and nothing is said of what they leave there. After a refusal the body is as it was.
    fn append_body(&mut self, path: &Path, body: &mut Bytes, now: u64) -> Result<(), DirError>
        ensures meets { Obeys (append path.now body.old now) (device self.old) result (device self.new) }
        ensures body { OnErr result (body.new ≡ body.old) }
    {
        self.append(path, body.as_slice(), now)
    }

    /// Gives a file a second name, as POSIX's link. `NotFound` where the old name or the folder of the new one is not
    /// there, even if the new name is; otherwise `Exists` where the new name is there.
    fn link(&mut self, old: &Path, new: &Path) -> Result<(), DirError>
        ensures meets { Obeys (link old.now new.now) (device self.old) result (device self.new) };

    /// Gives a file another name in place of one, as POSIX's rename: it replaces its target, and changes nothing where
    /// both are names of one file. `NotFound` where the old name or the folder of the new one is not there.
    fn rename(&mut self, old: &Path, new: &Path) -> Result<(), DirError>
        ensures meets { Obeys (rename old.now new.now) (device self.old) result (device self.new) };

    /// Takes a name away, as POSIX's unlink: the file goes with its last name. `NotFound` where the name is not there.
    /// It takes no memory.
    fn unlink(&mut self, path: &Path) -> Result<(), DirError>
        ensures meets { Obeys (unlink path.now) (device self.old) result (device self.new) }
        ensures no_memory { IsErrOf result DirError.NoMemory → ⊥ };

    /// Lists a directory in order of the bytes of its names, as of one moment. `NotFound` where the folder is not there.
    fn list(&mut self, folder: u32, place: Place) -> Result<Vec<Row>, DirError>
        ensures meets { Obeys (list folder place) (device self.old) result (device self.new) }
        ensures rows { IfOk result (λ rows. rows.items ≡ rows_of (device self.old).state folder place) };

    /// Looks for one message of a directory: the first name that is this unique name, or this unique name, a colon and more
    /// (maildir(5)). It is the listing of that directory, with its refusals, of which one row is kept.
    fn find(&mut self, folder: u32, place: Place, unique: &[u8]) -> Result<Option<Row>, DirError>
        ensures meets { Obeys (list folder place) (device self.old) result (device self.new) }
        ensures row { IfOk result (λ row. row ≡ row_named unique.now (rows_of (device self.old).state folder place)) }
    {
        match self.list(folder, place) {
            Ok(rows) => Ok(first_named(rows, unique)),
            Err(error) => Err(error),
        }
    }

    /// Lists the names of a directory whose files have not been used for so many seconds at the moment `now`, by their stamps. It is the listing
    /// of that directory, with its refusals, of which these names are kept, in its order. By itself it copies them by looks, and makes the call
    /// as a `find`, so that memory which is wanting comes before the call.
    fn list_old(
        &mut self,
        alloc: Global,
        folder: u32,
        place: Place,
        now: u64,
        seconds: u64,
    ) -> Result<VecDeque<FileName>, DirError>
        ensures meets { Obeys (list folder place) (device self.old) result (device self.new) }
        ensures names { IfOk result (λ names. names.items ≡ old_names now seconds (rows_of (device self.old).state folder place)) }
    {
        let mut names = VecDeque::new(alloc);
        if folder >= self.folders() {
            self.find(folder, place, &[])?;
            return Ok(names);
        }
        self.arrange(folder, place)?;
        let count = self.count(folder, place);
        let mut from = 0;
        while from < count {
            let rows = self.rows_from(alloc, folder, place, from)?;
            push_old(alloc, &mut names, &rows, now, seconds)?;
            from += rows.len();
        }
        self.find(folder, place, &[])?;
        Ok(names)
    }

    /// The number of folders.
    fn folders(&self) -> u32
        ensures count { result ≡ (device self.now).state.folders }
        ensures sound { IsSound (device self.now).state };

    /// The seed that names are hashed by, theirs and those of whoever keeps names beside them. By itself it is the fixed one. No answer
    /// hangs on it.
    fn hash_seed(&self) -> HashSeed {
        HashSeed::fixed()
    }

    /// The row at a position, from 0, of a directory in order of the bytes of its names. None past the last, and where
    /// the folder is not there. There is none at the last position that a `usize` counts.
    fn row_at(&self, folder: u32, place: Place, at: usize) -> Option<RowRef<'_>>
        ensures row { result ≡ slice_get (rows_of (device self.now).state folder place) at }
        ensures few { IfSome result (λ _. at + 1 < 2 ^ 64) };

    /// Rows of a directory from a position on, as `row_at` lends them, one after another: at least one, where there is one.
    /// It is refused only when out of memory. By itself it lends one.
    fn rows_from(
        &self,
        alloc: Global,
        folder: u32,
        place: Place,
        from: usize,
    ) -> Result<Vec<RowRef<'_>>, AllocError>
        ensures { IfOk result (λ rows. AreNext (rows_of (device self.now).state folder place) from rows.items) }
    {
        let mut rows = Vec::new(alloc);
        if let Some(row) = self.row_at(folder, place, from) {
            rows.push(row)?;
        }
        Ok(rows)
    }

    /// All rows of a directory, each once, in an order that is nothing to go by: the one that costs the least. It is refused only when
    /// out of memory. By itself it lends them by their positions.
    fn rows_unordered(
        &self,
        alloc: Global,
        folder: u32,
        place: Place,
    ) -> Result<Vec<RowRef<'_>>, AllocError>
        ensures { IfOk result (λ rows. IsPermutation (rows_of (device self.now).state folder place) rows.items) }
    {
        let mut rows = Vec::new(alloc);
        while let Some(row) = self.row_at(folder, place, rows.len()) {
            rows.push(row)?;
        }
        Ok(rows)
    }

    /// Makes a directory ready to show its rows in order, so that looks at many of them need not find the order anew. It is no call, and
    /// changes nothing that a caller can see. By itself it does nothing, and so it does in hashed directories in which two names share a
    /// unique part. It is refused only when out of memory: the looks then answer the same, later.
    fn arrange(&mut self, _folder: u32, _place: Place) -> Result<(), AllocError>
        ensures { device self.new ≡ device self.old }
    {
        Ok(())
    }

    /// How many rows a directory has, and 0 where the folder is not there. By itself it looks at 65 rows, by halving.
    fn count(&self, folder: u32, place: Place) -> usize
        ensures { result ≡ length (rows_of (device self.now).state folder place) }
    {
        let mut low = 0;
        let mut high = usize::MAX;
        if self.row_at(folder, place, high).is_some() {
            unreachable!();
        }
        while low < high {
            let middle = low + (high - low) / 2;
            if self.row_at(folder, place, middle).is_some() {
                low = middle + 1;
            } else {
                high = middle;
            }
        }
        low
    }

    /// Looks for one message of a directory, as `find` does, and lends its row. None where the directory has no such name, and
    /// where the folder is not there. By itself it looks at some rows, twice by halving.
    fn look(&self, folder: u32, place: Place, unique: &[u8]) -> Option<RowRef<'_>>
        ensures { result ≡ row_named unique.now (rows_of (device self.now).state folder place) }
    {
        let count = self.count(folder, place);
        let mut low = 0;
        let mut high = count;
        while low < high {
            let middle = low + (high - low) / 2;
            if is_below(self.row_at(folder, place, middle)?.name(), unique) {
                low = middle + 1;
            } else {
                high = middle;
            }
        }
        if let Some(row) = self.row_at(folder, place, low) {
            if is_named(row.name(), unique) {
                return Some(row);
            }
        }
        let mut from = 0;
        let mut end = count;
        while from < end {
            let middle = from + (end - from) / 2;
            if is_below_info(self.row_at(folder, place, middle)?.name(), unique) {
                from = middle + 1;
            } else {
                end = middle;
            }
        }
        let row = self.row_at(folder, place, from)?;
        if is_named(row.name(), unique) {
            Some(row)
        } else {
            None
        }
    }

    /// Whether a directory holds each unique part once: then no two of its names have one. False says nothing, and it is what this answers by
    /// itself.
    fn holds_each_once(&self, folder: u32, place: Place) -> bool
        ensures { IsTrue result → HoldsEachOnce (device self.now).state folder place }
    {
        false
    }

    /// The bytes of the file of a name. None where the name is not there.
    fn read(&self, folder: u32, place: Place, name: &[u8]) -> Option<&[u8]>
        ensures { option_map (λ b. b.now) result ≡ bytes_at_path (device self.now).state (path_of folder place name.now) };
}
