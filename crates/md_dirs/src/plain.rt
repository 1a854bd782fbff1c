//! Directories as one list of rows in the order of their paths, and the files in the order of their making. The slot of a file that no path
//! names any more is empty.
mod list;
mod search;

use crate::calls::{DirError, Dirs};
use crate::changes::{Paths, add_file, add_name};
use crate::count::Count;
use crate::files::{is_same, release_one, shown_row};
use crate::image::ImageFile;
use crate::paths::{File, Path, Place};
use crate::rows::{Row, RowRef, copied_row};
use crate::slots::Slots;
use list::PathList;
use md_name::Bytes;
use std::alloc::Global;
use std::marker::Model;

/// The plain directories: one list of rows, in the order of folder, place and name.
///
/// A name, the first row of a directory and one message of it are found by halving. A name that comes or goes moves the rows
/// after it. Each file knows how many names it has. No call copies the bytes of a file, and room is made before anything is
/// changed. They never fault.
#[derive(Drop)]
pub struct PlainDirs {
    alloc: Global,
    folders: u32,
    names: PathList,
    slots: Slots,
    calls: Count,
}

impl Model for PlainDirs {
    ghost use Rattle.md_dirs.specs.State.{Counted, counted_code};
    ghost use Rattle.md_dirs.specs.Files.{IsCounted, kept_state};
    ghost use Rattle.md_dirs.specs.Slots.{slots_of};

    ghost Value = { Counted };

    ghost coded = { counted_code };

    ghost view = { λ d. record { state = kept_state d.folders d.names (slots_of d.slots); calls = d.calls.value } };

    ghost invariant = { λ d. IsCounted d.folders d.names (slots_of d.slots) };
}

impl PlainDirs {
    ghost use Rattle.std.specs.Prelude.{◌≡◌, ◌⊎◌, Some, None, IfOk, IfErr, OnOk};
    ghost use Rattle.md_dirs.specs.State.{bare};
    ghost use Rattle.md_dirs.specs.Image.{put, image_state, image_refusal};
    ghost use Rattle.md_dirs.specs.declared.calls.DirError.TheVariants.{NoMemory};

    /// Folders with no file. It takes no memory.
    pub fn new(alloc: Global, folders: u32) -> Self
        ensures { result ≡ record { state = bare folders; calls = 0 } }
    {
        PlainDirs {
            alloc,
            folders,
            names: PathList::new(alloc),
            slots: Slots::new(alloc),
            calls: Count::zero(),
        }
    }

    /// Folders with files, which are made in their order; their bytes are moved in. `NotFound` or `Exists` at the first
    /// file whose folder is not there or whose path was met before. `NoMemory` may come in place of either.
    pub fn from_image(
        alloc: Global,
        folders: u32,
        image: Vec<ImageFile>,
    ) -> Result<PlainDirs, DirError>
        ensures accepted { IfOk result (λ dirs. image_refusal folders image.items ≡ None) }
        ensures made { IfOk result (λ dirs. dirs ≡ record { state = image_state folders image.items; calls = 0 }) }
        ensures refused { IfErr result (λ e. (e ≡ NoMemory) ⊎ (image_refusal folders image.items ≡ Some e)) }
    {
        let mut dirs = PlainDirs::new(alloc, folders);
        for file in image {
            dirs.put_file(file)?;
        }
        Ok(dirs)
    }

    // Makes a file with its bytes.
    fn put_file(&mut self, file: ImageFile) -> Result<(), DirError>
        ensures made { OnOk result (((put file).refusal self.old.state ≡ None) × (self.new.state ≡ (put file).after self.old.state)) }
        ensures refused { IfErr result (λ e. (e ≡ NoMemory) ⊎ ((put file).refusal self.old.state ≡ Some e)) }
        ensures calls { self.new.calls ≡ self.old.calls }
    {
        if file.path.folder >= self.folders {
            return Err(DirError::NotFound);
        }
        let made = File {
            bytes: file.bytes,
            stamp: file.stamp,
        };
        if !add_file(
            &mut self.names,
            &mut self.slots,
            self.alloc,
            &file.path,
            made,
        )? {
            return Err(DirError::Exists);
        }
        Ok(())
    }
}

impl Dirs for PlainDirs {
    ghost device = { λ d. record { state = d.state; failures = 0; calls = d.calls } };

    fn create(&mut self, path: &Path, now: u64) -> Result<(), DirError> {
        if path.folder >= self.folders {
            self.calls.raise();
            return Err(DirError::NotFound);
        }
        let file = File {
            bytes: Bytes::of(Vec::new(self.alloc)),
            stamp: now,
        };
        if !add_file(&mut self.names, &mut self.slots, self.alloc, path, file)? {
            self.calls.raise();
            return Err(DirError::Exists);
        }
        self.calls.raise();
        Ok(())
    }

    fn append(&mut self, path: &Path, bytes: &[u8], now: u64) -> Result<(), DirError> {
        let Some(file) = self.names.file_at(path) else {
            self.calls.raise();
            return Err(DirError::NotFound);
        };
        self.slots.grow(file, bytes, now)?;
        self.calls.raise();
        Ok(())
    }

    fn link(&mut self, old: &Path, new: &Path) -> Result<(), DirError> {
        let Some(file) = self.names.file_at(old) else {
            self.calls.raise();
            return Err(DirError::NotFound);
        };
        if new.folder >= self.folders {
            self.calls.raise();
            return Err(DirError::NotFound);
        }
        if !add_name(&mut self.names, &mut self.slots, self.alloc, new, file)? {
            self.calls.raise();
            return Err(DirError::Exists);
        }
        self.calls.raise();
        Ok(())
    }

    fn rename(&mut self, old: &Path, new: &Path) -> Result<(), DirError> {
        let Some(file) = self.names.file_at(old) else {
            self.calls.raise();
            return Err(DirError::NotFound);
        };
        if new.folder >= self.folders {
            self.calls.raise();
            return Err(DirError::NotFound);
        }
        let there = self.names.file_at(new);
        if is_same(there, file) {
            self.calls.raise();
            return Ok(());
        }
        self.names.put(self.alloc, new, file)?;
        let _gone = self.names.take(old);
        release_one(&mut self.slots, there);
        self.calls.raise();
        Ok(())
    }

    fn unlink(&mut self, path: &Path) -> Result<(), DirError> {
        let Some(file) = self.names.take(path) else {
            self.calls.raise();
            return Err(DirError::NotFound);
        };
        release_one(&mut self.slots, Some(file));
        self.calls.raise();
        Ok(())
    }

    fn list(&mut self, folder: u32, place: Place) -> Result<Vec<Row>, DirError> {
        if folder >= self.folders {
            self.calls.raise();
            return Err(DirError::NotFound);
        }
        let rows = self.names.rows_of(self.alloc, folder, place, &self.slots)?;
        self.calls.raise();
        Ok(rows)
    }

    fn find(&mut self, folder: u32, place: Place, unique: &[u8]) -> Result<Option<Row>, DirError> {
        if folder >= self.folders {
            self.calls.raise();
            return Err(DirError::NotFound);
        }
        let row = copied_row(self.alloc, self.look(folder, place, unique))?;
        self.calls.raise();
        Ok(row)
    }

    fn folders(&self) -> u32 {
        self.folders
    }

    fn row_at(&self, folder: u32, place: Place, at: usize) -> Option<RowRef<'_>> {
        let (name, file) = self.names.row_at(folder, place, at)?;
        Some(shown_row(&self.slots, name, file))
    }

    fn count(&self, folder: u32, place: Place) -> usize {
        self.names.count(folder, place)
    }

    fn look(&self, folder: u32, place: Place, unique: &[u8]) -> Option<RowRef<'_>> {
        let (name, file) = self.names.find(folder, place, unique)?;
        Some(shown_row(&self.slots, name, file))
    }

    fn read(&self, folder: u32, place: Place, name: &[u8]) -> Option<&[u8]> {
        let file = self.names.file_of(folder, place, name)?;
        let kept = self.slots.get(file)?;
        Some(kept.file.bytes.as_slice())
    }
}
