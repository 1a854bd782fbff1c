//! Directories as one hash table for each with the order of its names, and the files in the order of their making.
mod key;
mod least;
mod lying;
mod named;
mod names;
mod sorting;
mod tables;
mod tree;

use crate::calls::{DirError, Dirs};
use crate::changes::{Paths, add_file, add_name};
use crate::count::Count;
use crate::files::{is_same, release_one};
use crate::hashing::HashSeed;
use crate::image::ImageFile;
use crate::paths::{File, Path, Place};
use crate::rows::{Row, RowRef, copied_row};
use crate::slots::Slots;
use md_name::Bytes;
use std::alloc::{AllocError, Global};
use std::marker::Model;
use tree::Tree;

/// Directories that are hashed: one table for each directory, by the unique parts of its names.
///
/// A call finds a name by its hash, and takes the same time in a folder of any size. The order of a directory's names is made when it is
/// asked for, by `arrange` or by a listing, with one sort; names that come behind all others and changes of info keep it. If it is not
/// made, `rows_from` sorts for itself, and `row_at` looks at each name for each position. So it is always in a directory in which two names
/// share a unique part, and there a look for a message looks at each name. Each file knows how many names it has. No call copies the bytes
/// of a file, and room is made before anything is changed. They never fault.
#[derive(Drop)]
pub struct IndexDirs {
    alloc: Global,
    folders: u32,
    names: Tree,
    slots: Slots,
    calls: Count,
}

impl Model for IndexDirs {
    ghost use Rattle.md_dirs.specs.State.{Counted, counted_code};
    ghost use Rattle.md_dirs.specs.Files.{IsCounted, kept_state};
    ghost use Rattle.md_dirs.specs.Slots.{slots_of};

    ghost Value = { Counted };

    ghost coded = { counted_code };

    ghost view = { λ d. record { state = kept_state d.folders d.names (slots_of d.slots); calls = d.calls.value } };

    ghost invariant = { λ d. IsCounted d.folders d.names (slots_of d.slots) };
}

impl IndexDirs {
    ghost use Rattle.std.specs.Prelude.{◌≡◌, ◌⊎◌, Some, None, IfOk, IfErr, OnOk};
    ghost use Rattle.md_dirs.specs.State.{bare};
    ghost use Rattle.md_dirs.specs.Image.{put, image_state, image_refusal};
    ghost use Rattle.md_dirs.specs.declared.calls.DirError.TheVariants.{NoMemory};

    /// Folders with no file, whose names are hashed by the fixed seed. It takes no memory.
    pub fn new(alloc: Global, folders: u32) -> Self
        ensures { result ≡ record { state = bare folders; calls = 0 } }
    {
        IndexDirs::with_seed(alloc, HashSeed::fixed(), folders)
    }

    /// Folders with no file, whose names are hashed by a seed. It takes no memory.
    pub fn with_seed(alloc: Global, seed: HashSeed, folders: u32) -> Self
        ensures { result ≡ record { state = bare folders; calls = 0 } }
    {
        IndexDirs {
            alloc,
            folders,
            names: Tree::new(alloc, seed),
            slots: Slots::new(alloc),
            calls: Count::zero(),
        }
    }

    /// Folders with files, whose names are hashed by the fixed seed, as `from_image_with_seed` makes them.
    pub fn from_image(
        alloc: Global,
        folders: u32,
        image: Vec<ImageFile>,
    ) -> Result<IndexDirs, DirError>
        ensures accepted { IfOk result (λ dirs. image_refusal folders image.items ≡ None) }
        ensures made { IfOk result (λ dirs. dirs ≡ record { state = image_state folders image.items; calls = 0 }) }
        ensures refused { IfErr result (λ e. (e ≡ NoMemory) ⊎ (image_refusal folders image.items ≡ Some e)) }
    {
        IndexDirs::from_image_with_seed(alloc, HashSeed::fixed(), folders, image)
    }

    /// Folders with files, which are made in their order; their names are copied and hashed by a seed, and their bytes are moved in. No
    /// directory is in order yet. `NotFound` or `Exists` at the first file whose folder is not there or whose path was met before. `NoMemory`
    /// may come in place of either.
    pub fn from_image_with_seed(
        alloc: Global,
        seed: HashSeed,
        folders: u32,
        image: Vec<ImageFile>,
    ) -> Result<IndexDirs, DirError>
        ensures accepted { IfOk result (λ dirs. image_refusal folders image.items ≡ None) }
        ensures made { IfOk result (λ dirs. dirs ≡ record { state = image_state folders image.items; calls = 0 }) }
        ensures refused { IfErr result (λ e. (e ≡ NoMemory) ⊎ (image_refusal folders image.items ≡ Some e)) }
    {
        let mut dirs = IndexDirs::with_seed(alloc, seed, folders);
        for file in image {
            dirs.put_file(file)?;
        }
        Ok(dirs)
    }

    // Makes a file with its bytes. It is no call.
    fn put_file(&mut self, file: ImageFile) -> Result<(), DirError>
        ensures made { OnOk result (((put file).refusal self.old.state ≡ None) × (self.new.state ≡ (put file).after self.old.state)) }
        ensures calls { self.new.calls ≡ self.old.calls }
        ensures refused { IfErr result (λ e. (e ≡ NoMemory) ⊎ ((put file).refusal self.old.state ≡ Some e)) }
    {
        if file.path.folder >= self.folders {
            return Err(DirError::NotFound);
        }
        let made = File {
            bytes: file.bytes,
            stamp: file.stamp,
        };
        if !add_file(
            &mut self.names,
            &mut self.slots,
            self.alloc,
            &file.path,
            made,
        )? {
            return Err(DirError::Exists);
        }
        Ok(())
    }
}

impl Dirs for IndexDirs {
    ghost device = { λ d. record { state = d.state; failures = 0; calls = d.calls } };

    fn create(&mut self, path: &Path, now: u64) -> Result<(), DirError> {
        if path.folder >= self.folders {
            self.calls.raise();
            return Err(DirError::NotFound);
        }
        let file = File {
            bytes: Bytes::of(Vec::new(self.alloc)),
            stamp: now,
        };
        if !add_file(&mut self.names, &mut self.slots, self.alloc, path, file)? {
            self.calls.raise();
            return Err(DirError::Exists);
        }
        self.calls.raise();
        Ok(())
    }

    fn append(&mut self, path: &Path, bytes: &[u8], now: u64) -> Result<(), DirError> {
        let Some(file) = self.names.find_file(path) else {
            self.calls.raise();
            return Err(DirError::NotFound);
        };
        self.slots.grow(file, bytes, now)?;
        self.calls.raise();
        Ok(())
    }

    fn append_body(&mut self, path: &Path, body: &mut Bytes, now: u64) -> Result<(), DirError> {
        let Some(file) = self.names.find_file(path) else {
            self.calls.raise();
            return Err(DirError::NotFound);
        };
        self.slots.fill(file, body, now)?;
        self.calls.raise();
        Ok(())
    }

    fn link(&mut self, old: &Path, new: &Path) -> Result<(), DirError> {
        let Some(file) = self.names.find_file(old) else {
            self.calls.raise();
            return Err(DirError::NotFound);
        };
        if new.folder >= self.folders {
            self.calls.raise();
            return Err(DirError::NotFound);
        }
        if !add_name(&mut self.names, &mut self.slots, self.alloc, new, file)? {
            self.calls.raise();
            return Err(DirError::Exists);
        }
        self.calls.raise();
        Ok(())
    }

    fn rename(&mut self, old: &Path, new: &Path) -> Result<(), DirError> {
        let Some(file) = self.names.find_file(old) else {
            self.calls.raise();
            return Err(DirError::NotFound);
        };
        if new.folder >= self.folders {
            self.calls.raise();
            return Err(DirError::NotFound);
        }
        if self.names.rename_free(self.alloc, old, new, file)? {
            self.calls.raise();
            return Ok(());
        }
        let there = self.names.file_at(new);
        if is_same(there, file) {
            self.calls.raise();
            return Ok(());
        }
        self.names.replace(self.alloc, old, new, file)?;
        release_one(&mut self.slots, there);
        self.calls.raise();
        Ok(())
    }

    fn unlink(&mut self, path: &Path) -> Result<(), DirError> {
        let Some(file) = self.names.take(path) else {
            self.calls.raise();
            return Err(DirError::NotFound);
        };
        release_one(&mut self.slots, Some(file));
        self.calls.raise();
        Ok(())
    }

    fn list(&mut self, folder: u32, place: Place) -> Result<Vec<Row>, DirError> {
        if folder >= self.folders {
            self.calls.raise();
            return Err(DirError::NotFound);
        }
        self.names.arrange(self.alloc, folder, place)?;
        let rows = self.names.rows_of(self.alloc, folder, place, &self.slots)?;
        self.calls.raise();
        Ok(rows)
    }

    fn find(&mut self, folder: u32, place: Place, unique: &[u8]) -> Result<Option<Row>, DirError> {
        if folder >= self.folders {
            self.calls.raise();
            return Err(DirError::NotFound);
        }
        let row = copied_row(self.alloc, self.look(folder, place, unique))?;
        self.calls.raise();
        Ok(row)
    }

    fn folders(&self) -> u32 {
        self.folders
    }

    fn hash_seed(&self) -> HashSeed {
        self.names.seed()
    }

    fn arrange(&mut self, folder: u32, place: Place) -> Result<(), AllocError> {
        self.names.arrange(self.alloc, folder, place)
    }

    #[inline(always)]
    fn row_at(&self, folder: u32, place: Place, at: usize) -> Option<RowRef<'_>> {
        self.names.row_at(folder, place, at, &self.slots)
    }

    // A few rows of a directory that is in order, and all that are left of one that is not.
    fn rows_from(
        &self,
        alloc: Global,
        folder: u32,
        place: Place,
        from: usize,
    ) -> Result<Vec<RowRef<'_>>, AllocError> {
        self.names
            .rows_from(alloc, folder, place, from, &self.slots)
    }

    // The rows as they lie.
    fn rows_unordered(
        &self,
        alloc: Global,
        folder: u32,
        place: Place,
    ) -> Result<Vec<RowRef<'_>>, AllocError> {
        self.names.rows_unordered(alloc, folder, place, &self.slots)
    }

    fn count(&self, folder: u32, place: Place) -> usize {
        self.names.count(folder, place)
    }

    fn look(&self, folder: u32, place: Place, unique: &[u8]) -> Option<RowRef<'_>> {
        self.names.look(folder, place, unique, &self.slots)
    }

    fn holds_each_once(&self, folder: u32, place: Place) -> bool {
        self.names.holds_each_once(folder, place)
    }

    fn read(&self, folder: u32, place: Place, name: &[u8]) -> Option<&[u8]> {
        let file = self.names.file_of(folder, place, name)?;
        let kept = self.slots.get(file)?;
        Some(kept.file.bytes.as_slice())
    }
}
