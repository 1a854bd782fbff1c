//! The directories of all folders, side by side.
ghost use Rattle.std.specs.Prelude.{◌≡◌, [], MatchOption, ◌<◌, ◌≤◌, ◌+◌, ◌^◌, ℕ, false, OnOk, OnErr, None, IfOk, IfSome, IsSome, IsTrue, All, length, map, slice_get, vec_len, is_none, if◌then◌else◌, find as first_with, IsPermutation};
ghost use Rattle.std.specs.Option.{option_map, option_and_then};
ghost use Rattle.std.specs.FinMap as finmap;
ghost use Rattle.md_dirs.specs.Path.{path_of};
ghost use Rattle.md_dirs.specs.State.{file_by};
ghost use Rattle.md_dirs.specs.Rows.{is_named};
ghost use Rattle.md_dirs.specs.Lent.{AreNext};
ghost use Rattle.md_dirs.specs.Once.{EachOnce};
ghost use Rattle.md_dirs.specs.Index.{directory_number, directory_at, rows_in};
ghost use Rattle.md_dirs.specs.Files.{files_of, name_row};
ghost use Rattle.md_dirs.specs.Slots.{slots_of};

use crate::changes::Paths;
use crate::hashing::HashSeed;
use crate::index::names::Names;
use crate::paths::{Path, Place, number_of};
use crate::rows::{Row, RowRef};
use crate::slots::Slots;
use std::alloc::{AllocError, Global};
use std::marker::Model;

/// The directories of all folders, by their numbers, up to the last that had a name.
#[derive(Drop)]
pub(crate) struct Tree {
    seed: HashSeed,
    pub(crate) directories: Vec<Names>,
}

impl Model for Tree {
    ghost use Rattle.md_dirs.specs.Index.{PathMap, map_code, names_of};

    ghost Value = { PathMap };

    ghost coded = { map_code };

    ghost view = { λ t. names_of t.directories.items };
}

// Makes empty directories up to one behind the last. Where memory is wanting, there may be more of them. It is a function of its own, so that
// a call that finds its directory there costs little.
#[inline(never)]
fn make_directories(
    directories: &mut Vec<Names>,
    alloc: Global,
    seed: HashSeed,
    number: usize,
) -> Result<(), AllocError>
    requires small { number < 2 ^ 40 }
    requires past { vec_len directories.old ≤ number }
    ensures there { OnOk result (number < vec_len directories.new) }
    ensures same { (k : ℕ) → directory_at directories.new.items k ≡ directory_at directories.old.items k }
{
    directories.reserve(number - directories.len() + 1)?;
    while directories.len() <= number {
        directories.push(Names::new(alloc, seed))?;
    }
    Ok(())
}

// Makes a directory where there is none yet, as `make_directories` does.
#[inline(always)]
fn make_directory(
    directories: &mut Vec<Names>,
    alloc: Global,
    seed: HashSeed,
    number: usize,
) -> Result<(), AllocError>
    requires { number < 2 ^ 40 }
    ensures there { OnOk result (number < vec_len directories.new) }
    ensures same { (k : ℕ) → directory_at directories.new.items k ≡ directory_at directories.old.items k }
{
    if number < directories.len() {
        return Ok(());
    }
    make_directories(directories, alloc, seed, number)
}

impl Tree {
    /// No directory has a name, and names are hashed by a seed. It takes no memory.
    pub(crate) fn new(alloc: Global, seed: HashSeed) -> Self
        ensures { result ≡ finmap.empty }
    {
        Tree {
            seed,
            directories: Vec::new(alloc),
        }
    }

    /// The seed that names are hashed by.
    pub(crate) fn seed(&self) -> HashSeed {
        self.seed
    }

    // The names of a directory. None where it was not made yet, and then it has none.
    #[inline(always)]
    fn directory(&self, folder: u32, place: Place) -> Option<&Names>
        ensures rows { MatchOption result (rows_in self.now folder place ≡ []) (λ d. rows_in self.now folder place ≡ finmap.entries d.now) }
        ensures files { (name : _) → finmap.get self.now (path_of folder place name) ≡ option_and_then (λ d. finmap.get d.now name) result }
    {
        self.directories.get(number_of(folder, place))
    }

    /// The number of the file of a name in a directory.
    pub(crate) fn file_of(&self, folder: u32, place: Place, name: &[u8]) -> Option<usize>
        ensures { result ≡ finmap.get self.now (path_of folder place name.now) }
    {
        self.directory(folder, place)?.file_of(name)
    }

    /// The number of the file of a path. A path that was just found or added is found again without a hash.
    pub(crate) fn find_file(&mut self, path: &Path) -> Option<usize>
        ensures file { result ≡ finmap.get self.old path.now }
        ensures same { self.new ≡ self.old }
    {
        let number = number_of(path.folder, path.place);
        if number >= self.directories.len() {
            return None;
        }
        let directory = &mut self.directories[number];
        directory.find_file(path.name.as_slice())
    }

    /// Takes a path away, and gives the number of its file. It takes no memory.
    pub(crate) fn take(&mut self, path: &Path) -> Option<usize>
        ensures file { result ≡ finmap.get self.old path.now }
        ensures gone { self.new ≡ finmap.remove self.old path.now }
    {
        let number = number_of(path.folder, path.place);
        if number >= self.directories.len() {
            return None;
        }
        let directory = &mut self.directories[number];
        directory.take(path.name.as_slice())
    }

    /// The row at a position of a directory, in order of the names, lent.
    pub(crate) fn row_at<'a>(
        &'a self,
        folder: u32,
        place: Place,
        at: usize,
        slots: &'a Slots,
    ) -> Option<RowRef<'a>>
        requires { All (λ e. IsSome (file_by (files_of (slots_of slots.now)) e.1)) (rows_in self.now folder place) }
        ensures row { result ≡ option_map (name_row (files_of (slots_of slots.now))) (slice_get (rows_in self.now folder place) at) }
        ensures few { IfSome result (λ _. at + 1 < 2 ^ 64) }
    {
        self.directory(folder, place)?.row_at(at, slots)
    }

    /// The row of the first name of a directory that is a unique name, or a unique name, a colon and more, lent.
    pub(crate) fn look<'a>(
        &'a self,
        folder: u32,
        place: Place,
        unique: &[u8],
        slots: &'a Slots,
    ) -> Option<RowRef<'a>>
        requires { All (λ e. IsSome (file_by (files_of (slots_of slots.now)) e.1)) (rows_in self.now folder place) }
        ensures { result ≡ option_map (name_row (files_of (slots_of slots.now)))
            (first_with (λ e. is_named unique.now e.0) (rows_in self.now folder place)) }
    {
        self.directory(folder, place)?.look(unique, slots)
    }

    /// Whether a directory holds each unique part once. False says nothing.
    pub(crate) fn holds_each_once(&self, folder: u32, place: Place) -> bool
        ensures { IsTrue result → EachOnce (λ name. finmap.get self.now (path_of folder place name)) }
    {
        match self.directory(folder, place) {
            Some(directory) => directory.holds_each_once(),
            None => true,
        }
    }

    /// How many names a directory has.
    pub(crate) fn count(&self, folder: u32, place: Place) -> usize
        ensures { result ≡ length (rows_in self.now folder place) }
    {
        match self.directory(folder, place) {
            Some(directory) => directory.count(),
            None => 0,
        }
    }

    /// The rows of a directory, copied. It is refused only when out of memory.
    pub(crate) fn rows_of(
        &self,
        alloc: Global,
        folder: u32,
        place: Place,
        slots: &Slots,
    ) -> Result<Vec<Row>, AllocError>
        requires { All (λ e. IsSome (file_by (files_of (slots_of slots.now)) e.1)) (rows_in self.now folder place) }
        ensures { IfOk result (λ shown. shown.items ≡ map (name_row (files_of (slots_of slots.now))) (rows_in self.now folder place)) }
    {
        match self.directory(folder, place) {
            Some(directory) => directory.rows(alloc, slots),
            None => Ok(Vec::new(alloc)),
        }
    }

    /// Rows of a directory from a position on, lent: at least one, where there is one. It is refused only when out of memory.
    pub(crate) fn rows_from<'a>(
        &'a self,
        alloc: Global,
        folder: u32,
        place: Place,
        from: usize,
        slots: &'a Slots,
    ) -> Result<Vec<RowRef<'a>>, AllocError>
        requires { All (λ e. IsSome (file_by (files_of (slots_of slots.now)) e.1)) (rows_in self.now folder place) }
        ensures { IfOk result (λ rows.
            AreNext (map (name_row (files_of (slots_of slots.now))) (rows_in self.now folder place)) from rows.items) }
    {
        match self.directory(folder, place) {
            Some(directory) => directory.rows_from(alloc, from, slots),
            None => Ok(Vec::new(alloc)),
        }
    }

    /// All rows of a directory as they lie, lent. It is refused only when out of memory.
    pub(crate) fn rows_unordered<'a>(
        &'a self,
        alloc: Global,
        folder: u32,
        place: Place,
        slots: &'a Slots,
    ) -> Result<Vec<RowRef<'a>>, AllocError>
        requires { All (λ e. IsSome (file_by (files_of (slots_of slots.now)) e.1)) (rows_in self.now folder place) }
        ensures { IfOk result (λ rows.
            IsPermutation (map (name_row (files_of (slots_of slots.now))) (rows_in self.now folder place)) rows.items) }
    {
        match self.directory(folder, place) {
            Some(directory) => directory.rows_unordered(alloc, slots),
            None => Ok(Vec::new(alloc)),
        }
    }

    /// Gives the file of a path another path, unless that is there: whether it did. The new name is copied. When out of memory, nothing has
    /// changed.
    pub(crate) fn rename_free(
        &mut self,
        alloc: Global,
        old: &Path,
        new: &Path,
        file: usize,
    ) -> Result<bool, AllocError>
        ensures free { IfOk result (λ is_done. IsTrue is_done → finmap.get self.old new.now ≡ None) }
        ensures done { IfOk result (λ is_done. IsTrue is_done → self.new ≡ finmap.remove (finmap.insert self.old new.now file) old.now) }
        ensures kept { IfOk result (λ is_done. is_done ≡ false → self.new ≡ self.old) }
        ensures err { OnErr result (self.new ≡ self.old) }
    {
        let number = number_of(old.folder, old.place);
        if number == number_of(new.folder, new.place) && number < self.directories.len() {
            let directory = &mut self.directories[number];
            if directory.rename(alloc, old.name.as_slice(), new.name.as_slice(), file)? {
                return Ok(true);
            }
        }
        let is_new = self.add(alloc, new, file)?;
        if is_new {
            let _gone = self.take(old);
        }
        Ok(is_new)
    }

    /// Gives the file of a path another path, in place of the file that this named. The name is copied. When out of memory, nothing has
    /// changed.
    pub(crate) fn replace(
        &mut self,
        alloc: Global,
        old: &Path,
        new: &Path,
        file: usize,
    ) -> Result<(), AllocError>
        ensures ok { OnOk result (self.new ≡ finmap.remove (finmap.insert self.old new.now file) old.now) }
        ensures err { OnErr result (self.new ≡ self.old) }
    {
        self.put(alloc, new, file)?;
        let _gone = self.take(old);
        Ok(())
    }

    // Gives a path to a file, also in place of the one that it named. The name is copied. When out of memory, nothing has changed.
    fn put(&mut self, alloc: Global, path: &Path, file: usize) -> Result<(), AllocError>
        ensures ok { OnOk result (self.new ≡ finmap.insert self.old path.now file) }
        ensures err { OnErr result (self.new ≡ self.old) }
    {
        let number = number_of(path.folder, path.place);
        make_directory(&mut self.directories, alloc, self.seed, number)?;
        let directory = &mut self.directories[number];
        directory.put(alloc, path.name.as_slice(), file)?;
        Ok(())
    }

    /// Makes the order of a directory, unless it is made. It is refused only when out of memory.
    pub(crate) fn arrange(
        &mut self,
        alloc: Global,
        folder: u32,
        place: Place,
    ) -> Result<(), AllocError>
        ensures { self.new ≡ self.old }
    {
        let number = number_of(folder, place);
        if number >= self.directories.len() {
            return Ok(());
        }
        let directory = &mut self.directories[number];
        directory.arrange(alloc)
    }
}

impl Paths for Tree {
    ghost names = { λ p. p };

    fn file_at(&self, path: &Path) -> Option<usize> {
        self.file_of(path.folder, path.place, path.name.as_slice())
    }

    fn add(&mut self, alloc: Global, path: &Path, file: usize) -> Result<bool, AllocError> {
        let number = number_of(path.folder, path.place);
        make_directory(&mut self.directories, alloc, self.seed, number)?;
        let directory = &mut self.directories[number];
        let is_new = directory.add(alloc, path.name.as_slice(), file)?;
        Ok(is_new)
    }
}
