//! All paths in one list.
ghost use Rattle.std.specs.Prelude.{◌≡◌, ◌<◌, ◌+◌, ◌^◌, OnOk, OnErr, IfOk, IfSome, IsSome, All, length, map, slice_get, find as first_with};
ghost use Rattle.std.specs.Option.{option_map};
ghost use Rattle.std.specs.FinMap as finmap;
ghost use Rattle.md_dirs.specs.Path.{path_of};
ghost use Rattle.md_dirs.specs.State.{file_by};
ghost use Rattle.md_dirs.specs.Rows.{is_named as is_named_by};
ghost use Rattle.md_dirs.specs.Index.{rows_in, named_row};
ghost use Rattle.md_dirs.specs.Files.{files_of, name_row};
ghost use Rattle.md_dirs.specs.Slots.{slots_of};

use crate::changes::Paths;
use crate::files::shown_row;
use crate::finding::first_place;
use crate::paths::{Path, Place};
use crate::plain::search::{directory, find_name, find_row};
use crate::rows::{Row, is_named};
use crate::slots::Slots;
use std::alloc::{AllocError, Global};
use std::marker::Model;

// What a directory shows of rows, copied.
fn copied_rows(alloc: Global, rows: &[(Path, usize)], slots: &Slots) -> Result<Vec<Row>, AllocError>
    requires { All (λ e. IsSome (file_by (files_of (slots_of slots.now)) e.1)) rows.now }
    ensures { IfOk result (λ shown. shown.items ≡ map (name_row (files_of (slots_of slots.now))) (map named_row rows.now)) }
{
    let mut shown = Vec::with_capacity(alloc, rows.len())?;
    for (path, file) in rows {
        shown.push(shown_row(slots, path.name.as_slice(), *file).copied(alloc)?)?;
    }
    Ok(shown)
}

/// The paths of all directories, each with the number of its file: one list, in the order of folder, place and name.
#[derive(Drop)]
pub(crate) struct PathList {
    rows: Vec<(Path, usize)>,
}

impl Model for PathList {
    ghost use Rattle.std.specs.Prelude.{IsTrue};
    ghost use Rattle.std.specs.FinMap.{from_sorted, is_sorted};
    ghost use Rattle.md_dirs.specs.Path.{path_cmp};
    ghost use Rattle.md_dirs.specs.Index.{PathMap, map_code};

    ghost Value = { PathMap };

    ghost coded = { map_code };

    ghost view = { λ l. from_sorted l.rows.items };

    ghost invariant = { λ l. IsTrue (is_sorted path_cmp l.rows.items) };
}

impl PathList {
    /// No path. It takes no memory.
    pub(crate) fn new(alloc: Global) -> Self
        ensures { result ≡ finmap.empty }
    {
        PathList {
            rows: Vec::new(alloc),
        }
    }

    /// The number of the file of a name in a directory.
    pub(crate) fn file_of(&self, folder: u32, place: Place, name: &[u8]) -> Option<usize>
        ensures { result ≡ finmap.get self.now (path_of folder place name.now) }
    {
        match find_name(&self.rows, folder, place, name) {
            Ok(at) => Some(self.rows[at].1),
            Err(_) => None,
        }
    }

    /// Gives a path to a file, also in place of the one that it named. The path is copied. When out of memory, nothing has changed.
    pub(crate) fn put(&mut self, alloc: Global, path: &Path, file: usize) -> Result<(), AllocError>
        ensures ok { OnOk result (self.new ≡ finmap.insert self.old path.now file) }
        ensures err { OnErr result (self.new ≡ self.old) }
    {
        match find_row(&self.rows, path) {
            Ok(at) => self.rows[at].1 = file,
            Err(at) => self.rows.insert(at, (path.again(alloc)?, file))?,
        }
        Ok(())
    }

    /// Takes a path away, and gives the number of its file. It takes no memory.
    pub(crate) fn take(&mut self, path: &Path) -> Option<usize>
        ensures file { result ≡ finmap.get self.old path.now }
        ensures gone { self.new ≡ finmap.remove self.old path.now }
    {
        let Ok(at) = find_row(&self.rows, path) else {
            return None;
        };
        Some(self.rows.remove(at).1)
    }

    /// The name at a position of a directory, in order of the names, and the number of its file.
    pub(crate) fn row_at(&self, folder: u32, place: Place, at: usize) -> Option<(&[u8], usize)>
        ensures row { option_map (λ r. (r.0.now, r.1)) result ≡ slice_get (rows_in self.now folder place) at }
        ensures few { IfSome result (λ _. at + 1 < 2 ^ 64) }
    {
        let (path, file) = directory(&self.rows, folder, place).get(at)?;
        Some((path.name.as_slice(), *file))
    }

    /// The first name of a directory that is a unique name, or a unique name, a colon and more, and the number of its file.
    pub(crate) fn find(&self, folder: u32, place: Place, unique: &[u8]) -> Option<(&[u8], usize)>
        ensures { option_map (λ r. (r.0.now, r.1)) result ≡ first_with (λ e. is_named_by unique.now e.0) (rows_in self.now folder place) }
    {
        let rows = directory(&self.rows, folder, place);
        let (path, file) = rows.get(first_place(&rows, unique))?;
        if is_named(path.name.as_slice(), unique) {
            Some((path.name.as_slice(), *file))
        } else {
            None
        }
    }

    /// How many names a directory has.
    pub(crate) fn count(&self, folder: u32, place: Place) -> usize
        ensures { result ≡ length (rows_in self.now folder place) }
    {
        directory(&self.rows, folder, place).len()
    }

    /// The rows of a directory, copied. It is refused only when out of memory.
    pub(crate) fn rows_of(
        &self,
        alloc: Global,
        folder: u32,
        place: Place,
        slots: &Slots,
    ) -> Result<Vec<Row>, AllocError>
        requires { All (λ e. IsSome (file_by (files_of (slots_of slots.now)) e.1)) (rows_in self.now folder place) }
        ensures { IfOk result (λ shown. shown.items ≡ map (name_row (files_of (slots_of slots.now))) (rows_in self.now folder place)) }
    {
        copied_rows(alloc, directory(&self.rows, folder, place), slots)
    }
}

impl Paths for PathList {
    ghost names = { λ p. p };

    fn file_at(&self, path: &Path) -> Option<usize> {
        self.file_of(path.folder, path.place, path.name.as_slice())
    }

    fn add(&mut self, alloc: Global, path: &Path, file: usize) -> Result<bool, AllocError> {
        let Err(at) = find_row(&self.rows, path) else {
            return Ok(false);
        };
        self.rows.insert(at, (path.again(alloc)?, file))?;
        Ok(true)
    }
}
