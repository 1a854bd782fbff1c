//! Where a file has a name, and what it holds.
ghost use Rattle.std.specs.Prelude.{◌≡◌, ◌<◌, ◌^◌, IfOk};
ghost use Rattle.md_dirs.specs.Path.{path_cmp, path_of};
ghost use Rattle.md_dirs.specs.Index.{directory_number};

use md_name::{Bytes, FileName};
use std::alloc::{AllocError, Global};
use std::cmp::Ordering;

/// One of the three directories of a maildir, as maildir(5) has them.
#[derive(Clone, Copy, Debug, PartialEq, Eq, PartialOrd, Ord)]
pub enum Place {
    /// Files that are being delivered.
    Tmp,
    /// Messages that were delivered and that no reader has seen.
    New,
    /// Messages that a reader has seen.
    Cur,
}

/// A name in a directory. A folder is one maildir, and the folders are numbered from 0.
#[derive(Debug, Drop)]
pub struct Path {
    pub folder: u32,
    pub place: Place,
    pub name: FileName,
}

/// What a file holds, and the second of the last call that made it or added to it.
#[derive(Debug, Drop)]
pub struct File {
    pub bytes: Bytes,
    pub stamp: u64,
}

impl Path {
    /// A copy of this path. It is refused only when out of memory.
    pub fn again(&self, alloc: Global) -> Result<Path, AllocError>
        ensures { IfOk result (λ path. path ≡ self.now) }
    {
        Ok(Path {
            folder: self.folder,
            place: self.place,
            name: self.name.again(alloc)?,
        })
    }
}

// Compares a path with that of a name in a directory, by folder, then place, then the bytes of the name.
pub(crate) fn compare(path: &Path, folder: u32, place: Place, name: &[u8]) -> Ordering
    ensures { result ≡ path_cmp path.now (path_of folder place name.now) }
{
    match path.folder.cmp(&folder) {
        Ordering::Equal => match path.place.cmp(&place) {
            Ordering::Equal => path.name.as_slice().cmp(name),
            other => other,
        },
        other => other,
    }
}

// The number of a directory.
pub(crate) fn number_of(folder: u32, place: Place) -> usize
    ensures number { result ≡ directory_number folder place }
    ensures small { result < 2 ^ 40 }
{
    folder as usize * 3 + place as usize
}
