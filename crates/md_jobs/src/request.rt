//! The directory call that a job makes next, as a value: for whoever makes the call by other means than `Dirs`.
ghost use Rattle.std.specs.Prelude.{◌≡◌};

use md_dirs::Place;
use std::marker::Model;

/// A name in a directory, lent. Contracts see a path.
#[derive(Drop)]
pub struct PathRef<'a> {
    folder: u32,
    place: Place,
    name: &'a [u8],
}

impl<'a> Model for PathRef<'a> {
    ghost use Rattle.md_dirs.specs.declared.paths.Path.{Path};

    ghost Value = { Path };

    ghost view = { λ p. record { folder = p.folder; place = p.place; name = p.name.now } };
}

impl<'a> PathRef<'a> {
    /// A name in a directory, lent.
    pub fn new(folder: u32, place: Place, name: &'a [u8]) -> Self
        ensures { result ≡ record { folder = folder; place = place; name = name.now } }
    {
        PathRef {
            folder,
            place,
            name,
        }
    }

    /// The folder, from 0.
    pub fn folder(&self) -> u32
        ensures { result ≡ self.now.folder }
    {
        self.folder
    }

    /// The directory of the folder.
    pub fn place(&self) -> Place
        ensures { result ≡ self.now.place }
    {
        self.place
    }

    /// The whole name.
    pub fn name(&self) -> &'a [u8]
        ensures { result.now ≡ self.now.name }
    {
        self.name
    }
}

/// A directory call with its paths, as a job asks for it. Whoever makes it replies `Exists` and `NotFound` where POSIX's call says EEXIST
/// and ENOENT, and `Fault` at any other error.
#[derive(Drop)]
pub enum Request<'a> {
    /// An empty file is to be made, as by open with O_CREAT and O_EXCL.
    Create { path: PathRef<'a> },
    /// These bytes are to be added at the file's end: all of them, or the reply is `Fault`.
    Append { path: PathRef<'a>, bytes: &'a [u8] },
    /// The file is to get a second name, as by link.
    Link { old: PathRef<'a>, new: PathRef<'a> },
    /// The file is to get another name, as by rename.
    Rename { old: PathRef<'a>, new: PathRef<'a> },
    /// The name is to go, as by unlink.
    Unlink { path: PathRef<'a> },
    /// The directory is to be read, as by opendir and readdir.
    List { folder: u32, place: Place },
}
