//! The paths that are there.
ghost use Rattle.std.specs.Prelude.{◌≡◌, ◌<◌, ℕ, List, Some, None, OnOk, length, if◌then◌else◌};
ghost use Rattle.md_dirs.specs.declared.paths.Path.{Path};
ghost use Rattle.md_dirs.specs.Index.{directory_number};
ghost use Rattle.md_kept.specs.Changes.{file_in, lent, turn_of, turn_by, naming_by, after_taken, after_named, after_turn};
ghost use Rattle.std.specs.Option.{option_map, option_copied};
ghost use Rattle.md_kept.specs.Tables.{is_key};
ghost use Rattle.md_kept.specs.Directories.{directory_in, file_named, names_in};

use crate::change::{Change, NO_CHANGE, Named, with_file};
use crate::directory::Directory;
use md_dirs::{NameKey, Path, Place};
use md_log::{Call, Deed, Naming, Reply};
use std::alloc::{AllocError, Global};

/// The paths that are there, with the numbers of their files, by the numbers of their directories.
#[derive(Drop)]
pub struct Paths {
    alloc: Global,
    directories: Vec<Directory>,
}

impl Paths {
    pub fn new(alloc: Global) -> Self
        ensures { (p : Path) → file_in result p ≡ None }
    {
        Paths {
            alloc,
            directories: Vec::new(alloc),
        }
    }

    /// A directory, where any of its names was ever there.
    pub fn directory(&self, folder: u32, place: Place) -> Option<&Directory>
        ensures { option_copied result ≡ directory_in self.now (directory_number folder place) }
    {
        self.directories.get(number_of(folder, place))
    }

    /// The names of a directory, in no order.
    pub fn names(&self, folder: u32, place: Place) -> &[NameKey<'static>]
        ensures { result.now ≡ names_in self.now (directory_number folder place) }
    {
        match self.directory(folder, place) {
            None => &[],
            Some(directory) => directory.names(),
        }
    }

    pub fn file_at(&self, path: &Path) -> Option<usize>
        ensures { result ≡ file_in self.now path.now }
    {
        self.file_named(path.folder, path.place, path.name.as_slice())
    }

    pub fn file_named(&self, folder: u32, place: Place, name: &[u8]) -> Option<usize>
        ensures { result ≡ file_named self.now (directory_number folder place) name.now }
    {
        self.directory(folder, place)?.file(name)
    }

    /// What a call does to the paths, where so many files were made so far.
    pub fn change<'a>(&self, files: usize, call: &'a Call) -> Change<'a>
        ensures { turn_of result ≡ turn_by (file_in self.now) files call.now }
    {
        match call {
            Call::At {
                deed: Deed::Create,
                path,
                reply: Reply::Ok,
            } => self.naming(path, None, Some(files)),
            Call::At {
                deed: Deed::Unlink,
                path,
                reply: Reply::Ok,
            } => Change {
                named: None,
                taken: with_file(path, self.file_at(path)),
                turned: None,
            },
            Call::Between {
                naming: Naming::Link,
                old,
                new,
                reply: Reply::Ok,
            } => self.naming(new, None, self.file_at(old)),
            Call::Between {
                naming: Naming::Rename,
                old,
                new,
                reply: Reply::Ok,
            } => {
                let file = self.file_at(old);
                self.naming(new, with_file(old, file), file)
            }
            _ => NO_CHANGE,
        }
    }

    /// A path comes to name a file, where there is one that it does not name yet, and another is taken away.
    fn naming<'a>(
        &self,
        path: &'a Path,
        taken: Option<Named<'a>>,
        file: Option<usize>,
    ) -> Change<'a>
        ensures { turn_of result ≡ naming_by (file_in self.now) path.now (option_map lent taken.entry) file }
    {
        let Some(file) = file else {
            return NO_CHANGE;
        };
        let there = self.file_at(path);
        if there == Some(file) {
            return NO_CHANGE;
        }
        Change {
            named: Some((path, file)),
            taken,
            turned: with_file(path, there),
        }
    }

    pub fn follow(&mut self, change: &Change<'_>) -> Result<(), AllocError>
        ensures { OnOk result ((q : Path) → file_in self.new q ≡ after_turn (turn_of change.now) (file_in self.old) q) }
    {
        if let Some((path, _)) = change.taken {
            self.take(path);
        }
        if let Some((path, file)) = change.named {
            self.put(path, file)?;
        }
        Ok(())
    }

    fn take(&mut self, path: &Path)
        ensures { (q : Path) → file_in self.new q ≡ after_taken path.now (file_in self.old) q }
    {
        self.take_at(number_of(path.folder, path.place), path.name.as_slice());
    }

    fn put(&mut self, path: &Path, file: usize) -> Result<(), AllocError>
        ensures { OnOk result ((q : Path) → file_in self.new q ≡ after_named path.now file (file_in self.old) q) }
    {
        let number = number_of(path.folder, path.place);
        self.grow(number)?;
        self.put_at(number, path.name.as_slice(), file)
    }

    fn take_at(&mut self, number: usize, name: &[u8])
        ensures { (m : ℕ) (q : List ℕ) → file_named self.new m q
            ≡ (if is_key (number, name.now) (m, q) then None else file_named self.old m q) }
    {
        if let Some(directory) = self.directories.get_mut(number) {
            directory.take(name);
        }
    }

    fn put_at(&mut self, number: usize, name: &[u8], file: usize) -> Result<(), AllocError>
        requires { number < length self.old.directories.items }
        ensures { OnOk result ((m : ℕ) (q : List ℕ) → file_named self.new m q
            ≡ (if is_key (number, name.now) (m, q) then Some file else file_named self.old m q)) }
    {
        let alloc = self.alloc;
        if let Some(directory) = self.directories.get_mut(number) {
            directory.put(alloc, name, file)?;
        }
        Ok(())
    }

    /// Sees that there are directories up to a number.
    fn grow(&mut self, number: usize) -> Result<(), AllocError>
        ensures there { OnOk result (number < length self.new.directories.items) }
        ensures same { OnOk result ((m : ℕ) (q : List ℕ) → file_named self.new m q ≡ file_named self.old m q) }
    {
        while self.directories.len() <= number {
            self.directories.push(Directory::new(self.alloc))?;
        }
        Ok(())
    }
}

/// The number of a directory.
pub fn number_of(folder: u32, place: Place) -> usize
    ensures { result ≡ directory_number folder place }
{
    folder as usize * 3 + place as usize
}
