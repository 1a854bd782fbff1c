//! What is kept of paths of tmp.
ghost use Rattle.std.specs.Prelude.{◌≡◌, OnOk};
ghost use Rattle.md_monitor.specs.Messages.{named_other};
ghost use Rattle.md_kept.specs.Drafts.{path_in, KeepsNone, Names, Comes};
ghost use Rattle.md_kept.specs.Files.{lent_as};

use crate::change::{Named, is_tmp};
use crate::table::Table;
use md_dirs::Path;
use std::alloc::{AllocError, Global};

/// Of each path of tmp the file that it named first, and whether it named another. They stand by folders.
#[derive(Drop)]
pub struct Drafts {
    first: Table<usize>,
    other: Table<usize>,
}

impl Drafts {
    pub fn new(alloc: Global) -> Self
        ensures { KeepsNone result }
    {
        Drafts {
            first: Table::new(alloc),
            other: Table::new(alloc),
        }
    }

    /// Whether a path of tmp once named another file than this.
    pub fn named_other(&self, path: &Path, file: usize) -> bool
        ensures { result ≡ named_other (path_in self.now path.now.folder path.now.name) file }
    {
        let folder = path.folder as usize;
        let name = path.name.as_slice();
        self.other.get(folder, name).is_some()
            || self
                .first
                .get(folder, name)
                .is_some_and(|first| *first != file)
    }

    /// A path comes to name a file.
    pub fn follow(&mut self, named: Option<Named<'_>>) -> Result<(), AllocError>
        ensures { OnOk result (Comes (lent_as named.entry) self.old self.new) }
    {
        match named {
            Some((path, file)) if is_tmp(path.place) => self.name(path, file),
            _ => Ok(()),
        }
    }

    fn name(&mut self, path: &Path, file: usize) -> Result<(), AllocError>
        ensures { OnOk result (Names path.now file self.old self.new) }
    {
        let folder = path.folder as usize;
        let name = path.name.as_slice();
        let is_other = self.named_other(path, file);
        let is_first = self.first.get(folder, name).is_none();
        if is_other {
            self.other.put(folder, name, 0)?;
        }
        if is_first {
            self.first.put(folder, name, file)?;
        }
        Ok(())
    }
}
