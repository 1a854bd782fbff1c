//! The names of a directory.
ghost use Rattle.std.specs.Prelude.{◌≡◌, ℕ, List, Some, None, OnOk, if◌then◌else◌};
ghost use Rattle.std.specs.Str.{bytes_eq};
ghost use Rattle.md_kept.specs.Directories.{file_of, names_of};

use indexmap::IndexMap;
use indexmap::map::Iter;
use md_dirs::NameKey;
use std::alloc::{AllocError, Global};

/// The names of a directory, with the numbers of their files.
#[derive(Drop)]
pub struct Directory {
    files: IndexMap<NameKey<'static>, usize>,
}

impl Directory {
    pub fn new(alloc: Global) -> Self
        ensures { (name : List ℕ) → file_of result name ≡ None }
    {
        Directory {
            files: IndexMap::new(alloc),
        }
    }

    /// The number of the file that a name names.
    pub fn file(&self, name: &[u8]) -> Option<usize>
        ensures { result ≡ file_of self.now name.now }
    {
        let key = NameKey::lent(name);
        self.files.get(&key).copied()
    }

    /// The names, in no order.
    pub fn names(&self) -> &[NameKey<'static>]
        ensures { result.now ≡ names_of self.now }
    {
        self.files.keys().as_slice()
    }

    /// The names with the numbers of their files, in the same order.
    pub fn files(&self) -> Iter<'_, NameKey<'static>, usize>
        ensures { result ≡ self.now.files.entries }
    {
        self.files.iter()
    }

    pub fn put(&mut self, alloc: Global, name: &[u8], file: usize) -> Result<(), AllocError>
        ensures { OnOk result ((q : List ℕ) → file_of self.new q ≡ (if bytes_eq name.now q then Some file else file_of self.old q)) }
    {
        let key = NameKey::copied(alloc, name)?;
        self.files.insert(key, file)?;
        Ok(())
    }

    pub fn take(&mut self, name: &[u8])
        ensures { (q : List ℕ) → file_of self.new q ≡ (if bytes_eq name.now q then None else file_of self.old q) }
    {
        let key = NameKey::lent(name);
        if let Some((at, _, _)) = self.files.get_full(&key) {
            let _gone = self.files.swap_remove_index(at);
        }
    }
}
