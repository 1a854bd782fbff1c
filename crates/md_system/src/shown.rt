//! The names that one reading of a directory showed.
ghost use Rattle.std.specs.Prelude.{◌≡◌, ◌<◌, length, slice_get, Some, IfOk, IfErr, IfSome, IsTrue};
ghost use Rattle.std.specs.List.Sorted.{IsPermutation};
ghost use Rattle.md_system.specs.Shown.{AreInOrder, IsNowhere, HasAt, HasTwo, IsFound};

use crate::found::Found;
use md_dirs::Bytes;
use md_name::unique_part;
use std::alloc::{AllocError, Global};
use std::marker::Model;

/// Names in order of their unique parts, and which of them an errand was told. Contracts see the names.
#[derive(Drop)]
pub struct Shown {
    names: Vec<Bytes>,
    are_told: Vec<bool>,
}

impl Model for Shown {
    ghost use Rattle.std.specs.Prelude.{List, ℕ};
    ghost use Rattle.md_system.specs.Shown.{AreInOrder};

    ghost Value = { List (List ℕ) };

    ghost view = { λ s. s.names.items };

    ghost invariant = { λ s. AreInOrder s.names.items };
}

impl Shown {
    /// No name.
    pub(crate) fn nothing(alloc: Global) -> Shown {
        Shown {
            names: Vec::new(alloc),
            are_told: Vec::new(alloc),
        }
    }

    /// These names, of which none was told, in n log n time. Refused only when out of memory.
    pub fn of(alloc: Global, mut names: Vec<Bytes>) -> Result<Shown, AllocError>
        ensures { IfOk result (λ shown. IsPermutation names.items shown) }
    {
        let are_told = vec![in alloc; false; names.len()]?;
        names.sort_unstable_by(|first, second| {
            unique_part(first.as_slice()).cmp(unique_part(second.as_slice()))
        });
        let shown = Shown { names, are_told };
        Ok(shown)
    }

    /// The name of a message, by its position.
    pub(crate) fn find(&self, unique: &[u8]) -> Found<usize>
        ensures { IsFound self.now unique.now result }
    {
        let names = self.names.as_slice();
        match search(names, unique) {
            Err(_) => Found::None,
            Ok(at) if has_beside(names, at, unique) => Found::Many,
            Ok(at) => Found::One(at),
        }
    }

    /// The name at a position, if there is one that no errand was told.
    pub(crate) fn untold(&self, at: usize) -> Option<&Bytes>
        ensures { IfSome result (λ name. slice_get self.now at ≡ Some name.now) }
    {
        match self.are_told.get(at) {
            Some(false) => self.names.get(at),
            _ => None,
        }
    }

    /// The same, which is told now. Refused only when out of memory, and then nothing has changed.
    pub(crate) fn take(&mut self, alloc: Global, at: usize) -> Result<Option<Bytes>, AllocError>
        ensures name { IfOk result (λ taken. IfSome taken (λ name. slice_get self.old at ≡ Some name)) }
        ensures names { self.new ≡ self.old }
    {
        let Some(name) = self.untold(at) else {
            return Ok(None);
        };
        let name = name.again(alloc)?;
        self.mark(at);
        Ok(Some(name))
    }

    /// The one name of a message is told no more.
    pub(crate) fn forget(&mut self, unique: &[u8])
        ensures { self.new ≡ self.old }
    {
        if let Found::One(at) = self.find(unique) {
            self.mark(at);
        }
    }

    // The name at a position was told.
    fn mark(&mut self, at: usize)
        ensures { self.new ≡ self.old }
    {
        if let Some(is_told) = self.are_told.get_mut(at) {
            *is_told = true;
        }
    }
}

// Where a name of a message is.
fn search(names: &[Bytes], unique: &[u8]) -> Result<usize, usize>
    requires { AreInOrder names.now }
    ensures found { IfOk result (HasAt names.now unique.now) }
    ensures within { IfOk result (λ at. at < length names.now) }
    ensures absent { IfErr result (λ _. IsNowhere names.now unique.now) }
{
    names.binary_search_by(|name| unique_part(name.as_slice()).cmp(unique))
}

// Whether the name before or behind a position is of a message too, whose name is there.
fn has_beside(names: &[Bytes], at: usize, unique: &[u8]) -> bool
    requires within { at < length names.now }
    requires here { HasAt names.now unique.now at }
    ensures { IsTrue result → HasTwo names.now unique.now }
{
    is_at(names, at + 1, unique) || at > 0 && is_at(names, at - 1, unique)
}

// Whether the name at a position is of a message.
fn is_at(names: &[Bytes], at: usize, unique: &[u8]) -> bool
    ensures { IsTrue result → HasAt names.now unique.now at }
{
    match names.get(at) {
        Some(name) => unique_part(name.as_slice()) == unique,
        None => false,
    }
}
