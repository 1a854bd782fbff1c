//! A name with the number of its file, as the table of a directory has it.
ghost use Rattle.std.specs.Prelude.{◌≡◌, ◌∷◌, [], IsSome, IfOk, List, ℕ, length};
ghost use Rattle.std.specs.Cmp.{partial_equiv_from_equiv};
ghost use Rattle.std.specs.Cmp.Lexicographic.{bytes_decides};
ghost use Rattle.std.specs.Str.{bytes_eq};
ghost use Rattle.std.proofs.Common.{ap};
ghost use Rattle.std.specs.List.{list_any};
ghost use Rattle.md_name.specs.Names.{unique_of, is_colon};
ghost use Rattle.md_dirs.specs.State.{file_by};
ghost use Rattle.md_dirs.specs.Files.{files_of, name_row};
ghost use Rattle.md_dirs.specs.Slots.{slots_of};
ghost use Rattle.md_dirs.specs.Named.{Row, is_alike, alike_equiv};

use crate::files::known_row;
use crate::name_key::Held;
use crate::rows::RowRef;
use crate::slots::Slots;
use md_name::{Short, unique_part};
use std::alloc::{AllocError, Global};
use std::hash::{Hash, Hasher};
use std::marker::Model;

/// A name, owned or lent, and the number of its file. Contracts see both. A short name that it owns lies in place, so that a row of a table
/// has 64 bytes and a look at it goes nowhere else.
///
/// Two are equal where their names have the same unique part, all before the first colon, whatever comes after it and whatever their files:
/// so a table of them finds the one name of a message by its unique name. Its unique part goes to the hasher at once.
#[derive(Drop)]
pub(crate) struct Named<'a> {
    name: Parted<'a>,
    file: usize,
}

/// A name, in place or held, and how many bytes its unique part has.
#[derive(Drop)]
enum Parted<'a> {
    Short { name: Short, unique: u8 },
    Held { name: Held<'a>, unique: usize },
}

impl<'a> Model for Named<'a> {
    ghost use Rattle.md_dirs.specs.Named.{Row};
    ghost use Rattle.md_dirs.specs.Parted.{parted_bytes, IsParted};

    ghost Value = { Row };

    ghost view = { λ n. (parted_bytes n.name, n.file) };

    ghost invariant = { λ n. IsParted n.name };
}

impl<'a> Named<'a> {
    /// A copy of a name, in place where it is short, with the number of its file. It is refused only when out of memory.
    pub(crate) fn copied(alloc: Global, name: &[u8], file: usize) -> Result<Self, AllocError>
        ensures { IfOk result (λ named. named ≡ (name.now, file)) }
    {
        let unique = unique_part(name).len();
        let name = match Short::copied(name) {
            Some(short) => Parted::Short {
                name: short,
                unique: unique as u8,
            },
            None => Parted::Held {
                name: Held::Owned(Vec::from_slice(alloc, name)?),
                unique,
            },
        };
        Ok(Named { name, file })
    }

    /// A name that is lent, to look it up. It takes no memory.
    pub(crate) fn lent(name: &'a [u8]) -> Self
        ensures { result ≡ (name.now, 0) }
    {
        Named {
            name: Parted::Held {
                name: Held::Lent(name),
                unique: unique_part(name).len(),
            },
            file: 0,
        }
    }

    /// The name.
    pub(crate) fn name(&self) -> &[u8]
        ensures { result.now ≡ self.now.0 }
    {
        match &self.name {
            Parted::Short { name, .. } => name.as_slice(),
            Parted::Held { name, .. } => name.as_slice(),
        }
    }

    // How many bytes the unique part has.
    fn unique_len(&self) -> usize
        ensures { result ≡ length (unique_of self.now.0) }
    {
        match &self.name {
            Parted::Short { unique, .. } => *unique as usize,
            Parted::Held { unique, .. } => *unique,
        }
    }

    /// The unique part of the name.
    pub(crate) fn unique(&self) -> &[u8]
        ensures { result.now ≡ unique_of self.now.0 }
    {
        let name = self.name();
        &name[..self.unique_len()]
    }

    /// The number of the file.
    pub(crate) fn file(&self) -> usize
        ensures { result ≡ self.now.1 }
    {
        self.file
    }

    /// Whether the name is that.
    pub(crate) fn is(&self, name: &[u8]) -> bool
        ensures { result ≡ bytes_eq self.now.0 name.now }
    {
        self.name() == name
    }

    /// Whether the name goes on after its unique part, with a colon.
    pub(crate) fn has_info(&self) -> bool
        ensures { result ≡ list_any is_colon self.now.0 }
    {
        self.unique_len() < self.name().len()
    }

    /// The name and the number of its file.
    pub(crate) fn row(&self) -> (&[u8], usize)
        ensures { (result.0.now, result.1) ≡ self.now }
    {
        (self.name(), self.file)
    }

    /// What a directory shows of the name and its file. No byte of the name is looked at.
    #[inline(always)]
    pub(crate) fn shown<'b>(&'b self, slots: &'b Slots) -> RowRef<'b>
        requires { IsSome (file_by (files_of (slots_of slots.now)) self.now.1) }
        ensures { result ≡ name_row (files_of (slots_of slots.now)) self.now }
    {
        known_row(slots, self.name(), self.unique_len(), self.file)
    }
}

impl<'a> PartialEq for Named<'a> {
    ghost eq = { is_alike };

    ghost laws = { partial_equiv_from_equiv alike_equiv };

    fn eq(&self, other: &Self) -> bool {
        self.unique() == other.unique()
    }
}

impl<'a> Eq for Named<'a> {
    ghost laws = { alike_equiv };
}

impl<'a> Hash for Named<'a> {
    ghost hash_input = { λ n. unique_of n.0 ∷ [] };

    ghost respects_eq = { λ x y h. ap (λ unique. unique ∷ []) ((bytes_decides (unique_of x.0) (unique_of y.0)).0 h) };

    fn hash<H: Hasher>(&self, state: &mut H) {
        state.write(self.unique());
    }
}
