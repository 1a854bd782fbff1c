//! Names as keys of a hash table.
ghost use Rattle.std.specs.Prelude.{◌≡◌, ◌≤◌, ◌∷◌, [], Some, IfOk, IsOk, List, ℕ, length};
ghost use Rattle.std.specs.Cmp.{partial_equiv_from_equiv};
ghost use Rattle.std.specs.Cmp.Lexicographic.{nat_list_eq_equiv, nat_list_cmp_total, texts_ties, texts_po, bytes_decides};
ghost use Rattle.std.specs.Str.{bytes_eq};
ghost use Rattle.std.proofs.Common.{ap, refl};
ghost use Rattle.md_dirs.specs.Index.{name_cmp};
ghost use Rattle.md_dirs.specs.NameKey.{held_bytes};

use md_name::Short;
use std::alloc::{AllocError, Global};
use std::cmp::Ordering;
use std::hash::{Hash, Hasher};
use std::marker::Model;

/// The bytes of a name, owned or lent.
#[derive(Drop)]
pub(crate) enum Held<'a> {
    Owned(Vec<u8>),
    Lent(&'a [u8]),
}

impl Held<'_> {
    /// The bytes, lent.
    pub(crate) fn as_slice(&self) -> &[u8]
        ensures { result.now ≡ held_bytes self.now }
    {
        match self {
            Held::Owned(name) => name.as_slice(),
            Held::Lent(name) => *name,
        }
    }
}

/// How a key has its bytes: a short name that it owns lies in the key itself.
#[derive(Drop)]
enum Kept<'a> {
    Short(Short),
    Held(Held<'a>),
}

/// A name as the key of a hash table: owned in the table, lent to look one up.
///
/// Its bytes go to the hasher at once, where `Vec<u8>` and `&[u8]` write each alone. A table of `NameKey<'static>` is asked for
/// `&NameKey::lent(name)`, which takes no memory.
#[derive(Drop)]
pub struct NameKey<'a> {
    kept: Kept<'a>,
}

impl<'a> Model for NameKey<'a> {
    ghost use Rattle.std.specs.Prelude.{List, ℕ};
    ghost use Rattle.md_dirs.specs.NameKey.{kept_bytes};

    ghost Value = { List ℕ };

    ghost view = { λ k. kept_bytes k.kept };
}

impl<'a> NameKey<'a> {
    /// A key whose bytes are moved in. It takes no memory.
    pub fn owned(name: Vec<u8>) -> Self
        ensures { result ≡ name.items }
    {
        NameKey::held(Held::Owned(name))
    }

    /// A key whose bytes are copied: into the key itself where they are at most 53. It is refused only when out of memory, and that of at
    /// most 53 bytes never is.
    pub fn copied(alloc: Global, name: &[u8]) -> Result<Self, AllocError>
        ensures ok { IfOk result (λ key. key ≡ name.now) }
        ensures short { length name.now ≤ 53 → IsOk result }
    {
        let kept = match Short::copied(name) {
            Some(short) => Kept::Short(short),
            None => Kept::Held(Held::Owned(Vec::from_slice(alloc, name)?)),
        };
        Ok(NameKey { kept })
    }

    /// A key whose bytes are lent. It takes no memory.
    pub fn lent(name: &'a [u8]) -> Self
        ensures { result ≡ name.now }
    {
        NameKey::held(Held::Lent(name))
    }

    // A key of bytes that are owned or lent.
    fn held(held: Held<'a>) -> Self
        ensures { result ≡ held_bytes held.entry }
    {
        NameKey {
            kept: Kept::Held(held),
        }
    }

    /// The bytes, lent.
    pub fn as_slice(&self) -> &[u8]
        ensures { result.now ≡ self.now }
    {
        match &self.kept {
            Kept::Short(name) => name.as_slice(),
            Kept::Held(held) => held.as_slice(),
        }
    }
}

impl<'a> PartialEq for NameKey<'a> {
    ghost eq = { bytes_eq };

    ghost laws = { partial_equiv_from_equiv nat_list_eq_equiv };

    fn eq(&self, other: &Self) -> bool {
        self.as_slice() == other.as_slice()
    }
}

impl<'a> Eq for NameKey<'a> {
    ghost laws = { nat_list_eq_equiv };
}

impl<'a> Hash for NameKey<'a> {
    ghost hash_input = { λ name. name ∷ [] };

    ghost respects_eq = { λ x y h. ap (λ name. name ∷ []) ((bytes_decides x y).0 h) };

    fn hash<H: Hasher>(&self, state: &mut H) {
        state.write(self.as_slice());
    }
}

impl<'a> PartialOrd for NameKey<'a> {
    ghost partial_cmp = { λ x y. Some (name_cmp x y) };

    ghost laws = { texts_po };

    fn partial_cmp(&self, other: &Self) -> Option<Ordering> {
        Some(self.cmp(other))
    }
}

impl<'a> Ord for NameKey<'a> {
    ghost cmp = { name_cmp };

    ghost total = { nat_list_cmp_total };

    ghost matches_partial_cmp = { λ x y. refl };

    ghost matches_eq = { texts_ties };

    fn cmp(&self, other: &Self) -> Ordering {
        self.as_slice().cmp(other.as_slice())
    }
}
