//! A table by a number and a name.
ghost use Rattle.std.specs.Prelude.{◌≡◌, ◌+◌, ℕ, List, Option, Some, None, IsTrue, OnOk, slice_get};
ghost use Rattle.std.specs.Option.{option_copied};
ghost use Rattle.md_kept.specs.Tables.{value_at, count_at, Puts};

use indexmap::IndexMap;
use md_dirs::NameKey;
use std::alloc::{AllocError, Global};

/// No place of a table.
const NOWHERE: usize = usize::MAX;

/// What was taken out of a table, and the place of its key.
#[derive(Drop)]
pub struct Taken<V> {
    pub at: usize,
    pub value: Option<V>,
}

/// What is kept by a number and a name.
#[derive(Drop)]
pub struct Table<V> {
    alloc: Global,
    /// What is taken out leaves its key, so that it comes back to the same place.
    map: IndexMap<(usize, NameKey<'static>), Option<V>>,
}

impl<V: Drop> Table<V> {
    #[tactic(auto, unfolding(crate::specs::Tables::value_at))]
    pub fn new(alloc: Global) -> Self
        ensures { (number : ℕ) (name : List ℕ) → value_at result number name ≡ None }
    {
        Table {
            alloc,
            map: IndexMap::new(alloc),
        }
    }

    #[tactic(auto, unfolding(crate::specs::Tables::value_at))]
    pub fn get<'a>(&'a self, number: usize, name: &'a [u8]) -> Option<&'a V>
        ensures { option_copied result ≡ value_at self.now number name.now }
    {
        let key = (number, NameKey::lent(name));
        self.map.get(&key)?.as_ref()
    }

    #[tactic(auto, unfolding(crate::specs::Tables::value_at))]
    pub fn put(&mut self, number: usize, name: &[u8], value: V) -> Result<(), AllocError>
        ensures { OnOk result (Puts number name.now (Some value) self.old self.new) }
    {
        let key = (number, NameKey::copied(self.alloc, name)?);
        self.map.insert(key, Some(value))?;
        Ok(())
    }

    /// Takes out what is kept, and says where.
    #[tactic(auto, unfolding(crate::specs::Tables::value_at))]
    pub fn take(&mut self, number: usize, name: &[u8]) -> Taken<V>
        ensures taken { result.value ≡ value_at self.old number name.now }
        ensures puts { Puts number name.now None self.old self.new }
    {
        let key = (number, NameKey::lent(name));
        let Some((at, _, _)) = self.map.get_full(&key) else {
            return Taken {
                at: NOWHERE,
                value: None,
            };
        };
        let (_, kept) = self.map.pair_mut(at);
        Taken {
            at,
            value: kept.take(),
        }
    }

    /// Puts a value back. Where its key lies at `at`, it takes no look-up and no copy of the name.
    #[tactic(auto, unfolding(crate::specs::Tables::value_at))]
    pub fn put_back(
        &mut self,
        at: usize,
        number: usize,
        name: &[u8],
        value: V,
    ) -> Result<(), AllocError>
        ensures { OnOk result (Puts number name.now (Some value) self.old self.new) }
    {
        if !self.has_at(at, number, name) {
            return self.put(number, name, value);
        }
        let (_, kept) = self.map.pair_mut(at);
        *kept = Some(value);
        Ok(())
    }

    /// Whether a key lies at a place.
    fn has_at(&self, at: usize, number: usize, name: &[u8]) -> bool
        ensures { IsTrue result → (o : Option V) × (slice_get self.now.map.entries at ≡ Some ((number, name.now), o)) }
    {
        match self.map.get_index(at) {
            None => false,
            Some((key, _)) => key.0 == number && key.1.as_slice() == name,
        }
    }
}

impl Table<usize> {
    /// The number that is kept, or 0.
    pub fn count(&self, number: usize, name: &[u8]) -> usize
        ensures { result ≡ count_at self.now number name.now }
    {
        self.get(number, name).copied().unwrap_or(0)
    }

    /// One more.
    #[tactic(auto, unfolding(crate::specs::Tables::value_at))]
    pub fn raise(&mut self, number: usize, name: &[u8]) -> Result<(), AllocError>
        ensures { OnOk result (Puts number name.now (Some (count_at self.old number name.now + 1)) self.old self.new) }
    {
        let key = (number, NameKey::lent(name));
        let Some((at, _, kept)) = self.map.get_full(&key) else {
            self.put(number, name, 1)?;
            return Ok(());
        };
        let Some(more) = kept.unwrap_or(0).checked_add(1) else {
            return Err(AllocError);
        };
        let (_, kept) = self.map.pair_mut(at);
        *kept = Some(more);
        Ok(())
    }
}
