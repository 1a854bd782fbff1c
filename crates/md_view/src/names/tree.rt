// Entries in order of unique name in a tree.
ghost use Rattle.std.specs.Prelude.{◌≡◌, None, IsTrue, IfOk, OnOk, OnErr, List};
ghost use Rattle.md_view.specs.Held.{entry_with, named, name_of, kept_name, renamed_leaf, entries_in};
ghost use Rattle.md_listing.specs.declared.entry.Entry.{Entry};

use crate::names::entry_list::EntryList;
use md_dirs::Place;
use md_listing::EntryRef;
use md_name::Bytes;
use std::alloc::{AllocError, Global};
use std::collections::BTreeMap;
use std::marker::Model;

/// What is kept of an entry beside its unique name.
#[derive(Drop)]
pub struct Leaf {
    place: Place,
    /// The whole name, where it is not the unique name, as that of most messages in new is.
    name: Option<Bytes>,
    size: u64,
}

impl Leaf {
    fn of(alloc: Global, entry: &EntryRef<'_>) -> Result<Leaf, AllocError>
        ensures { IfOk result (λ leaf. named entry.now.unique leaf ≡ entry.now) }
    {
        Ok(Leaf {
            place: entry.place(),
            name: kept_name(alloc, entry.unique(), entry.name())?,
            size: entry.size(),
        })
    }

    fn name<'a>(&'a self, unique: &'a [u8]) -> &'a [u8]
        ensures { result.now ≡ name_of unique.now self.now }
    {
        match &self.name {
            None => unique,
            Some(name) => name.as_slice(),
        }
    }

    fn lent<'a>(&'a self, unique: &'a [u8]) -> EntryRef<'a>
        ensures { result ≡ named unique.now self.now }
    {
        EntryRef::new(unique, self.place, self.name(unique), self.size)
    }

    fn rename(
        &mut self,
        alloc: Global,
        unique: &[u8],
        name: &[u8],
        to_name: &[u8],
    ) -> Result<(), AllocError>
        ensures ok { OnOk result (self.new ≡ renamed_leaf unique.now name.now to_name.now self.old) }
        ensures err { OnErr result (self.new ≡ self.old) }
    {
        if self.name(unique) == name {
            self.name = kept_name(alloc, unique, to_name)?;
        }
        Ok(())
    }
}

// A copy of a whole name, where it is not the unique name.
fn kept_name(alloc: Global, unique: &[u8], name: &[u8]) -> Result<Option<Bytes>, AllocError>
    ensures { IfOk result (λ kept. kept ≡ kept_name unique.now name.now) }
{
    if name == unique {
        return Ok(None);
    }
    Ok(Some(Bytes::copied(alloc, name)?))
}

/// Entries in a tree by their unique names. Contracts see the entries in their order.
#[derive(Drop)]
pub struct EntryTree {
    leaves: BTreeMap<Vec<u8>, Leaf>,
}

impl Model for EntryTree {
    ghost Value = { List Entry };

    ghost view = { λ t. entries_in t.leaves.entries };
}

impl EntryTree {
    // Whether a unique name is behind those of all entries. Names mostly come in the order of time, so the last entry is looked at first.
    fn is_behind(&self, unique: &[u8]) -> bool
        ensures { IsTrue result → entry_with unique.now self.now ≡ None }
    {
        match self.leaves.last_key_value() {
            None => true,
            Some((last, _)) => last.as_slice().cmp(unique).is_lt(),
        }
    }
}

impl EntryList for EntryTree {
    ghost shown = { λ t. t };

    fn of(alloc: Global, mut all: Vec<EntryRef<'_>>) -> Result<Self, AllocError> {
        let leaves = BTreeMap::new(alloc);
        let mut tree = EntryTree { leaves };
        while let Some(entry) = all.pop() {
            tree.put(alloc, entry)?;
        }
        Ok(tree)
    }

    fn lent(&self, alloc: Global) -> Result<Vec<EntryRef<'_>>, AllocError> {
        let mut all = Vec::with_capacity(alloc, self.leaves.len())?;
        for (unique, leaf) in self.leaves.iter() {
            all.push(leaf.lent(unique.as_slice()))?;
        }
        Ok(all)
    }

    fn find(&self, unique: &[u8]) -> Option<EntryRef<'_>> {
        if self.is_behind(unique) {
            return None;
        }
        let (unique, leaf) = self.leaves.get_key_value(unique)?;
        Some(leaf.lent(unique.as_slice()))
    }

    fn put(&mut self, alloc: Global, entry: EntryRef<'_>) -> Result<(), AllocError> {
        let leaf = Leaf::of(alloc, &entry)?;
        let unique = Bytes::copied(alloc, entry.unique())?;
        self.leaves.insert(unique.into_vec(), leaf)?;
        Ok(())
    }

    fn put_new(&mut self, alloc: Global, entry: EntryRef<'_>) -> Result<(), AllocError> {
        let leaf = Leaf::of(alloc, &entry)?;
        let unique = Bytes::copied(alloc, entry.unique())?;
        // Nearly all are new, so it is looked for once: one that was there is put back.
        let Some(old) = self.leaves.insert(unique.into_vec(), leaf)? else {
            return Ok(());
        };
        if let Some(kept) = self.leaves.get_mut(entry.unique()) {
            *kept = old;
        }
        Ok(())
    }

    fn rename(
        &mut self,
        alloc: Global,
        unique: &[u8],
        name: &[u8],
        to_name: &[u8],
    ) -> Result<(), AllocError> {
        match self.leaves.get_mut(unique) {
            None => Ok(()),
            Some(leaf) => leaf.rename(alloc, unique, name, to_name),
        }
    }

    fn take(&mut self, unique: &[u8]) {
        let _gone = self.leaves.remove(unique);
    }
}
