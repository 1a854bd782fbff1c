//! Entries in order of unique name in one vector: where one is, by halving, and how one comes and goes.
ghost use Rattle.std.specs.Prelude.{IfOk, IfErr};
ghost use Rattle.md_listing.specs.Readings.{IsInOrder};
ghost use Rattle.md_view.specs.Held.{HasAt, IsGapFor};

use crate::names::entry_list::EntryList;
use md_listing::{Entry, EntryRef, copied, lend};
use md_name::Bytes;
use std::alloc::{AllocError, Global};

fn search(entries: &[Entry], unique: &[u8]) -> Result<usize, usize>
    requires { IsInOrder entries.now }
    ensures found { IfOk result (HasAt entries.now unique.now) }
    ensures absent { IfErr result (IsGapFor entries.now unique.now) }
{
    entries.binary_search_by(|entry| entry.unique.as_slice().cmp(unique))
}

impl EntryList for Vec<Entry> {
    ghost shown = { λ v. v.items };

    fn of(alloc: Global, all: Vec<EntryRef<'_>>) -> Result<Self, AllocError> {
        copied(alloc, &all)
    }

    fn lent(&self, alloc: Global) -> Result<Vec<EntryRef<'_>>, AllocError> {
        lend(alloc, self.as_slice())
    }

    fn find(&self, unique: &[u8]) -> Option<EntryRef<'_>> {
        match search(self.as_slice(), unique) {
            Ok(at) => Some(self[at].lent()),
            Err(_) => None,
        }
    }

    fn put(&mut self, alloc: Global, entry: EntryRef<'_>) -> Result<(), AllocError> {
        let entry = entry.copied(alloc)?;
        match search(self.as_slice(), entry.unique.as_slice()) {
            Ok(at) => {
                self[at] = entry;
                Ok(())
            }
            Err(at) => Ok(self.insert(at, entry)?),
        }
    }

    fn rename(
        &mut self,
        alloc: Global,
        unique: &[u8],
        name: &[u8],
        to_name: &[u8],
    ) -> Result<(), AllocError> {
        let Ok(at) = search(self.as_slice(), unique) else {
            return Ok(());
        };
        if self[at].name.as_slice() == name {
            let to_name = Bytes::copied(alloc, to_name)?;
            self[at].name = to_name;
        }
        Ok(())
    }

    fn take(&mut self, unique: &[u8]) {
        if let Ok(at) = search(self.as_slice(), unique) {
            let _gone = self.remove(at);
        }
    }
}
