// The names of a store, kept up to date change by change.
ghost use Rattle.std.specs.Prelude.{◌≡◌, IfOk, IfErr, OnOk, OnErr};
ghost use Rattle.md_core.specs.Runs.{dirs_of};
ghost use Rattle.md_view.specs.Named.{named_of, after_change, AreMessages, Named, named_code};
ghost use Rattle.md_dirs.specs.declared.paths.Place.TheVariants.{Cur};
ghost use Rattle.md_listing.specs.Readings.{reading_of, join_of, IsInOrder};
ghost use Rattle.md_listing.specs.declared.error.ViewError.TheVariants.{NoMemory};
ghost use Rattle.md_view.specs.Held.{held_names, HoldNames};

mod apply;
mod entry_list;
mod fits;
mod folder;
mod list;
mod tree;

use apply::apply_to;
use entry_list::EntryList;
use folder::{FolderNames, all_again, all_of};
use md_core::{Change, World};
use md_dirs::{Dirs, Place};
use md_listing::{Entry, EntryRef, ViewError, copied, join_lent, lend};
use std::alloc::{AllocError, Global};
use std::marker::Model;
pub use tree::EntryTree;

/// The names of a store: for each folder the messages of new and of cur, in order of unique name. `Names` and `TreeNames` keep them in two
/// ways. Contracts see how many folders there are, and of each message what a listing shows, by its unique name.
#[derive(Drop)]
pub struct NamesIn<L: EntryList> {
    alloc: Global,
    folders: Vec<FolderNames<L>>,
}

/// Names in one vector for each directory, which can be lent as it is. A name that comes or goes amid the order moves all after it.
pub type Names = NamesIn<Vec<Entry>>;

/// Names in one tree for each directory: a name comes or goes in the logarithm of their number.
pub type TreeNames = NamesIn<EntryTree>;

impl<L: EntryList> Model for NamesIn<L> {
    ghost Value = { Named };

    ghost coded = { named_code };

    ghost view = { λ n. held_names n.folders.items };

    ghost invariant = { λ n. HoldNames n.folders.items };
}

impl NamesIn<Vec<Entry>> {
    /// The messages of a directory of a folder, in order of unique name. There are none in tmp, nor where the folder isn't there.
    pub fn entries(&self, folder: u32, place: Place) -> &[Entry]
        ensures { result.now ≡ reading_of self.now.names folder place }
    {
        match self.folders.get(folder as usize) {
            Some(lists) => lists.list(place),
            None => &[],
        }
    }
}

impl<L: EntryList> NamesIn<L> {
    /// The names of a world now. It is refused only when out of memory.
    pub fn of<D: Dirs>(alloc: Global, world: &World<D>) -> Result<NamesIn<L>, ViewError>
        ensures names { IfOk result (λ names. names ≡ named_of (dirs_of world.now)) }
        ensures refusal { IfErr result (λ error. error ≡ NoMemory) }
    {
        let folders = all_of(alloc, world)?;
        Ok(NamesIn { alloc, folders })
    }

    /// Makes a change, where it fits, and otherwise none: where a folder or the old name isn't there, a place is tmp, the new name is no
    /// message's, or another message has its unique name. A rename that keeps folder, place and unique name moves no other name. Else each
    /// folder is searched for the new unique name. It is refused only when out of memory, and then nothing has changed.
    pub fn apply(&mut self, change: &Change) -> Result<(), ViewError>
        ensures names { OnOk result (self.new ≡ after_change self.old change.now) }
        ensures unchanged { OnErr result (self.new ≡ self.old) }
        ensures refusal { IfErr result (λ error. error ≡ NoMemory) }
    {
        apply_to(self.alloc, &mut self.folders, change)?;
        Ok(())
    }

    /// Copies of the messages of a directory of a folder, as `reading` gives them. It is refused only when out of memory.
    pub fn read(&self, alloc: Global, folder: u32, place: Place) -> Result<Vec<Entry>, AllocError>
        ensures { IfOk result (λ all. all.items ≡ reading_of self.now.names folder place) }
    {
        let all = self.lent(alloc, folder, place)?;
        copied(alloc, &all)
    }

    /// A reading of new of a folder, joined with the messages of its cur, as `join` joins them. It is refused only when out of memory.
    pub fn join_cur(
        &self,
        alloc: Global,
        new: &[Entry],
        folder: u32,
    ) -> Result<Vec<Entry>, AllocError>
        requires { IsInOrder new.now }
        ensures { IfOk result (λ all. all.items ≡ join_of new.now (reading_of self.now.names folder Cur)) }
    {
        let new = lend(alloc, new)?;
        let cur = self.lent(alloc, folder, Place::Cur)?;
        let all = join_lent(alloc, &new, &cur)?;
        copied(alloc, &all)
    }

    fn lent(
        &self,
        alloc: Global,
        folder: u32,
        place: Place,
    ) -> Result<Vec<EntryRef<'_>>, AllocError>
        ensures { IfOk result (λ all. all.items ≡ reading_of self.now.names folder place) }
    {
        match self.folders.get(folder as usize) {
            Some(lists) => lists.lent(alloc, place),
            None => Ok(Vec::new(alloc)),
        }
    }

    /// How many folders there are.
    pub fn folders(&self) -> u32
        ensures { result ≡ self.now.folders }
    {
        self.folders.len() as u32
    }

    /// A copy. It is refused only when out of memory.
    pub fn again(&self, alloc: Global) -> Result<NamesIn<L>, AllocError>
        ensures { IfOk result (λ names. names ≡ self.now) }
    {
        let folders = all_again(alloc, &self.folders)?;
        Ok(NamesIn { alloc, folders })
    }

    /// Each name is a message's, in new or cur of a folder that is there.
    pub fn are_messages(&self)
        ensures { AreMessages self.now }
    {
        let _kept = &self.alloc;
    }
}
