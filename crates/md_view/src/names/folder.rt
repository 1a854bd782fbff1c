// The messages of new and of cur of one folder, each list in order of unique name.
ghost use Rattle.std.specs.Prelude.{◌≡◌, ◌≢◌, ◌↔◌, None, Some, false, IsTrue, IsSome, IfOk, IfErr, OnOk, OnErr, unwrap_or};
ghost use Rattle.std.specs.Option.{option_map};
ghost use Rattle.md_core.specs.History.{names_of};
ghost use Rattle.md_core.specs.Mailbox.{mailbox_of};
ghost use Rattle.md_used.specs.Paths.{is_tmp};
ghost use Rattle.md_core.specs.Runs.{dirs_of};
ghost use Rattle.md_view.specs.Named.{named_of};
ghost use Rattle.md_view.specs.Held.{list_of, entry_with, has_unique, renamed, DiffersIn, AreHeld, FolderLists};
ghost use Rattle.md_listing.specs.Readings.{reading_of, reading_refusal, IsInOrder};
ghost use Rattle.md_dirs.specs.declared.paths.Place.{Place};
ghost use Rattle.md_dirs.specs.declared.paths.Place.TheVariants.{New, Cur};
ghost use Rattle.md_listing.specs.declared.error.ViewError.TheVariants.{NoMemory};

use crate::names::entry_list::EntryList;
use md_core::World;
use md_dirs::{Dirs, Place};
use md_listing::{Entry, EntryRef, ViewError, lent_reading};
use std::alloc::{AllocError, Global};
use std::marker::Model;

/// The messages of new and of cur of one folder, each list in order of unique name.
#[derive(Drop)]
pub struct FolderNames<L: EntryList> {
    in_new: L,
    in_cur: L,
}

impl<L: EntryList> Model for FolderNames<L> {
    ghost Value = { FolderLists };

    ghost view = { λ f. record { in_new = L.shown f.in_new; in_cur = L.shown f.in_cur } };

    ghost invariant = { λ f. IsInOrder (L.shown f.in_new) × IsInOrder (L.shown f.in_cur) };
}

impl FolderNames<Vec<Entry>> {
    pub fn list(&self, place: Place) -> &[Entry]
        ensures { result.now ≡ list_of place self.now }
    {
        match place {
            Place::Tmp => &[],
            Place::New => &self.in_new,
            Place::Cur => &self.in_cur,
        }
    }
}

impl<L: EntryList> FolderNames<L> {
    pub fn of<D: Dirs>(
        alloc: Global,
        world: &World<D>,
        folder: u32,
    ) -> Result<FolderNames<L>, ViewError>
        ensures new { IfOk result (λ lists. lists.in_new ≡ reading_of (names_of (mailbox_of (dirs_of world.now))) folder New) }
        ensures cur { IfOk result (λ lists. lists.in_cur ≡ reading_of (names_of (mailbox_of (dirs_of world.now))) folder Cur) }
        ensures refusal { IfErr result (λ error. error ≡ reading_refusal (dirs_of world.now) folder) }
    {
        let in_new = L::of(alloc, lent_reading(alloc, world, folder, Place::New)?)?;
        let in_cur = L::of(alloc, lent_reading(alloc, world, folder, Place::Cur)?)?;
        Ok(FolderNames { in_new, in_cur })
    }

    pub fn again(&self, alloc: Global) -> Result<FolderNames<L>, AllocError>
        ensures { IfOk result (λ lists. lists ≡ self.now) }
    {
        let in_new = L::of(alloc, self.in_new.lent(alloc)?)?;
        let in_cur = L::of(alloc, self.in_cur.lent(alloc)?)?;
        Ok(FolderNames { in_new, in_cur })
    }

    pub fn lent(&self, alloc: Global, place: Place) -> Result<Vec<EntryRef<'_>>, AllocError>
        ensures { IfOk result (λ all. all.items ≡ list_of place self.now) }
    {
        match place {
            Place::Tmp => Ok(Vec::new(alloc)),
            Place::New => self.in_new.lent(alloc),
            Place::Cur => self.in_cur.lent(alloc),
        }
    }

    /// Whether a message has a unique name.
    pub fn has(&self, unique: &[u8]) -> bool
        ensures { result ≡ has_unique unique.now self.now }
    {
        self.in_new.find(unique).is_some() || self.in_cur.find(unique).is_some()
    }

    /// Whether a message has a unique name, in another directory than one, if that is given.
    pub fn has_elsewhere(&self, own: Option<Place>, unique: &[u8]) -> bool
        ensures { IsTrue result ↔ ((p : Place) × (own ≢ Some p) × IsSome (entry_with unique.now (list_of p self.now))) }
    {
        (own != Some(Place::New) && self.in_new.find(unique).is_some())
            || (own != Some(Place::Cur) && self.in_cur.find(unique).is_some())
    }

    /// The entry of a unique name in a directory.
    pub fn find(&self, place: Place, unique: &[u8]) -> Option<EntryRef<'_>>
        ensures { result ≡ entry_with unique.now (list_of place self.now) }
    {
        match place {
            Place::Tmp => None,
            Place::New => self.in_new.find(unique),
            Place::Cur => self.in_cur.find(unique),
        }
    }

    /// Puts a copy of an entry into a directory, in place of that of its unique name, if there is one.
    pub fn put(
        &mut self,
        alloc: Global,
        place: Place,
        entry: EntryRef<'_>,
    ) -> Result<(), AllocError>
        requires { is_tmp place ≡ false }
        ensures ok { OnOk result (DiffersIn place entry.entry.unique (Some entry.entry) self.old self.new) }
        ensures err { OnErr result (self.new ≡ self.old) }
    {
        match place {
            Place::Tmp => Ok(()),
            Place::New => self.in_new.put(alloc, entry),
            Place::Cur => self.in_cur.put(alloc, entry),
        }
    }

    /// Puts a copy of an entry into a directory, where it has none of its unique name.
    pub fn put_new(
        &mut self,
        alloc: Global,
        place: Place,
        entry: EntryRef<'_>,
    ) -> Result<(), AllocError>
        requires { is_tmp place ≡ false }
        ensures ok { let kept = unwrap_or (entry_with entry.entry.unique (list_of place self.old)) entry.entry in
            OnOk result (DiffersIn place entry.entry.unique (Some kept) self.old self.new) }
        ensures err { OnErr result (self.new ≡ self.old) }
    {
        match place {
            Place::Tmp => Ok(()),
            Place::New => self.in_new.put_new(alloc, entry),
            Place::Cur => self.in_cur.put_new(alloc, entry),
        }
    }

    /// Gives the entry of a unique name in a directory another name, if it has the old one. No entry moves.
    pub fn rename(
        &mut self,
        alloc: Global,
        place: Place,
        unique: &[u8],
        name: &[u8],
        to_name: &[u8],
    ) -> Result<(), AllocError>
        ensures ok { let entry = option_map (renamed name.now to_name.now) (entry_with unique.now (list_of place self.old)) in
            OnOk result (DiffersIn place unique.now entry self.old self.new) }
        ensures err { OnErr result (self.new ≡ self.old) }
    {
        match place {
            Place::Tmp => Ok(()),
            Place::New => self.in_new.rename(alloc, unique, name, to_name),
            Place::Cur => self.in_cur.rename(alloc, unique, name, to_name),
        }
    }

    /// Takes the entry of a unique name out of a directory, if there is one. It takes no memory.
    pub fn take(&mut self, place: Place, unique: &[u8])
        ensures { DiffersIn place unique.now None self.old self.new }
    {
        match place {
            Place::Tmp => {}
            Place::New => self.in_new.take(unique),
            Place::Cur => self.in_cur.take(unique),
        }
    }
}

pub fn all_of<L: EntryList, D: Dirs>(
    alloc: Global,
    world: &World<D>,
) -> Result<Vec<FolderNames<L>>, ViewError>
    ensures names { IfOk result (λ folders. AreHeld (named_of (dirs_of world.now)) folders.items) }
    ensures refusal { IfErr result (λ error. error ≡ NoMemory) }
{
    world.interleaves();
    md_core::laws::names_show_their_directories();
    let count = world.folders();
    let mut folders = Vec::with_capacity(alloc, count as usize)?;
    for folder in 0..count {
        folders.push(FolderNames::of(alloc, world, folder)?)?;
    }
    Ok(folders)
}

pub fn all_again<L: EntryList>(
    alloc: Global,
    folders: &[FolderNames<L>],
) -> Result<Vec<FolderNames<L>>, AllocError>
    ensures { IfOk result (λ copies. copies.items ≡ folders.now) }
{
    let mut copies = Vec::with_capacity(alloc, folders.len())?;
    for folder in folders {
        copies.push(folder.again(alloc)?)?;
    }
    Ok(copies)
}
