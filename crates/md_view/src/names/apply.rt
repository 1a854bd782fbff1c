// What a change makes of the names.
ghost use Rattle.std.specs.Prelude.{◌≡◌, ◌≢◌, ◌↔◌, true, IsTrue, IsSome, IfSome, OnOk, OnErr};
ghost use Rattle.md_name.specs.Names.{unique_of, is_message_name};
ghost use Rattle.md_jobs.specs.declared.effect.Change.TheVariants.{Add, Rename, Remove};
ghost use Rattle.md_view.specs.Named.{after_change, fits as fits_names};
ghost use Rattle.md_view.specs.Held.{entry_with, listed_in, held_names, AreHeld, HoldNames};

use crate::names::entry_list::EntryList;
use crate::names::fits::{fits_remove, fits_rename, may_take};
use crate::names::folder::FolderNames;
use md_core::Change;
use md_dirs::Place;
use md_listing::EntryRef;
use md_name::{split, unique_part};
use std::alloc::{AllocError, Global};

/// Makes a change where it fits, and otherwise none.
pub fn apply_to<L: EntryList>(
    alloc: Global,
    folders: &mut Vec<FolderNames<L>>,
    change: &Change,
) -> Result<(), AllocError>
    requires { HoldNames folders.old.items }
    ensures ok { OnOk result (AreHeld (after_change (held_names folders.old.items) change.now) folders.new.items) }
    ensures err { OnErr result (folders.new.items ≡ folders.old.items) }
{
    match change {
        Change::Add {
            folder,
            place,
            name,
            size,
        } => add(alloc, folders, *folder, *place, name.as_slice(), *size),
        Change::Rename {
            folder,
            place,
            name,
            to_folder,
            to_place,
            to_name,
        } => rename(
            alloc,
            folders,
            *folder,
            *place,
            name.as_slice(),
            *to_folder,
            *to_place,
            to_name.as_slice(),
        ),
        Change::Remove {
            folder,
            place,
            name,
        } => {
            remove(folders, *folder, *place, name.as_slice());
            Ok(())
        }
        Change::Same => Ok(()),
    }
}

fn add<L: EntryList>(
    alloc: Global,
    folders: &mut Vec<FolderNames<L>>,
    folder: u32,
    place: Place,
    name: &[u8],
    size: u64,
) -> Result<(), AllocError>
    requires { HoldNames folders.old.items }
    ensures ok { OnOk result (AreHeld (after_change (held_names folders.old.items) (Add folder place name.now size)) folders.new.items) }
    ensures err { OnErr result (folders.new.items ≡ folders.old.items) }
{
    let Some((unique, _)) = split(name) else {
        return Ok(());
    };
    if !may_take(folders, folder, place, unique) {
        return Ok(());
    }
    let lists = &mut folders[folder as usize];
    lists.put_new(alloc, place, EntryRef::new(unique, place, name, size))
}

fn remove<L: EntryList>(folders: &mut Vec<FolderNames<L>>, folder: u32, place: Place, name: &[u8])
    requires { HoldNames folders.old.items }
    ensures { AreHeld (after_change (held_names folders.old.items) (Remove folder place name.now)) folders.new.items }
{
    if fits_remove(folders, folder, place, name) {
        let lists = &mut folders[folder as usize];
        lists.take(place, unique_part(name));
    }
}

fn rename<L: EntryList>(
    alloc: Global,
    folders: &mut Vec<FolderNames<L>>,
    folder: u32,
    place: Place,
    name: &[u8],
    to_folder: u32,
    to_place: Place,
    to_name: &[u8],
) -> Result<(), AllocError>
    requires { HoldNames folders.old.items }
    ensures ok { let change = Rename folder place name.now to_folder to_place to_name.now in
        OnOk result (AreHeld (after_change (held_names folders.old.items) change) folders.new.items) }
    ensures err { OnErr result (folders.new.items ≡ folders.old.items) }
{
    let Some((unique, _)) = split(name) else {
        return Ok(());
    };
    let Some((to_unique, _)) = split(to_name) else {
        return Ok(());
    };
    if is_one_place(folder, place, unique, to_folder, to_place, to_unique) {
        return rename_here(alloc, folders, folder, place, unique, name, to_name);
    }
    if !fits_rename(folders, folder, place, name, to_folder, to_place, to_name) {
        return Ok(());
    }
    rename_away(
        alloc, folders, folder, place, name, to_folder, to_place, to_name,
    )
}

// Gives a message another name of the same unique name in its directory, where that fits. Its entry is looked for once, and none moves.
fn rename_here<L: EntryList>(
    alloc: Global,
    folders: &mut Vec<FolderNames<L>>,
    folder: u32,
    place: Place,
    unique: &[u8],
    name: &[u8],
    to_name: &[u8],
) -> Result<(), AllocError>
    requires names { HoldNames folders.old.items }
    requires message { is_message_name to_name.now ≡ true }
    requires unique { (unique_of name.now ≡ unique.now) × (unique_of to_name.now ≡ unique.now) }
    ensures ok { let change = Rename folder place name.now folder place to_name.now in
        OnOk result (AreHeld (after_change (held_names folders.old.items) change) folders.new.items) }
    ensures err { OnErr result (folders.new.items ≡ folders.old.items) }
{
    if folder as usize >= folders.len() {
        return Ok(());
    }
    let lists = &mut folders[folder as usize];
    lists.rename(alloc, place, unique, name, to_name)
}

// Gives a message a name in another directory or of another unique name. The new entry is put in before the old one is taken out.
fn rename_away<L: EntryList>(
    alloc: Global,
    folders: &mut Vec<FolderNames<L>>,
    folder: u32,
    place: Place,
    name: &[u8],
    to_folder: u32,
    to_place: Place,
    to_name: &[u8],
) -> Result<(), AllocError>
    requires names { HoldNames folders.old.items }
    requires fits { fits_names (held_names folders.old.items) (Rename folder place name.now to_folder to_place to_name.now) ≡ true }
    requires away { folder ≡ to_folder → place ≡ to_place → unique_of to_name.now ≢ unique_of name.now }
    ensures ok { let change = Rename folder place name.now to_folder to_place to_name.now in
        OnOk result (AreHeld (after_change (held_names folders.old.items) change) folders.new.items) }
    ensures err { OnErr result (folders.new.items ≡ folders.old.items) }
{
    let unique = unique_part(name);
    let size = size_of(folders, folder, place, unique);
    let entry = EntryRef::new(unique_part(to_name), to_place, to_name, size);
    let to_lists = &mut folders[to_folder as usize];
    to_lists.put(alloc, to_place, entry)?;
    let lists = &mut folders[folder as usize];
    lists.take(place, unique);
    Ok(())
}

fn is_one_place(
    folder: u32,
    place: Place,
    unique: &[u8],
    to_folder: u32,
    to_place: Place,
    to_unique: &[u8],
) -> bool
    ensures { IsTrue result ↔ ((folder ≡ to_folder) × (place ≡ to_place) × (unique.now ≡ to_unique.now)) }
{
    folder == to_folder && place == to_place && unique == to_unique
}

fn size_of<L: EntryList>(
    folders: &[FolderNames<L>],
    folder: u32,
    place: Place,
    unique: &[u8],
) -> u64
    requires { IsSome (entry_with unique.now (listed_in folders.now folder place)) }
    ensures { IfSome (entry_with unique.now (listed_in folders.now folder place)) (λ entry. result ≡ entry.size) }
{
    let lists = &folders[folder as usize];
    lists.find(place, unique).unwrap().size()
}
