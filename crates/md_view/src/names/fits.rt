// Whether a change fits the names.
ghost use Rattle.std.specs.Prelude.{◌≡◌, ◌≢◌, ◌↔◌, Some, IsTrue, true};
ghost use Rattle.md_dirs.specs.declared.paths.Place.{Place};
ghost use Rattle.std.specs.List.{list_any};
ghost use Rattle.std.specs.FinMap as finmap;
ghost use Rattle.md_name.specs.Names.{unique_of, is_message_name};
ghost use Rattle.md_jobs.specs.declared.effect.Change.TheVariants.{Rename, Remove};
ghost use Rattle.md_view.specs.Named.{fits as fits_names, is_listed as is_listed_in, is_free as is_free_name, is_there as is_name_there};
ghost use Rattle.md_view.specs.Held.{has_unique, held_names, HoldNames, ExistsElsewhere};

use crate::names::entry_list::EntryList;
use crate::names::folder::FolderNames;
use md_dirs::Place;
use md_name::split;

/// Whether a directory may take one more message of a unique name: it is new or cur of a folder that is there, and no other has such one.
pub fn may_take<L: EntryList>(
    folders: &[FolderNames<L>],
    folder: u32,
    place: Place,
    unique: &[u8],
) -> bool
    requires { HoldNames folders.now }
    ensures { IsTrue result
        ↔ ((is_listed_in (held_names folders.now) folder place ≡ true) × (ExistsElsewhere unique.now folder place folders.now → ⊥)) }
{
    is_listed(folders, folder, place) && !unique_exists_elsewhere(folders, folder, place, unique)
}

fn unique_exists_elsewhere<L: EntryList>(
    folders: &[FolderNames<L>],
    folder: u32,
    place: Place,
    unique: &[u8],
) -> bool
    ensures { IsTrue result ↔ ExistsElsewhere unique.now folder place folders.now }
{
    for (at, lists) in folders.iter().enumerate() {
        if lists.has_elsewhere(own_place(at, folder, place), unique) {
            return true;
        }
    }
    false
}

// The place, where a folder is its own.
fn own_place(at: usize, folder: u32, place: Place) -> Option<Place>
    ensures { (p : Place) → (result ≢ Some p) ↔ (at ≡ folder → p ≡ place → ⊥) }
{
    if at == folder as usize {
        Some(place)
    } else {
        None
    }
}

/// Whether a rename fits: its directories are new or cur of folders that are there, the old name is there, and the new name is a message's
/// whose unique name no other message has.
pub fn fits_rename<L: EntryList>(
    folders: &[FolderNames<L>],
    folder: u32,
    place: Place,
    name: &[u8],
    to_folder: u32,
    to_place: Place,
    to_name: &[u8],
) -> bool
    requires { HoldNames folders.now }
    ensures { result ≡ fits_names (held_names folders.now) (Rename folder place name.now to_folder to_place to_name.now) }
{
    is_listed(folders, folder, place)
        && is_listed(folders, to_folder, to_place)
        && is_there(folders, folder, place, name)
        && is_free_after(folders, name, to_name)
}

/// Whether a removal fits: its directory is new or cur of a folder that is there, and the name is there.
pub fn fits_remove<L: EntryList>(
    folders: &[FolderNames<L>],
    folder: u32,
    place: Place,
    name: &[u8],
) -> bool
    requires { HoldNames folders.now }
    ensures { result ≡ fits_names (held_names folders.now) (Remove folder place name.now) }
{
    is_listed(folders, folder, place) && is_there(folders, folder, place, name)
}

fn is_listed<L: EntryList>(folders: &[FolderNames<L>], folder: u32, place: Place) -> bool
    ensures { result ≡ is_listed_in (held_names folders.now) folder place }
{
    (folder as usize) < folders.len() && !matches!(place, Place::Tmp)
}

fn is_there<L: EntryList>(
    folders: &[FolderNames<L>],
    folder: u32,
    place: Place,
    name: &[u8],
) -> bool
    requires { HoldNames folders.now }
    ensures { result ≡ is_name_there (held_names folders.now) folder place name.now }
{
    let Some(lists) = folders.get(folder as usize) else {
        return false;
    };
    let Some((unique, _)) = split(name) else {
        return false;
    };
    match lists.find(place, unique) {
        Some(entry) => entry.name() == name,
        None => false,
    }
}

fn unique_exists<L: EntryList>(folders: &[FolderNames<L>], unique: &[u8]) -> bool
    ensures { result ≡ list_any (has_unique unique.now) folders.now }
{
    for lists in folders {
        if lists.has(unique) {
            return true;
        }
    }
    false
}

// Whether a message that has an old name may get this name: no other has its unique name.
fn is_free_after<L: EntryList>(folders: &[FolderNames<L>], old: &[u8], name: &[u8]) -> bool
    requires names { HoldNames folders.now }
    requires message { is_message_name old.now ≡ true }
    ensures { result ≡ is_free_name (finmap.remove (held_names folders.now).names (unique_of old.now)) name.now }
{
    let Some((old_unique, _)) = split(old) else {
        return false;
    };
    let Some((unique, _)) = split(name) else {
        return false;
    };
    unique == old_unique || !unique_exists(folders, unique)
}
