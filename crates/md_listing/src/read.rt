// One directory of a folder, as a listing shows it.
ghost use Rattle.std.specs.Prelude.{◌≡◌, ◌<◌, ◌++◌, IsTrue, IfOk, IfErr, OnOk};
ghost use Rattle.md_dirs.specs.Rows.{rows_of};
ghost use Rattle.md_core.specs.History.{names_of};
ghost use Rattle.md_core.specs.Mailbox.{mailbox_of};
ghost use Rattle.md_used.specs.Paths.{is_tmp as is_tmp_place};
ghost use Rattle.md_core.specs.Runs.{dirs_of};
ghost use Rattle.md_listing.specs.Readings.{reading_of, IsInOrder, reading_refusal};
ghost use Rattle.md_listing.specs.Rows.{entries_of, IsBehind};

use crate::comparing::compare;
use crate::entry::{Entry, EntryRef, copied};
use crate::error::ViewError;
use md_core::World;
use md_dirs::{Dirs, Place, RowRef};
use std::alloc::{AllocError, Global};

/// The messages of a directory of a folder now, in order of unique name. There are none in tmp.
///
/// As in maildir(5), a name that begins with a dot is no message's, and neither is one with nothing in front of its first colon. It is
/// refused where the folder isn't there, and otherwise only when out of memory.
///
/// Call `World::arrange` first: if the names aren't in order, each reading sorts them anew.
pub fn reading<D: Dirs>(
    alloc: Global,
    world: &World<D>,
    folder: u32,
    place: Place,
) -> Result<Vec<Entry>, ViewError>
    ensures entries { IfOk result (λ all. all.items ≡ reading_of (names_of (mailbox_of (dirs_of world.now))) folder place) }
    ensures folder { IfOk result (λ _. folder < (dirs_of world.now).folders) }
    ensures order { IfOk result (λ all. IsInOrder all.items) }
    ensures refusal { IfErr result (λ error. error ≡ reading_refusal (dirs_of world.now) folder) }
{
    let all = lent_reading(alloc, world, folder, place)?;
    Ok(copied(alloc, &all)?)
}

/// The same, each entry lent by its directory: no name is copied. It is refused as `reading` is. Call `World::arrange` first, as there.
pub fn lent_reading<'a, D: Dirs>(
    alloc: Global,
    world: &'a World<D>,
    folder: u32,
    place: Place,
) -> Result<Vec<EntryRef<'a>>, ViewError>
    ensures entries { IfOk result (λ all. all.items ≡ reading_of (names_of (mailbox_of (dirs_of world.now))) folder place) }
    ensures folder { IfOk result (λ _. folder < (dirs_of world.now).folders) }
    ensures order { IfOk result (λ all. IsInOrder all.items) }
    ensures refusal { IfErr result (λ error. error ≡ reading_refusal (dirs_of world.now) folder) }
{
    if folder >= world.folders() {
        return Err(ViewError::NoFolder);
    }
    world.interleaves();
    md_core::laws::names_show_their_directories();
    if is_tmp(place) {
        return Ok(Vec::new(alloc));
    }
    let (mut all, is_in_order) = gather(alloc, world, folder, place)?;
    if !is_in_order {
        all.sort_unstable_by(|first, second| first.unique().cmp(second.unique()));
    }
    Ok(all)
}

fn is_tmp(place: Place) -> bool
    ensures { result ≡ is_tmp_place place }
{
    matches!(place, Place::Tmp)
}

// The messages of a directory in order of their whole names, and whether that is the order of their unique names. It nearly always is:
// only a unique name that goes on with a byte below the colon, after another one, comes out otherwise.
fn gather<'a, D: Dirs>(
    alloc: Global,
    world: &'a World<D>,
    folder: u32,
    place: Place,
) -> Result<(Vec<EntryRef<'a>>, bool), AllocError>
    ensures entries { IfOk result (λ all. all.0.items ≡ entries_of place (rows_of (dirs_of world.now) folder place)) }
    ensures order { IfOk result (λ all. IsTrue all.1 → IsInOrder all.0.items) }
{
    let mut all = Vec::with_capacity(alloc, world.dirs().count(folder, place))?;
    let mut is_in_order = true;
    let mut at = 0usize;
    loop {
        let rows = world.names_from(alloc, folder, place, at)?;
        if rows.is_empty() {
            return Ok((all, is_in_order));
        }
        // No memory holds more names than can be counted.
        at = at.checked_add(rows.len()).ok_or(AllocError)?;
        is_in_order = push_rows(&mut all, place, &rows, is_in_order)?;
    }
}

// Adds the entries of rows, and says whether all are in order, if those before are.
fn push_rows<'a>(
    all: &mut Vec<EntryRef<'a>>,
    place: Place,
    rows: &[RowRef<'a>],
    were_in_order: bool,
) -> Result<bool, AllocError>
    ensures entries { OnOk result (all.new.items ≡ all.old.items ++ entries_of place rows.now) }
    ensures order { IfOk result (λ are_in_order.
        IsTrue are_in_order → (IsTrue were_in_order → IsInOrder all.old.items) → IsInOrder all.new.items) }
{
    all.reserve(rows.len())?;
    let mut is_in_order = were_in_order;
    for row in rows {
        if let Some(entry) = EntryRef::of_row(place, row) {
            is_in_order = is_in_order && is_behind(all, &entry);
            all.push_reserved(entry);
        }
    }
    Ok(is_in_order)
}

// Whether an entry goes after the last of others in order of unique name.
fn is_behind(all: &[EntryRef<'_>], entry: &EntryRef<'_>) -> bool
    ensures { IsTrue result → IsBehind all.now entry.now }
{
    match all.last() {
        Some(last) => compare(last.unique(), entry.unique()).is_lt(),
        None => true,
    }
}
