//! The names that directories use up, gathered without a look for faults.
ghost use Rattle.std.specs.Prelude.{◌≡◌, ◌+◌, ◌||◌, Some, is_some, IfOk, IfSome, OnOk, OnErr};
ghost use Rattle.std.specs.FinMap as finmap;
ghost use Rattle.md_dirs.specs.Path.{path_of, place_index};
ghost use Rattle.md_dirs.specs.State.{file_at};
ghost use Rattle.md_dirs.specs.declared.paths.Place.TheVariants.{Tmp as PlaceTmp};
ghost use Rattle.md_core.specs.Gathering.{AreOf, StillUsed};
ghost use Rattle.md_core.specs.Looking.{entries_before};
ghost use Rattle.md_used.specs.Seen.{somewhere};
ghost use Rattle.md_core.specs.Submitting.{uses};
ghost use Rattle.md_used.specs.Used.{IsAllOf, is_among};

use md_dirs::{Dirs, Place, RowRef};
use md_name::is_message;
use md_used::{NameSet, Used, UsedNames};
use std::alloc::{AllocError, Global};

/// So few names that it costs little to gather them anew.
const FEW_NAMES: usize = 1_024;

// Uses the name of one more file: all of it in tmp, and the unique part of a message.
fn use_part(used: &mut UsedNames, place: Place, row: &RowRef<'_>) -> Result<(), AllocError>
    ensures { OnOk result ((u : _) → is_among u used.new ≡ (uses u (somewhere place row.now) || is_among u used.old)) }
{
    if matches!(place, Place::Tmp) {
        return used.insert(row.name());
    }
    let unique = row.unique();
    if !is_message(row.name(), unique) {
        return Ok(());
    }
    used.insert(unique)
}

// Uses the names of a directory, as they lie.
fn use_directory<D: Dirs>(
    alloc: Global,
    dirs: &D,
    folder: u32,
    place: Place,
    used: &mut UsedNames,
) -> Result<(), AllocError>
    requires { AreOf (entries_before (D.device dirs.now).state folder (place_index place)) used.old }
    ensures { OnOk result (AreOf (entries_before (D.device dirs.now).state folder (place_index place + 1)) used.new) }
{
    let rows = dirs.rows_unordered(alloc, folder, place)?;
    for row in 0..rows.len() {
        use_part(used, place, &rows[row])?;
    }
    Ok(())
}

/// Uses the names in tmp of a folder. After a refusal it may have used some of them, which the directories use too.
pub(crate) fn use_tmp<D: Dirs>(
    alloc: Global,
    dirs: &D,
    folder: u32,
    names: &mut NameSet,
) -> Result<(), AllocError>
    ensures ok { OnOk result ((u : _) → is_among u names.new
        ≡ (is_some (file_at (D.device dirs.now).state (path_of folder PlaceTmp u)) || is_among u names.old)) }
    ensures err { OnErr result (StillUsed (D.device dirs.now).state names.old names.new) }
{
    let rows = dirs.rows_unordered(alloc, folder, Place::Tmp)?;
    names.reserve(rows.len())?;
    for row in 0..rows.len() {
        names.insert(rows[row].name())?;
    }
    Ok(())
}

/// How many names directories have in new and cur, and in tmp, or as many as can be counted.
pub(super) fn count_all<D: Dirs>(dirs: &D) -> (usize, usize) {
    let mut messages = 0usize;
    let mut tmp = 0usize;
    for folder in 0..dirs.folders() {
        let new = dirs.count(folder, Place::New);
        let cur = dirs.count(folder, Place::Cur);
        messages = messages.saturating_add(new).saturating_add(cur);
        tmp = tmp.saturating_add(dirs.count(folder, Place::Tmp));
    }
    (messages, tmp)
}

/// All names that a world keeps that settles, if some were gathered. It keeps none where more than half of them may have left: then they are
/// better gathered anew. It looks at no name, and seldom counts those of the directories.
pub(crate) fn kept_at_settle<D: Dirs>(dirs: &D, used: Used) -> Option<UsedNames>
    ensures { IfSome result (IsAllOf used.since used.were) }
{
    let changes = used.since.len();
    let mut names = used.all()?;
    if names.spares(changes) {
        return Some(names);
    }
    let (messages, tmp) = count_all(dirs);
    let held = messages.saturating_add(tmp);
    let least = held
        .saturating_add(dirs.folders() as usize)
        .saturating_add(FEW_NAMES);
    if names.len() / 2 > least {
        return None;
    }
    Some(names.with_spare(least))
}

/// The names that directories use up: the unique names of messages, and the names in tmp. It makes no directory call, and is refused only
/// when out of memory.
pub(crate) fn names_in<D: Dirs>(alloc: Global, dirs: &D) -> Result<UsedNames, AllocError>
    ensures { IfOk result (λ used. AreOf (finmap.entries (D.device dirs.now).state.names) used) }
{
    let (messages, tmp) = count_all(dirs);
    let count = messages.saturating_add(tmp);
    let mut used = UsedNames::with_room(alloc, dirs.hash_seed(), count)?;
    for folder in 0..dirs.folders() {
        use_directory(alloc, dirs, folder, Place::Tmp, &mut used)?;
        use_directory(alloc, dirs, folder, Place::New, &mut used)?;
        use_directory(alloc, dirs, folder, Place::Cur, &mut used)?;
    }
    Ok(used)
}
