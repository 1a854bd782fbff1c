//! A quick look at all names of directories, which keeps none of them.
ghost use Rattle.std.specs.Prelude.{◌≡◌, ◌+◌, true, false, IfSome, IsTrue, None};
ghost use Rattle.md_dirs.specs.Path.{place_index};
ghost use Rattle.md_dirs.specs.Rows.{rows_of, row_named};
ghost use Rattle.md_dirs.specs.declared.paths.Place.{Place};
ghost use Rattle.md_name.specs.Names.{unique_of, is_message_name};
ghost use Rattle.md_used.specs.Loading.{load_refusal};
ghost use Rattle.md_core.specs.Looking.{entries_before};
ghost use Rattle.md_used.specs.Seen.{somewhere};
ghost use Rattle.md_core.specs.Quick.{IsQuickLook, AreBare, AreFree, AreSingle, has_fault};
ghost use Rattle.md_core.specs.Runs.{first_clock};

use md_dirs::{Dirs, Place, RowRef};
use md_name::is_message;
use md_used::{MOST_UNIQUE_BYTES, is_bad};
use std::alloc::Global;

// The only folder that has a name in new or in cur, or the first where none has. None where two have.
fn only_folder<D: Dirs>(dirs: &D) -> Option<u32>
    ensures { IfSome result (λ only. AreBare (D.device dirs.now).state (D.device dirs.now).state.folders only) }
{
    let mut only = 0u32;
    let mut is_met = false;
    for folder in 0..dirs.folders() {
        if dirs.count(folder, Place::New) > 0 || dirs.count(folder, Place::Cur) > 0 {
            if is_met {
                return None;
            }
            only = folder;
            is_met = true;
        }
    }
    Some(only)
}

// Whether no name of a directory has the unique part of a message of another.
fn is_free<D: Dirs>(dirs: &D, folder: u32, place: Place, row: &RowRef<'_>) -> bool
    ensures { IsTrue result → is_message_name row.now.name ≡ true →
        row_named (unique_of row.now.name) (rows_of (D.device dirs.now).state folder place) ≡ None }
{
    let unique = row.unique();
    !is_message(row.name(), unique) || dirs.look(folder, place, unique).is_none()
}

// Whether no name of one directory of a folder has the unique part of a message of another.
fn are_free<D: Dirs>(alloc: Global, dirs: &D, folder: u32, place: Place, other: Place) -> bool
    ensures { IsTrue result → AreFree (D.device dirs.now).state folder place other }
{
    let Ok(rows) = dirs.rows_unordered(alloc, folder, place) else {
        return false;
    };
    for row in 0..rows.len() {
        if !is_free(dirs, folder, other, &rows[row]) {
            return false;
        }
    }
    true
}

// Whether no two messages of a folder have one unique part. The names of the smaller directory are looked up in the other.
fn are_single<D: Dirs>(alloc: Global, dirs: &D, folder: u32) -> bool
    ensures { IsTrue result → AreSingle (D.device dirs.now).state folder }
{
    if !dirs.holds_each_once(folder, Place::New) || !dirs.holds_each_once(folder, Place::Cur) {
        return false;
    }
    if dirs.count(folder, Place::New) < dirs.count(folder, Place::Cur) {
        are_free(alloc, dirs, folder, Place::New, Place::Cur)
    } else {
        are_free(alloc, dirs, folder, Place::Cur, Place::New)
    }
}

// Whether a name has no fault by itself.
fn is_good(row: &RowRef<'_>) -> bool
    ensures { IsTrue result → ((place : Place) → has_fault (somewhere place row.now) ≡ false) }
{
    if is_bad(row.name()) {
        return false;
    }
    let unique = row.unique();
    unique.len() <= MOST_UNIQUE_BYTES || !is_message(row.name(), unique)
}

// The greatest stamp of a directory and one before, where no name has a fault by itself.
fn clock_in<D: Dirs>(alloc: Global, dirs: &D, folder: u32, place: Place, before: u64) -> Option<u64>
    requires { IsQuickLook (D.device dirs.now).state (entries_before (D.device dirs.now).state folder (place_index place)) before }
    ensures { IfSome result (λ clock.
        IsQuickLook (D.device dirs.now).state (entries_before (D.device dirs.now).state folder (place_index place + 1)) clock) }
{
    let Ok(rows) = dirs.rows_unordered(alloc, folder, place) else {
        return None;
    };
    let mut clock = before;
    for at in 0..rows.len() {
        let row = &rows[at];
        if !is_good(row) {
            return None;
        }
        clock = clock.max(row.stamp());
    }
    Some(clock)
}

/// The greatest stamp of all files that have a name, in seconds, where no name has a fault. It keeps no name, and makes no directory call.
///
/// Where it gives nothing, nothing is said: a name may have a fault, memory may be wanting, messages may lie in two folders, or a directory
/// may not tell that it holds each unique part once.
pub(crate) fn quick_look<D: Dirs>(alloc: Global, dirs: &D) -> Option<u64>
    ensures { IfSome result (λ clock. (load_refusal (D.device dirs.now).state ≡ None) × (clock ≡ first_clock (D.device dirs.now).state)) }
{
    let only = only_folder(dirs)?;
    if !are_single(alloc, dirs, only) {
        return None;
    }
    let mut clock = 0u64;
    for folder in 0..dirs.folders() {
        clock = clock_in(alloc, dirs, folder, Place::Tmp, clock)?;
        clock = clock_in(alloc, dirs, folder, Place::New, clock)?;
        clock = clock_in(alloc, dirs, folder, Place::Cur, clock)?;
    }
    Some(clock)
}
