//! A look at all names of directories, before a world begins with them.
ghost use Rattle.std.specs.Prelude.{◌≡◌, [], ◌+◌, None, IfOk, IfErr, OnOk, MatchResult};
ghost use Rattle.std.specs.List.{list_any};
ghost use Rattle.std.specs.FinMap as finmap;
ghost use Rattle.md_dirs.specs.Path.{place_index};
ghost use Rattle.md_used.specs.Loading.{load_refusal};
ghost use Rattle.md_core.specs.Looking.{IsLookOf, entries_before};
ghost use Rattle.md_core.specs.Runs.{first_clock};
ghost use Rattle.md_core.specs.Submitting.{uses};
ghost use Rattle.md_used.specs.Seen.{IsFault};
ghost use Rattle.md_used.specs.Used.{is_among};

pub(crate) mod names;
pub(crate) mod quick;

use crate::world::looking::names::count_all;
use md_dirs::{Dirs, Place};
use md_jobs::CoreError;
use md_used::{Seen, UsedNames};
use std::alloc::{AllocError, Global};

/// What a look at all names of directories gives: the names that are used up, and the greatest stamp in seconds.
#[derive(Drop)]
pub(crate) struct Looked {
    pub(crate) used: UsedNames,
    pub(crate) clock: u64,
}

// Nothing was seen, and there is room for all names of directories.
fn nothing_seen<D: Dirs>(alloc: Global, dirs: &D) -> Result<Seen, AllocError>
    ensures { IfOk result (λ seen. (seen.messages ≡ []) × (seen.tmp ≡ []) × (seen.clock ≡ 0)) }
{
    let (messages, tmp) = count_all(dirs);
    Seen::with_room(alloc, dirs.hash_seed(), messages, tmp)
}

// Looks at all names of a directory, some at a time, as it lends them: so one whose order isn't made is sorted once.
fn look_in<D: Dirs>(
    alloc: Global,
    dirs: &D,
    folder: u32,
    place: Place,
    seen: &mut Seen,
) -> Result<(), CoreError>
    requires { IsLookOf (D.device dirs.now).state (entries_before (D.device dirs.now).state folder (place_index place)) seen.old }
    ensures ok { OnOk result (IsLookOf (D.device dirs.now).state (entries_before (D.device dirs.now).state folder (place_index place + 1)) seen.new) }
    ensures refused { IfErr result (IsFault (load_refusal (D.device dirs.now).state)) }
{
    let mut at = 0usize;
    loop {
        let rows = dirs.rows_from(alloc, folder, place, at)?;
        if rows.is_empty() {
            return Ok(());
        }
        for row in 0..rows.len() {
            seen.add(place, &rows[row])?;
        }
        // No memory holds more names than can be counted.
        at = at.checked_add(rows.len()).ok_or(CoreError::NoMemory)?;
    }
}

// Looks at all names of directories, by folder, then tmp, new and cur, then by the order of names: the first fault is the refusal, unless
// memory runs out.
fn look_in_order<D: Dirs>(alloc: Global, dirs: &D) -> Result<Seen, CoreError>
    ensures { MatchResult result
        (IsLookOf (D.device dirs.now).state (finmap.entries (D.device dirs.now).state.names))
        (IsFault (load_refusal (D.device dirs.now).state)) }
{
    let mut seen = nothing_seen(alloc, dirs)?;
    for folder in 0..dirs.folders() {
        look_in(alloc, dirs, folder, Place::Tmp, &mut seen)?;
        look_in(alloc, dirs, folder, Place::New, &mut seen)?;
        look_in(alloc, dirs, folder, Place::Cur, &mut seen)?;
    }
    Ok(seen)
}

// Looks at all names of a directory.
fn look_through<D: Dirs>(
    alloc: Global,
    dirs: &D,
    folder: u32,
    place: Place,
    seen: &mut Seen,
) -> Result<(), CoreError>
    requires { IsLookOf (D.device dirs.now).state (entries_before (D.device dirs.now).state folder (place_index place)) seen.old }
    ensures { OnOk result (IsLookOf (D.device dirs.now).state (entries_before (D.device dirs.now).state folder (place_index place + 1)) seen.new) }
{
    let rows = dirs.rows_unordered(alloc, folder, place)?;
    for row in 0..rows.len() {
        seen.add(place, &rows[row])?;
    }
    Ok(())
}

// Looks at all names of directories as they lie, which costs less than in order. It is refused where a name has a fault, by the fault that
// was met, and when out of memory.
fn look_unordered<D: Dirs>(alloc: Global, dirs: &D) -> Result<Seen, CoreError>
    ensures { IfOk result (IsLookOf (D.device dirs.now).state (finmap.entries (D.device dirs.now).state.names)) }
{
    let mut seen = nothing_seen(alloc, dirs)?;
    for folder in 0..dirs.folders() {
        look_through(alloc, dirs, folder, Place::Tmp, &mut seen)?;
        look_through(alloc, dirs, folder, Place::New, &mut seen)?;
        look_through(alloc, dirs, folder, Place::Cur, &mut seen)?;
    }
    Ok(seen)
}

// Looks at all names of directories, as they lie. Only where one has a fault are they looked at again, in order, to find the first.
fn look_at_all<D: Dirs>(alloc: Global, dirs: &D) -> Result<Seen, CoreError>
    ensures { MatchResult result
        (IsLookOf (D.device dirs.now).state (finmap.entries (D.device dirs.now).state.names))
        (IsFault (load_refusal (D.device dirs.now).state)) }
{
    match look_unordered(alloc, dirs) {
        Ok(seen) => Ok(seen),
        Err(CoreError::NoMemory) => Err(CoreError::NoMemory),
        Err(_) => look_in_order(alloc, dirs),
    }
}

/// Looks at all names of directories. It makes no directory call.
///
/// The first fault, by folder, then tmp, new and cur, then by the order of names, is the refusal; else it is refused only when out of memory.
/// Where no name has a fault, none is looked for by its order.
pub(crate) fn look<D: Dirs>(alloc: Global, dirs: &D) -> Result<Looked, CoreError>
    ensures accepted { IfOk result (λ l. load_refusal (D.device dirs.now).state ≡ None) }
    ensures clock { IfOk result (λ l. l.clock ≡ first_clock (D.device dirs.now).state) }
    ensures used { IfOk result (λ l. (u : _) → is_among u l.used ≡ list_any (λ e. uses u e.0) (finmap.entries (D.device dirs.now).state.names)) }
    ensures refused { IfErr result (IsFault (load_refusal (D.device dirs.now).state)) }
{
    let seen = look_at_all(alloc, dirs)?;
    Ok(Looked {
        used: UsedNames::of(seen.messages, seen.tmp),
        clock: seen.clock,
    })
}
