//! What breaks the format in folders of which all names were read.
ghost use Rattle.std.specs.Prelude.{◌≡◌, ◌↔◌, IsTrue, IfOk, OnOk, Contains, Any};
ghost use Rattle.std.specs.List.Sorted.{IsSorted, IsStrictlySortedBy};
ghost use Rattle.md_dirs.specs.Path.{path_cmp};
ghost use Rattle.md_system.specs.Checks.{AreFlaws, Breaks, flaw_cmp, is_message as is_message_by, IsElsewhere, IsFlawOf, IsUnused, path_in};
ghost use Rattle.md_system.specs.Gathering.{alike_cmp, HasTwin, Tells};
ghost use Rattle.md_system.specs.declared.flaw.Flaw.{Flaw};

use crate::flaw::{Flaw, FlawKind};
use crate::name_flaw::has_flaw;
use crate::rows::is_old;
use crate::seen::{InTmp, Seen, count_everywhere, count_in_folder, is_message, sort_alike};
use md_dirs::Place;
use md_jobs::LEAST_SECONDS;
use std::alloc::{AllocError, Global};
use std::cmp::Ordering;

// How a name of new or cur can break the format.
const SEEN_KINDS: [FlawKind; 9] = [
    FlawKind::TwiceInFolder,
    FlawKind::InOtherFolders,
    FlawKind::NotAFile,
    FlawKind::DotName,
    FlawKind::InfoInNew,
    FlawKind::NoInfo,
    FlawKind::FlagsOutOfOrder,
    FlawKind::NotText,
    FlawKind::LongName,
];

/// What breaks the format in folders that have these names in new and cur, and these files in tmp, at a second of the clock of the files'
/// stamps: in order of folder, place, name and kind. It takes n log n time, and is refused only when out of memory.
pub fn flaws_of(
    alloc: Global,
    mut seen: Vec<Seen>,
    tmp: &[InTmp],
    now: u64,
) -> Result<Vec<Flaw>, AllocError>
    ensures { IfOk result (λ flaws. AreFlaws seen.items tmp.now now flaws.items) }
{
    sort_alike(&mut seen);
    let mut flaws = Vec::new(alloc);
    push_seen(alloc, seen.as_slice(), &mut flaws)?;
    push_unused(alloc, tmp, now, &mut flaws)?;
    sort_flaws(&mut flaws);
    Ok(flaws)
}

// Adds what names of new and cur break.
fn push_seen(alloc: Global, seen: &[Seen], flaws: &mut Vec<Flaw>) -> Result<(), AllocError>
    requires { IsSorted alike_cmp seen.now }
    ensures { OnOk result (Tells (λ f. Any (λ one. IsFlawOf seen.now one f) seen.now) flaws.old.items flaws.new.items) }
{
    for one in seen {
        push_flaws(alloc, seen, one, flaws)?;
    }
    Ok(())
}

// Adds what one of these names breaks.
fn push_flaws(
    alloc: Global,
    seen: &[Seen],
    one: &Seen,
    flaws: &mut Vec<Flaw>,
) -> Result<(), AllocError>
    requires order { IsSorted alike_cmp seen.now }
    requires here { Contains seen.now one.now }
    ensures { OnOk result (Tells (IsFlawOf seen.now one.now) flaws.old.items flaws.new.items) }
{
    let has_twin = has_twin(seen, one);
    for kind in SEEN_KINDS {
        if breaks(alloc, seen, one, has_twin, kind)? {
            flaws.push(Flaw {
                folder: one.folder,
                place: one.place,
                name: one.name.again(alloc)?,
                kind,
            })?;
        }
    }
    Ok(())
}

// Whether it is a message, and another of any folder has its unique name. Mostly none has, and no more is looked for.
fn has_twin(seen: &[Seen], one: &Seen) -> bool
    requires { IsSorted alike_cmp seen.now }
    ensures { IsTrue result ↔ HasTwin seen.now one.now }
{
    is_message(one) && count_everywhere(seen, one) > 1
}

// Whether one of these names breaks the format so.
fn breaks(
    alloc: Global,
    seen: &[Seen],
    one: &Seen,
    has_twin: bool,
    kind: FlawKind,
) -> Result<bool, AllocError>
    requires order { IsSorted alike_cmp seen.now }
    requires here { Contains seen.now one.now }
    requires twin { IsTrue has_twin ↔ HasTwin seen.now one.now }
    ensures { IfOk result (λ is. IsTrue is ↔ Breaks seen.now one.now kind) }
{
    match kind {
        FlawKind::TwiceInFolder => Ok(has_twin && count_in_folder(seen, one) > 1),
        FlawKind::InOtherFolders => Ok(has_twin && is_elsewhere(seen, one)),
        FlawKind::NotAFile => Ok(!one.is_file),
        FlawKind::Unused => Ok(false),
        _ => Ok(one.is_file && has_flaw(alloc, one.place, one.name.as_slice(), kind)?),
    }
}

// Whether a message of another folder has the unique name of a message.
fn is_elsewhere(seen: &[Seen], one: &Seen) -> bool
    requires order { IsSorted alike_cmp seen.now }
    requires message { IsTrue (is_message_by one.now) }
    ensures { IsTrue result ↔ Any (IsElsewhere one.now) seen.now }
{
    count_in_folder(seen, one) < count_everywhere(seen, one)
}

// Adds the files of tmp that were not used for 36 hours.
fn push_unused(
    alloc: Global,
    tmp: &[InTmp],
    now: u64,
    flaws: &mut Vec<Flaw>,
) -> Result<(), AllocError>
    ensures { OnOk result (Tells (λ f. Any (λ file. IsUnused now file f) tmp.now) flaws.old.items flaws.new.items) }
{
    for file in tmp {
        if is_old(&file.row, now, LEAST_SECONDS) {
            flaws.push(Flaw {
                folder: file.folder,
                place: Place::Tmp,
                name: file.row.name.again(alloc)?,
                kind: FlawKind::Unused,
            })?;
        }
    }
    Ok(())
}

// Sorts flaws by folder, place, name and kind, and leaves each there once.
fn sort_flaws(flaws: &mut Vec<Flaw>)
    ensures each { (f : Flaw) → Contains flaws.new.items f ↔ Contains flaws.old.items f }
    ensures order { IsStrictlySortedBy flaw_cmp flaws.new.items }
{
    flaws.sort_unstable_by(|first, second| compare_flaws(first, second));
    flaws.dedup_by(|first, second| compare_flaws(first, second).is_eq());
}

// Compares flaws by folder, place, name and kind.
fn compare_flaws(first: &Flaw, second: &Flaw) -> Ordering
    ensures { result ≡ flaw_cmp first.now second.now }
{
    match compare_paths(first, second) {
        Ordering::Equal => (first.kind as u8).cmp(&(second.kind as u8)),
        other => other,
    }
}

// Compares flaws by folder, place and name.
fn compare_paths(first: &Flaw, second: &Flaw) -> Ordering
    ensures { result ≡ path_cmp (path_in first.now) (path_in second.now) }
{
    match first.folder.cmp(&second.folder) {
        Ordering::Equal => match first.place.cmp(&second.place) {
            Ordering::Equal => first.name.as_slice().cmp(second.name.as_slice()),
            other => other,
        },
        other => other,
    }
}
