//! What a check finds in two maildirs.
use super::beside::Beside::{Make, Put};
use super::scene::play;
use super::step::Look::{Flaws, NoFlaws};
use super::step::Step;
use super::step::Step::{Beside, Look};
use md_dirs::Place;
use md_dirs::Place::{Cur, New};
use md_disk::{Disk, check_folders};
use md_jobs::{CoreError, DirReply};
use md_system::{Flaw, FlawKind};
use std::alloc::Global;
use std::fs::Files;
use std::time::Clock;

/// A flaw by its folder, place, name and kind.
pub(super) type Found<'t> = (u32, Place, &'t str, FlawKind);

/// What is found.
pub(super) static FOUND: [Found<'static>; 9] = [
    (0, New, "f", FlawKind::InOtherFolders),
    (0, New, "g:2,S", FlawKind::InfoInNew),
    (0, New, "h", FlawKind::TwiceInFolder),
    (0, Cur, ".d", FlawKind::DotName),
    (0, Cur, "b", FlawKind::NoInfo),
    (0, Cur, "c:2,SF", FlawKind::FlagsOutOfOrder),
    (0, Cur, "h:2,", FlawKind::TwiceInFolder),
    (0, Cur, "j:2,", FlawKind::NotAFile),
    (1, Cur, "f:2,", FlawKind::InOtherFolders),
];

// Nothing, and then what is put into the maildirs, besides a directory.
static FLAWS: [Step<'static>; 14] = [
    Look(NoFlaws),
    Beside(Put("inbox/cur/a:2,FS")),
    Beside(Put("inbox/cur/b")),
    Beside(Put("inbox/cur/c:2,SF")),
    Beside(Put("inbox/cur/e:1,x")),
    Beside(Put("inbox/cur/.d")),
    Beside(Put("inbox/new/f")),
    Beside(Put("inbox/new/g:2,S")),
    Beside(Put("inbox/new/h")),
    Beside(Put("inbox/cur/h:2,")),
    Beside(Put("inbox/tmp/i")),
    Beside(Put("other/cur/f:2,")),
    Beside(Make("inbox/cur/j:2,")),
    Look(Flaws),
];

fn is_found(flaw: &Flaw, found: &Found<'_>) -> bool {
    flaw.folder == found.0
        && flaw.place == found.1
        && flaw.name.as_slice() == found.2.as_bytes()
        && flaw.kind == found.3
}

/// Whether a check finds this, in this order, and nothing else.
pub(super) fn are_found<R: Files + Clock>(
    alloc: Global,
    disk: &Disk<'_, R>,
    wanted: &[Found<'_>],
) -> Result<bool, CoreError> {
    let (reply, flaws) = check_folders(alloc, disk)?;
    Ok(
        reply == DirReply::Ok
            && flaws.len() == wanted.len()
            && flaws
                .iter()
                .zip(wanted.iter())
                .all(|(flaw, found)| is_found(flaw, found)),
    )
}

#[test]
fn a_check_finds_flaws(rt: HostRuntime) {
    play(&rt, rt.alloc(), false, &FLAWS);
}
