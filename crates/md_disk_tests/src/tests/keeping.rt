//! What a disk is told and keeps.
use super::copied;
use super::counting::Counted;
use super::scene::Stage;
use md_dirs::Place;
use md_disk::{Cause, Disk};
use md_jobs::{CoreError, DirReply};
use std::alloc::Global;

#[derive(Clone, Copy)]
pub(super) enum Kept<'t> {
    /// A name is a hint in a directory of the first folder.
    Hint(Place, &'t str),
    /// A folder is read ahead, with this reply.
    Ahead(u32, DirReply),
    /// What was read ahead is outdated.
    Outdate,
    /// An errand goes by hints alone, or not.
    OnlyHints(bool),
    /// The last call that was not done was not for this.
    Because(Cause),
    /// Each call was done.
    NoCause,
    /// Between so many directories and so many were read since this was asked last.
    Read(u64, u64),
    /// Each directory was flushed.
    Flushed,
}

fn hint<H: Counted>(
    alloc: Global,
    disk: &mut Disk<'_, H>,
    place: Place,
    name: &str,
) -> Result<bool, CoreError> {
    let name = copied(alloc, name)?;
    disk.system.hint(0, place, name);
    Ok(true)
}

fn is_between(count: u64, least: u64, most: u64) -> bool {
    least <= count && count <= most
}

// Whether it is so.
fn is_so<H: Counted>(host: &H, disk: &Disk<'_, H>, kept: Kept<'_>) -> bool {
    match kept {
        Kept::Because(cause) => disk.system.cause() == Some(cause),
        Kept::NoCause => disk.system.cause().is_none(),
        Kept::Read(least, most) => is_between(host.take_readings(), least, most),
        _ => !disk.system.is_unflushed(),
    }
}

/// Whether it is done, or so.
pub(super) fn is_kept<'h, H: Counted>(
    stage: &Stage<'h, H>,
    disk: &mut Disk<'h, H>,
    kept: Kept<'_>,
) -> Result<bool, CoreError> {
    match kept {
        Kept::Hint(place, name) => hint(stage.alloc, disk, place, name),
        Kept::Ahead(folder, reply) => Ok(disk.system.read_ahead(stage.alloc, folder)? == reply),
        Kept::Outdate => {
            disk.system.outdate();
            Ok(true)
        }
        Kept::OnlyHints(only) => {
            disk.system.only_hints(only);
            Ok(true)
        }
        _ => Ok(is_so(stage.host, disk, kept)),
    }
}
