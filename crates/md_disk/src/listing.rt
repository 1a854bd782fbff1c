//! Listings of a folder.
use crate::disk::Disk;
use crate::error::CallError;
use md_dirs::Place;
use md_jobs::{CoreError, DirReply};
use md_system::{Listed, joined};
use std::alloc::Global;
use std::fs::Files;
use std::time::Clock;

/// The messages of a folder in order of the bytes of their unique names, as `joined` lists them. New is read, and then cur; a message that
/// both show is where cur shows it. Each is a reading in which its directory rested. The reply is that of the reading that was not done, and
/// `Fault` where a directory never rests. Refused only when out of memory.
pub fn list_folder<R: Files + Clock>(
    alloc: Global,
    disk: &Disk<'_, R>,
    folder: u32,
) -> Result<(DirReply, Vec<Listed>), CoreError> {
    Ok(
        disk.system
            .reply_list(alloc, listed_now(alloc, disk, folder))?,
    )
}

fn listed_now<R: Files + Clock>(
    alloc: Global,
    disk: &Disk<'_, R>,
    folder: u32,
) -> Result<Vec<Listed>, CallError> {
    let news = disk.system.rested_names(alloc, folder, Place::New)?;
    let curs = disk.system.rested_names(alloc, folder, Place::Cur)?;
    Ok(joined(alloc, news, curs)?)
}
