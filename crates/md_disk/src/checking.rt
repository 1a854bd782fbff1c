//! What of folders breaks the maildir format.
//!
//! Each directory is read once it rests, and each name is looked at after all were read: one that is gone by then is left out. So a message
//! that goes from new to cur or to another folder meanwhile isn't found to be in both.
use crate::cause::Cause;
use crate::disk::Disk;
use crate::error::CallError;
use md_dirs::{Bytes, Place};
use md_jobs::{CoreError, DirReply, PathRef};
use md_system::{Flaw, InTmp, Seen, System, flaws_of};
use std::alloc::Global;
use std::fs::Files;
use std::io::ErrorKind;
use std::time::Clock;

/// A name that a reading of new or cur showed.
#[derive(Drop)]
struct Shown {
    folder: u32,
    place: Place,
    name: Bytes,
}

/// What breaks the format in all folders, in order of folder, place, name and kind, as `flaws_of` tells it. Nothing is changed. It takes a
/// call of the system for each name, and n log n time. The reply is that of the call that was not done, and `Fault` where a directory never
/// rests. Refused only when out of memory.
pub fn check_folders<R: Files + Clock>(
    alloc: Global,
    disk: &Disk<'_, R>,
) -> Result<(DirReply, Vec<Flaw>), CoreError> {
    Ok(disk.system.reply_list(alloc, all_flaws(alloc, disk))?)
}

fn all_flaws<R: Files + Clock>(alloc: Global, disk: &Disk<'_, R>) -> Result<Vec<Flaw>, CallError> {
    let seen = all_seen(alloc, disk)?;
    let now = disk.system.second();
    let tmp = all_in_tmp(alloc, disk)?;
    Ok(flaws_of(alloc, seen, tmp.as_slice(), now)?)
}

// The names of new and cur of all folders that are there after all were read.
fn all_seen<R: Files + Clock>(alloc: Global, disk: &Disk<'_, R>) -> Result<Vec<Seen>, CallError> {
    let mut seen = Vec::new(alloc);
    for shown in all_shown(alloc, disk)? {
        if let Some(is_file) = look_at(alloc, disk, &shown)? {
            seen.push(Seen {
                folder: shown.folder,
                place: shown.place,
                name: shown.name,
                is_file,
            })?;
        }
    }
    Ok(seen)
}

// The names of new and cur of all folders.
fn all_shown<R: Files + Clock>(alloc: Global, disk: &Disk<'_, R>) -> Result<Vec<Shown>, CallError> {
    let mut all = Vec::new(alloc);
    for folder in 0..disk.system.folders.count() {
        for place in [Place::New, Place::Cur] {
            for name in disk.system.rested_names(alloc, folder, place)? {
                all.push(Shown {
                    folder,
                    place,
                    name,
                })?;
            }
        }
    }
    Ok(all)
}

// Whether a name is a regular file now, as far as is known: one that is not UTF-8 is not looked at. None where it was taken away since it was
// read.
fn look_at<R: Files + Clock>(
    alloc: Global,
    disk: &Disk<'_, R>,
    shown: &Shown,
) -> Result<Option<bool>, CallError> {
    let path = PathRef::new(shown.folder, shown.place, shown.name.as_slice());
    match disk.system.metadata(alloc, &path) {
        Ok(about) => Ok(Some(about.is_file())),
        Err(CallError::Refused(Cause::System(ErrorKind::NotFound))) => Ok(None),
        Err(CallError::Refused(Cause::NotText)) => Ok(Some(true)),
        Err(error) => Err(error),
    }
}

// The files of tmp of all folders.
fn all_in_tmp<R: Files + Clock>(
    alloc: Global,
    disk: &Disk<'_, R>,
) -> Result<Vec<InTmp>, CallError> {
    let mut all = Vec::new(alloc);
    for folder in 0..disk.system.folders.count() {
        for row in disk.system.files_of_tmp(alloc, folder)? {
            all.push(InTmp { folder, row })?;
        }
    }
    Ok(all)
}
