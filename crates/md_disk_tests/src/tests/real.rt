//! Two maildirs on a disk.
use super::BODY;
use super::keeping::Kept::{Because, Flushed};
use super::scene::play;
use super::step::Look::{Listed, NoFolder};
use super::step::Step;
use super::step::Step::{AllJobs, Keep, Look};
use md_dirs::Bytes;
use md_dirs::Place::{Cur, New};
use md_disk::{Cause, Disk, Namer, list_folder};
use md_jobs::{Answer, CoreError, DirReply, Purpose};
use md_system::{System, deliver};
use std::alloc::Global;
use std::fs::Files;
use std::time::Clock;

static REAL: [Step<'static>; 5] = [
    AllJobs,
    Look(Listed),
    Look(NoFolder(7)),
    Keep(Because(Cause::NoSuchFolder)),
    Keep(Flushed),
];

fn fresh_name<R: Clock>(alloc: Global, clock: &R) -> Result<Bytes, CoreError> {
    let host = Vec::from_slice(alloc, b"host")?;
    match Namer::new(1, host).name(alloc, clock) {
        Ok(name) => Ok(name),
        Err(_) => Err(CoreError::NoMemory),
    }
}

// What a delivery of a name into the second folder is answered.
fn delivered<R: Files + Clock>(
    alloc: Global,
    disk: &mut Disk<'_, R>,
    name: &Bytes,
) -> Result<Answer, CoreError> {
    let unique = name.again(alloc)?;
    deliver(alloc, disk, 1, unique, Bytes::copied(alloc, BODY)?, 4)
}

// The second folder has this message in new, and no other.
fn is_alone<R: Files + Clock>(
    alloc: Global,
    disk: &Disk<'_, R>,
    name: &Bytes,
) -> Result<bool, CoreError> {
    let (reply, listed) = list_folder(alloc, disk, 1)?;
    Ok(
        reply == DirReply::Ok
            && listed.len() == 1
            && listed.iter().all(|entry| entry.place == New
                && entry.name.as_slice() == name.as_slice()),
    )
}

/// A message that is delivered under a name of the namer is listed whole, and once.
pub(super) fn is_listed<R: Files + Clock>(
    alloc: Global,
    clock: &R,
    disk: &mut Disk<'_, R>,
) -> Result<bool, CoreError> {
    let name = fresh_name(alloc, clock)?;
    let first = delivered(alloc, disk, &name)?;
    let second = delivered(alloc, disk, &name)?;
    Ok(first == Answer::Delivered && second == Answer::NameTaken && is_alone(alloc, disk, &name)?)
}

/// A folder that is not there is neither listed nor looked into.
pub(super) fn is_no_folder<R: Files + Clock>(
    alloc: Global,
    disk: &mut Disk<'_, R>,
    folder: u32,
) -> Result<bool, CoreError> {
    let (none, _) = list_folder(alloc, disk, folder)?;
    let (found, row) = disk
        .system
        .look(alloc, folder, Cur, b"u", &Purpose::Expunge)?;
    Ok(none == DirReply::Fault && found == DirReply::Fault && row.is_none())
}

#[test]
fn all_jobs_on_a_disk(rt: HostRuntime) {
    play(&rt, rt.alloc(), false, &REAL);
}
