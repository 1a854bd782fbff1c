//! Messages that are read.
use super::act::Job::Deliver;
use super::act::Wanted::Delivered;
use super::beside::Beside::{Make, Put};
use super::keeping::Kept::{Because, Hint};
use super::scene::play;
use super::step::Look::{Shown, Unread};
use super::step::Step;
use super::step::Step::{Beside, Job, Keep, Look};
use super::{BODY, name_of};
use md_dirs::Place::Cur;
use md_disk::{Cause, Disk};
use md_jobs::{CoreError, DirReply};
use std::alloc::Global;
use std::fs::Files;
use std::io::Read;
use std::time::Clock;

// A message of new, one of cur by a hint that is out of date, none, and a directory in the place of one.
static MESSAGES: [Step<'static>; 10] = [
    Job(Deliver("u"), Delivered),
    Beside(Put("inbox/cur/v:2,S")),
    Keep(Hint(Cur, "v:2,F")),
    Look(Shown("u")),
    Look(Shown("v")),
    Look(Unread("w", DirReply::NotFound)),
    Keep(Because(Cause::NoMessage)),
    Beside(Make("inbox/cur/w:2,")),
    Look(Unread("w", DirReply::Fault)),
    Keep(Because(Cause::NotAFile)),
];

fn has_body<F: Read + Drop>(mut file: F) -> bool {
    let mut room = [0u8; 64];
    match file.read(&mut room) {
        Ok(count) => room.get(..count) == Some(BODY),
        Err(_) => false,
    }
}

/// Whether a message is read whole.
pub(super) fn is_read<R: Files + Clock>(
    alloc: Global,
    disk: &mut Disk<'_, R>,
    unique: &str,
) -> Result<bool, CoreError> {
    match disk.system.open_message(alloc, 0, name_of(unique), 2)? {
        (reply, Some(file)) => Ok(reply == DirReply::Ok && has_body(file)),
        (_, None) => Ok(false),
    }
}

/// Whether a message is not opened, with this reply.
pub(super) fn is_unread<R: Files + Clock>(
    alloc: Global,
    disk: &mut Disk<'_, R>,
    unique: &str,
    wanted: DirReply,
) -> Result<bool, CoreError> {
    let (reply, _) = disk.system.open_message(alloc, 0, name_of(unique), 2)?;
    Ok(reply == wanted)
}

#[test]
fn messages_are_read(rt: HostRuntime) {
    play(&rt, rt.alloc(), false, &MESSAGES);
}
