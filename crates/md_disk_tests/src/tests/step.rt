//! The steps of a scene on a disk.
use super::act::{Job, Wanted, are_done, is_answered};
use super::beside::{Beside, is_so};
use super::checks::{FOUND, are_found};
use super::counting::Counted;
use super::jobs::JOBS;
use super::keeping::{Kept, is_kept};
use super::messages::{is_read, is_unread};
use super::readings::{are_flagged, are_many};
use super::real::{is_listed, is_no_folder};
use super::scene::Stage;
use md_disk::Disk;
use md_jobs::{CoreError, DirReply};

#[derive(Clone, Copy)]
pub(super) enum Step<'t> {
    /// A job with the answer that is wanted.
    Job(Job<'t>, Wanted<'t>),
    /// A message goes through all jobs.
    AllJobs,
    Beside(Beside<'t>),
    Keep(Kept<'t>),
    Look(Look<'t>),
}

/// What the library shows beside jobs.
#[derive(Clone, Copy)]
pub(super) enum Look<'t> {
    /// The message of a unique name is read whole.
    Shown(&'t str),
    /// It is not opened, with this reply.
    Unread(&'t str, DirReply),
    /// A check of both maildirs finds nothing, or what was put there for it.
    NoFlaws,
    Flaws,
    /// A message that is delivered under a name of the namer is listed.
    Listed,
    /// A folder is not there.
    NoFolder(u32),
    /// Many messages are put into cur, and then each is flagged.
    Many,
    ManyFlagged,
}

fn is_seen<'h, H: Counted>(
    stage: &Stage<'h, H>,
    disk: &mut Disk<'h, H>,
    look: Look<'_>,
) -> Result<bool, CoreError> {
    match look {
        Look::Shown(unique) => is_read(stage.alloc, disk, unique),
        Look::Unread(unique, reply) => is_unread(stage.alloc, disk, unique, reply),
        Look::NoFlaws => are_found(stage.alloc, disk, &[]),
        Look::Flaws => are_found(stage.alloc, disk, &FOUND),
        Look::Listed => is_listed(stage.alloc, stage.host, disk),
        Look::NoFolder(folder) => is_no_folder(stage.alloc, disk, folder),
        Look::Many => are_many(stage),
        Look::ManyFlagged => are_flagged(stage, disk),
    }
}

fn is_taken<'h, H: Counted>(
    stage: &Stage<'h, H>,
    disk: &mut Disk<'h, H>,
    step: Step<'_>,
) -> Result<bool, CoreError> {
    match step {
        Step::Job(job, wanted) => is_answered(stage.alloc, disk, job, wanted),
        Step::AllJobs => are_done(stage.alloc, disk, &JOBS),
        Step::Beside(beside) => is_so(stage, beside),
        Step::Keep(kept) => is_kept(stage, disk, kept),
        Step::Look(look) => is_seen(stage, disk, look),
    }
}

/// Whether all steps come to what is wanted, in their order.
pub(super) fn are_taken<'h, H: Counted>(
    stage: &Stage<'h, H>,
    disk: &mut Disk<'h, H>,
    steps: &[Step<'_>],
) -> Result<bool, CoreError> {
    for step in steps {
        if !is_taken(stage, disk, *step)? {
            return Ok(false);
        }
    }
    Ok(true)
}
