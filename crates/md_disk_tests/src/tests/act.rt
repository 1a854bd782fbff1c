//! What a scene does by jobs, on any system, and what it then finds in a directory.
use super::{BODY, copied, flags, name_of};
use md_dirs::{Bytes, Place};
use md_jobs::{Answer, CoreError, Purpose};
use md_system::{Logged, System, clean, deliver, run_errand};
use std::alloc::{AllocError, Global};

/// What an errand is for, by the letters of flags, a folder, and the fresh name of a copy.
#[derive(Clone, Copy)]
pub(super) enum Wish<'t> {
    Seen(&'t str),
    Flag(&'t str, &'t str),
    Move(u32),
    Copy(u32, &'t str),
    Expunge,
}

/// An answer that is wanted, that of flags by their letters.
#[derive(Clone, Copy)]
pub(super) enum Wanted<'t> {
    Delivered,
    Flags(&'t str),
    Moved,
    Copied,
    Expunged,
    Cleaned(u64),
    NotThere,
    NotTrashed,
    Lost,
    Fault,
}

#[derive(Clone, Copy)]
pub(super) enum Job<'t> {
    /// The message of a unique name is delivered into the first folder.
    Deliver(&'t str),
    /// An errand on the message of a unique name in a folder, of which so many tries are made.
    Errand(u32, &'t str, u64, Wish<'t>),
    /// A clean of the first folder.
    Clean,
}

/// A job with the answer that is wanted, or a look into a directory.
#[derive(Clone, Copy)]
pub(super) enum Act<'t> {
    Job(Job<'t>, Wanted<'t>),
    /// A directory shows the message of a unique name under this whole name, or not at all where that is empty.
    Shows(u32, Place, &'t str, &'t str),
}

fn purpose_of(alloc: Global, wish: Wish<'_>) -> Result<Purpose, AllocError> {
    Ok(match wish {
        Wish::Seen(letters) => Purpose::Seen(flags(letters)),
        Wish::Flag(add, remove) => Purpose::Flag {
            add: flags(add),
            remove: flags(remove),
        },
        Wish::Move(to) => Purpose::Move { to },
        Wish::Copy(to, fresh) => Purpose::Copy {
            to,
            fresh: copied(alloc, fresh)?,
        },
        Wish::Expunge => Purpose::Expunge,
    })
}

/// The answer that is wanted.
pub(super) fn answer_of(wanted: Wanted<'_>) -> Answer {
    match wanted {
        Wanted::Delivered => Answer::Delivered,
        Wanted::Flags(letters) => Answer::Flags(flags(letters)),
        Wanted::Moved => Answer::Moved,
        Wanted::Copied => Answer::Copied,
        Wanted::Expunged => Answer::Expunged,
        Wanted::Cleaned(count) => Answer::Cleaned(count),
        Wanted::NotThere => Answer::NotThere,
        Wanted::NotTrashed => Answer::NotTrashed,
        Wanted::Lost => Answer::Lost,
        Wanted::Fault => Answer::Fault,
    }
}

fn delivered<S: System>(
    alloc: Global,
    system: &mut Logged<S>,
    unique: &str,
) -> Result<Answer, CoreError> {
    let unique = copied(alloc, unique)?;
    let body = Bytes::copied(alloc, BODY)?;
    deliver(alloc, system, 0, unique, body, 4)
}

/// The answer of an errand on the message of a unique name.
pub(super) fn ran<S: System>(
    alloc: Global,
    system: &mut Logged<S>,
    folder: u32,
    unique: &str,
    tries: u64,
    wish: Wish<'_>,
) -> Result<Answer, CoreError> {
    let unique = copied(alloc, unique)?;
    let purpose = purpose_of(alloc, wish)?;
    run_errand(alloc, system, folder, unique, purpose, tries)
}

fn shows<S: System>(
    alloc: Global,
    system: &mut Logged<S>,
    folder: u32,
    place: Place,
    unique: &str,
    name: &str,
) -> Result<bool, CoreError> {
    let purpose = Purpose::Move { to: folder };
    match system
        .system
        .look(alloc, folder, place, name_of(unique), &purpose)
    {
        Ok((_, Some(row))) => Ok(row.name.as_slice() == name.as_bytes()),
        Ok((_, None)) => Ok(name.is_empty()),
        Err(_) => Err(CoreError::NoMemory),
    }
}

// The answer of a job.
fn answered<S: System>(
    alloc: Global,
    system: &mut Logged<S>,
    job: Job<'_>,
) -> Result<Answer, CoreError> {
    match job {
        Job::Deliver(unique) => delivered(alloc, system, unique),
        Job::Errand(folder, unique, tries, wish) => {
            ran(alloc, system, folder, unique, tries, wish)
        }
        Job::Clean => clean(alloc, system, 0),
    }
}

/// Whether a job has this answer.
pub(super) fn is_answered<S: System>(
    alloc: Global,
    system: &mut Logged<S>,
    job: Job<'_>,
    wanted: Wanted<'_>,
) -> Result<bool, CoreError> {
    Ok(answered(alloc, system, job)? == answer_of(wanted))
}

fn is_done<S: System>(
    alloc: Global,
    system: &mut Logged<S>,
    act: Act<'_>,
) -> Result<bool, CoreError> {
    match act {
        Act::Job(job, wanted) => is_answered(alloc, system, job, wanted),
        Act::Shows(folder, place, unique, name) => {
            shows(alloc, system, folder, place, unique, name)
        }
    }
}

/// Whether all acts come to what is wanted, in their order.
pub(super) fn are_done<S: System>(
    alloc: Global,
    system: &mut Logged<S>,
    acts: &[Act<'_>],
) -> Result<bool, CoreError> {
    for act in acts {
        if !is_done(alloc, system, *act)? {
            return Ok(false);
        }
    }
    Ok(true)
}
