//! Readings of a directory.
//!
//! A reading is no one moment: a name that another process changes meanwhile may be shown twice, or not at all. So a name that an errand
//! acts on is used at once, since one that is gone by then is looked for again. All else is believed only of a reading in which the
//! directory rested: that a message is not there, that it has two names, that its name is as it should be, and what stands in a listing.
use crate::cause::Cause;
use crate::error::CallError;
use crate::names::{Names, is_entry};
use crate::paths::within;
use md_dirs::{Bytes, is_named};
use md_jobs::Purpose;
use md_system::{Found, acts_on};
use std::alloc::Global;
use std::fs::Files;
use std::io;
use std::io::ErrorKind;
use std::os::unix::fs::MetadataExt;
use std::thread::sleep;
use std::time::{Clock, Duration};

// How often a directory is read that does not rest.
const READINGS: u32 = 100;

// A change may bear the time of the system's last tick, so a directory that was changed less than so many nanoseconds ago may be changed
// again without a new time.
const GRAIN: i64 = 10_000_000;

// How long is waited for a directory to rest, in milliseconds.
const PAUSE: u64 = 5;

/// Looks for the name of a message in a directory, for an errand. Refused where two of its names rest there, and where the directory never
/// rests and shows no name that the errand acts on.
pub(crate) fn find_name<R: Files + Clock>(
    alloc: Global,
    files: &R,
    path: &str,
    unique: &[u8],
    purpose: &Purpose,
) -> Result<Option<Bytes>, CallError> {
    for _ in 0..READINGS {
        let before = rested_since(files, path);
        match find_once(alloc, files, path, unique)? {
            Found::One(name) if acts_on(purpose, name.as_slice()) => return Ok(Some(name)),
            found if has_rested(files, path, before) => return rested_name(found),
            _ => sleep(files, Duration::from_millis(PAUSE)),
        }
    }
    Err(CallError::Refused(Cause::NeverRests))
}

/// What is found where this rests.
pub(crate) fn rested_name(found: Found<Bytes>) -> Result<Option<Bytes>, CallError> {
    match found {
        Found::None => Ok(None),
        Found::One(name) => Ok(Some(name)),
        Found::Many => Err(CallError::Refused(Cause::TwoNames)),
    }
}

/// All names of a directory but `.` and `..`, in no order, of a reading in which it rested. Refused where it never does.
pub(crate) fn all_names<R: Files + Clock>(
    alloc: Global,
    files: &R,
    path: &str,
) -> Result<Vec<Bytes>, CallError> {
    let (names, has_rested) = last_names(alloc, files, path)?;
    if has_rested {
        Ok(names)
    } else {
        Err(CallError::Refused(Cause::NeverRests))
    }
}

/// The same of a reading in which it rested, or of the last one, and whether it rested.
pub(crate) fn last_names<R: Files + Clock>(
    alloc: Global,
    files: &R,
    path: &str,
) -> Result<(Vec<Bytes>, bool), CallError> {
    for _ in 1..READINGS {
        let reading = names_now(alloc, files, path)?;
        if reading.1 {
            return Ok(reading);
        }
        sleep(files, Duration::from_millis(PAUSE));
    }
    names_now(alloc, files, path)
}

// The same of one reading.
fn names_now<R: Files + Clock>(
    alloc: Global,
    files: &R,
    path: &str,
) -> Result<(Vec<Bytes>, bool), CallError> {
    let before = rested_since(files, path);
    let names = names_once(alloc, files, path)?;
    Ok((names, has_rested(files, path, before)))
}

/// All names of a directory but `.` and `..`, in no order, of one reading.
pub(crate) fn names_once<R: Files>(
    alloc: Global,
    files: &R,
    path: &str,
) -> Result<Vec<Bytes>, CallError> {
    let mut all = Vec::new(alloc);
    let mut names = open_names(alloc, files, path)?;
    for _ in 0..u64::MAX {
        if !names.advance()? {
            break;
        }
        if is_entry(names.name()) {
            all.push(Bytes::copied(alloc, names.name())?)?;
        }
    }
    Ok(all)
}

// The names of a message that one reading shows.
fn find_once<R: Files>(
    alloc: Global,
    files: &R,
    path: &str,
    unique: &[u8],
) -> Result<Found<Bytes>, CallError> {
    let mut found = Found::None;
    let mut names = open_names(alloc, files, path)?;
    for _ in 0..u64::MAX {
        if !names.advance()? {
            break;
        }
        if is_named(names.name(), unique) {
            if matches!(found, Found::One(_)) {
                return Ok(Found::Many);
            }
            found = Found::One(Bytes::copied(alloc, names.name())?);
        }
    }
    Ok(found)
}

// Opens a directory to be read.
fn open_names<R: Files>(alloc: Global, files: &R, path: &str) -> Result<Names<R::Dir>, CallError> {
    // Behind a slash the system follows a symlink to a directory.
    let whole = within(alloc, path, "")?;
    let dir = files.open_dir(whole.as_str()).map_err(no_directory)?;
    Ok(Names::new(alloc, dir)?)
}

/// What it says that a path in a directory can't be opened: where something is not there, that is the directory.
pub(crate) fn no_directory(error: io::Error) -> Cause {
    match error.kind() {
        ErrorKind::NotFound => Cause::NoDirectory,
        kind => Cause::System(kind),
    }
}

// When a directory was changed last, in seconds and nanoseconds since 1970, if that is longer ago than the grain of its times. None where
// it is not, and where that can't be told.
fn rested_since<R: Files + Clock>(files: &R, path: &str) -> Option<(i64, i64)> {
    let changed = changed_at(files, path)?;
    let now = files.since_1970().ok()?;
    let second = i64::try_from(now.as_secs()).ok()?;
    let since = second.checked_sub(changed.0)?;
    let nanos = since
        .checked_mul(1_000_000_000)?
        .checked_add(i64::from(now.subsec_nanos()))?
        .checked_sub(changed.1)?;
    if nanos > GRAIN { Some(changed) } else { None }
}

// Whether a directory that had rested before a reading was not changed until now.
fn has_rested<R: Files>(files: &R, path: &str, before: Option<(i64, i64)>) -> bool {
    match before {
        None => false,
        Some(before) => changed_at(files, path) == Some(before),
    }
}

// The time of change and not that of modification, which anybody may set, to the future too.
fn changed_at<R: Files>(files: &R, path: &str) -> Option<(i64, i64)> {
    match files.metadata(path) {
        Ok(about) => Some((about.ctime(), about.ctime_nsec())),
        Err(_) => None,
    }
}
