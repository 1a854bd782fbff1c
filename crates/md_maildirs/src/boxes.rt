//! The maildirs of a command.
ghost use Rattle.std.specs.Prelude.{◌≡◌, true, Ok, Some, IfErr, OnOk, MatchOption};
ghost use Rattle.md_maildirs.specs.Causes.{trouble_of_box};

use md_command::{Failure, Host, Session, Status, Trouble};
use md_disk::{Calls, Disk, Folders, has_cur, is_maildir, make_maildir};
use std::alloc::Global;
use std::io;

/// The maildirs of these paths, each of which must be there, with tmp, new and cur. A directory is flushed after a copy into it. When
/// renames and removals reach the disk is left to the system.
pub(crate) fn maildirs<'r, R: Host>(
    session: &Session<'r, R>,
    paths: &[&str],
) -> Result<Disk<'r, R>, Failure> {
    let mut folders = Vec::new(session.alloc);
    for path in paths {
        must_be_maildir(session, path)?;
        folders.push(String::from_str(session.alloc, path)?)?;
    }
    Ok(Disk::over(Calls::new(session.host, Folders::new(folders), true)))
}

/// The maildir of a path, to which messages are delivered. Its cur must be there. tmp and new, where each delivery makes a name, are left
/// to `must_be_maildir` after one that failed.
pub(crate) fn target<'r, R: Host>(
    session: &Session<'r, R>,
    path: &str,
    flushes: bool,
) -> Result<Disk<'r, R>, Failure> {
    must_be(session, path, has_cur(session.alloc, session.host, path))?;
    let mut folders = Vec::new(session.alloc);
    folders.push(String::from_str(session.alloc, path)?)?;
    Ok(Disk::over(Calls::new(session.host, Folders::new(folders), flushes)))
}

/// Whether a maildir is there, with tmp, new and cur.
pub(crate) fn must_be_maildir<R: Host>(
    session: &Session<'_, R>,
    path: &str,
) -> Result<(), Failure> {
    must_be(session, path, is_maildir(session.alloc, session.host, path))
}

// A path must be a maildir's, as far as the system told.
fn must_be<R: Host>(
    session: &Session<'_, R>,
    path: &str,
    told: io::Result<bool>,
) -> Result<(), Failure>
    ensures there { OnOk result (told ≡ Ok true) }
    ensures refused { IfErr result (λ failure. Some failure.trouble ≡ trouble_of_box told) }
{
    match refusal(session.alloc, told) {
        None => Ok(()),
        Some(failure) => Err(failure.at(session.alloc, path)),
    }
}

// Why a path is no maildir's, as far as the system told.
fn refusal(alloc: Global, told: io::Result<bool>) -> Option<Failure>
    ensures { MatchOption result (told ≡ Ok true) (λ failure. Some failure.trouble ≡ trouble_of_box told) }
{
    match told {
        Ok(true) => None,
        Ok(false) => Some(Failure::from(Trouble::NoMaildir)),
        Err(error) => Some(Failure::of(alloc, Trouble::NoMaildir, &error)),
    }
}

/// Makes a maildir: its folder, and tmp, new and cur in it. What is there already stays as it is. Refused as `CannotMake`, `NoRights` or
/// `NoMemory`.
pub fn make<R: Host>(session: &Session<'_, R>, path: &str) -> Result<Status, Failure> {
    match make_maildir(session.alloc, session.host, path) {
        Ok(()) => Ok(Status::Done),
        Err(error) => Err(Failure::of(session.alloc, Trouble::CannotMake, &error)),
    }
}
