//! What is done beside the library in the folder of the maildirs, or found there.
use super::BODY;
use super::counting::Counted;
use super::scene::{Stage, within};
use md_disk::{is_maildir, make_maildir};
use md_jobs::CoreError;
use std::fs::{Files, OpenOptions};
use std::io::Write;

/// By the path in that folder.
#[derive(Clone, Copy)]
pub(super) enum Beside<'t> {
    /// A file is made.
    Put(&'t str),
    /// A directory is made.
    Make(&'t str),
    /// A directory is taken away.
    Remove(&'t str),
    /// The path is there.
    Has(&'t str),
    /// It is not there.
    Lacks(&'t str),
    /// It is a maildir.
    Maildir(&'t str),
    /// It is none, and is not made one.
    Refused(&'t str),
}

fn is_put<R: Files>(files: &R, path: &str) -> bool {
    let mut how = OpenOptions::new();
    how.write(true).create_new(true);
    match files.open_file(&how, path) {
        Ok(mut file) => file.write_all(BODY).is_ok(),
        Err(_) => false,
    }
}

/// Makes a file at a path in the folder.
pub(super) fn put<H: Counted>(stage: &Stage<'_, H>, name: &str) -> Result<bool, CoreError> {
    let path = within(stage.alloc, stage.root, name)?;
    Ok(is_put(stage.host, path.as_str()))
}

fn is_there<R: Files>(files: &R, path: &str) -> bool {
    files.symlink_metadata(path).is_ok()
}

fn is_box<H: Counted>(stage: &Stage<'_, H>, path: &str) -> bool {
    matches!(is_maildir(stage.alloc, stage.host, path), Ok(true))
}

fn is_no_box<H: Counted>(stage: &Stage<'_, H>, path: &str) -> bool {
    matches!(is_maildir(stage.alloc, stage.host, path), Ok(false))
        && make_maildir(stage.alloc, stage.host, path).is_err()
}

fn name_in<'t>(beside: Beside<'t>) -> &'t str {
    match beside {
        Beside::Put(name)
        | Beside::Make(name)
        | Beside::Remove(name)
        | Beside::Has(name)
        | Beside::Lacks(name)
        | Beside::Maildir(name)
        | Beside::Refused(name) => name,
    }
}

fn is_so_at<H: Counted>(stage: &Stage<'_, H>, beside: Beside<'_>, path: &str) -> bool {
    match beside {
        Beside::Put(_) => is_put(stage.host, path),
        Beside::Make(_) => stage.host.create_dir(path).is_ok(),
        Beside::Remove(_) => stage.host.remove_dir(path).is_ok(),
        Beside::Has(_) => is_there(stage.host, path),
        Beside::Lacks(_) => !is_there(stage.host, path),
        Beside::Maildir(_) => is_box(stage, path),
        Beside::Refused(_) => is_no_box(stage, path),
    }
}

/// Whether it is done, or so.
pub(super) fn is_so<H: Counted>(
    stage: &Stage<'_, H>,
    beside: Beside<'_>,
) -> Result<bool, CoreError> {
    let path = within(stage.alloc, stage.root, name_in(beside))?;
    Ok(is_so_at(stage, beside, path.as_str()))
}
