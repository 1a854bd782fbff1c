//! Maildirs that are made.
use crate::paths::{place_name, within};
use md_dirs::Place;
use std::alloc::Global;
use std::fs::Files;
use std::io;
use std::io::ErrorKind;

// Who may read, write and enter a maildir: its owner.
const MODE: u32 = 0o700;

const PLACES: [Place; 3] = [Place::Tmp, Place::New, Place::Cur];

/// Makes a maildir (maildir(5)): a folder with tmp, new and cur, each for its owner alone. A directory that is there already is left as it
/// is. Refused by the system's error, as `AlreadyExists` where a file is in the place of one of them, and when out of memory: some may have
/// been made then.
pub fn make_maildir<R: Files>(alloc: Global, files: &R, path: &str) -> io::Result<()> {
    make_directory(files, path)?;
    for place in PLACES {
        make_directory(files, within(alloc, path, place_name(place))?.as_str())?;
    }
    Ok(())
}

// Makes a directory, if it is not there.
fn make_directory<R: Files>(files: &R, path: &str) -> io::Result<()> {
    match files.create_dir_with_mode(path, MODE) {
        Err(error) if error.kind() == ErrorKind::AlreadyExists && is_directory(files, path)? => {
            Ok(())
        }
        made => made,
    }
}

/// Whether a folder has the directories tmp, new and cur. Refused by the system's error where that can't be told, and when out of memory.
pub fn is_maildir<R: Files>(alloc: Global, files: &R, path: &str) -> io::Result<bool> {
    for place in PLACES {
        if !has_place(alloc, files, path, place)? {
            return Ok(false);
        }
    }
    Ok(true)
}

/// Whether a folder has the directory cur, where no delivery makes a name. Refused as `is_maildir`.
pub fn has_cur<R: Files>(alloc: Global, files: &R, path: &str) -> io::Result<bool> {
    has_place(alloc, files, path, Place::Cur)
}

fn has_place<R: Files>(alloc: Global, files: &R, path: &str, place: Place) -> io::Result<bool> {
    is_directory(files, within(alloc, path, place_name(place))?.as_str())
}

// Whether a path leads to a directory.
fn is_directory<R: Files>(files: &R, path: &str) -> io::Result<bool> {
    match files.metadata(path) {
        Ok(about) => Ok(about.is_dir()),
        Err(error) => match error.kind() {
            ErrorKind::NotFound | ErrorKind::NotADirectory => Ok(false),
            _ => Err(error),
        },
    }
}
