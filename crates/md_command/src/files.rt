//! Files that are read: those of a directory, each of which is a message.
ghost use Rattle.std.specs.Prelude.{◌≡◌, ◌++◌, codes, map, option_map, IfOk, OnOk};
ghost use Rattle.md_command.specs.Files.{name_in, names_in, unended};

use crate::failure::Failure;
use crate::lines::{Line, Lines, message};
use crate::session::{Host, Session};
use crate::trouble::Trouble;
use std::alloc::{AllocError, Global};
use std::fs::OpenOptions;
use std::io;
use std::io::Read;

// The most bytes of a name.
const MOST_NAME: usize = 65_536;

/// The names in a directory but `.` and `..`, in order of their bytes, of one reading. Refused as `NoDirectory`, `Unread`, `NoRights` or
/// `NoMemory`.
pub fn names_of<R: Host>(session: &Session<'_, R>, path: &str) -> Result<Vec<Vec<u8>>, Failure> {
    // Behind a slash the system follows a symlink to a directory.
    let whole = format!(in session.alloc; "{path}/")?;
    match session.host.open_dir(whole.as_str()) {
        Ok(dir) => sorted_names(session.alloc, path, dir),
        Err(error) => {
            Err(Failure::of(session.alloc, Trouble::NoDirectory, &error).at(session.alloc, path))
        }
    }
}

// The names that a reader of the directory of this path gives, each ended by a NUL.
fn sorted_names<D: Read + Drop>(
    alloc: Global,
    path: &str,
    dir: D,
) -> Result<Vec<Vec<u8>>, Failure> {
    let mut lines = Lines::ended_by(alloc, dir, 0)?;
    let mut line = Vec::new(alloc);
    let mut names = Vec::new(alloc);
    for _ in 0..u64::MAX {
        match lines.next(&mut line, MOST_NAME) {
            Ok(Line::End) => break,
            Ok(_) => push_name(alloc, &mut names, line.as_slice())?,
            Err(error) => return Err(Failure::of(alloc, Trouble::Unread, &error).at(alloc, path)),
        }
    }
    names.sort_unstable();
    Ok(names)
}

// Adds a name that is read with its NUL, if it is one of a file.
fn push_name(alloc: Global, names: &mut Vec<Vec<u8>>, line: &[u8]) -> Result<(), AllocError>
    ensures { OnOk result (map (λ name. name.items) names.new.items ≡ map (λ name. name.items) names.old.items ++ names_in line.now) }
{
    let Some(name) = name_in(line) else {
        return Ok(());
    };
    Ok(names.push(Vec::from_slice(alloc, name)?)?)
}

// The name that is read with its NUL, if it is one of a file.
fn name_in(line: &[u8]) -> Option<&[u8]>
    ensures { option_map (λ name. name.now) result ≡ name_in line.now }
{
    match unended(line) {
        [] | [b'.'] | [b'.', b'.'] => None,
        name => Some(name),
    }
}

// Bytes without the NUL that ends them, if one does.
fn unended(line: &[u8]) -> &[u8]
    ensures { result.now ≡ unended line.now }
{
    match line {
        [name @ .., 0] => name,
        _ => line,
    }
}

/// The path of a name in a directory.
pub fn path_in(alloc: Global, dir: &str, name: &[u8]) -> Result<Vec<u8>, AllocError>
    ensures { IfOk result (λ path. path.items ≡ dir.now ++ codes "/" ++ name.now) }
{
    let mut path = Vec::from_slice(alloc, dir.as_bytes())?;
    path.push(b'/')?;
    path.extend_from_slice(name)?;
    Ok(path)
}

/// The message that a regular file is. Refused as `NotText` for a path that is not UTF-8, as `NotAFile`, as `TooLong` past 16 MiB, and as
/// `Unread`, `NoRights` or `NoMemory`.
pub fn message_of<R: Host>(session: &Session<'_, R>, path: &[u8]) -> Result<Vec<u8>, Failure> {
    let Ok(path) = std::str::from_utf8(path) else {
        return Err(Failure::from(Trouble::NotText));
    };
    match opened(session, path) {
        Ok(Some(file)) => message(session.alloc, Lines::new(session.alloc, file)?),
        Ok(None) => Err(Failure::from(Trouble::NotAFile)),
        Err(error) => Err(Failure::of(session.alloc, Trouble::Unread, &error)),
    }
}

/// A regular file that is read. None for anything else, which is not opened: a pipe would wait for a writer.
pub fn opened<R: Host>(session: &Session<'_, R>, path: &str) -> io::Result<Option<R::File>> {
    if !session.host.symlink_metadata(path)?.is_file() {
        return Ok(None);
    }
    Ok(Some(open_to_read(session, path)?))
}

/// Any file, to be read.
pub fn open_to_read<R: Host>(session: &Session<'_, R>, path: &str) -> io::Result<R::File> {
    let mut how = OpenOptions::new();
    how.read(true);
    session.host.open_file(&how, path)
}
