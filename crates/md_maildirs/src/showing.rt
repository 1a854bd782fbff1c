//! Messages that are shown: listings, and the bytes of one.
ghost use Rattle.std.specs.Prelude.{◌≡◌, false, None, IfOk, OnOk};
ghost use Rattle.md_maildirs.specs.Rows.{path_text, ShowsLine};

use crate::acting::TRIES;
use crate::boxes::maildirs;
use crate::causes::{failure_caused, refused};
use crate::key::{Key, parse_key};
use crate::row::{Headers, Shape, push_message};
use md_command::{Failure, Host, Session, Status, Trouble, opened, path_in, print};
use md_dirs::Bytes;
use md_disk::{Disk, list_folder};
use md_head::{HeadError, summary};
use md_jobs::DirReply;
use md_name::{is_message, unique_part};
use md_system::Listed;
use md_text::place_text;
use std::alloc::{AllocError, Global};
use std::fs::OpenFile;
use std::io;
use std::io::{ErrorKind, Read};

// The most bytes of a message that are read for its headers.
const MOST_HEADERS: usize = 262_144;

// Bytes of a message that are read at once.
const CHUNK: usize = 65_536;

// Bytes of a listing that are written at once.
const PAGE: usize = 65_536;

/// Prints a line for each message of a maildir, in order of their unique names. With headers each file is opened, and its beginning read,
/// some 256 KiB; one that can't be read is told, and its line has none. The status is the worst one of a file. Refused where there is no
/// such maildir, where a directory can't be read, where writing fails, and when out of memory.
pub fn listed<R: Host>(
    session: &Session<'_, R>,
    maildir: &str,
    shape: Shape,
) -> Result<Status, Failure> {
    let disk = maildirs(session, &[maildir])?;
    let (reply, all) = list_folder(session.alloc, &disk, 0).map_err(refused)?;
    if reply != DirReply::Ok {
        return Err(failure_caused(session.alloc, Trouble::Fault, disk.system.cause()));
    }
    let mut page = Vec::new(session.alloc);
    print_all(session, maildir, shape, all.as_slice(), &mut page)
}

// Prints the lines of messages, by a page that is lent and empty.
fn print_all<R: Host>(
    session: &Session<'_, R>,
    maildir: &str,
    shape: Shape,
    all: &[Listed],
    page: &mut Vec<u8>,
) -> Result<Status, Failure> {
    let mut worst = Status::Done;
    for message in all {
        worst = worst.worse(push_listed(session, maildir, shape, message, page)?);
        if page.len() >= PAGE {
            print(session, page.as_slice())?;
            page.clear();
        }
    }
    print(session, page.as_slice())?;
    Ok(worst)
}

// Appends the line of a message. A name that is none of a message has no line. The status is that of reading its headers.
fn push_listed<R: Host>(
    session: &Session<'_, R>,
    maildir: &str,
    shape: Shape,
    message: &Listed,
    page: &mut Vec<u8>,
) -> Result<Status, Failure>
    ensures { OnOk result (ShowsLine shape message.now page.old.items page.new.items) }
{
    let name = message.name.as_slice();
    if !is_message(name, unique_part(name)) {
        return Ok(Status::Done);
    }
    let (headers, status) = headers_wanted(session, maildir, shape, message)?;
    push_message(page, shape, message.place, name, headers.as_ref())?;
    Ok(status)
}

// What the headers of a message say, where they are wanted, and the status of reading them.
fn headers_wanted<R: Host>(
    session: &Session<'_, R>,
    maildir: &str,
    shape: Shape,
    message: &Listed,
) -> Result<(Option<Headers>, Status), Failure>
    ensures { IfOk result (λ read. shape.with_headers ≡ false → read.0 ≡ None) }
{
    if shape.with_headers {
        headers_of(session, maildir, message)
    } else {
        Ok((None, Status::Done))
    }
}

// What the headers of a message say, as far as it can be read, and nothing where its name is not UTF-8. What fails is told, and is the
// status.
fn headers_of<R: Host>(
    session: &Session<'_, R>,
    maildir: &str,
    message: &Listed,
) -> Result<(Option<Headers>, Status), Failure> {
    let path = path_of(session.alloc, maildir, message)?;
    let Ok(text) = std::str::from_utf8(path.as_slice()) else {
        return Ok((None, Status::Done));
    };
    match read_headers(session, text) {
        Ok(headers) => Ok((headers, Status::Done)),
        Err(failure) => Ok((None, session.tell(path.as_slice(), &failure))),
    }
}

// What the headers of the message at a path say. None where it is gone from its name by now.
fn read_headers<R: Host>(session: &Session<'_, R>, path: &str) -> Result<Option<Headers>, Failure> {
    let mut file = match opened(session, path) {
        Ok(Some(file)) => file,
        Ok(None) => return Ok(None),
        Err(error) if error.kind() == ErrorKind::NotFound => return Ok(None),
        Err(error) => return Err(Failure::of(session.alloc, Trouble::Unread, &error)),
    };
    match beginning(session, &mut file) {
        Ok((size, bytes)) => match summary(session.alloc, bytes.as_slice()) {
            Ok(summary) => Ok(Some(Headers { size, summary })),
            Err(HeadError::NoMemory) => Err(Failure::from(Trouble::NoMemory)),
        },
        Err(error) => Err(Failure::of(session.alloc, Trouble::Unread, &error)),
    }
}

// The path of a message as it was listed.
fn path_of(alloc: Global, maildir: &str, message: &Listed) -> Result<Vec<u8>, AllocError>
    ensures { IfOk result (λ path. path.items ≡ path_text maildir.now message.now.place message.now.name) }
{
    let mut path = path_in(alloc, maildir, place_text(message.place))?;
    path.push(b'/')?;
    path.extend_from_slice(message.name.as_slice())?;
    Ok(path)
}

// The size of a message, and the bytes that it begins with.
fn beginning<R: Host>(session: &Session<'_, R>, file: &mut R::File) -> io::Result<(u64, Vec<u8>)> {
    let size = file.metadata()?.len();
    let mut bytes = Vec::new(session.alloc);
    let mut chunk = vec![in session.alloc; 0; CHUNK]?;
    for _ in 0..u64::MAX {
        let count = file.read(chunk.as_mut_slice())?;
        if count == 0 || bytes.len() >= MOST_HEADERS {
            break;
        }
        bytes.extend_from_slice(&chunk[..count])?;
    }
    Ok((size, bytes))
}

/// Prints the bytes of a message, 64 KiB at a time. Refused where there is no such maildir; what else fails is told, and is the status.
pub fn read<R: Host>(
    session: &Session<'_, R>,
    maildir: &str,
    word: &str,
) -> Result<Status, Failure> {
    let mut disk = maildirs(session, &[maildir])?;
    let read = match parse_key(maildir.as_bytes(), word.as_bytes()) {
        Some(key) => copied_out(session, &mut disk, &key),
        None => Err(Failure::from(Trouble::BadKey)),
    };
    match read {
        Ok(()) => Ok(Status::Done),
        Err(failure) => Ok(session.tell(word.as_bytes(), &failure)),
    }
}

// Copies a message to standard output. Its path is a hint, so that no directory is read where the name is still there.
fn copied_out<R: Host>(
    session: &Session<'_, R>,
    disk: &mut Disk<'_, R>,
    key: &Key<'_>,
) -> Result<(), Failure> {
    if let Some(place) = key.place {
        let name = Bytes::copied(session.alloc, key.name)?;
        disk.system.hint(0, place, name);
    }
    match disk
        .system
        .open_message(session.alloc, 0, key.unique, TRIES)?
    {
        (_, Some(mut file)) => poured(session, &mut file),
        _ => Err(failure_caused(session.alloc, Trouble::Fault, disk.system.cause())),
    }
}

// Copies what is left of a file to standard output.
fn poured<R: Host>(session: &Session<'_, R>, file: &mut R::File) -> Result<(), Failure> {
    let mut chunk = vec![in session.alloc; 0; CHUNK]?;
    for _ in 0..u64::MAX {
        match file.read(chunk.as_mut_slice()) {
            Ok(0) => break,
            Ok(count) => print(session, &chunk[..count])?,
            Err(error) if error.kind() == ErrorKind::Interrupted => {}
            Err(error) => return Err(Failure::of(session.alloc, Trouble::Unread, &error)),
        }
    }
    Ok(())
}
