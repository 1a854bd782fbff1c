// Calls, files, steps and listings for the tests.
use md_core::{Answer, Call, CoreError, JobId};
use md_dirs::{Bytes, Dirs, FileName, ImageFile, Path, Place};
use md_name::Flags;
use md_store::{ListError, Naming, News, Pass, Store};
use md_view::Entry;
use std::alloc::{AllocError, Global};
use std::sync::Wait;

// The words of a row up to the first blank, and those after it.
pub fn cut(row: &str) -> (&str, &str) {
    row.split_once(' ').unwrap_or((row, ""))
}

// The number of a word.
pub fn number(word: &str) -> u64 {
    word.parse().unwrap_or(0)
}

// The call of a row: what it does, the unique name of its message, the flags that it adds or removes or the body of a delivery, and the fresh
// name of a copy. A delivery writes pieces of four bytes: it takes four steps, and one more for each further piece.
pub fn call(alloc: Global, folder: u32, row: &str) -> Result<Call, AllocError> {
    let (kind, rest) = cut(row);
    let (name, more) = cut(rest);
    let (word, fresh) = cut(more);
    let unique = Bytes::copied(alloc, name.as_bytes())?;
    match kind {
        "deliver" => delivery(alloc, folder, unique, word),
        "copy" => copy(alloc, folder, unique, fresh),
        _ => Ok(change(kind, folder, unique, word)),
    }
}

// The delivery of a body, which is of one byte where none is given.
fn delivery(alloc: Global, folder: u32, unique: Bytes, body: &str) -> Result<Call, AllocError> {
    let body = if body.is_empty() { "x" } else { body };
    let body = Bytes::copied(alloc, body.as_bytes())?;
    Ok(Call::Deliver {
        folder,
        unique,
        body,
        chunk: 4,
    })
}

fn copy(alloc: Global, folder: u32, unique: Bytes, fresh: &str) -> Result<Call, AllocError> {
    let fresh = Bytes::copied(alloc, fresh.as_bytes())?;
    Ok(Call::Copy {
        folder,
        unique,
        to: 1 - folder.min(1),
        fresh,
        tries: 16,
    })
}

// The flags of these letters.
pub fn flags(letters: &str) -> Flags {
    Flags::parse(letters.as_bytes()).unwrap_or(Flags::empty())
}

// The calls that name no second message.
fn change(kind: &str, folder: u32, unique: Bytes, letters: &str) -> Call {
    let tries = 16;
    match kind {
        "seen" => Call::Seen {
            folder,
            unique,
            flags: flags(letters),
            tries,
        },
        "flag" => Call::Flag {
            folder,
            unique,
            add: flags(letters),
            remove: Flags::empty(),
            tries,
        },
        "unflag" => Call::Flag {
            folder,
            unique,
            add: Flags::empty(),
            remove: flags(letters),
            tries,
        },
        "move" => Call::Move {
            folder,
            unique,
            to: 1 - folder.min(1),
            tries,
        },
        "expunge" => Call::Expunge {
            folder,
            unique,
            tries,
        },
        _ => Call::Clean { folder },
    }
}

// A message of one byte, of a row: new or cur, and a name.
pub fn file(alloc: Global, folder: u32, row: &str) -> Result<ImageFile, AllocError> {
    let (word, name) = cut(row);
    let place = if word == "new" {
        Place::New
    } else {
        Place::Cur
    };
    let name = FileName::copied(alloc, name.as_bytes())?;
    let bytes = Bytes::copied(alloc, b"x")?;
    let path = Path {
        folder,
        place,
        name,
    };
    Ok(ImageFile {
        path,
        bytes,
        stamp: 0,
    })
}

// Whether a row is of a file.
pub fn is_file(row: &str) -> bool {
    row.starts_with("new ") || row.starts_with("cur ")
}

// The messages of folder 0 among these rows, between bars.
pub fn files(alloc: Global, rows: &str) -> Result<Vec<ImageFile>, AllocError> {
    let mut image = Vec::new(alloc);
    for row in rows.split('|') {
        if is_file(row) {
            image.push(file(alloc, 0, row)?)?;
        }
    }
    Ok(image)
}

// Makes a step of a job. Its news, or its refusal.
pub fn step<D: Dirs, J: Naming, R: Wait>(
    rt: &R,
    store: &Store<D, J>,
    pass: &mut Pass<J>,
    job: JobId,
) -> Result<News, CoreError> {
    match store.step(rt, pass, job, 1000, None) {
        Ok(step) => Ok(step.news),
        Err(error) => Err(error),
    }
}

// Steps a job to its answer, a step once more where it found no memory. Its answer, and the news of its last effect.
pub fn finish<D: Dirs, J: Naming, R: Wait>(
    rt: &R,
    store: &Store<D, J>,
    pass: &mut Pass<J>,
    job: JobId,
) -> (Option<Answer>, News) {
    let mut news = News::NoEffect;
    for _ in 0..64 {
        match store.step(rt, pass, job, 1000, None) {
            Ok(step) => {
                if step.news != News::NoEffect {
                    news = step.news;
                }
                if step.out.answer.is_some() {
                    return (step.out.answer, news);
                }
            }
            Err(CoreError::NoMemory) => {}
            Err(_) => return (None, news),
        }
    }
    (None, news)
}

// Whether a listing shows a message of this file name, with one byte.
fn shows(listing: &[Entry], name: &str) -> bool {
    for entry in listing {
        if entry.name.as_slice() == name.as_bytes() && entry.size == 1 {
            return true;
        }
    }
    false
}

// Whether a listing shows messages of these file names, between which are blanks, and no others, unless the last is `..`.
pub fn shows_all(listing: &[Entry], names: &str) -> bool {
    let mut count = 0usize;
    for name in names.split(' ') {
        if name == ".." {
            return true;
        }
        if !name.is_empty() {
            if !shows(listing, name) {
                return false;
            }
            count = count.wrapping_add(1);
        }
    }
    count == listing.len()
}

// Whether a folder is listed so.
pub fn lists<D: Dirs, J: Naming>(
    alloc: Global,
    store: &Store<D, J>,
    pass: &mut Pass<J>,
    folder: u32,
    names: &str,
) -> Result<bool, ListError> {
    match store.list(alloc, pass, folder) {
        Ok(entries) => Ok(shows_all(&entries, names)),
        Err(error) => Err(error),
    }
}
