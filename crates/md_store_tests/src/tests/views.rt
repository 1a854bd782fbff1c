// Worlds of a test, and worked listings of theirs. The bytes of each file are its name.
ghost use Rattle.md_listing.specs.Readings.{IsInOrder};

use md_core::World;
use md_dirs::{Dirs, Path, Place, PlainDirs};
use md_name::FileName;
use md_view::{Entry, ViewError, join, list, reading};
use std::alloc::Global;
use std::process::Abort;

// A text up to a mark, and what is behind it.
pub fn cut(text: &str, mark: char) -> (&str, &str) {
    match text.split_once(mark) {
        Some(parts) => parts,
        None => (text, ""),
    }
}

// The path of a text such as `0/new=a`. That of a directory has no name.
pub fn path_of(rt: &impl Abort, alloc: Global, text: &str) -> Path {
    let (directory, name) = cut(text, '=');
    let (folder, place) = cut(directory, '/');
    let place = match place {
        "new" => Place::New,
        "cur" => Place::Cur,
        _ => Place::Tmp,
    };
    Path {
        folder: u32::from(folder == "1"),
        place,
        name: FileName::copied(alloc, name.as_bytes()).expect(rt, "memory"),
    }
}

// Makes a file.
fn put(rt: &impl Abort, dirs: &mut PlainDirs, path: &Path) {
    let name = path.name.as_slice();
    assert!(rt; dirs.create(path, 0).is_ok() && dirs.append(path, name, 0).is_ok());
}

// The world of one folder, by the paths of its files.
pub fn world_of(rt: &impl Abort, alloc: Global, files: &str) -> World<PlainDirs> {
    let mut dirs = PlainDirs::new(alloc, 1);
    for file in files.split(' ') {
        if !file.is_empty() {
            put(rt, &mut dirs, &path_of(rt, alloc, file));
        }
    }
    World::load(alloc, dirs).ok().expect(rt, "a world")
}

// Whether these are the entries of some names, between blanks, in their order.
pub fn are(entries: &[Entry], names: &str) -> bool {
    let mut at = 0usize;
    for name in names.split(' ') {
        if !name.is_empty() {
            match entries.get(at) {
                Some(entry) if entry.name.as_slice() == name.as_bytes() => at += 1,
                _ => return false,
            }
        }
    }
    at == entries.len()
}

// Whether two lists that are in order are joined to this one.
fn is_join(alloc: Global, new: &[Entry], cur: &[Entry], wanted: &[Entry]) -> bool
    requires new { IsInOrder new.now }
    requires cur { IsInOrder cur.now }
{
    match join(alloc, new, cur) {
        Ok(joined) => joined.as_slice() == wanted,
        Err(_) => false,
    }
}

// Whether a folder that isn't there is refused.
pub fn refuses(alloc: Global, world: &World<PlainDirs>) -> bool {
    let refused = ViewError::NoFolder;
    matches!(reading(alloc, world, 1, Place::Cur), Err(error) if error == refused)
        && matches!(list(alloc, world, 1), Err(error) if error == refused)
}

// Whether cur is read in this order, where tmp gives nothing, and a list joined with an empty one, on either side, is as it was.
pub fn reads(rt: &impl Abort, alloc: Global, world: &World<PlainDirs>, names: &str) -> bool {
    let none = reading(alloc, world, 0, Place::Tmp).expect(rt, "tmp");
    let cur = reading(alloc, world, 0, Place::Cur).expect(rt, "cur");
    none.is_empty()
        && are(&cur, names)
        && is_join(alloc, &none, &cur, &cur)
        && is_join(alloc, &cur, &none, &cur)
        && is_join(alloc, &none, &none, &[])
        && are(&list(alloc, world, 0).expect(rt, "a list"), names)
}
