// The small types, and what may cross threads.
use md_dirs::{
    Bytes, DirError, Dirs, FileName, ImageFile, IndexDirs, Path, Place, PlainDirs, Row, RowRef,
};
use std::alloc::{AllocError, Global};

fn path_copied(alloc: Global) -> Result<Path, AllocError> {
    let mut name = Bytes::of(Vec::from_slice(alloc, b"a:2,")?);
    name.extend(b"S")?;
    let path = Path {
        folder: 4,
        place: Place::Cur,
        name: FileName::of(name),
    };
    path.again(alloc)
}

fn file_copied(alloc: Global) -> Result<ImageFile, AllocError> {
    let path = path_copied(alloc)?;
    let bytes = Bytes::copied(alloc, path.name.as_slice())?;
    let file = ImageFile {
        path,
        bytes,
        stamp: 8,
    };
    file.again(alloc)
}

fn row_copied(alloc: Global) -> Result<Row, AllocError> {
    let row = RowRef::new(b"n", 1, 2);
    let row = row.copied(alloc)?;
    row.again(alloc)
}

// Whether these are the copies, which may cross threads.
fn are_the_copies(file: &ImageFile, row: &Row) -> bool {
    is_send(file)
        && is_send(&file.path)
        && is_send(&file.bytes)
        && is_send(row)
        && (file.path.folder, file.path.place, file.stamp) == (4, Place::Cur, 8)
        && file.path.name.as_slice() == b"a:2,S".as_slice()
        && file.bytes.len() == 5
        && row.name.as_slice() == b"n".as_slice()
        && (row.stamp, row.size) == (1, 2)
}

fn are_copied(alloc: Global) -> Result<bool, AllocError> {
    let file = file_copied(alloc)?;
    let row = row_copied(alloc)?;
    Ok(are_the_copies(&file, &row) && file.bytes.into_vec().as_slice() == b"a:2,S".as_slice())
}

// A path in new whose name has so many bytes.
fn long_path(alloc: Global, len: usize) -> Result<Path, AllocError> {
    let mut name = Bytes::of(Vec::new(alloc));
    for _ in 0..len {
        name.extend(b"n")?;
    }
    Ok(Path {
        folder: 0,
        place: Place::New,
        name: FileName::of(name),
    })
}

// Whether a file of a name of so many bytes is made, given a name of one byte more, found by it, and taken away.
fn is_kept(alloc: Global, len: u8) -> Result<bool, DirError> {
    let mut dirs = IndexDirs::new(alloc, 1);
    let path = long_path(alloc, len as usize)?;
    let longer = long_path(alloc, len as usize + 1)?;
    dirs.create(&path, 7)?;
    dirs.append(&path, b"x", 7)?;
    dirs.rename(&path, &longer)?;
    let name = longer.name.as_slice();
    let is_there = match dirs.look(0, Place::New, name) {
        None => false,
        Some(row) => row.name() == name && row.unique() == name && row.size() == 1,
    };
    dirs.unlink(&longer)?;
    Ok(is_there && dirs.count(0, Place::New) == 0)
}

// Names of up to 53 bytes lie in place.
#[test]
fn names_are_kept_in_place_and_apart(rt: HostRuntime) {
    let alloc = rt.alloc();
    for len in [0, 1, 51, 52, 53, 54, 200] {
        let is_well = is_kept(alloc, len).unwrap_or(false) || is_kept(alloc, len).unwrap_or(false);
        assert!(rt; is_well);
    }
}

/// Whether an error has this text, tried once more where memory was wanting.
pub fn is_told(alloc: Global, error: DirError, text: &str) -> bool {
    for _ in 0..2 {
        if let Ok(told) = format!(in alloc; "{error}") {
            return told.as_str() == text;
        }
    }
    false
}

fn is_send<T: Send>(_value: &T) -> bool {
    true
}

// Copies are tried once more where memory was wanting. The texts of the other two errors come with the rows.
#[test]
fn values_are_copied_and_told_and_may_cross_threads(rt: HostRuntime) {
    let alloc = rt.alloc();
    assert!(rt; are_copied(alloc) == Ok(true) || are_copied(alloc) == Ok(true));
    assert!(rt; is_told(alloc, DirError::Fault, "fault"));
    assert!(rt; is_told(alloc, DirError::NoMemory, "no memory"));
    let dirs = PlainDirs::new(alloc, 3);
    let may_cross = is_send(&dirs) && is_send(&Place::Tmp) && is_send(&DirError::Fault);
    assert!(rt; may_cross && dirs.folders() == 3 && Bytes::of(Vec::new(alloc)).is_empty());
}
