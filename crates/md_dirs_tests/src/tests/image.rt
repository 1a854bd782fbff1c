// Directories from a list of files: what is accepted, and which refusal comes first.
use super::rows::{cut, path_of, shows};
use super::values::is_told;
use md_dirs::{Bytes, DirError, Dirs, ImageFile, Place, PlainDirs};
use std::alloc::{AllocError, Global};

// A row has files, each with its path, bytes and stamp, the refusal, and what cur of the second folder then shows.
static IMAGES: &str = "||%\
0/tmp=a x 3,1/cur=a  0,0/new=a x 2||a 0 0%\
2/tmp=a x 3|not found|%\
0/tmp=a x 3,0/tmp=a x 3|exists|%\
0/tmp=a x 3,0/new=a x 3,0/tmp=b x 3||%\
0/tmp=a  3,0/tmp=a y 4,5/tmp=a  3|exists|%\
0/tmp=a  3,2/tmp=a  3,0/tmp=a  3|not found|%\
2/tmp=a  3,2/tmp=a  3|not found|%\
1/cur=b two 7,1/cur=a  9||a 9 0,b 7 3";

fn file_of(alloc: Global, file: &str) -> Result<ImageFile, AllocError> {
    let (path, rest) = cut(file, ' ');
    let (bytes, stamp) = cut(rest, ' ');
    let path = path_of(alloc, path)?;
    Ok(ImageFile {
        path,
        bytes: Bytes::copied(alloc, bytes.as_bytes())?,
        stamp: stamp.parse().unwrap_or(0),
    })
}

// The directories of a list of files, with two folders.
fn dirs_of(alloc: Global, files: &str) -> Result<PlainDirs, DirError> {
    let mut image = Vec::new(alloc);
    for file in files.split(',') {
        if !file.is_empty() {
            image.push(file_of(alloc, file)?)?;
        }
    }
    PlainDirs::from_image(alloc, 2, image)
}

// Whether each file of a list is there with its bytes. It is, where memory is wanting.
fn holds(alloc: Global, dirs: &PlainDirs, files: &str) -> bool {
    for file in files.split(',') {
        if !file.is_empty() {
            if let Ok(ImageFile { path, bytes, .. }) = file_of(alloc, file) {
                let there = dirs.read(path.folder, path.place, path.name.as_slice());
                if there != Some(bytes.as_slice()) {
                    return false;
                }
            }
        }
    }
    true
}

// Whether the files of a row are made, or refused so.
fn is_made(alloc: Global, row: &str) -> bool {
    let (files, rest) = cut(row, '|');
    let (refusal, shown) = cut(rest, '|');
    match dirs_of(alloc, files) {
        Ok(dirs) => {
            refusal.is_empty()
                && holds(alloc, &dirs, files)
                && shows(&dirs, 1, Place::Cur, shown)
                && dirs.row_at(2, Place::Cur, 0).is_none()
        }
        Err(error) => is_told(alloc, error, refusal),
    }
}

// Each row is tried once more, where memory was wanting.
#[test]
fn files_are_made_in_their_order(rt: HostRuntime) {
    for row in IMAGES.split('%') {
        assert!(rt;
            is_made(rt.alloc(), row) || is_made(rt.alloc(), row),
            "{row}"
        );
    }
}
