// What no clause says: calls and answers from a file system, the texts of errors, and that values may cross threads.
mod cases;
mod hashing;
mod image;
mod lent;
mod many;
mod model;
mod numbers;
mod rows;
mod thousand;
mod values;

use md_dirs::{Bytes, FileName, Path, Place};
use std::alloc::{AllocError, Global};

/// The kinds of calls. A body is bytes that are appended in one piece.
#[derive(Clone, Copy)]
enum Kind {
    Create,
    Append,
    Body,
    Link,
    Rename,
    Unlink,
    List,
    Find,
}

/// A call on one path or two. The bytes are those that are appended, or the unique name that is sought.
#[derive(Clone, Copy)]
struct Call<'a> {
    kind: Kind,
    path: &'a Path,
    to: &'a Path,
    bytes: &'a [u8],
}

// The path of a number in cur of the first folder: what stands before so many of the number's digits, from the last to the first, and what
// stands behind them.
fn numbered(
    alloc: Global,
    before: &[u8],
    number: u32,
    digits: usize,
    behind: &[u8],
) -> Result<Path, AllocError> {
    let mut name = Bytes::copied(alloc, before)?;
    let mut left = number;
    for _ in 0..digits {
        name.extend(&[b'0' + (left % 10) as u8])?;
        left /= 10;
    }
    name.extend(behind)?;
    Ok(Path {
        folder: 0,
        place: Place::Cur,
        name: FileName::of(name),
    })
}
