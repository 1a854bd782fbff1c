// Calls that are written as rows: the call, its path, its other path or its bytes, and the answer, where that of a listing is its rows. The
// moment of a call is the number of its row, from 0.
use super::model::Model;
use super::values::is_told;
use super::{Call, Kind};
use md_dirs::{DirError, Dirs, FileName, Path, Place, RowRef};
use std::alloc::{AllocError, Global};
use std::process::Abort;

/// A fixed list of calls. The answers are those of open, link, rename, unlink and readdir of a file system on Linux: its errors, its names in
/// order of their bytes, its sizes. The stamp is the number of the last call that made or grew the file. Then come the bytes that the calls
/// leave.
pub static CALLS: &str = "\
list|0/tmp||%\
create|0/tmp=a||%\
append|0/tmp=a|From |%\
link|0/tmp=a|0/new=a|%\
append|0/new=a|yy|%\
list|0/tmp||a 4 7%\
list|0/new||a 4 7%\
rename|0/tmp=a|0/new=a|%\
list|0/tmp||a 4 7%\
list|0/new||a 4 7%\
link|0/tmp=Z|0/new=a|not found%\
link|0/tmp=a|0/tmp=a|exists%\
rename|0/tmp=a|0/tmp=a|%\
create|0/tmp=b||%\
rename|0/tmp=b|0/new=a|%\
list|0/new||a 13 0%\
list|0/tmp||a 4 7%\
append|0/tmp=b|x|not found%\
unlink|0/tmp=a||%\
append|0/tmp=a|x|not found%\
unlink|0/tmp=a||not found%\
create|2/tmp=a||not found%\
link|0/new=a|2/new=a|not found%\
rename|0/new=a|2/new=a|not found%\
list|2/new||not found%\
rename|0/tmp=a|0/new=a|not found%\
unlink|2/tmp=a||not found%\
append|2/tmp=a|x|not found%\
create|0/new=a||exists%\
link|2/tmp=a|0/cur=a|not found%\
create|0/tmp=a||%\
create|1/cur=b||%\
create|0/new=a||exists%\
create|1/new=b||%\
unlink|1/cur=b||%\
list|1/tmp||%\
unlink|1/cur=~||not found%\
append|1/new=b|x|%\
link|0/tmp=a|0/new=a|exists%\
create|0/cur=~||%\
unlink|0/tmp=a||%\
rename|0/cur=~|0/cur=a|%\
create|0/cur=Z||%\
link|0/cur=HIGH|0/cur=Z|not found%\
list|0/new||a 13 0%\
append|0/new=a|yy|%\
create|0/cur=Z||exists%\
link|1/new=~|0/cur=Z|not found%\
append|1/new=b|From |%\
link|0/new=a|0/new=Z|%\
rename|0/cur=a|0/new=b|%\
unlink|1/new=b||%\
create|0/new=b||exists%\
list|0/new||Z 45 2,a 45 2,b 39 0%\
create|2/tmp=a||not found%\
create|2/cur=HIGH||not found%\
create|0/cur=b||%\
unlink|0/cur=b||%\
append|0/cur=Z|x|%\
link|0/new=a|0/new=b|exists%\
append|0/new=b|yy|%\
unlink|0/new=b||%\
list|0/tmp||%\
append|0/new=a|x|%\
create|0/tmp=b||%\
append|0/cur=Z|\n\n\n|%\
link|1/cur=HIGH|2/cur=a|not found%\
link|0/new=Z|1/tmp=~|%\
create|1/tmp=~||exists%\
create|1/cur=HIGH||%\
unlink|0/new=a||%\
list|1/new||%\
create|1/cur=Z||%\
rename|0/new=Z|1/tmp=b|%\
append|1/cur=HIGH|From |%\
create|0/new=a||%\
append|1/tmp=b|\n\n\n|%\
append|1/tmp=b|From |%\
link|0/new=a|1/cur=~|%\
rename|1/tmp=b|1/cur=~|%\
list|0/cur||Z 65 4%\
link|0/new=a|0/new=b|%\
link|1/tmp=Z|1/tmp=HIGH|not found%\
link|0/new=~|0/cur=b|not found%\
link|0/tmp=b|0/new=HIGH|%\
unlink|1/cur=~||%\
append|0/cur=b|yy|not found%\
rename|0/cur=Z|2/tmp=a|not found%\
link|1/cur=HIGH|1/cur=b|%\
list|1/tmp||~ 77 11%\
create|0/new=Z||%\
create|0/cur=a||%\
link|0/tmp=b|1/tmp=b|%\
create|0/tmp=a||%\
link|1/tmp=b|0/cur=a|exists%\
create|1/cur=HIGH||exists%\
create|0/cur=a||exists%\
rename|0/tmp=b|0/tmp=a|%\
list|1/tmp||b 64 0,~ 77 11%\
unlink|0/cur=a||%\
link|1/cur=HIGH|0/new=a|exists%\
append|0/tmp=HIGH|\n\n\n|not found%\
create|1/new=b||%\
create|1/tmp=HIGH||%\
unlink|1/tmp=~||%\
create|0/cur=b||%\
link|2/new=a|0/tmp=Z|not found%\
list|1/cur||Z 72 0,b 74 5,HIGH 74 5%\
append|0/new=HIGH|x|%\
create|0/new=~||%\
create|0/cur=~||%\
rename|1/cur=HIGH|1/new=b|%\
create|1/tmp=b||exists%\
rename|0/tmp=a|1/new=~|%\
create|1/cur=a||%\
unlink|1/tmp=HIGH||%\
list|0/new||Z 90 0,a 75 0,b 75 0,~ 109 0,HIGH 108 1%\
append|1/cur=Z|x|%\
rename|1/cur=b|0/cur=~|%\
append|1/cur=~|x|not found%\
list|0/tmp||%\
list|0/new||Z 90 0,a 75 0,b 75 0,~ 109 0,HIGH 108 1%\
list|0/cur||Z 65 4,b 105 0,~ 74 5%\
list|1/tmp||b 108 1%\
list|1/new||b 74 5,~ 108 1%\
list|1/cur||Z 117 1,a 114 0%\
read|0/new=Z||%\
read|0/new=a||%\
read|0/new=b||%\
read|0/new=~||%\
read|0/new=HIGH|x|%\
read|0/cur=Z|x\n\n\n|%\
read|0/cur=b||%\
read|0/cur=~|From |%\
read|1/tmp=b|x|%\
read|1/new=b|From |%\
read|1/new=~|x|%\
read|1/cur=Z|x|%\
read|1/cur=a||%\
unread|0/tmp=a||";

/// A body comes to the end of a file without bytes, is refused under a name that is not there, and comes to the end of a file with bytes, twice.
pub static BODIES: &str = "\
create|0/tmp=a||%\
body|0/tmp=a|From |%\
list|0/tmp||a 1 5%\
body|0/tmp=b|yy|not found%\
list|0/tmp||a 1 5%\
body|0/tmp=a|yy|%\
list|0/tmp||a 5 7%\
read|0/tmp=a|From yy|%\
body|0/tmp=a|x|%\
read|0/tmp=a|From yyx|";

/// A text up to a mark, and what is behind it.
pub fn cut(text: &str, mark: char) -> (&str, &str) {
    match text.split_once(mark) {
        Some(parts) => parts,
        None => (text, ""),
    }
}

// The bytes of a name. One of them is no text.
fn name_of(text: &str) -> &[u8] {
    match text {
        "HIGH" => b"\xff",
        _ => text.as_bytes(),
    }
}

/// The path of a text such as `0/new=a`.
pub fn path_of(alloc: Global, text: &str) -> Result<Path, AllocError> {
    let (directory, name) = cut(text, '=');
    let (folder, place) = cut(directory, '/');
    let place = match place {
        "new" => Place::New,
        "cur" => Place::Cur,
        _ => Place::Tmp,
    };
    Ok(Path {
        folder: folder.parse().unwrap_or(0),
        place,
        name: FileName::copied(alloc, name_of(name))?,
    })
}

fn kind_of(text: &str) -> Kind {
    match text {
        "create" => Kind::Create,
        "append" => Kind::Append,
        "body" => Kind::Body,
        "link" => Kind::Link,
        "rename" => Kind::Rename,
        "unlink" => Kind::Unlink,
        _ => Kind::List,
    }
}

// Whether a row has this name, stamp and size.
fn is_row(row: Option<RowRef<'_>>, text: &str) -> bool {
    let (name, rest) = cut(text, ' ');
    let (stamp, size) = cut(rest, ' ');
    match row {
        Some(row) => {
            row.name() == name_of(name)
                && stamp.parse() == Ok(row.stamp())
                && size.parse() == Ok(row.size())
        }
        None => false,
    }
}

/// Whether a directory shows these rows, and no more.
pub fn shows<D: Dirs>(dirs: &D, folder: u32, place: Place, rows: &str) -> bool {
    let mut at = 0usize;
    for row in rows.split(',') {
        if !row.is_empty() {
            if !is_row(dirs.row_at(folder, place, at), row) {
                return false;
            }
            at = at.saturating_add(1);
        }
    }
    dirs.row_at(folder, place, at).is_none()
}

// Whether a call has the wanted answer.
fn is_answered<D: Dirs>(
    rt: &impl Abort,
    model: &mut Model,
    dirs: &mut D,
    call: Call<'_>,
    wanted: &str,
    now: u64,
) -> bool {
    match model.play(rt, dirs, call, now) {
        Ok(()) if matches!(call.kind, Kind::List) => {
            shows(dirs, call.path.folder, call.path.place, wanted)
        }
        Ok(()) => wanted.is_empty(),
        Err(error) => is_told(model.alloc, error, wanted),
    }
}

fn play_row<D: Dirs>(
    rt: &impl Abort,
    model: &mut Model,
    dirs: &mut D,
    row: &str,
    now: u64,
) -> Result<(), DirError> {
    let (kind, rest) = cut(row, '|');
    let (path, rest) = cut(rest, '|');
    let (other, wanted) = cut(rest, '|');
    let path = path_of(model.alloc, path)?;
    let to = path_of(model.alloc, other)?;
    let call = Call {
        kind: kind_of(kind),
        path: &path,
        to: &to,
        bytes: other.as_bytes(),
    };
    let is_right = match kind {
        "read" => dirs.read(path.folder, path.place, path.name.as_slice()) == Some(call.bytes),
        "unread" => dirs
            .read(path.folder, path.place, path.name.as_slice())
            .is_none(),
        _ => is_answered(rt, model, dirs, call, wanted, now),
    };
    assert!(rt; is_right && model.is_alike(dirs), "{row}");
    Ok(())
}

/// Plays rows. After each of them the directories show all that they have to.
pub fn play_rows<D: Dirs>(
    rt: &impl Abort,
    model: &mut Model,
    dirs: &mut D,
    rows: &str,
) -> Result<(), DirError> {
    let mut now = 0u64;
    for row in rows.split('%') {
        play_row(rt, model, dirs, row, now)?;
        now = now.saturating_add(1);
    }
    Ok(())
}
