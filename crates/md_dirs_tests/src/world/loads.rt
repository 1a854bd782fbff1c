//! Directories that a world is given, and that come back where it refuses them.
use super::BODY;
use super::scene::{Scene, plays};
use md_core::{CoreError, LoadRefused, World};
use md_dirs::{DirError, Dirs, FileName, IndexDirs, Path, Place, PlainDirs};
use std::alloc::Global;

// A name with a line feed, which no line of a script can have. Other bad names are loaded by tools/tests/ffi.
const BAD: &str = "a\n";

// A unique name of 201 bytes, one more than any has, in few letters.
const LONG: &str = "long";

// The orders that three files come in.
const ORDERS: [[usize; 3]; 6] = [
    [0, 1, 2],
    [0, 2, 1],
    [1, 0, 2],
    [1, 2, 0],
    [2, 0, 1],
    [2, 1, 0],
];

// A file by its folder, place and name.
type Named = (u32, Place, &'static str);

/// Three files of two folders, and the fault that is the first in order.
#[derive(Clone, Copy)]
pub(super) struct Faulty {
    first: Named,
    second: Named,
    third: Named,
    fault: CoreError,
}

// Adds a file, stamped at 0.
fn add(alloc: Global, dirs: &mut PlainDirs, place: Place, name: &str) -> Result<(), DirError> {
    let path = Path {
        folder: 0,
        place,
        name: FileName::copied(alloc, name.as_bytes())?,
    };
    dirs.create(&path, 0)?;
    dirs.append(&path, BODY, 0)
}

/// Directories of one folder, with files of these names, between spaces, in one place.
pub(super) fn directories(
    alloc: Global,
    place: Place,
    names: &str,
) -> Result<PlainDirs, CoreError> {
    let mut dirs = PlainDirs::new(alloc, 1);
    let mut is_made = true;
    for name in names.split(' ') {
        is_made &= name.is_empty() || add(alloc, &mut dirs, place, name).is_ok();
    }
    if is_made {
        Ok(dirs)
    } else {
        Err(CoreError::NoMemory)
    }
}

// Whether directories come back with their file and no other.
fn is_same(dirs: &PlainDirs, place: Place) -> bool {
    let count = dirs
        .count(0, Place::Tmp)
        .saturating_add(dirs.count(0, Place::New))
        .saturating_add(dirs.count(0, Place::Cur));
    count == 1 && dirs.read(0, place, BAD.as_bytes()) == Some(BODY)
}

fn is_bad(refused: &LoadRefused<PlainDirs>, place: Place) -> Result<bool, CoreError> {
    let is_same = is_same(&refused.dirs, place);
    match refused.error {
        CoreError::NoMemory if is_same => Err(CoreError::NoMemory),
        error => Ok(is_same && error == CoreError::BadName),
    }
}

/// Whether directories of one file are refused for its name, and come back.
pub(super) fn is_refused(alloc: Global, place: Place) -> Result<bool, CoreError> {
    match World::load(alloc, directories(alloc, place, BAD)?).err() {
        Some(refused) => is_bad(&refused, place),
        None => Ok(false),
    }
}

// The name of a file, spelled out.
fn name_of(alloc: Global, name: &str) -> Result<FileName, CoreError> {
    if name == LONG {
        Ok(FileName::copied(alloc, &[b'm'; 201])?)
    } else {
        Ok(FileName::copied(alloc, name.as_bytes())?)
    }
}

// Hashed directories of two folders, whose files came in an order.
fn arrived(alloc: Global, faulty: Faulty, order: [usize; 3]) -> Result<IndexDirs, CoreError> {
    let mut dirs = IndexDirs::new(alloc, 2);
    for at in order {
        let (folder, place, name) = match at {
            0 => faulty.first,
            1 => faulty.second,
            _ => faulty.third,
        };
        let path = Path {
            folder,
            place,
            name: name_of(alloc, name)?,
        };
        if dirs.create(&path, 0).is_err() {
            return Err(CoreError::NoMemory);
        }
    }
    Ok(dirs)
}

/// Whether files are refused by their first fault, in whatever order they came.
pub(super) fn is_first(alloc: Global, faulty: Faulty) -> Result<bool, CoreError> {
    for order in ORDERS {
        match World::load(alloc, arrived(alloc, faulty, order)?).err() {
            Some(refused) if refused.error == faulty.fault => {}
            Some(refused) if refused.error == CoreError::NoMemory => {
                return Err(CoreError::NoMemory);
            }
            _ => return Ok(false),
        }
    }
    Ok(true)
}

// Three files that are refused by a fault.
fn refused_by(fault: CoreError, first: Named, second: Named, third: Named) -> Scene {
    Scene::Fault(Faulty {
        first,
        second,
        third,
        fault,
    })
}

// The refusal is the first fault by folder, then tmp, new and cur, then name: so `World::load` says.
#[test]
fn the_first_of_several_faults_is_the_refusal(rt: HostRuntime) {
    let long = (0, Place::New, LONG);
    let far = (1, Place::New, LONG);
    let met = (0, Place::New, "u");
    let cur_long = (0, Place::Cur, LONG);
    let cur_plain = (0, Place::Cur, "u");
    for scene in [
        // tmp comes before new, new before cur, and folder 0 before folder 1.
        refused_by(
            CoreError::BadName,
            (0, Place::Tmp, "z\n"),
            long,
            (1, Place::Tmp, "u"),
        ),
        refused_by(
            CoreError::LongUnique,
            long,
            (0, Place::Cur, "a\n"),
            (1, Place::Tmp, "a\n"),
        ),
        // A unique name that is met twice is a fault of the later name.
        refused_by(
            CoreError::DuplicateUnique,
            met,
            (0, Place::Cur, "u:2,S"),
            far,
        ),
        refused_by(CoreError::LongUnique, met, far, (1, Place::Cur, "u:2,S")),
        // In one place names go by their bytes: m comes behind c and before z.
        refused_by(
            CoreError::BadName,
            cur_long,
            (0, Place::Cur, "c\n"),
            cur_plain,
        ),
        refused_by(
            CoreError::LongUnique,
            cur_long,
            (0, Place::Cur, "z\n"),
            cur_plain,
        ),
    ] {
        plays(&rt, rt.alloc(), scene);
    }
}

#[test]
fn names_have_no_line_feed(rt: HostRuntime) {
    plays(&rt, rt.alloc(), Scene::BadName(Place::Tmp));
    plays(&rt, rt.alloc(), Scene::BadName(Place::New));
    plays(&rt, rt.alloc(), Scene::BadName(Place::Cur));
}
