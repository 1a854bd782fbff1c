//! Names that a world refuses to deliveries, over directories that tell at a quick look that no name has a fault.
use super::scene::{Scene, plays};
use super::{BODY, letter, load, submitted};
use md_core::{CoreError, World};
use md_dirs::{Bytes, FileName, ImageFile, IndexDirs, Path, Place};
use std::alloc::{AllocError, Global};
use std::process::Abort;

// A file of the one folder, stamped at 0.
fn file(alloc: Global, place: Place, name: &str) -> Result<ImageFile, AllocError> {
    Ok(ImageFile {
        path: Path {
            folder: 0,
            place,
            name: FileName::copied(alloc, name.as_bytes())?,
        },
        bytes: Bytes::copied(alloc, BODY)?,
        stamp: 0,
    })
}

// A world over a file in each of tmp, new and cur.
fn loaded(alloc: Global) -> Result<World<IndexDirs>, CoreError> {
    let mut image = Vec::new(alloc);
    image.push(file(alloc, Place::Tmp, "t")?)?;
    image.push(file(alloc, Place::New, "n")?)?;
    image.push(file(alloc, Place::Cur, "c:2,S")?)?;
    match IndexDirs::from_image(alloc, 1, image).ok() {
        Some(dirs) => load(alloc, dirs),
        None => Err(CoreError::NoMemory),
    }
}

// Whether a delivery is refused since its name is used. That takes no memory.
fn is_refused(alloc: Global, world: &mut World<IndexDirs>, name: &str) -> Result<bool, CoreError> {
    let call = letter(alloc, 0, name)?;
    match world.submit(call).err() {
        Some(refused) => Ok(refused.error == CoreError::NameUsed),
        None => Ok(false),
    }
}

// Whether the names of all three files are refused.
fn are_refused(alloc: Global, world: &mut World<IndexDirs>) -> Result<bool, CoreError> {
    let is_in_tmp = is_refused(alloc, world, "t")?;
    let is_in_new = is_refused(alloc, world, "n")?;
    let is_in_cur = is_refused(alloc, world, "c")?;
    Ok(is_in_tmp && is_in_new && is_in_cur)
}

/// Whether used names are refused to the first call of a world, and to a later one, with that of the call between.
pub(super) fn stay_used(alloc: Global) -> Result<bool, CoreError> {
    let mut world = loaded(alloc)?;
    let is_first = are_refused(alloc, &mut world)?;
    submitted(&mut world, letter(alloc, 0, "x")?)?;
    let is_later = are_refused(alloc, &mut world)?;
    let is_made = is_refused(alloc, &mut world, "x")?;
    Ok(is_first && is_later && is_made && world.jobs() == 1)
}

#[test]
fn used_names_are_refused(rt: HostRuntime) {
    plays(&rt, rt.alloc(), Scene::Used);
}
