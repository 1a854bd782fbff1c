//! What no clause says, and neither a built program nor a call of the library for C shows: faults of the directories, what comes back with a
//! refusal, the texts of errors, and what may cross threads. Each scene is played twice, of which one refused allocation anywhere ends one at
//! most. What else it leaves, and worked values of loads, submits, steps and settles, is tested of the library for C, by tools/tests/ffi.
//! Worked runs of all seven calls are scripts, in crates/examples/data/.
mod ends;
mod faults;
mod loads;
mod runs;
mod scene;
mod texts;
mod threads;
mod used;

use md_core::{Answer, Call, CoreError, World};
use md_dirs::{Bytes, Dirs, Place};
use std::alloc::{AllocError, Global};
use std::process::Abort;

// What each file holds.
const BODY: &[u8] = b"hello\n";

// A moment, in seconds, at which the clean of a file that was stamped at 0 takes it.
const NOW: u64 = 129_600;

// The delivery of a body by fours, under a unique name.
fn letter(alloc: Global, folder: u32, unique: &str) -> Result<Call, AllocError> {
    Ok(Call::Deliver {
        folder,
        unique: Bytes::copied(alloc, unique.as_bytes())?,
        body: Bytes::copied(alloc, BODY)?,
        chunk: 4,
    })
}

fn load<D: Dirs + Drop>(alloc: Global, dirs: D) -> Result<World<D>, CoreError> {
    match World::load(alloc, dirs) {
        Ok(world) => Ok(world),
        Err(refused) => Err(refused.error),
    }
}

// Submits a call that is refused for want of memory alone.
fn submitted<D: Dirs>(world: &mut World<D>, call: Call) -> Result<(), CoreError> {
    if world.submit(call).is_ok() {
        Ok(())
    } else {
        Err(CoreError::NoMemory)
    }
}

// The answer of a call that is refused for want of memory alone.
fn called<D: Dirs>(world: &mut World<D>, call: Call, now: u64) -> Result<Answer, CoreError> {
    match world.call(call, now, None).ok() {
        Some(answer) => Ok(answer),
        None => Err(CoreError::NoMemory),
    }
}

fn has_name<D: Dirs>(world: &World<D>, place: Place, at: usize, name: &str) -> bool {
    match world.names(0, place, at) {
        Some(row) => row.name() == name.as_bytes() && row.size() == BODY.len() as u64,
        None => false,
    }
}

// Whether a directory has these names, between spaces and in their order, and no other. Each is of a file of six bytes.
fn has_names<D: Dirs>(world: &World<D>, place: Place, names: &str) -> bool {
    let mut count = 0usize;
    for name in names.split(' ') {
        if !name.is_empty() {
            if !has_name(world, place, count, name) {
                return false;
            }
            count = count.saturating_add(1);
        }
    }
    world.names(0, place, count).is_none()
}

// A scene is played twice, and right. One of both may have lacked memory.
fn are_right(rt: &impl Abort, one: Result<bool, CoreError>, two: Result<bool, CoreError>) {
    let is_right = match (one, two) {
        (Ok(one), Ok(two)) => one && two,
        (Ok(right), Err(CoreError::NoMemory)) | (Err(CoreError::NoMemory), Ok(right)) => right,
        _ => false,
    };
    assert!(rt; is_right);
}
