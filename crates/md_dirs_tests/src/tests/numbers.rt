// Calls as numbers, of which each digit to its own base is a part of a call: a thousand that are written, and random ones.
use super::model::Model;
use super::thousand::CALLS;
use super::{Call, Kind};
use md_dirs::{DirError, Dirs, FileName, Path, Place};
use std::alloc::{AllocError, Global};
use std::process::Abort;

// Names that begin alike, with bytes below and above the colon, and the empty one.
static NAMES: &str = "m m! m!:2, m:2, m:2,S m:1 m; mm:2, n:2,F l ";

// Each name in each place of two folders, and seldom in the third, which is not there.
fn paths(alloc: Global) -> Result<Vec<Path>, AllocError> {
    let mut paths = Vec::new(alloc);
    for name in NAMES.split(' ') {
        for place in [Place::Tmp, Place::New, Place::Cur] {
            for folder in [0, 1, 0, 1, 0, 1, 0, 2] {
                paths.push(Path {
                    folder,
                    place,
                    name: FileName::copied(alloc, name.as_bytes())?,
                })?;
            }
        }
    }
    Ok(paths)
}

const PATHS: u32 = 264;

fn path_of<'a>(rt: &impl Abort, paths: &'a [Path], number: u32) -> &'a Path {
    paths.get((number % PATHS) as usize).expect(rt, "a path")
}

// The call of a number.
fn call_of<'a>(rt: &impl Abort, paths: &'a [Path], code: u32) -> Call<'a> {
    let more = code / 8 / PATHS / PATHS % 21;
    let pieces: [&[u8]; 3] = [b"", b"x", b"From "];
    let sought: [&[u8]; 7] = [b"m", b"m!", b"n", b"mm", b"l", b"", b"o"];
    let (kind, bytes) = match code % 8 {
        0 => (Kind::Create, pieces[0]),
        1 => (Kind::Append, pieces[(more % 3) as usize]),
        2 => (Kind::Link, pieces[0]),
        3 => (Kind::Unlink, pieces[0]),
        4 => (Kind::List, pieces[0]),
        5 => (Kind::Find, sought[(more % 7) as usize]),
        _ => (Kind::Rename, pieces[0]),
    };
    Call {
        kind,
        path: path_of(rt, paths, code / 8),
        to: path_of(rt, paths, code / 8 / PATHS),
        bytes,
    }
}

/// A random number, from a state that goes on. Each run has the same ones.
pub fn random(state: &mut u64) -> u32 {
    *state = state
        .wrapping_mul(6364136223846793005)
        .wrapping_add(1442695040888963407);
    (*state >> 33) as u32
}

// Makes the call of a number, and looks at a name and at a row of its directory.
fn play_number<D: Dirs>(
    rt: &impl Abort,
    model: &mut Model,
    dirs: &mut D,
    paths: &[Path],
    (code, at, row): (u32, u32, usize),
    now: u64,
) {
    let _answer = model.play(rt, dirs, call_of(rt, paths, code), now);
    let at = path_of(rt, paths, at);
    let name = at.name.as_slice();
    let is_read = dirs.read(at.folder, at.place, name)
        == model.plain.read(at.folder, at.place, name);
    assert!(rt;
        is_read && model.shows(dirs, at.folder, at.place, row),
        "call {now}"
    );
}

/// Plays so many random calls, or else the written ones.
pub fn play_numbers<D: Dirs>(
    rt: &impl Abort,
    model: &mut Model,
    dirs: &mut D,
    count: Option<usize>,
) -> Result<(), DirError> {
    let paths = paths(model.alloc)?;
    let mut state = 20260712u64;
    for now in 0..count.unwrap_or(CALLS.len()) {
        let parts = match CALLS.get(now) {
            Some(code) if count.is_none() => (*code, *code / 8, now % 8),
            _ => {
                let code = random(&mut state);
                (code, code / 512, (code / 64 % 8) as usize)
            }
        };
        play_number(rt, model, dirs, &paths, parts, now as u64);
    }
    Ok(())
}
