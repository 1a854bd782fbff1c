// Many names in one directory of hashed directories, whose order is made now and then.
use super::cases::{Case, Ends, play};
use super::model::Model;
use super::numbers::random;
use super::{Call, Kind, numbered};
use md_dirs::{Bytes, DirError, Dirs, FileName, IndexDirs, Path, Place};
use std::alloc::{AllocError, Global};
use std::process::Abort;

// So many names at most are looked at by their positions also where their order isn't made.
const FEW: u32 = 40;

// So many at most, each time that one goes.
const FEWEST: usize = 12;

// The path of a number. There are four shapes: alike in more than 16 bytes, shorter than that, and with bytes 0 or 255 in front; and each
// comes with a byte 0 behind it too, so that a short name and a longer one have one sort key.
fn path_of(alloc: Global, number: u32) -> Result<Path, AllocError> {
    let before: &[u8] = match number % 4 {
        0 => b"1700000000.M123456P",
        1 => b"",
        2 => b"\x00\x00",
        _ => b"\xff\xff",
    };
    let behind: &[u8] = if number / 4 % 2 == 0 { b"" } else { b"\0" };
    numbered(alloc, before, number / 8, 4, behind)
}

// A unique name of a number, in one of four shapes: alike in more than 16 bytes, shorter than that, and with a byte 0 or 255 behind it.
// Those of one shape and length begin alike, and some are the beginnings of others.
fn unique_of(alloc: Global, number: u32) -> Result<Path, AllocError> {
    let before: &[u8] = if number % 2 == 0 {
        b"1700000000.M123456P"
    } else {
        b""
    };
    let behind: &[u8] = match number / 2 % 4 {
        0 | 1 => b"",
        2 => b"\0",
        _ => b"\xff",
    };
    let digits = match number / 8 {
        0 => 0,
        1..10 => 1,
        10..100 => 2,
        100..1000 => 3,
        _ => 4,
    };
    numbered(alloc, before, number / 8, digits, behind)
}

// A unique name and what comes behind it: information, or bytes below and above the colon.
fn message_of(alloc: Global, number: u32, behind: u32) -> Result<Path, AllocError> {
    let mut path = unique_of(alloc, number)?;
    let mut name = Bytes::copied(alloc, path.name.as_slice())?;
    name.extend(match behind % 8 {
        0 => b"",
        1 => b":2,",
        2 => b":2,S",
        3 => b"9:2,",
        4 => b";2,",
        5 => b":",
        6 => b"\x00",
        _ => b"\xff",
    })?;
    path.name = FileName::of(name);
    Ok(path)
}

/// Makes a call on one path or two.
pub fn play_call<D: Dirs>(
    rt: &impl Abort,
    model: &mut Model,
    dirs: &mut D,
    kind: Kind,
    path: &Path,
    to: &Path,
) {
    let bytes = path.name.as_slice();
    let call = Call {
        kind,
        path,
        to,
        bytes,
    };
    let _answer = model.play(rt, dirs, call, 1);
}

// A change of one kind or another among so many names: one is made or taken away, renamed or linked.
fn change<D: Dirs>(
    rt: &impl Abort,
    model: &mut Model,
    dirs: &mut D,
    state: &mut u64,
    names: u32,
) -> Result<(), DirError> {
    let names = names.max(1);
    let number = random(state) % names;
    let path = path_of(model.alloc, number)?;
    let kind = match random(state) % 5 {
        0 => Kind::Rename,
        1 => Kind::Link,
        _ if model.has(&path) => Kind::Unlink,
        _ => Kind::Create,
    };
    let other = if matches!(kind, Kind::Rename | Kind::Link) {
        random(state) % names
    } else {
        number
    };
    play_call(rt, model, dirs, kind, &path, &path_of(model.alloc, other)?);
    Ok(())
}

pub fn changes<D: Dirs>(
    rt: &impl Abort,
    model: &mut Model,
    dirs: &mut D,
    names: u32,
    steps: usize,
) -> Result<(), DirError> {
    let mut state = 20261125u64;
    for step in 1..=steps {
        change(rt, model, dirs, &mut state, names)?;
        let at = (random(&mut state) % names.max(1)) as usize;
        assert!(rt; names > FEW || model.shows(dirs, 0, Place::Cur, at));
        let is_few = names <= FEW && step % 3 == 0;
        if is_few || step % 1000 == 1 || step == steps {
            dirs.arrange(0, Place::Cur)?;
            assert!(rt; model.is_alike_in(dirs, 0, Place::Cur));
        }
    }
    Ok(())
}

// Takes the name at a position away. The rows there, and at a third, are right: looked at now and then, once the order is made, and always
// where few are left.
fn take<D: Dirs>(
    rt: &impl Abort,
    model: &mut Model,
    dirs: &mut D,
    at: usize,
) -> Result<(), DirError> {
    let Some(row) = model.plain.row_at(0, Place::Cur, at) else {
        return Err(DirError::NotFound);
    };
    let path = numbered(model.alloc, row.name(), 0, 0, b"")?;
    let left = model.plain.count(0, Place::Cur);
    play_call(rt, model, dirs, Kind::Unlink, &path, &path);
    if left > FEWEST && left % FEWEST != 0 {
        return Ok(());
    }
    if left > FEWEST {
        dirs.arrange(0, Place::Cur)?;
    }
    assert!(rt; model.shows(dirs, 0, Place::Cur, at) && model.shows(dirs, 0, Place::Cur, left / 3));
    Ok(())
}

/// So many names come in turn, and go from an end or from the middle.
pub fn fill_and_empty<D: Dirs>(
    rt: &impl Abort,
    model: &mut Model,
    dirs: &mut D,
    count: u32,
    ends: Ends,
) -> Result<(), DirError> {
    for number in 0..count {
        let path = path_of(model.alloc, number.wrapping_mul(4))?;
        play_call(rt, model, dirs, Kind::Create, &path, &path);
    }
    assert!(rt; model.is_alike_in(dirs, 0, Place::Cur));
    for gone in 0..count as usize {
        let left = model.plain.count(0, Place::Cur);
        assert!(rt; left == count as usize - gone);
        let at = match ends {
            Ends::First => 0,
            Ends::Last => left.saturating_sub(1),
            Ends::Middle => left / 2,
        };
        take(rt, model, dirs, at)?;
    }
    assert!(rt; dirs.count(0, Place::Cur) == 0);
    Ok(())
}

/// So many messages come, in an order that looks random, and each unique name is sought among them.
pub fn find_all<D: Dirs>(
    rt: &impl Abort,
    model: &mut Model,
    dirs: &mut D,
    count: u32,
) -> Result<(), DirError> {
    let mut state = 20261126u64;
    for _ in 0..count {
        let number = random(&mut state) % count.max(1);
        let path = message_of(model.alloc, number, random(&mut state))?;
        play_call(rt, model, dirs, Kind::Create, &path, &path);
    }
    dirs.arrange(0, Place::Cur)?;
    assert!(rt; model.is_alike_in(dirs, 0, Place::Cur));
    for number in 0..count {
        let path = unique_of(model.alloc, number)?;
        play_call(rt, model, dirs, Kind::Find, &path, &path);
    }
    Ok(())
}

fn play_hashed(rt: &impl Abort, alloc: Global, case: Case) {
    play(rt, alloc, &mut IndexDirs::new(alloc, 2), case, 0);
}

#[test]
fn random_changes_keep_the_order(rt: HostRuntime) {
    for (names, steps) in [
        (1, 100),
        (3, 300),
        (40, 2000),
        (900, 20_000),
        (5000, 40_000),
    ] {
        play_hashed(&rt, rt.alloc(), Case::Changes(names, steps));
    }
}

// As many names as are lent at once, one more or less, and the like of two and three times as many.
#[test]
fn directories_are_filled_and_emptied(rt: HostRuntime) {
    for count in [1, 2, 127, 128, 129, 255, 256, 257, 384, 512] {
        for ends in [Ends::First, Ends::Last, Ends::Middle] {
            play_hashed(&rt, rt.alloc(), Case::Emptied(count, ends));
        }
    }
}

#[test]
fn unique_names_are_found_among_many(rt: HostRuntime) {
    for count in [1, 8, 100, 255, 600, 1000] {
        play_hashed(&rt, rt.alloc(), Case::Found(count));
    }
}
