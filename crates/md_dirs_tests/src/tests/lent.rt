// Rows that are lent many at once, in directories about as big as what is lent at once. No clause says that hashed directories lend so many,
// also behind a call that may fail.
use super::cases::{Case, play};
use super::many::play_call;
use super::model::{Model, is_same};
use super::{Call, Kind, numbered};
use md_dirs::{DirError, Dirs, FailAt, IndexDirs, Place, PlainDirs};
use std::process::Abort;

// Makes so many files in cur, with stamps and sizes of their own, in an order that is not that of their names.
fn fill<D: Dirs>(
    rt: &impl Abort,
    model: &mut Model,
    dirs: &mut D,
    count: u32,
) -> Result<(), DirError> {
    for number in 0..count {
        let name = number.wrapping_mul(331) % count.max(1);
        let path = numbered(model.alloc, b"", name, 4, b"")?;
        let mut call = Call {
            kind: Kind::Create,
            path: &path,
            to: &path,
            bytes: &b"From "[..(number % 6) as usize],
        };
        let _made = model.play(rt, dirs, call, 0);
        call.kind = Kind::Append;
        let _grown = model.play(rt, dirs, call, u64::from(number));
    }
    Ok(())
}

// So many looks at most lend all rows from a position on, and no other.
fn lends_from<D: Dirs>(
    rt: &impl Abort,
    model: &Model,
    dirs: &D,
    from: usize,
    most: usize,
) -> Result<(), DirError> {
    let mut at = from;
    let mut lent = 0;
    for _ in 0..=most {
        let rows = dirs.rows_from(model.alloc, 0, Place::Cur, at)?;
        lent = rows.len();
        for row in rows {
            assert!(rt;
                is_same(Some(row), model.plain.row_at(0, Place::Cur, at)),
                "from {from}"
            );
            at = at.saturating_add(1);
        }
    }
    assert!(rt;
        lent == 0 && at >= model.plain.count(0, Place::Cur),
        "from {from}"
    );
    Ok(())
}

// A listing keeps the rows of old files, in their order, and no other.
fn lists_old<D: Dirs>(
    rt: &impl Abort,
    model: &Model,
    dirs: &mut D,
    now: u64,
    seconds: u64,
) -> Result<(), DirError> {
    let mut old = dirs.list_old(model.alloc, 0, Place::Cur, now, seconds)?;
    for at in 0..model.plain.count(0, Place::Cur) {
        let Some(row) = model.plain.row_at(0, Place::Cur, at) else {
            continue;
        };
        if now.saturating_sub(row.stamp()) >= seconds {
            let name = old.pop_front();
            assert!(rt;
                name.is_some_and(|name| name.as_slice() == row.name()),
                "row {at}"
            );
        }
    }
    assert!(rt; old.is_empty(), "old at {now}");
    Ok(())
}

/// Fills directories, and looks at their rows before a listing and after it, from positions about those that are lent at once. Then it lists
/// those of old files.
pub fn lend_all<D: Dirs>(
    rt: &impl Abort,
    model: &mut Model,
    dirs: &mut D,
    count: u32,
    most: usize,
) -> Result<(), DirError> {
    fill(rt, model, dirs, count)?;
    lends_from(rt, model, dirs, 0, most)?;
    let path = numbered(model.alloc, b"", 0, 0, b"")?;
    play_call(rt, model, dirs, Kind::List, &path, &path);
    assert!(rt;
        model.is_alike_in(dirs, 0, Place::Cur) && dirs.count(0, Place::Cur) == count as usize
    );
    for from in [
        0, 1, 127, 128, 254, 255, 256, 257, 511, 998, 999, 1000, 1001,
    ] {
        lends_from(rt, model, dirs, from, most)?;
    }
    for seconds in [0, 1, 255, 256, 257, 1000] {
        lists_old(rt, model, dirs, 600, seconds)?;
    }
    Ok(())
}

#[test]
fn rows_are_lent_as_they_are_listed(rt: HostRuntime) {
    for count in [0, 1, 255, 256, 257, 1000] {
        let one_each = Case::Lent(count, count as usize);
        let many_each = Case::Lent(count, count as usize / 128 + 1);
        let mut plain = PlainDirs::new(rt.alloc(), 2);
        play(&rt, rt.alloc(), &mut plain, one_each, 0);
        let mut hashed = IndexDirs::new(rt.alloc(), 2);
        play(&rt, rt.alloc(), &mut hashed, many_each, 0);
        let mut hashed = FailAt::new(IndexDirs::new(rt.alloc(), 2), 0);
        play(&rt, rt.alloc(), &mut hashed, many_each, 0);
    }
}
