// Each case over plain directories, hashed ones, and both behind a call that may fail.
use super::hashing::seed_from;
use super::lent::lend_all;
use super::many;
use super::model::Model;
use super::numbers::play_numbers;
use super::rows::{BODIES, CALLS, play_rows};
use md_dirs::{DirError, Dirs, FailAt, IndexDirs, PlainDirs};
use std::alloc::Global;
use std::process::Abort;

/// In what order names go.
#[derive(Clone, Copy)]
pub enum Ends {
    First,
    Last,
    Middle,
}

/// Calls that are written as rows, a thousand as numbers, or so many random ones; so many changes among some names; names that come and go,
/// or are found; or files whose rows are lent in so many looks at most.
#[derive(Clone, Copy)]
pub enum Case {
    Rows(&'static str),
    Written,
    Random(usize),
    Changes(u32, usize),
    Emptied(u32, Ends),
    Found(u32),
    Lent(u32, usize),
}

/// Plays a case. All calls are right, or memory was wanting before one. The call of the number `due` fails, or none where that is 0.
pub fn play<D: Dirs>(rt: &impl Abort, alloc: Global, dirs: &mut D, case: Case, due: u64) {
    let mut model = Model {
        alloc,
        plain: PlainDirs::new(alloc, 2),
        due,
        calls: 0,
    };
    let done = match case {
        Case::Rows(rows) => play_rows(rt, &mut model, dirs, rows),
        Case::Written => play_numbers(rt, &mut model, dirs, None),
        Case::Random(count) => play_numbers(rt, &mut model, dirs, Some(count)),
        Case::Changes(names, steps) => many::changes(rt, &mut model, dirs, names, steps),
        Case::Emptied(count, ends) => many::fill_and_empty(rt, &mut model, dirs, count, ends),
        Case::Found(count) => many::find_all(rt, &mut model, dirs, count),
        Case::Lent(count, most) => lend_all(rt, &mut model, dirs, count, most),
    };
    assert!(rt; matches!(done, Ok(()) | Err(DirError::NoMemory)));
}

// Over hashed directories, and over plain and hashed ones behind a call that may fail.
fn play_on_each(rt: &impl Abort, case: Case, alloc: Global, due: u64) {
    play(rt, alloc, &mut IndexDirs::new(alloc, 2), case, 0);
    let mut plain = FailAt::new(PlainDirs::new(alloc, 2), due);
    play(rt, alloc, &mut plain, case, due);
    let mut hashed = FailAt::new(IndexDirs::with_seed(alloc, seed_from(1), 2), due);
    play(rt, alloc, &mut hashed, case, due);
}

// The last append of a body fails once.
#[test]
fn written_calls_answer_as_a_file_system(rt: HostRuntime) {
    play_on_each(&rt, Case::Rows(CALLS), rt.alloc(), 0);
    play_on_each(&rt, Case::Rows(BODIES), rt.alloc(), 8);
    play_on_each(&rt, Case::Written, rt.alloc(), 0);
}

// After the many calls each call of a few fails in turn.
#[test]
fn random_calls_answer_alike(rt: HostRuntime) {
    play_on_each(&rt, Case::Random(300_000), rt.alloc(), 0);
    for due in 1..=40 {
        play_on_each(&rt, Case::Random(40), rt.alloc(), due);
    }
}
