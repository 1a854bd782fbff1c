//! Directories of which one call fails, under jobs that are run.
use super::act::Act::{Job, Shows};
use super::act::Job::{Clean, Deliver, Errand};
use super::act::Wanted::{Cleaned, Delivered, Fault, Flags};
use super::act::Wish::Seen;
use super::act::{Act, are_done};
use super::are_right;
use md_dirs::Place::{Cur, New, Tmp};
use md_dirs::{FailAt, PlainDirs};
use md_jobs::CoreError;
use md_system::InMemory;
use std::alloc::Global;

// A file in tmp that is stamped so is 36 hours old at this second.
const LATER: u64 = 130_600;

type Failing = InMemory<FailAt<PlainDirs>>;

// A scene whose call at a number fails, and what follows 36 hours later.
#[derive(Clone, Copy)]
struct Faulty {
    at: u64,
    acts: &'static [Act<'static>],
    later: &'static [Act<'static>],
}

// What a delivery is answered where its call at a number fails, and whether it leaves a name in tmp and in new: a create, two appends, a link
// and an unlink are made. After a fault the name in tmp is taken away.
static FAULT: [Act<'static>; 3] = [
    Job(Deliver("u"), Fault),
    Shows(0, Tmp, "u", ""),
    Shows(0, New, "u", ""),
];

static LEFT: [Act<'static>; 3] = [
    Job(Deliver("u"), Delivered),
    Shows(0, Tmp, "u", "u"),
    Shows(0, New, "u", "u"),
];

static DONE: [Act<'static>; 3] = [
    Job(Deliver("u"), Delivered),
    Shows(0, Tmp, "u", ""),
    Shows(0, New, "u", "u"),
];

// What a delivery leaves in tmp is taken by a clean 36 hours later.
static NOTHING: [Act<'static>; 2] = [Job(Clean, Cleaned(0)), Shows(0, Tmp, "u", "")];

static TAKEN: [Act<'static>; 2] = [Job(Clean, Cleaned(1)), Shows(0, Tmp, "u", "")];

// An errand whose reading or rename fails, the sixth or seventh call, changes nothing; and the next is done.
static SEEN: [Act<'static>; 5] = [
    Job(Deliver("u"), Delivered),
    Job(Errand(0, "u", 1, Seen("S")), Fault),
    Shows(0, New, "u", "u"),
    Job(Errand(0, "u", 1, Seen("S")), Flags("S")),
    Shows(0, Cur, "u", "u:2,S"),
];

fn faulty_delivery(at: u64) -> Faulty {
    match at {
        5 => Faulty {
            at,
            acts: &LEFT,
            later: &TAKEN,
        },
        6 => Faulty {
            at,
            acts: &DONE,
            later: &NOTHING,
        },
        _ => Faulty {
            at,
            acts: &FAULT,
            later: &NOTHING,
        },
    }
}

fn are_done_later(alloc: Global, system: &mut Failing, scene: &Faulty) -> Result<bool, CoreError> {
    let is_first = are_done(alloc, system, scene.acts)?;
    system.system.second = LATER;
    Ok(is_first && are_done(alloc, system, scene.later)?)
}

fn plays(alloc: Global, scene: &Faulty) -> Result<bool, CoreError> {
    let dirs = FailAt::new(PlainDirs::new(alloc, 1), scene.at);
    let mut system = InMemory::new(dirs, 1000);
    are_done_later(alloc, &mut system, scene)
}

#[test]
fn each_call_of_a_delivery_fails(rt: HostRuntime) {
    let alloc = rt.alloc();
    for at in 1..=6 {
        let scene = faulty_delivery(at);
        are_right(&rt, plays(alloc, &scene), plays(alloc, &scene));
    }
}

#[test]
fn each_call_of_an_errand_fails(rt: HostRuntime) {
    let alloc = rt.alloc();
    for at in 6..=7 {
        let scene = Faulty {
            at,
            acts: &SEEN,
            later: &[],
        };
        are_right(&rt, plays(alloc, &scene), plays(alloc, &scene));
    }
}
