//! A message through all jobs.
use super::act::Act::{Job, Shows};
use super::act::Job::{Clean, Deliver, Errand};
use super::act::Wanted::{
    Cleaned, Copied, Delivered, Expunged, Flags, Moved, NotThere, NotTrashed,
};
use super::act::Wish::{Copy, Expunge, Flag, Move, Seen};
use super::act::{Act, are_done};
use super::are_right;
use md_dirs::IndexDirs;
use md_dirs::Place::{Cur, New};
use md_system::InMemory;

/// A message goes through all jobs, from empty folders on.
pub(super) static JOBS: [Act<'static>; 19] = [
    // It is delivered, is seen, and goes to the second folder.
    Job(Deliver("u"), Delivered),
    Shows(0, New, "u", "u"),
    Job(Errand(0, "u", 1, Seen("S")), Flags("S")),
    Shows(0, New, "u", ""),
    Shows(0, Cur, "u", "u:2,S"),
    Job(Errand(0, "u", 1, Move(1)), Moved),
    Shows(0, Cur, "u", ""),
    Shows(1, Cur, "u", "u:2,S"),
    // There it gets flags, and a second name in the first.
    Job(Errand(1, "u", 1, Flag("FR", "S")), Flags("FR")),
    Shows(1, Cur, "u", "u:2,FR"),
    Job(Errand(1, "u", 1, Copy(0, "v")), Copied),
    Shows(0, Cur, "v", "v:2,FR"),
    // It goes once it is trashed, and its copy stays.
    Job(Errand(1, "u", 1, Expunge), NotTrashed),
    Job(Errand(1, "u", 1, Flag("T", "")), Flags("FRT")),
    Job(Errand(1, "u", 1, Expunge), Expunged),
    Job(Errand(1, "u", 1, Expunge), NotThere),
    Shows(1, Cur, "u", ""),
    Shows(0, Cur, "v", "v:2,FR"),
    Job(Clean, Cleaned(0)),
];

#[test]
fn all_jobs_in_memory(rt: HostRuntime) {
    let alloc = rt.alloc();
    let mut one = InMemory::new(IndexDirs::new(alloc, 2), 1000);
    let mut two = InMemory::new(IndexDirs::new(alloc, 2), 1000);
    are_right(
        &rt,
        are_done(alloc, &mut one, &JOBS),
        are_done(alloc, &mut two, &JOBS),
    );
}
