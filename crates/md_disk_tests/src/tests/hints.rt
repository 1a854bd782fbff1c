//! Hints: what errands do with them is told apart by a disk that shows other names.
use super::act::Job::Errand;
use super::act::Wanted::{Fault, Flags, Moved, NotThere, NotTrashed};
use super::act::Wish::{Expunge, Flag, Move, Seen};
use super::beside::Beside::{Has, Put};
use super::keeping::Kept::{Ahead, Hint};
use super::scene::play;
use super::step::Step;
use super::step::Step::{Beside, Job, Keep};
use md_dirs::Place::{Cur, New};
use md_jobs::DirReply;

// Of two names of one message the hint's is acted on. Without a hint a reading shows both, which is a fault.
static ACTED_ON: [Step<'static>; 6] = [
    Beside(Put("inbox/cur/u:2,")),
    Beside(Put("inbox/cur/u:2,F")),
    Keep(Hint(Cur, "u:2,F")),
    Job(Errand(0, "u", 2, Flag("S", "")), Flags("FS")),
    Beside(Has("inbox/cur/u:2,FS")),
    Job(Errand(0, "u", 2, Flag("R", "")), Fault),
];

// A hint whose name is gone is looked for again, and one that shows the flags already is read again.
static READ_AGAIN: [Step<'static>; 6] = [
    Beside(Put("inbox/cur/u:2,")),
    Keep(Hint(Cur, "u:2,R")),
    Job(Errand(0, "u", 2, Flag("T", "")), Flags("T")),
    Keep(Hint(Cur, "u:2,ST")),
    Job(Errand(0, "u", 2, Flag("S", "")), Flags("ST")),
    Beside(Has("inbox/cur/u:2,ST")),
];

// By a hint in cur a Move takes that name, though new shows the message too: new is not read.
static MOVED: [Step<'static>; 8] = [
    Beside(Put("inbox/new/u")),
    Beside(Put("inbox/cur/u:2,S")),
    Keep(Hint(Cur, "u:2,S")),
    Job(Errand(0, "u", 1, Move(1)), Moved),
    Beside(Has("other/cur/u:2,S")),
    Beside(Has("inbox/new/u")),
    Job(Errand(0, "u", 1, Move(1)), Moved),
    Beside(Has("other/new/u")),
];

// One reading of new and cur serves two errands. What both read is gone at a third, which looks for itself.
static AHEAD: [Step<'static>; 8] = [
    Beside(Put("inbox/new/u")),
    Keep(Ahead(0, DirReply::Ok)),
    Keep(Hint(New, "u")),
    Job(Errand(0, "u", 1, Seen("")), Flags("")),
    Beside(Has("inbox/cur/u:2,")),
    Job(Errand(0, "u", 1, Seen("")), NotThere),
    Job(Errand(0, "u", 1, Expunge), NotTrashed),
    Keep(Ahead(2, DirReply::Fault)),
];

#[test]
fn errands_by_hints(rt: HostRuntime) {
    let scenes: [&[Step<'static>]; 4] = [&ACTED_ON, &READ_AGAIN, &MOVED, &AHEAD];
    for steps in scenes {
        play(&rt, rt.alloc(), false, steps);
    }
}
