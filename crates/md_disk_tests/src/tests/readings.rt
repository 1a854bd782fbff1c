//! What one reading of a folder tells many errands, and when an errand reads for itself.
use super::act::Job::Errand;
use super::act::Wanted::{Fault, Flags, Lost, NotThere};
use super::act::Wish::{Expunge, Flag};
use super::act::{answer_of, ran};
use super::beside::Beside::{Has, Put};
use super::beside::put;
use super::counting::Counted;
use super::keeping::Kept::{Ahead, Because, Hint, OnlyHints, Outdate, Read};
use super::scene::{Stage, play};
use super::step::Look::{Many, ManyFlagged};
use super::step::Step;
use super::step::Step::{Beside, Job, Keep, Look};
use md_dirs::Place::{Cur, New};
use md_disk::{Cause, Disk};
use md_jobs::{CoreError, DirReply};

// So many messages are flagged, of which every second one has the flag.
const MANY: u64 = 500;

// A directory that does not rest is read so often, by the page on jobs on a disk.
const READINGS: u64 = 100;

// One reading tells many errands what they act on, what they keep, and that there is no such message. It tells a message once.
static MANY_SERVED: [Step<'static>; 11] = [
    Look(Many),
    Keep(Ahead(0, DirReply::Ok)),
    Keep(Read(0, 2 * READINGS)),
    Look(ManyFlagged),
    Beside(Has("inbox/cur/m0:2,S")),
    Beside(Has("inbox/cur/m1:2,S")),
    Job(Errand(0, "m", 2, Flag("S", "")), NotThere),
    Job(Errand(0, "m", 2, Expunge), NotThere),
    Keep(Read(0, 0)),
    Job(Errand(0, "m2", 2, Flag("F", "")), Flags("FS")),
    Keep(Read(1, 1)),
];

// Two names that rest are a fault without another reading. What is outdated tells no more than what is acted on.
static OUTDATED: [Step<'static>; 13] = [
    Beside(Put("inbox/cur/u:2,")),
    Beside(Put("inbox/cur/u:2,F")),
    Beside(Put("inbox/cur/v:2,S")),
    Beside(Put("inbox/cur/w:2,")),
    Keep(Ahead(0, DirReply::Ok)),
    Keep(Read(0, u64::MAX)),
    Job(Errand(0, "u", 2, Flag("S", "")), Fault),
    Keep(Because(Cause::TwoNames)),
    Keep(Outdate),
    Job(Errand(0, "w", 2, Flag("S", "")), Flags("S")),
    Keep(Read(0, 0)),
    Job(Errand(0, "v", 2, Flag("S", "")), Flags("S")),
    Keep(Read(1, u64::MAX)),
];

// Where no directory rests, an errand is told what it acts on, and for anything else it reads for itself.
static RESTLESS: [Step<'static>; 9] = [
    Beside(Put("inbox/cur/u:2,")),
    Beside(Put("inbox/cur/v:2,S")),
    Keep(Ahead(0, DirReply::Ok)),
    Keep(Read(2 * READINGS, 2 * READINGS)),
    Job(Errand(0, "u", 2, Flag("S", "")), Flags("S")),
    Keep(Read(0, 0)),
    Job(Errand(0, "v", 2, Flag("S", "")), Fault),
    Keep(Because(Cause::NeverRests)),
    Keep(Read(READINGS, READINGS)),
];

// By hints alone no directory is read: not without a hint, not by one that is out of date, and not by one that is not acted on.
static HINTS_ALONE: [Step<'static>; 14] = [
    Beside(Put("inbox/cur/u:2,F")),
    Keep(OnlyHints(true)),
    Job(Errand(0, "u", 1, Flag("S", "")), Fault),
    Keep(Because(Cause::NotRead)),
    Keep(Hint(Cur, "u:2,")),
    Job(Errand(0, "u", 1, Flag("S", "")), Lost),
    Keep(Hint(New, "u")),
    Job(Errand(0, "u", 1, Flag("S", "")), Fault),
    Keep(Hint(Cur, "u:2,F")),
    Job(Errand(0, "u", 2, Expunge), Fault),
    Job(Errand(0, "u", 1, Flag("S", "")), Flags("FS")),
    Keep(Read(0, 0)),
    Keep(OnlyHints(false)),
    Job(Errand(0, "u", 1, Flag("S", "")), Flags("FS")),
];

/// Whether many messages are put into cur.
pub(super) fn are_many<H: Counted>(stage: &Stage<'_, H>) -> Result<bool, CoreError> {
    for number in 0..MANY {
        let letters = if number % 2 == 0 { "" } else { "S" };
        let name = format!(in stage.alloc; "inbox/cur/m{number}:2,{letters}")?;
        if !put(stage, name.as_str())? {
            return Ok(false);
        }
    }
    Ok(true)
}

/// Whether each of the many gets the flag.
pub(super) fn are_flagged<'h, H: Counted>(
    stage: &Stage<'h, H>,
    disk: &mut Disk<'h, H>,
) -> Result<bool, CoreError> {
    for number in 0..MANY {
        let unique = format!(in stage.alloc; "m{number}")?;
        let answer = ran(stage.alloc, disk, 0, unique.as_str(), 2, Flag("S", ""))?;
        if answer != answer_of(Flags("S")) {
            return Ok(false);
        }
    }
    Ok(true)
}

#[test]
fn readings_that_serve_many(rt: HostRuntime) {
    let scenes: [&[Step<'static>]; 3] = [&MANY_SERVED, &OUTDATED, &HINTS_ALONE];
    for steps in scenes {
        play(&rt, rt.alloc(), false, steps);
    }
}

#[test]
fn directories_that_never_rest(rt: HostRuntime) {
    play(&rt, rt.alloc(), true, &RESTLESS);
}
