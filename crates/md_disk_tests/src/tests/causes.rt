//! Why calls on a disk are not done.
use super::HIGH;
use super::act::Job::{Deliver, Errand};
use super::act::Wanted::Fault;
use super::act::Wish::{Expunge, Move};
use super::beside::Beside::{Has, Lacks, Maildir, Make, Put, Refused, Remove};
use super::keeping::Kept::{Because, Hint, NoCause};
use super::scene::play;
use super::step::Step;
use super::step::Step::{Beside, Job, Keep};
use md_dirs::Place::Cur;
use md_disk::Cause;
use std::io::ErrorKind;

static CAUSES: [Step<'static>; 28] = [
    Keep(Hint(Cur, "u:2,S")),
    Keep(NoCause),
    // A delivery under a name that is no text.
    Job(Deliver(HIGH), Fault),
    Keep(Because(Cause::NotText)),
    // A message that goes where its name is.
    Beside(Put("inbox/cur/u:2,S")),
    Beside(Put("other/cur/u:2,S")),
    Job(Errand(0, "u", 1, Move(1)), Fault),
    Keep(Because(Cause::NameTaken)),
    // A message of two names.
    Beside(Put("inbox/cur/u:2,T")),
    Job(Errand(0, "u", 1, Expunge), Fault),
    Keep(Because(Cause::TwoNames)),
    // A delivery into a folder without new leaves nothing in tmp.
    Beside(Remove("inbox/new")),
    Job(Deliver("u"), Fault),
    Keep(Because(Cause::NoPlace)),
    Beside(Lacks("inbox/tmp/u")),
    // A message that was to go there stays, and isn't taken for gone.
    Beside(Put("other/new/v")),
    Job(Errand(1, "v", 1, Move(0)), Fault),
    Keep(Because(Cause::NoPlace)),
    Beside(Has("other/new/v")),
    Beside(Make("inbox/new")),
    // A delivery into a folder whose tmp is not there, and then is a file.
    Beside(Maildir("inbox")),
    Beside(Remove("inbox/tmp")),
    Job(Deliver("u"), Fault),
    Keep(Because(Cause::NoDirectory)),
    Beside(Put("inbox/tmp")),
    Job(Deliver("u"), Fault),
    Keep(Because(Cause::System(ErrorKind::NotADirectory))),
    Beside(Refused("inbox")),
];

#[test]
fn refusals_have_causes(rt: HostRuntime) {
    play(&rt, rt.alloc(), false, &CAUSES);
}
