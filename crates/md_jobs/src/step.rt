//! Steps, and what they show.
ghost use Rattle.std.specs.Prelude.{◌≡◌};
ghost use Rattle.md_jobs.specs.Asked.{is_fault as is_fault_by};

use crate::answer::Answer;
use crate::call::JobId;
use md_dirs::Place;

/// A step of a job, at a moment in seconds: `now` by the clock of the store, and `own` by that of the job's host, where it has one of
/// its own.
#[derive(Clone, Copy, Debug, PartialEq, Eq)]
pub struct Event {
    pub job: JobId,
    pub now: u64,
    pub own: Option<u64>,
}

/// A moment in seconds, by two clocks: that of the store stamps files, and that of the job's host times its delivery and the age of
/// files.
#[derive(Clone, Copy, Debug, PartialEq, Eq)]
pub struct Moment {
    pub clock: u64,
    pub own: u64,
}

/// The directory call of a step.
#[derive(Clone, Copy, Debug, PartialEq, Eq)]
pub enum DirCall {
    Create,
    /// So many bytes are added.
    Append(u64),
    Link,
    Rename,
    Unlink,
    List(Place),
}

/// What the directories answered.
#[derive(Clone, Copy, Debug, PartialEq, Eq)]
pub enum DirReply {
    /// The call was done.
    Ok,
    /// The name that was to be made is there, as POSIX's EEXIST.
    Exists,
    /// A name or a directory is not there, as POSIX's ENOENT.
    NotFound,
    /// The call failed in another way: any other error of POSIX. The job takes it for not done.
    Fault,
}

impl DirReply {
    /// Whether the call faulted.
    pub fn is_fault(self) -> bool
        ensures { result ≡ is_fault_by self }
    {
        matches!(self, DirReply::Fault)
    }
}

/// What a step did: its directory call, the reply, the job's answer where it has one now, and whether the step is the job's effect.
#[derive(Clone, Copy, Debug, PartialEq, Eq)]
pub struct StepOut {
    pub call: DirCall,
    pub reply: DirReply,
    pub answer: Option<Answer>,
    pub effect: bool,
}
