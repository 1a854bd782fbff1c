//! Refusals: how a job ends that has not done what its call asks.
ghost use Rattle.std.specs.Prelude.{◌≡◌};
ghost use Rattle.md_jobs.specs.Machines.Refusals.{refused_by};

use crate::answer::Answer;

/// Why a job had no effect.
#[derive(Clone, Copy)]
pub enum Refusal {
    /// No message of that name is where the call acts.
    NotThere,
    /// The message hasn't the flag T (trashed).
    NotTrashed,
    /// The message has info that holds no flags.
    OtherInfo,
    /// The name that is to be made is there: a message's, or that of a file in tmp.
    NameTaken,
    /// The name was gone at the act in each of the tries.
    Lost,
    /// A delivery took 24 hours or more.
    TimedOut,
    /// The file of a delivery was gone from tmp.
    TmpGone,
    /// A directory call faulted, or was replied what no world replies to it.
    Fault,
}

impl Refusal {
    /// The answer that says so.
    pub(crate) fn answer(self) -> Answer
        ensures { result ≡ refused_by self }
    {
        match self {
            Refusal::NotThere => Answer::NotThere,
            Refusal::NotTrashed => Answer::NotTrashed,
            Refusal::OtherInfo => Answer::OtherInfo,
            Refusal::NameTaken => Answer::NameTaken,
            Refusal::Lost => Answer::Lost,
            Refusal::TimedOut => Answer::TimedOut,
            Refusal::TmpGone => Answer::TmpGone,
            Refusal::Fault => Answer::Fault,
        }
    }
}
