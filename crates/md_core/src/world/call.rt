//! A call from its submit to its answer.
ghost use Rattle.std.specs.Prelude.{◌≡◌, None, Some, IfOk};
ghost use Rattle.md_core.specs.Machine.{job_at};
ghost use Rattle.md_core.specs.Mailbox.{mailbox_of};
ghost use Rattle.md_core.specs.Runs.{dirs_of, jobs_of, answer_of, IsRefusal};
ghost use Rattle.md_core.specs.Submitting.{submit_refusal};
ghost use Rattle.md_core.specs.Stepping.{IsRun, Succeeds};
ghost use Rattle.md_core.specs.Interleaving.{Interleaves};
ghost use Rattle.md_core.specs.Tracing.{trace_of};
ghost use Rattle.md_core.specs.Laws.{HasJob};
ghost use Rattle.md_core.specs.Calling.{next_job, GoesOnBy, StepsAlone, OthersStay, HasAnswer, IsUnanswered, AnswersAlone, AnswersAsAlone};
ghost use Rattle.md_core.specs.Calling.{IfRefused, IfSubmitted, IfStopped};

use crate::world::World;
use crate::world::submit::SubmitRefused;
use md_dirs::Dirs;
use md_jobs::{Answer, Call, JobId};
use thiserror::Error;

/// Why a call has no answer.
#[derive(Debug, Drop, Error)]
pub enum CallError {
    /// It was not submitted: nothing has changed, and the call comes back.
    #[error("{}", .0.error)]
    Refused(SubmitRefused),
    /// A growth was refused amid the steps of its job. The job is there, has no answer, and may be stepped on.
    #[error("no memory amid the steps of job {job}")]
    NoMemory { job: JobId },
}

impl<D: Dirs> World<D> {
    // Takes steps of a job that is there, all at one moment, until it has its answer. It has none only where a growth was refused.
    fn finish(&mut self, job: JobId, now: u64, own: Option<u64>) -> Option<Answer>
        requires run { IsRun self.old }
        requires there { HasJob self.old job }
        ensures run { IsRun self.new }
        ensures there { HasJob self.new job }
        ensures goes { GoesOnBy (record { job = job; now = now; own = own }) self.old self.new }
        ensures answer { result ≡ answer_of (job_at (jobs_of self.new) job) }
        ensures others { OthersStay job self.old self.new }
    {
        while self.answer(job).is_none() {
            if let Err(_) = self.step(job, now, own) {
                return None;
            }
        }
        self.answer(job)
    }

    /// Submits a call and takes the steps of its job until it has its answer, all at one moment, in seconds by two clocks as in `step`. No
    /// other job steps between, so it answers as the call does alone, and leaves the mailbox so. A directory call that faults is no error but
    /// an answer: `Answer::Fault`, and the mailbox is as it was; or `Answer::Delivered` where the delivery was done by then.
    ///
    /// It is refused as `submit` refuses: nothing has changed, and the call comes back. Where a growth is refused amid the steps it ends as
    /// `NoMemory`, with the number of the job. That job may have taken effect: a delivery does so before its last step.
    ///
    /// It costs the steps of its job: a delivery takes at most one for each piece of its body and three more, a move and a copy three for each
    /// try, the other errands two, and a clean one for each name of tmp and one more.
    pub fn call(&mut self, call: Call, now: u64, own: Option<u64>) -> Result<Answer, CallError>
        ensures submitted { IfSubmitted result (submit_refusal self.old call ≡ None) }
        ensures refused { IfRefused result (λ r. IsRefusal (submit_refusal self.old call) r.error) }
        ensures given_back { IfRefused result (λ r. r.call ≡ call) }
        ensures unchanged { IfRefused result (λ _. self.new ≡ self.old) }
        // The run goes on by the call and by steps of its job at this moment, and by nothing else.
        ensures goes { IfSubmitted result (StepsAlone call now own self.old self.new) }
        ensures others { IfSubmitted result (OthersStay (next_job self.old) self.old self.new) }
        ensures answered { IfOk result (HasAnswer self.new (next_job self.old)) }
        ensures success { IfOk result (λ a. Succeeds self.new (next_job self.old) (Some a)) }
        // What a caller sees: the call did what it does alone, or nothing; and it answers as alone, unless a directory call faulted.
        ensures alone { IfOk result (AnswersAlone call (mailbox_of (dirs_of self.old)) (mailbox_of (dirs_of self.new))) }
        ensures exact { IfOk result (AnswersAsAlone call (mailbox_of (dirs_of self.old)) (mailbox_of (dirs_of self.new))) }
        ensures number { IfStopped result (λ job. job ≡ next_job self.old) }
        ensures stopped { IfStopped result (IsUnanswered self.new) }
        ensures theorem { Interleaves (trace_of self.new) }
    {
        self.interleaves();
        let job = match self.submit(call) {
            Ok(job) => job,
            Err(refused) => return Err(CallError::Refused(refused)),
        };
        match self.finish(job, now, own) {
            Some(answer) => Ok(answer),
            None => Err(CallError::NoMemory { job }),
        }
    }
}
