//! One step of a job.
ghost use Rattle.std.specs.Prelude.{◌≡◌, ◌+◌, ◌<◌, length, MatchResult, Some, None, IfOk, OnOk, OnErr};
ghost use Rattle.md_jobs.specs.Asked.{is_fault};
ghost use Rattle.md_core.specs.Machine.{occurrence, job_at};
ghost use Rattle.md_core.specs.Standing.{standings};
ghost use Rattle.md_core.specs.Runs.{jobs_of, and_event, step_refusal, IsRefusal};
ghost use Rattle.md_core.specs.Interleaving.{Interleaves};
ghost use Rattle.md_core.specs.Tracing.{trace_of};
ghost use Rattle.md_core.specs.Stepping.{ShowsStep};

use crate::jobs::job::Job;
use crate::world::World;
use md_dirs::Dirs;
use md_jobs::{CoreError, Event, JobId, Moment, StepOut};

// How far a job is that is there and has no answer.
fn unanswered(jobs: &[Job], job: JobId) -> Result<usize, CoreError>
    ensures refused { MatchResult result
        (λ _. step_refusal (job_at (standings jobs.now) job) ≡ None)
        (λ e. step_refusal (job_at (standings jobs.now) job) ≡ Some e) }
    ensures place { IfOk result (λ at. (at + 1 ≡ job) × (at < length jobs.now)) }
{
    if job == 0 || job > jobs.len() as u64 {
        return Err(CoreError::NoJob);
    }
    let at = (job - 1) as usize;
    match jobs[at].answer() {
        Some(_) => Err(CoreError::Answered),
        None => Ok(at),
    }
}

impl<D: Dirs> World<D> {
    /// Where a step of a job would be refused, out of memory aside: there is no such job, or it has its answer.
    pub fn refusal(&self, job: JobId) -> Option<CoreError>
        ensures { result ≡ step_refusal (job_at (jobs_of self.now) job) }
    {
        unanswered(&self.jobs, job).err()
    }

    /// Makes the next directory call of a job, at a moment in seconds: the clock becomes the greater of itself and `now`, and stamps what is
    /// made and written. `own` is the moment by the clock of the job's host, which times its delivery and the age of files; a job without
    /// one goes by the clock.
    ///
    /// It is refused as `NoJob` where there is no such job, and as `Answered` where the job has its answer; then, where a growth is
    /// refused, as `NoMemory`. A refusal took no step, and nothing has changed.
    pub fn step(&mut self, job: JobId, now: u64, own: Option<u64>) -> Result<StepOut, CoreError>
        // The run goes on by this one event, and by nothing else. `laws` say what follows of that.
        ensures event { IfOk result (λ out. self.new ≡ and_event self.old (occurrence job now own (is_fault out.reply))) }
        ensures shows { IfOk result (λ out. ShowsStep self.old self.new (occurrence job now own (is_fault out.reply)) out) }
        ensures refused { MatchResult result (λ _. step_refusal (job_at (jobs_of self.old) job) ≡ None)
            (IsRefusal (step_refusal (job_at (jobs_of self.old) job))) }
        ensures unchanged { OnErr result (self.new ≡ self.old) }
        ensures theorem { OnOk result (Interleaves (trace_of self.new)) }
    {
        let at = unanswered(&self.jobs, job)?;
        self.log.reserve()?;
        let clock = self.clock.max(now);
        let moment = Moment {
            clock,
            own: own.unwrap_or(clock),
        };
        let effects = &mut self.log.effects;
        let turned = self.jobs[at].turn(self.alloc, &mut self.dirs, job, moment, effects)?;
        self.clock = clock;
        let event = Event { job, now, own };
        self.log.push(event, turned.out.reply.is_fault());
        Ok(turned.out)
    }
}
