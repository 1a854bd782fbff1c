// Calls, each from its submission to its answer.
ghost use Rattle.std.specs.Prelude.{◌≡◌, Some, IfOk, IfErr, OnErr};
ghost use mathlib.Core.List.{IsPrefix};
ghost use Rattle.md_store.specs.Calling.{Accepts, Answers, GivesSince, Leaves, Ends, Stops, plain_refusal, IsWhy};
ghost use Rattle.md_store.specs.Ongoing.{GoesOn};
ghost use Rattle.md_store.specs.Locks.{Stands};

use crate::naming::Naming;
use crate::pass::Pass;
use crate::step::{News, StoreStep};
use crate::store::Store;
use md_core::{Answer, Call, CoreError, JobId, SubmitRefused};
use md_dirs::Dirs;
use std::sync::{MutexGuard, Wait};
use thiserror::Error;

/// No memory holds the log of so many steps.
const MOST_STEPS: u64 = 1 << 62;

/// Why a call has no answer that its pass was told of. But for a refused one, the call is a job from then on, and may have taken effect.
#[derive(Debug, Drop, Error)]
pub enum CallError {
    /// The store did not take the call, and nothing has changed. The call comes back.
    #[error("{}", .0.error)]
    Refused(SubmitRefused),
    /// A growth was refused amid the steps. The job has no answer, and may be stepped on.
    #[error("no memory amid the steps of job {job}")]
    NoMemory { job: JobId },
    /// Another thread stepped the job to its answer, and was given it.
    #[error("job {job} was answered elsewhere")]
    Unanswered { job: JobId },
    /// The job has this answer. Memory for publishing its effect was refused, and the pass was not told of it. A later step of any job
    /// publishes it first, and `catch_up` publishes it without one.
    #[error("job {job} was answered, and not published yet")]
    Untold { job: JobId, answer: Answer },
}

impl<D: Dirs, J: Naming> Store<D, J> {
    /// Submits a call and steps its job until that has its answer, each step at the moments `now` and `own`, in seconds, as `step` takes
    /// them. Other threads may step other jobs between. The answer is one of this call, in the store's own run, of which the pass was told.
    /// If it says that the call took effect, the pass was told of that effect, too. Of the moments the contract says what the step was given
    /// that answered, and not what those before it were.
    ///
    /// It takes the lock once for the submission and once a step: as many as the job makes directory calls. Refused `Refused` as `submit`
    /// is, else `NoMemory`, else `Unanswered` where another thread stepped this job to its answer, else `Untold` with the answer where
    /// memory for publishing the effect of the last step was refused.
    pub fn call<R: Wait>(
        &self,
        rt: &R,
        pass: &mut Pass<J>,
        call: Call,
        now: u64,
        own: Option<u64>,
    ) -> Result<Answer, CallError>
        ensures held { IsPrefix pass.old.history pass.new.history }
        ensures own { GoesOn pass.old.run pass.new.run }
        ensures answer { IfOk result (λ a. Answers J.begun J.opening.folders call now own a pass.old pass.new) }
        ensures error { IfErr result (λ e. Leaves J.begun J.opening.folders call now own e pass.old pass.new) }
    {
        md_core::laws::every_run_interleaves();
        md_core::laws::each_call_has_its_job();
        match self.submit_for(rt, pass, call) {
            Ok(job) => {
                let ended = self.finish(rt, pass, job, now, own);
                pass.is_legal();
                ended
            }
            Err(refused) => Err(CallError::Refused(refused)),
        }
    }

    // Submits a call, as `submit` does, and tells the pass of the run, in which its job is of this call.
    fn submit_for<R: Wait>(
        &self,
        rt: &R,
        pass: &mut Pass<J>,
        call: Call,
    ) -> Result<JobId, SubmitRefused>
        ensures job { IfOk result (λ job. Accepts J.begun pass.new.run J.opening.folders call job) }
        ensures own { GoesOn pass.old.run pass.new.run }
        ensures history { pass.new.history ≡ pass.old.history }
        ensures call { IfErr result (λ r. (r.call ≡ call) × IsWhy call (plain_refusal J.opening.folders call) r.error) }
        ensures same { OnErr result (pass.new ≡ pass.old) }
    {
        let mut guard = self.lock(rt);
        guard.lags();
        let made = guard.submit_for(pass, call);
        MutexGuard::unlock(guard);
        made
    }

    // Steps a job until it has its answer.
    fn finish<R: Wait>(
        &self,
        rt: &R,
        pass: &mut Pass<J>,
        job: JobId,
        now: u64,
        own: Option<u64>,
    ) -> Result<Answer, CallError>
        ensures held { IsPrefix pass.old.history pass.new.history }
        ensures own { GoesOn pass.old.run pass.new.run }
        ensures answer { IfOk result (λ a. GivesSince J.begun pass.old.run pass.new.run job now own a × Stands (Some a) job pass.new.history) }
        ensures error { IfErr result (λ e. Stops J.begun job now own e pass.old pass.new) }
    {
        'steps: for _ in 0..MOST_STEPS {
            if let Some(ended) = self.go_on(rt, pass, job, now, own) {
                return ended;
            }
        }
        Err(CallError::NoMemory { job })
    }

    // Makes the next step of a job. What ends its call, if it does.
    fn go_on<R: Wait>(
        &self,
        rt: &R,
        pass: &mut Pass<J>,
        job: JobId,
        now: u64,
        own: Option<u64>,
    ) -> Option<Result<Answer, CallError>>
        ensures held { IsPrefix pass.old.history pass.new.history }
        ensures own { GoesOn pass.old.run pass.new.run }
        ensures end { Ends J.begun job now own result pass.old pass.new }
    {
        let StoreStep { out, news } = match self.step(rt, pass, job, now, own) {
            Ok(step) => step,
            Err(CoreError::NoMemory) => return Some(Err(CallError::NoMemory { job })),
            Err(_) => return Some(Err(CallError::Unanswered { job })),
        };
        let Some(answer) = out.answer else {
            return None;
        };
        match news {
            News::NoEffect => Some(Ok(answer)),
            News::Told => Some(Ok(answer)),
            News::Later => Some(Err(CallError::Untold { job, answer })),
        }
    }
}
