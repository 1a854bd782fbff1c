//! Jobs: calls that are submitted, their steps and their answers.
ghost use Rattle.std.specs.Prelude.{◌≡◌, None};
ghost use Rattle.md_core.specs.Machine.{job_at, occurrence};
ghost use Rattle.md_core.specs.Runs.{answer_of, jobs_of, step_refusal};
ghost use Rattle.md_script.specs.Kinds.{core_kind};
ghost use Rattle.md_ffi.specs.Asking.{own_at};
ghost use Rattle.md_ffi.specs.Calling.{no_answer_number, Calls, Comes};
ghost use Rattle.md_driven.specs.Numbers.{core_number, refusal_number};
ghost use Rattle.md_ffi.specs.Doing.{is_job, submitted, Answers, Ends, GivesIn, OnHeld, Steps};
ghost use Rattle.md_driven.specs.Shown.{answer_shown};
ghost use Rattle.md_driven.specs.declared.refusal.Refusal.TheVariants.{Kind};

use crate::asked::{Asked, Brought, Own, call_of};
use crate::handle::Handle;
use md_core::{Answer, CallError, CoreError, JobId, World};
use md_dirs::IndexDirs;
use md_driven::{AnswerShown, NO_MEMORY, Refusal, StepShown};
use md_script::PlayKind;
use std::alloc::Global;

// The refusal of the store.
fn refused(error: CoreError) -> Refusal
    ensures kind { result ≡ Kind (core_kind error) }
    ensures number { refusal_number result ≡ core_number error }
{
    Refusal::Kind(PlayKind::from(error))
}

// Submits a call.
#[tactic(auto, unfolding(crate::specs::Doing::submitted))]
fn submit(
    alloc: Global,
    world: &mut World<IndexDirs>,
    asked: &Asked,
    brought: Brought<'_>,
) -> Result<JobId, Refusal>
    ensures { GivesIn (submitted world.old asked.now brought.entry.unique.now brought.entry.first.now brought.entry.second.now) world.old world.new result }
{
    let call = call_of(alloc, asked, brought)?;
    match world.submit(call) {
        Ok(job) => Ok(job),
        Err(unmade) => Err(refused(unmade.error)),
    }
}

/// Submits a call, and sets `job` to the number of its job. Refused `Closed`; then as `call_of` is; then as a world refuses a call. After
/// a refusal the world is as it was, and so is `job`.
#[unsafe(no_mangle)]
pub extern "C" fn md_ffi_submit(
    alloc: Global,
    handle: &mut Handle,
    asked: &Asked,
    unique: &[u8],
    first: &[u8],
    second: &[u8],
    job: &mut u64,
) -> u32
    ensures { OnHeld handle.old.slot.held handle.new.slot.held result (job.new ≡ job.old)
        (λ old new. Ends (submitted old asked.now unique.now first.now second.now) old new result (λ number. job.new ≡ number)
        (job.new ≡ job.old)) }
{
    let Some(mut held) = handle.take(alloc) else {
        return Refusal::Closed.number();
    };
    let brought = Brought {
        unique,
        first,
        second,
    };
    let submitted = submit(alloc, &mut held.world, asked, brought);
    handle.hold(held);
    match submitted {
        Ok(number) => {
            *job = number;
            0
        }
        Err(refusal) => refusal.number(),
    }
}

/// Takes one step of a job, at a moment in seconds, and shows it. Refused `Closed`, and as a world refuses a step: `NoJob`, `Answered` and
/// out of memory, with the world as it was.
#[unsafe(no_mangle)]
#[tactic(auto, using(crate::proofs::Refused::step_number), unfolding(crate::specs::Doing::Steps))]
pub extern "C" fn md_ffi_step(
    alloc: Global,
    handle: &mut Handle,
    job: u64,
    now: u64,
    own: &Own,
    step: &mut StepShown,
) -> u32
    ensures { OnHeld handle.old.slot.held handle.new.slot.held result (step.new ≡ step.old)
        (λ old new. Steps old new (occurrence job now (own_at own.now)) (step_refusal (job_at (jobs_of old) job)) step.old step.new result) }
{
    let Some(mut held) = handle.take(alloc) else {
        return Refusal::Closed.number();
    };
    let taken = held.world.step(job, now, own.moment());
    handle.hold(held);
    match taken {
        Ok(shown) => {
            *step = StepShown::of(shown);
            0
        }
        Err(error) => refused(error).number(),
    }
}

/// Why a call has no answer.
#[derive(Clone, Copy)]
pub enum NoAnswer {
    /// It was refused, and the world is as it was.
    Refused(Refusal),
    /// Memory ran out amid the steps of its job, which is there.
    Stopped(JobId),
}

impl NoAnswer {
    /// The number of why there is no answer.
    pub(crate) fn number(self) -> u32
        ensures { result ≡ no_answer_number self }
    {
        match self {
            NoAnswer::Refused(refusal) => refusal.number(),
            NoAnswer::Stopped(_) => NO_MEMORY.number(),
        }
    }
}

/// Submits a call, and takes the steps of its job until it is answered.
#[tactic(auto, unfolding(crate::specs::Doing::submitted))]
pub(crate) fn call(
    alloc: Global,
    world: &mut World<IndexDirs>,
    asked: &Asked,
    brought: Brought<'_>,
    now: u64,
    own: Option<u64>,
) -> Result<Answer, NoAnswer>
    ensures { Comes asked.now brought.entry.unique.now brought.entry.first.now brought.entry.second.now now own world.old world.new result }
{
    let call = match call_of(alloc, asked, brought) {
        Ok(call) => call,
        Err(refusal) => return Err(NoAnswer::Refused(refusal)),
    };
    match world.call(call, now, own) {
        Ok(answer) => Ok(answer),
        Err(CallError::Refused(unmade)) => Err(NoAnswer::Refused(refused(unmade.error))),
        Err(CallError::NoMemory { job }) => Err(NoAnswer::Stopped(job)),
    }
}

/// Submits a call, and takes the steps of its job at one moment, in seconds, until it is answered; sets `job` to its number and `answer` to
/// its answer. No other job steps between, so it answers as the call does alone, and leaves the mailbox so.
///
/// Refused as `md_ffi_submit`, with the world as it was, `job` 0 and no answer; and out of memory amid the steps, with the job there and
/// `job` its number. That job may have taken effect, and may be stepped on.
#[unsafe(no_mangle)]
pub extern "C" fn md_ffi_call(
    alloc: Global,
    handle: &mut Handle,
    asked: &Asked,
    unique: &[u8],
    first: &[u8],
    second: &[u8],
    now: u64,
    own: &Own,
    job: &mut u64,
    answer: &mut AnswerShown,
) -> u32
    ensures { OnHeld handle.old.slot.held handle.new.slot.held result ((job.new ≡ 0) × (answer.new ≡ answer_shown None))
        (λ old new. Calls asked.now unique.now first.now second.now now (own_at own.now) old new result job.new answer.new) }
{
    *job = 0;
    *answer = AnswerShown::of(None);
    let Some(mut held) = handle.take(alloc) else {
        return Refusal::Closed.number();
    };
    let brought = Brought {
        unique,
        first,
        second,
    };
    let outcome = call(alloc, &mut held.world, asked, brought, now, own.moment());
    let jobs = held.world.jobs();
    handle.hold(held);
    match outcome {
        Ok(given) => {
            *job = jobs;
            *answer = AnswerShown::of(Some(given));
            0
        }
        Err(NoAnswer::Stopped(number)) => {
            *job = number;
            NO_MEMORY.number()
        }
        Err(NoAnswer::Refused(refusal)) => refusal.number(),
    }
}

/// The answer of a job, if it has one. Refused `Closed` and `NoJob`, with `answer` as it was.
#[unsafe(no_mangle)]
pub extern "C" fn md_ffi_answer(
    alloc: Global,
    handle: &mut Handle,
    job: u64,
    answer: &mut AnswerShown,
) -> u32
    ensures same { handle.new.slot.held ≡ handle.old.slot.held }
    ensures answer { OnHeld handle.old.slot.held handle.new.slot.held result (answer.new ≡ answer.old)
        (λ run _. Answers (is_job run job) (answer_of (job_at (jobs_of run) job)) answer.old answer.new result) }
{
    let Some(held) = handle.take(alloc) else {
        return Refusal::Closed.number();
    };
    let is_there = 0 < job && job <= held.world.jobs();
    let given = held.world.answer(job);
    handle.hold(held);
    if !is_there {
        return refused(CoreError::NoJob).number();
    }
    *answer = AnswerShown::of(given);
    0
}
