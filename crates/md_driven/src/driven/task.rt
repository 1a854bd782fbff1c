//! The steps of a driven job's task.
ghost use Rattle.std.specs.Prelude.{◌≡◌, Ok, IfOk, IfErr, OnErr};
ghost use Rattle.md_jobs.specs.Machines.Clean.{cleaning_turn};
ghost use Rattle.md_jobs.specs.Machines.Deliver.{delivery_turn};
ghost use Rattle.md_jobs.specs.Machines.Errand.{errand_turn};
ghost use Rattle.md_jobs.specs.Tasks.Views.Errands.{errand_view};
ghost use Rattle.md_core.specs.Machine.{turn_of};
ghost use Rattle.md_core.specs.Tasks.Views.Tasks.{task_view};
ghost use Rattle.md_script.specs.declared.error.PlayKind.TheVariants.{NoMemory};
ghost use Rattle.md_driven.specs.Driving.{LaysAsked, Took};
ghost use Rattle.md_driven.specs.Numbers.{status_number};
ghost use Rattle.md_driven.specs.declared.refusal.Refusal.TheVariants.{Kind};

use crate::driven::rows::{first_named, old_names};
use crate::refusal::{NO_MEMORY, Refusal};
use crate::request::{RequestShown, lay_request};
use md_core::Task;
use md_dirs::Row;
use md_jobs::{Cleaning, Delivery, DirReply, Errand, Moment, StepOut};
use std::alloc::Global;

/// The number of a job that is alone with its caller.
const JOB: u64 = 1;

// Takes a delivery's step, by the reply to its call. Refused only when out of memory, and then it is as it was.
fn step_delivery(
    alloc: Global,
    delivery: &mut Delivery,
    at: Moment,
    rows: &[Row],
    reply: DirReply,
) -> Result<StepOut, Refusal>
    ensures took { IfOk result (λ out. Took (delivery_turn JOB delivery.old at) reply rows.now delivery.new out) }
    ensures memory { IfErr result (λ e. e ≡ Kind NoMemory) }
    ensures kept { OnErr result (delivery.new ≡ delivery.old) }
{
    let mut effects = Vec::new(alloc);
    effects.reserve(1)?;
    let Ok(ready) = delivery.ask(alloc, at) else {
        return Err(NO_MEMORY);
    };
    let turned = delivery.take(JOB, ready, reply, &mut effects);
    Ok(turned.out)
}

// Takes an errand's step, by the reply to its call and the rows that were read. Refused only when out of memory, and then it is as it was.
fn step_errand(
    alloc: Global,
    errand: &mut Errand,
    rows: &[Row],
    reply: DirReply,
) -> Result<StepOut, Refusal>
    ensures took { IfOk result (λ out. Took (errand_turn JOB (errand_view errand.old)) reply rows.now (errand_view errand.new) out) }
    ensures memory { IfErr result (λ e. e ≡ Kind NoMemory) }
    ensures kept { OnErr result (errand.new ≡ errand.old) }
{
    let mut effects = Vec::new(alloc);
    effects.reserve(1)?;
    let Ok(ready) = errand.ask(alloc) else {
        return Err(NO_MEMORY);
    };
    let row = first_named(alloc, rows, errand.unique.as_slice())?;
    let turned = errand.take(alloc, JOB, ready, reply, row, &mut effects);
    Ok(turned.out)
}

// Takes a clean's step, by the reply to its call and the rows that were read. Refused only when out of memory, and then it is as it was.
fn step_cleaning(
    alloc: Global,
    cleaning: &mut Cleaning,
    at: Moment,
    rows: &[Row],
    reply: DirReply,
) -> Result<StepOut, Refusal>
    ensures took { IfOk result (λ out. Took (cleaning_turn cleaning.old at.own) reply rows.now cleaning.new out) }
    ensures memory { IfErr result (λ e. e ≡ Kind NoMemory) }
    ensures kept { OnErr result (cleaning.new ≡ cleaning.old) }
{
    let old = old_names(alloc, rows, at.own)?;
    let turned = cleaning.take(reply, old);
    Ok(turned.out)
}

/// Takes a step by the reply to the call that was asked for at a moment, and by the rows that were read. Refused only when out of
/// memory, and then the task is as it was.
#[tactic(auto, using(crate::proofs::Wrapping::took_wrapped))]
pub(super) fn step_task(
    alloc: Global,
    task: &mut Task,
    at: Moment,
    rows: &[Row],
    reply: DirReply,
) -> Result<StepOut, Refusal>
    ensures took { IfOk result (λ out. Took (turn_of JOB (task_view task.old) at) reply rows.now (task_view task.new) out) }
    ensures memory { IfErr result (λ e. e ≡ Kind NoMemory) }
    ensures kept { OnErr result (task.new ≡ task.old) }
{
    match task {
        Task::Deliver(delivery) => step_delivery(alloc, delivery, at, rows, reply),
        Task::Errand(errand) => step_errand(alloc, errand, rows, reply),
        Task::Clean(cleaning) => step_cleaning(alloc, cleaning, at, rows, reply),
    }
}

/// Shows the call that was asked for at a moment. Refused out of memory, and `Room`.
pub(super) fn show_task(
    alloc: Global,
    task: &Task,
    at: Moment,
    shown: &mut RequestShown,
    out: &mut [u8],
    length: &mut usize,
) -> Result<(), Refusal>
    ensures { LaysAsked (Ok (turn_of JOB (task_view task.now) at).asked) shown.old shown.new out.old out.new length.old length.new
        (status_number result) }
{
    match task {
        Task::Deliver(delivery) => {
            let ready = delivery.ask(alloc, at).map_err(|_| NO_MEMORY)?;
            lay_request(&delivery.request(&ready), shown, out, length)
        }
        Task::Errand(errand) => {
            let ready = errand.ask(alloc).map_err(|_| NO_MEMORY)?;
            lay_request(&errand.request(&ready), shown, out, length)
        }
        Task::Clean(cleaning) => lay_request(&cleaning.request(), shown, out, length),
    }
}
