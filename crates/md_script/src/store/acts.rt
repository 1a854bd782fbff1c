//! What commands do to the jobs of a store, and what they print.
ghost use Rattle.std.specs.Prelude.{◌≡◌, ◌<◌, true, is_some, OnOk};
ghost use Rattle.md_core.specs.Machine.{job_at};
ghost use Rattle.md_core.specs.Runs.{steps_left, jobs_of, answer_of};
ghost use Rattle.md_script.specs.Step.{Steps};
ghost use Rattle.md_script.specs.Held.{MayWait};
ghost use Rattle.md_script.specs.Sessions.{submit_in, step_in, finish_in};

use crate::error::PlayKind;
use crate::observer::Observer;
use crate::storage::Storage;
use crate::store::printing::{push_job, push_step};
use md_core::{Call, Event, World};

/// Submits a call, and prints the number of its job.
pub(super) fn submit<D: Storage, O: Observer<D>>(
    world: &mut World<D>,
    call: Call,
    observer: &mut O,
    out: &mut Vec<u8>,
) -> Result<(), PlayKind>
    ensures submit { Steps (submit_in world.old call) world.new out.old.items out.new.items result }
    ensures waits { MayWait world.old world.new }
{
    // Listings that have begun wait for what is done now.
    md_view::laws::a_listing_may_wait();
    world.interleaves();
    observer.submits(&call);
    let job = world.submit(call)?;
    world.interleaves();
    push_job(out, job)?;
    Ok(())
}

/// Takes one step of a job, and prints it.
pub(super) fn step<D: Storage, O: Observer<D>>(
    world: &mut World<D>,
    event: Event,
    observer: &mut O,
    out: &mut Vec<u8>,
) -> Result<(), PlayKind>
    ensures step { Steps (step_in world.old event) world.new out.old.items out.new.items result }
    ensures waits { MayWait world.old world.new }
    ensures nearer { OnOk result (steps_left world.new event.job < steps_left world.old event.job) }
{
    // Listings that have begun wait for this step.
    md_view::laws::a_listing_may_wait();
    world.interleaves();
    // The kit's borrow checker refuses a `?` here, where no signature names `Answer`.
    let shown = match world.step(event.job, event.now, event.own) {
        Ok(shown) => shown,
        Err(error) => return Err(PlayKind::from(error)),
    };
    world.interleaves();
    // The directories never fail, so that no step is marked.
    let _dirs = world.dirs();
    observer.stepped(world, event, &shown);
    push_step(out, event.job, shown)?;
    Ok(())
}

/// Takes steps of a job until it is answered, all at one moment, and prints them. A job that has its answer
/// is refused.
pub(super) fn finish<D: Storage, O: Observer<D>>(
    world: &mut World<D>,
    event: Event,
    observer: &mut O,
    out: &mut Vec<u8>,
) -> Result<(), PlayKind>
    ensures finish { Steps (finish_in world.old event) world.new out.old.items out.new.items result }
    ensures waits { MayWait world.old world.new }
    ensures answered { OnOk result (is_some (answer_of (job_at (jobs_of world.new) event.job)) ≡ true) }
{
    // A job that was not refused is there after its step, and has a step left until it is answered.
    md_core::laws::a_step_leaves_its_job_there();
    step(world, event, observer, out)?;
    while world.answer(event.job).is_none() {
        step(world, event, observer, out)?;
    }
    Ok(())
}
