//! Tasks: what a job that has no answer does, one kind for each call.
ghost use Rattle.std.specs.Prelude.{◌≡◌};
ghost use Rattle.md_jobs.specs.Turn.{TakesOrEnds, TurnOf};
ghost use Rattle.md_core.specs.Tasks.Views.Tasks.{task_view};
ghost use Rattle.md_core.specs.Machine.{turn_of, new_job, working};

use md_dirs::Dirs;
use md_jobs::{
    Call, Cleaning, CoreError, Delivery, Effect, Errand, JobId, Moment, Purpose, Turned,
};
use std::alloc::Global;

/// What a job does, and how far it has come.
#[derive(Drop)]
pub enum Task {
    Deliver(Delivery),
    Errand(Errand),
    Clean(Cleaning),
}

impl Task {
    /// The task of a call, not begun.
    pub fn new(alloc: Global, call: Call) -> Task
        ensures { working (task_view result) ≡ new_job call }
    {
        let (folder, unique, purpose, tries) = match call {
            Call::Deliver {
                folder,
                unique,
                body,
                chunk,
            } => return Task::Deliver(Delivery::new(folder, unique, body, chunk)),
            Call::Clean { folder } => return Task::Clean(Cleaning::new(folder)),
            Call::Seen {
                folder,
                unique,
                flags,
                tries,
            } => (folder, unique, Purpose::Seen(flags), tries),
            Call::Flag {
                folder,
                unique,
                add,
                remove,
                tries,
            } => (folder, unique, Purpose::Flag { add, remove }, tries),
            Call::Move {
                folder,
                unique,
                to,
                tries,
            } => (folder, unique, Purpose::Move { to }, tries),
            Call::Expunge {
                folder,
                unique,
                tries,
            } => (folder, unique, Purpose::Expunge, tries),
            Call::Copy {
                folder,
                unique,
                to,
                fresh,
                tries,
            } => (folder, unique, Purpose::Copy { to, fresh }, tries),
        };
        Task::Errand(Errand::new(alloc, folder, unique, purpose, tries))
    }

    /// Takes the next turn, and adds its effect, where it is one. After a refusal nothing has changed. It is a part of the one place that calls
    /// it, so that what it gives is moved once.
    #[inline(always)]
    pub(crate) fn turn<D: Dirs>(
        &mut self,
        alloc: Global,
        dirs: &mut D,
        job: JobId,
        at: Moment,
        effects: &mut Vec<Effect>,
    ) -> Result<Turned, CoreError>
        ensures { TurnOf (λ t.
            TakesOrEnds (turn_of job (task_view self.old) at) at (D.device dirs.old) t.out t.effect.value
            (task_view self.new) (D.device dirs.new))
            self.old self.new effects.old.items effects.new.items (D.device dirs.old) (D.device dirs.new) result }
    {
        match self {
            Task::Deliver(delivery) => delivery.turn(alloc, dirs, job, at, effects),
            Task::Errand(errand) => errand.turn(alloc, dirs, job, at, effects),
            Task::Clean(cleaning) => cleaning.turn(alloc, dirs, at),
        }
    }
}
