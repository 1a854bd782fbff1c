//! Jobs: the call of each, for contracts alone, and how far it is.
ghost use Rattle.std.specs.Prelude.{◌≡◌, true, Some};
ghost use Rattle.md_jobs.specs.Turn.{TurnOf};
ghost use Rattle.md_core.specs.Machine.{is_working, with_answer};
ghost use Rattle.md_core.specs.Standing.{TakesTurn, job_of};
ghost use Rattle.md_core.specs.Runs.{answer_of};

use crate::jobs::task::Task;
use md_dirs::Dirs;
use md_jobs::{Answer, Call, CoreError, Effect, JobId, Moment, Snapshot, Turned};
use std::alloc::Global;
use std::marker::Model;

/// How far a job has come. One that is answered holds nothing but its answer: what the task held is let go.
#[derive(Drop)]
pub(crate) enum Progress {
    Working(Task),
    Answered(Answer),
}

/// A job. Its call is there for contracts alone, and takes no bytes.
#[derive(Drop)]
pub(crate) struct Job {
    call: Snapshot<Call>,
    progress: Progress,
}

impl Model for Job {
    ghost use Rattle.md_core.specs.Standing.{JobView, standing_by};
    ghost use Rattle.std.specs.Coded.{codes};
    ghost use Rattle.md_name.specs.contracts.flags.Flags as flags;

    ghost Value = { JobView };

    ghost coded = { Prim.hlevel (codes, flags.the_row.coded) };

    ghost view = { λ j. record { call = j.call.value; standing = standing_by j.progress } };
}

impl Job {
    /// A job that has not begun.
    pub(crate) fn new(alloc: Global, call: Call) -> Job
        ensures { result ≡ job_of call }
    {
        Job {
            call: Snapshot::of(&call),
            progress: Progress::Working(Task::new(alloc, call)),
        }
    }

    /// The answer, if there is one.
    pub(crate) fn answer(&self) -> Option<Answer>
        ensures { result ≡ answer_of (Some self.now.standing) }
    {
        match &self.progress {
            Progress::Working(_) => None,
            Progress::Answered(answer) => Some(*answer),
        }
    }

    /// Whether it has no answer.
    pub(crate) fn is_working(&self) -> bool
        ensures { result ≡ is_working self.now.standing }
    {
        matches!(self.progress, Progress::Working(_))
    }

    /// Takes the next turn, adds its effect, where it is one, and keeps the answer. After a refusal nothing has changed.
    pub(crate) fn turn<D: Dirs>(
        &mut self,
        alloc: Global,
        dirs: &mut D,
        job: JobId,
        at: Moment,
        effects: &mut Vec<Effect>,
    ) -> Result<Turned, CoreError>
        requires { is_working self.old.standing ≡ true }
        ensures { TurnOf (λ t. TakesTurn job at self.old (D.device dirs.old) t.out t.effect.value self.new (D.device dirs.new))
            self.old self.new effects.old.items effects.new.items (D.device dirs.old) (D.device dirs.new) result }
    {
        let Progress::Working(task) = &mut self.progress else {
            unreachable!()
        };
        let Turned { out, effect } = task.turn(alloc, dirs, job, at, effects)?;
        self.settle(out.answer);
        Ok(Turned { out, effect })
    }

    // Keeps the answer, if there is one, and lets go what the task held.
    fn settle(&mut self, answer: Option<Answer>)
        ensures { self.new ≡ record self.old { standing = with_answer self.old.standing answer } }
    {
        if let Some(answer) = answer {
            self.progress = Progress::Answered(answer);
        }
    }
}
