//! A job whose directory calls its caller makes: it is asked for its next call, shows it, hears what a reading found, and goes on by the
//! reply.
ghost use Rattle.std.specs.Prelude.{◌≡◌, ◌⊎◌, Some, None, MatchResult};
ghost use Rattle.md_core.specs.Machine.{with_answer};
ghost use Rattle.md_core.specs.Runs.{answer_of};
ghost use Rattle.md_script.specs.declared.error.PlayKind.TheVariants.{NoMemory};
ghost use Rattle.md_driven.specs.Driving.{asked_at, ask_refusal, driving_of, hear_refusal, requested, with_row, LaysAsked, TakesReply};
ghost use Rattle.md_driven.specs.Numbers.{status_number};
ghost use Rattle.md_driven.specs.declared.refusal.Refusal.TheVariants.{Kind};

mod rows;
mod task;

use crate::driven::task::{show_task, step_task};
use crate::refusal::Refusal;
use crate::request::RequestShown;
use md_core::{Answer, Call, CoreError, DirReply, Moment, StepOut, Task};
use md_dirs::{Bytes, Row};
use md_script::PlayKind;
use std::alloc::Global;
use std::marker::Model;

/// How far a driven job has come. One that is answered holds nothing but its answer.
#[derive(Drop)]
enum Progress {
    Working(Task),
    Answered(Answer),
}

/// A job whose directory calls its caller makes.
#[derive(Drop)]
pub struct Driven {
    progress: Progress,
    // When its next call was asked for, while the reply is waited for.
    asked: Option<Moment>,
    // What the call read, if it is a reading.
    rows: Vec<Row>,
}

impl Model for Driven {
    ghost use Rattle.std.specs.Coded.{codes};
    ghost use Rattle.md_name.specs.contracts.flags.Flags as flags;
    ghost use Rattle.md_driven.specs.Driving.{Driving};
    ghost use Rattle.md_driven.specs.Tasks.{standing_by};

    ghost Value = { Driving };

    ghost coded = { Prim.hlevel (codes, flags.the_row.coded) };

    ghost view = { λ d. record { standing = standing_by d.progress; asked = d.asked; rows = d.rows.items } };
}

impl Driven {
    /// The job of a call, not begun.
    pub fn new(alloc: Global, call: Call) -> Driven
        ensures { result ≡ driving_of call }
    {
        Driven {
            progress: Progress::Working(Task::new(alloc, call)),
            asked: None,
            rows: Vec::new(alloc),
        }
    }

    /// Asks for the next call, at a second by the caller's clock. Refused `Answered`, and `Asked` where a reply is waited for; then nothing
    /// has changed.
    pub fn ask(&mut self, alloc: Global, second: u64) -> Result<(), Refusal>
        ensures { MatchResult result
            (λ _. (ask_refusal self.old ≡ None) × (self.new ≡ asked_at second self.old))
            (λ e. (ask_refusal self.old ≡ Some e) × (self.new ≡ self.old)) }
    {
        if let Progress::Answered(_) = self.progress {
            return Err(Refusal::Kind(PlayKind::Core(CoreError::Answered)));
        }
        if self.asked.is_some() {
            return Err(Refusal::Asked);
        }
        self.asked = Some(Moment {
            clock: second,
            own: second,
        });
        self.rows = Vec::new(alloc);
        Ok(())
    }

    /// Shows the call that was asked for, as often as wanted: lays its bytes into `out`, and sets `shown` and `length`. Refused `NotAsked`,
    /// out of memory, with all three as they were, and `Room`, with `shown` and `length` set.
    pub fn show(
        &self,
        alloc: Global,
        shown: &mut RequestShown,
        out: &mut [u8],
        length: &mut usize,
    ) -> Result<(), Refusal>
        ensures { LaysAsked (requested self.now) shown.old shown.new out.old out.new length.old length.new (status_number result) }
    {
        let Some(at) = self.asked else {
            return Err(Refusal::NotAsked);
        };
        match &self.progress {
            Progress::Working(task) => show_task(alloc, task, at, shown, out, length),
            Progress::Answered(_) => Err(Refusal::NotAsked),
        }
    }

    /// Hears one row more of the reading that was asked for. Rows play no part in any other call. Refused `NotAsked`, and out of memory;
    /// then nothing has changed.
    pub fn hear(&mut self, alloc: Global, name: &[u8], stamp: u64, size: u64) -> Result<(), Refusal>
        ensures { MatchResult result
            (λ _. (hear_refusal self.old ≡ None) × (self.new ≡ with_row (record { name = name.now; stamp = stamp; size = size }) self.old))
            (λ e. (self.new ≡ self.old) × ((e ≡ Kind NoMemory) ⊎ (hear_refusal self.old ≡ Some e))) }
    {
        if self.asked.is_none() {
            return Err(Refusal::NotAsked);
        }
        let name = Bytes::copied(alloc, name)?;
        self.rows.push(Row { name, stamp, size })?;
        Ok(())
    }

    /// Goes on by the reply to the call that was asked for, and by the rows that were heard. Refused `NotAsked`, and out of memory: then
    /// nothing has changed, and the reply is still waited for.
    pub fn take(&mut self, alloc: Global, reply: DirReply) -> Result<StepOut, Refusal>
        ensures { TakesReply reply self.old self.new result }
    {
        let Some(at) = self.asked else {
            return Err(Refusal::NotAsked);
        };
        let Progress::Working(task) = &mut self.progress else {
            return Err(Refusal::NotAsked);
        };
        let out = step_task(alloc, task, at, self.rows.as_slice(), reply)?;
        self.settle(out.answer);
        self.asked = None;
        self.rows = Vec::new(alloc);
        Ok(out)
    }

    // Keeps the answer, if there is one, and lets go what the task held.
    fn settle(&mut self, answer: Option<Answer>)
        ensures { self.new ≡ record self.old { standing = with_answer self.old.standing answer } }
    {
        if let Some(answer) = answer {
            self.progress = Progress::Answered(answer);
        }
    }

    /// The answer, if there is one.
    pub fn answer(&self) -> Option<Answer>
        ensures { result ≡ answer_of (Some self.now.standing) }
    {
        match &self.progress {
            Progress::Working(_) => None,
            Progress::Answered(answer) => Some(*answer),
        }
    }
}
