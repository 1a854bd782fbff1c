//! Answers, as a log has them.
//!
//! A log says less than an answer does, so each answer is also a comment, in the words of docs/SCRIPT.md. An answer that has no word of the
//! log is `failed`, which says that nothing was done to the message: the job had no effect. `notthere` of a log speaks of the whole folder.
//! So it stands only for a job that looked through new and cur, a move or a copy; a job that looks in one of them alone has `failed`.
ghost use Rattle.std.specs.Prelude.{◌≡◌, ◌≤◌, IfOk};
ghost use Rattle.std.specs.Option.{option_copied};
ghost use Rattle.md_trace.specs.Growing.{Grows, GrowsIf, most};
ghost use Rattle.md_trace.specs.Answers.{answer_line, answered_text, answer_lines, answer_lines_of, copied_text, failed_text, IsFitAnswer, missed_text, moved_text, own_text, subject_of};

use crate::steps::push_begin;
use crate::text::Log;
use md_core::{Answer, Call, Event};
use md_dirs::Bytes;
use std::alloc::{AllocError, Global};

/// The answer that a job has by a step: a comment in its own words, and a line if it is about a message.
pub(crate) fn push_answered(log: &mut Log, event: Event, answer: &Answer, subject: Option<&Subject>)
    ensures { let of = option_copied subject.entry in
        GrowsIf (IsFitAnswer event of) (answer_lines log.old event answer.now of) log.old log.new }
{
    log.push_comment(*answer);
    push_line_of(log, event, *answer, subject);
}

fn push_line_of(log: &mut Log, event: Event, answer: Answer, subject: Option<&Subject>)
    ensures { let of = option_copied subject.entry in
        GrowsIf (IsFitAnswer event of) (answer_lines_of log.old event answer of) log.old log.new }
{
    match subject {
        Some(subject) => subject.push_line(log, event, answer),
        None => {}
    }
}

/// The message that the answer to a call is about.
#[derive(Drop)]
pub(crate) struct Subject {
    folder: u32,
    unique: Bytes,
    // The folder that a move or a copy takes it to.
    to: Option<u32>,
    // The unique name of its copy there.
    fresh: Option<Bytes>,
}

impl Subject {
    /// What the answer to a call is about: nothing for a clean.
    pub(crate) fn of(alloc: Global, call: &Call) -> Result<Option<Subject>, AllocError>
        ensures { IfOk result (λ subject. subject ≡ subject_of call.now) }
    {
        let (folder, unique, to, fresh) = match call {
            Call::Deliver { folder, unique, .. }
            | Call::Seen { folder, unique, .. }
            | Call::Flag { folder, unique, .. }
            | Call::Expunge { folder, unique, .. } => (*folder, unique, None, None),
            Call::Move {
                folder,
                unique,
                to,
                ..
            } => (*folder, unique, Some(*to), None),
            Call::Copy {
                folder,
                unique,
                to,
                fresh,
                ..
            } => (*folder, unique, Some(*to), Some(fresh.again(alloc)?)),
            Call::Clean { .. } => return Ok(None),
        };
        Ok(Some(Subject {
            folder,
            unique: unique.again(alloc)?,
            to,
            fresh,
        }))
    }

    fn push_line(&self, log: &mut Log, event: Event, answer: Answer)
        ensures { GrowsIf (event.now ≤ most) (answer_line log.old event answer self.now) log.old log.new }
    {
        push_begin(log, event);
        self.push_answer(log, event.job, answer);
        log.push(b"\n");
    }

    /// Appends `JOB answer`, the words of an answer, and the message that they are about: the copy, where there is one.
    fn push_answer(&self, log: &mut Log, job: u64, answer: Answer)
        ensures { Grows (answered_text log.old self.now job answer) log.old log.new }
    {
        match answer {
            Answer::Copied => self.push_copied(log, job),
            Answer::Moved => self.push_moved(log, job),
            Answer::NotThere => self.push_missed(log, job),
            Answer::Delivered | Answer::Flags(_) | Answer::Expunged => {
                self.push_own(log, job, answer)
            }
            _ => self.push_failed(log, job),
        }
    }

    fn push_copied(&self, log: &mut Log, job: u64)
        ensures { Grows (copied_text log.old self.now job self.now.to self.now.fresh) log.old log.new }
    {
        match (self.to, &self.fresh) {
            (Some(folder), Some(unique)) => {
                log.push_answer(job, Answer::Delivered);
                log.push_message(folder, unique.as_slice());
            }
            _ => self.push_failed(log, job),
        }
    }

    fn push_moved(&self, log: &mut Log, job: u64)
        ensures { Grows (moved_text log.old self.now job self.now.to self.now.fresh) log.old log.new }
    {
        match (self.to, &self.fresh) {
            (Some(folder), None) => {
                log.push_answer(job, Answer::Moved);
                log.push(b" ");
                log.push_folder(folder);
                log.push_message(self.folder, self.unique.as_slice());
            }
            _ => self.push_failed(log, job),
        }
    }

    fn push_missed(&self, log: &mut Log, job: u64)
        ensures { Grows (missed_text log.old self.now job self.now.to) log.old log.new }
    {
        match self.to {
            Some(_) => self.push_own(log, job, Answer::NotThere),
            None => self.push_failed(log, job),
        }
    }

    fn push_own(&self, log: &mut Log, job: u64, answer: Answer)
        ensures { Grows (own_text log.old self.now job answer) log.old log.new }
    {
        log.push_answer(job, answer);
        log.push_message(self.folder, self.unique.as_slice());
    }

    fn push_failed(&self, log: &mut Log, job: u64)
        ensures { Grows (failed_text log.old self.now job) log.old log.new }
    {
        log.push_number(job);
        log.push(b" answer failed");
        log.push_message(self.folder, self.unique.as_slice());
    }
}
