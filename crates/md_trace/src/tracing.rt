//! A script, played for its log.
ghost use Rattle.std.specs.Prelude.{◌≡◌, ◌++◌, ◌∷◌, [], OnOk};
ghost use Rattle.std.specs.Option.{option_copied};
ghost use Rattle.md_trace.specs.Answers.{answer_lines, IsFitAnswer, subject_in as subject_by, subject_of};
ghost use Rattle.md_trace.specs.Growing.{GrowsIf};

use crate::answers::{Subject, push_answered};
use crate::noted::NotedDirs;
use crate::rows::{Form, push_rows};
use crate::steps::{push_effect, push_step};
use crate::text::Log;
use md_core::{Answer, Call, Event, StepOut, World};
use md_dirs::{HashSeed, IndexDirs};
use md_script::{Observer, PlayError, PlayKind, Sink, Source, Storage, observe, write_whole};
use std::alloc::{AllocError, Global};

/// Plays a script and writes the log of its directory calls: reads it to its end, runs its lines up to the first that is refused, and
/// writes what they did.
///
/// With `with_states` there are comments after the beginning and after each step that show each name of each directory. The errors are
/// those of `md_script::play`. A moment or a stamp of more than 19 digits, which no log has, is refused `BadNumber`. Names are hashed by
/// the seed.
pub fn trace<S: Source, T: Sink>(
    alloc: Global,
    seed: HashSeed,
    source: &mut S,
    sink: &mut T,
    with_states: bool,
) -> Result<(), PlayError> {
    let tracer = Tracer {
        with_states,
        log: Log::new(alloc),
        subjects: Vec::new(alloc),
    };
    let (printed, tracer) = observe::<NotedDirs<IndexDirs>, Tracer, S>(
        alloc, seed, source, tracer,
    )?;
    let logged = tracer.log.end(printed.refusal)?;
    write_whole(sink, &logged.text)?;
    logged.refusal.map_or(Ok(()), Err)
}

/// What logs the steps of a script. What a script prints by itself has no place in a log: a listing, a reading, a made name and a summary
/// say nothing.
#[derive(Drop)]
struct Tracer {
    with_states: bool,
    log: Log,
    // What the answer of each job is about.
    subjects: Vec<Option<Subject>>,
}

impl<D: Storage> Observer<NotedDirs<D>> for Tracer {
    fn line(&mut self, number: u64) {
        self.log.begin_line(number);
    }

    fn folder(&mut self, name: &[u8]) {
        self.log.push_new_folder(name);
    }

    fn opened(&mut self, world: &World<NotedDirs<D>>) {
        push_rows(&mut self.log, world.dirs(), Form::File);
        self.push_states(world);
    }

    fn submits(&mut self, call: &Call) {
        if self.keep_subject(call).is_err() {
            self.log.refuse(PlayKind::NoMemory);
        }
    }

    fn stepped(&mut self, world: &World<NotedDirs<D>>, event: Event, out: &StepOut) {
        let noted = world.dirs().hook().noted.as_ref();
        push_step(&mut self.log, world.dirs(), noted, event, out);
        if out.effect
            && let Some(effect) = world.effects().last()
        {
            push_effect(&mut self.log, &effect.change);
        }
        if let Some(answer) = &out.answer {
            self.push_answer(event, answer);
        }
        self.push_states(world);
    }
}

impl Tracer {
    fn keep_subject(&mut self, call: &Call) -> Result<(), AllocError>
        ensures subjects { OnOk result (self.new.subjects.items ≡ self.old.subjects.items ++ subject_of call.now ∷ []) }
        ensures log { self.new.log ≡ self.old.log }
    {
        let subject = Subject::of(self.log.alloc(), call)?;
        self.subjects.push(subject)?;
        Ok(())
    }

    fn push_answer(&mut self, event: Event, answer: &Answer)
        ensures log { let of = subject_by self.old.subjects.items event.job in
            GrowsIf (IsFitAnswer event of) (answer_lines self.old.log event answer.now of) self.old.log self.new.log }
        ensures subjects { self.new.subjects ≡ self.old.subjects }
    {
        let subject = subject_in(self.subjects.as_slice(), event.job);
        push_answered(&mut self.log, event, answer, subject);
    }

    // The comment `# state`, and one for each name that is there, where states are asked for.
    fn push_states<D: Storage>(&mut self, world: &World<NotedDirs<D>>) {
        if self.with_states {
            self.log.push(b"# state\n");
            push_rows(&mut self.log, world.dirs(), Form::State);
        }
    }
}

// What the answer of a job is about, by the jobs' numbers from 1.
fn subject_in(subjects: &[Option<Subject>], job: u64) -> Option<&Subject>
    ensures { option_copied result ≡ subject_by subjects.now job }
{
    subjects.get((job as usize).saturating_sub(1))?.as_ref()
}
