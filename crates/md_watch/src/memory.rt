//! What is remembered of the moments so far: when things were there, and what actors read, listed, told and did.
ghost use Rattle.std.specs.Prelude.{OnOk, IfOk};
ghost use Rattle.md_dirs.specs.State.{bare};
ghost use Rattle.md_kept.specs.Changes.{turn_of};
ghost use Rattle.md_watch.specs.Memory.{Begins, Puts, Tells, Reads, ReadsPart, Lists, Hears, Follows};
ghost use Rattle.md_watch.specs.Readings.{looker_of};

use crate::claims::{Acts, Claims, Past};
use crate::flagged::Flagged;
use crate::listings::{Listings, Present};
use crate::presences::{InFolders, Presences};
use crate::readings::{Found, Part, Reading, Readings};
use md_dirs::{Bytes, Path, Place};
use md_kept::{Change, Messages, Paths};
use md_log::{Call, Step};
use std::alloc::{AllocError, Global};

/// What a step is found to break that reads a directory or tells of a message.
#[derive(Clone, Copy)]
pub(crate) struct Heard {
    pub(crate) read: Read,
    pub(crate) told: Told,
}

/// A part of a reading is answered as no directory answers it; it completes a listing that lacks a message.
#[derive(Clone, Copy)]
pub(crate) struct Read {
    pub(crate) misread: bool,
    pub(crate) unlisted: bool,
}

/// An answer says that a call was done of which the actor gave up; it says what is not so. When the actor last acted on the message.
#[derive(Clone, Copy)]
pub(crate) struct Told {
    pub(crate) gave_up: bool,
    pub(crate) falsely: bool,
    pub(crate) acts: Acts,
}

/// What is remembered of the moments so far.
#[derive(Drop)]
pub(crate) struct Memory {
    /// The number of steps so far.
    pub(crate) steps: usize,
    pub(crate) presences: Presences,
    flagged: Flagged,
    pub(crate) readings: Readings,
    listings: Listings,
    claims: Claims,
    /// The name by which the last part of a reading is answered wrongly, where there is one.
    pub(crate) wrong_name: Option<Bytes>,
    /// The unique name of a message that the last listing lacks, where there is one.
    pub(crate) left_out: Option<Bytes>,
}

impl Memory {
    /// There is no file, and no step was taken.
    pub(crate) fn new(alloc: Global) -> Self
        ensures { Begins (bare 0) result }
    {
        Memory {
            steps: 0,
            presences: Presences::new(alloc),
            flagged: Flagged::new(alloc),
            readings: Readings::new(alloc),
            listings: Listings::new(alloc),
            claims: Claims::new(alloc),
            wrong_name: None,
            left_out: None,
        }
    }

    /// At the beginning a path comes to name a file.
    pub(crate) fn put(&mut self, path: &Path) -> Result<(), AllocError>
        ensures { OnOk result (Puts path.now self.old self.new) }
    {
        self.flagged.put(path)
    }

    /// What a step is found to break that reads or tells, by the paths and the messages that are there before it. It takes in what is
    /// read.
    pub(crate) fn hear(
        &mut self,
        step: &Step,
        paths: &Paths,
        messages: &Messages,
    ) -> Result<Heard, AllocError>
        ensures { IfOk result (λ heard. Hears step.now paths.now messages.now self.old self.new heard) }
    {
        let told = self.tell(step, messages);
        let read = self.read(step, paths)?;
        Ok(Heard { read, told })
    }

    fn tell(&self, step: &Step, messages: &Messages) -> Told
        ensures { Tells step.now messages.now self.now result }
    {
        let past = Past {
            messages,
            presences: &self.presences,
            flagged: &self.flagged,
            now: self.steps,
        };
        self.claims.tell(step, &past)
    }

    fn read(&mut self, step: &Step, paths: &Paths) -> Result<Read, AllocError>
        ensures { IfOk result (λ read. Reads step.now.actor step.now.call paths.now self.old self.new read) }
    {
        match &step.call {
            Call::List {
                folder,
                place,
                reply,
                shown,
            } => {
                let part = Part {
                    actor: step.actor.as_slice(),
                    folder: *folder,
                    place: *place,
                    reply: *reply,
                    shown,
                };
                self.read_part(&part, paths)
            }
            _ => {
                self.listings.break_off(step.actor.as_slice())?;
                Ok(Read {
                    misread: false,
                    unlisted: false,
                })
            }
        }
    }

    fn read_part(&mut self, part: &Part<'_>, paths: &Paths) -> Result<Read, AllocError>
        ensures { IfOk result (λ read.
            ReadsPart (looker_of part.now) part.now.reply part.now.shown.now paths.now self.old self.new read) }
    {
        let found = self
            .readings
            .read(part, paths, &self.presences.names, self.steps)?;
        self.wrong_name = self.wrong_name_of(part, &found, paths)?;
        let unlisted = self.list(part, found.whole, paths)?;
        Ok(Read {
            misread: found.is_wrong,
            unlisted,
        })
    }

    /// The name by which a part, which was taken in, is answered wrongly, where it is.
    fn wrong_name_of(
        &self,
        part: &Part<'_>,
        found: &Found,
        paths: &Paths,
    ) -> Result<Option<Bytes>, AllocError> {
        if !found.is_wrong {
            return Ok(None);
        }
        let whole = found.whole.as_ref();
        self.readings
            .wrong_name(part, whole, paths, &self.presences.names, self.steps)
    }

    /// Whether a reading that is whole completes a listing that lacks a message. It is taken in.
    fn list(
        &mut self,
        part: &Part<'_>,
        whole: Option<Reading>,
        paths: &Paths,
    ) -> Result<bool, AllocError>
        ensures { IfOk result (λ unlisted. Lists (looker_of part.now) whole paths.now self.old self.new unlisted) }
    {
        let Some(reading) = whole else {
            return Ok(false);
        };
        let present = Present {
            folder: part.folder,
            new: paths.names(part.folder, Place::New),
            cur: paths.names(part.folder, Place::Cur),
            presences: &self.presences,
        };
        let (actor, place, now) = (part.actor, part.place, self.steps);
        let unlisted = self
            .listings
            .is_unlisted(actor, place, &reading, now, &present);
        self.left_out = self
            .listings
            .left_out(unlisted, part, &reading, now, &present, paths)?;
        self.listings
            .complete(actor, part.folder, place, reading, now)?;
        Ok(unlisted)
    }

    /// Goes on by a step that changes paths so: their messages were in their folders before it, and are after it.
    pub(crate) fn follow(
        &mut self,
        step: &Step,
        change: &Change<'_>,
        before: InFolders,
        after: InFolders,
    ) -> Result<(), AllocError>
        ensures { OnOk result (Follows step.now (turn_of change.now) before after self.old self.new) }
    {
        let now = self.steps;
        let next = now.checked_add(1).ok_or(AllocError)?;
        self.presences.follow(change, before, after, now)?;
        self.flagged.follow(change, now)?;
        self.claims.step(step, change, before, after, next)?;
        self.steps = next;
        Ok(())
    }
}
