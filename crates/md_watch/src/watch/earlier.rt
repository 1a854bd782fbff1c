//! The earlier entry that a broken clause goes back to.
//!
//! It is looked up where a clause is broken, after the step. Nothing is proved of it but that it is safe.

use super::Watch;
use crate::marks::FileMarks;
use md_dirs::{Path, Place};
use md_kept::{message_of, number_of};
use md_log::{Call, Clause, Deed, Reply, Said, Step};

impl Watch {
    /// The entry that made what the clause goes back to, where there is one: the last step, which is this one, breaks it. Entries are the
    /// files and the further names of the beginning and then the steps, numbered from 0 in their order.
    pub fn earlier(&self, step: &Step, clause: Clause) -> Option<usize> {
        let call = &step.call;
        match clause {
            Clause::NotADirectory => self.before_wrong(call),
            Clause::Overwritten => self.last_change_at(target_of(call)?),
            Clause::SeenBeforeWhole => self.before_seen(call),
            Clause::Mixed => Some(self.marks_at(target_of(call)?)?.made as usize),
            Clause::NotFlushed => Some(self.marks_at(target_of(call)?)?.written as usize),
            Clause::TwoNames => {
                let path = target_of(call)?;
                self.since_message(path.folder, message_of(path)?)
            }
            Clause::Gone => self.before_gone(source_of(call)?),
            Clause::UsedAgain => self.last_gone(target_of(call)?),
            Clause::MovedBack => Some(self.marks_at(target_of(call)?)?.cur as usize),
            Clause::CleanedEarly => self.before_cleaned(step),
            Clause::Unlisted => self.before_left_out(call),
            Clause::GaveUp => self.to_moment(self.marks.acts.called),
            Clause::AnsweredFalsely => self.before_false(call),
            Clause::NamedByAnother => Some(self.marks_at(target_of(call)?)?.made as usize),
            Clause::Rewritten => Some(self.marks_at(target_of(call)?)?.seen as usize),
            Clause::WrittenLate => Some(self.marks_at(target_of(call)?)?.written as usize),
            // Of what the others go back to, no entry is kept.
            _ => None,
        }
    }

    /// The entry of the step to a moment, where there is one.
    fn to_moment(&self, moment: usize) -> Option<usize> {
        Some(self.marks.of_step(moment.checked_sub(1)?))
    }

    fn marks_at(&self, path: &Path) -> Option<FileMarks> {
        self.marks.of_file(self.paths.file_at(path)?)
    }

    /// The entry that last made a name be in a directory, or go.
    fn last_change(&self, folder: u32, place: Place, name: &[u8]) -> Option<usize> {
        let number = number_of(folder, place);
        let names = &self.memory.presences.names;
        let file = self.paths.directory(folder, place)?.file(name);
        let Some(file) = file else {
            return Some(self.marks.of_step(names.last(number, name)?));
        };
        match names.since(number, name) {
            0 => self.marks.of_path(number, name, file),
            since => self.to_moment(since),
        }
    }

    fn last_change_at(&self, path: &Path) -> Option<usize> {
        self.last_change(path.folder, path.place, path.name.as_slice())
    }

    /// The entry that put a message there, since a moment.
    fn put_message(&self, folder: u32, unique: &[u8], since: usize) -> Option<usize> {
        match since {
            0 => self.marks.of_message(&self.messages, folder, unique),
            since => self.to_moment(since),
        }
    }

    /// That of a message that is there.
    fn since_message(&self, folder: u32, unique: &[u8]) -> Option<usize> {
        let messages = &self.memory.presences.messages;
        self.put_message(folder, unique, messages.since(folder as usize, unique))
    }

    /// A call is answered as no directory answers it: what last changed the path that the answer is wrong of, or the name of the reading.
    fn before_wrong(&self, call: &Call) -> Option<usize> {
        match call {
            Call::At { path, .. } => self.last_change_at(path),
            Call::Between {
                old,
                new,
                reply,
                ..
            } => {
                let is_of_old = (*reply == Reply::NotFound) == self.paths.file_at(old).is_some();
                self.last_change_at(if is_of_old { old } else { new })
            }
            Call::List { folder, place, .. } => {
                let name = self.memory.wrong_name.as_ref()?;
                self.last_change(*folder, *place, name.as_slice())
            }
            Call::Answer { .. } => None,
        }
    }

    /// A file is seen too early: what made it seen, or the write that failed. A message that is made empty goes back to nothing.
    fn before_seen(&self, call: &Call) -> Option<usize> {
        let marks = self.marks_at(target_of(call)?)?;
        match call {
            Call::At {
                deed: Deed::Write,
                ..
            } => Some(marks.seen as usize),
            Call::Between { .. } => Some(marks.written as usize),
            _ => None,
        }
    }

    /// A message went by a path: what put it there.
    fn before_gone(&self, path: &Path) -> Option<usize> {
        let unique = message_of(path)?;
        let messages = &self.memory.presences.messages;
        let since = messages.last_since(path.folder as usize, unique)?;
        self.put_message(path.folder, unique, since)
    }

    /// The step by which the message of a path last went.
    fn last_gone(&self, path: &Path) -> Option<usize> {
        let unique = message_of(path)?;
        let messages = &self.memory.presences.messages;
        let last = messages.last(path.folder as usize, unique)?;
        Some(self.marks.of_step(last))
    }

    /// A file of tmp was cleaned early: what made it, or last wrote to it.
    fn before_cleaned(&self, step: &Step) -> Option<usize> {
        let file = match self.marks.taken {
            Some(file) if self.is_cleaned(step, file) => file,
            _ => self.marks.turned?,
        };
        Some(self.marks.of_file(file)?.written as usize)
    }

    /// Whether the path that a step takes away left a file early.
    fn is_cleaned(&self, step: &Step, file: usize) -> bool {
        let Some(path) = source_of(&step.call) else {
            return false;
        };
        let taken = Some((path, file));
        self.is_early(step.actor.as_slice(), taken) && self.is_hidden(taken)
    }

    /// A listing lacks a message: what put it there.
    fn before_left_out(&self, call: &Call) -> Option<usize> {
        let Call::List { folder, .. } = call else {
            return None;
        };
        let unique = self.memory.left_out.as_ref()?;
        self.since_message(*folder, unique.as_slice())
    }

    /// An answer is not so: what it denies, or the actor's last call on the message.
    fn before_false(&self, call: &Call) -> Option<usize> {
        let Call::Answer {
            said,
            folder,
            unique,
        } = call
        else {
            return None;
        };
        match said {
            Said::Failed => self.to_moment(self.marks.acts.changed),
            Said::NotThere => self.since_message(*folder, unique.as_slice()),
            _ => self.to_moment(self.marks.acts.called),
        }
    }
}

/// The path of a call that may come to name a file, or whose file is written to.
fn target_of(call: &Call) -> Option<&Path> {
    match call {
        Call::At { path, .. } => Some(path),
        Call::Between { new, .. } => Some(new),
        _ => None,
    }
}

/// The path that a call may take away.
fn source_of(call: &Call) -> Option<&Path> {
    match call {
        Call::At { path, .. } => Some(path),
        Call::Between { old, .. } => Some(old),
        _ => None,
    }
}
