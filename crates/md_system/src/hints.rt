//! Names that were shown before the errands that are told them began.
//!
//! A name may be out of date. An errand that acts on a name that is gone is answered ENOENT and looks again, so it may act on any name.
//! What an errand answers without an act has to be so while it is under way: that is told only of a reading that counts, which began after
//! the errand was asked for, and in which the directories rested.
ghost use Rattle.std.specs.Prelude.{◌≡◌, false, IfOk};
ghost use Rattle.md_system.specs.Hints.{MayTell};

use crate::acting::{acts_on, looks_on};
use crate::read_ahead::ReadAhead;
use crate::told::Told;
use md_dirs::{Bytes, Place, is_named};
use md_jobs::Purpose;
use md_name::unique_part;
use std::alloc::{AllocError, Global};

/// A name of a directory that a caller knows.
#[derive(Drop)]
pub struct Hint {
    pub folder: u32,
    pub place: Place,
    pub name: Bytes,
}

/// What errands are told without a reading of their own.
#[derive(Drop)]
pub struct Hints {
    // The name that a caller gave last, which is told once.
    given: Option<Hint>,
    /// What was read for many errands.
    pub ahead: ReadAhead,
}

impl Hints {
    /// No hint.
    pub fn new(alloc: Global) -> Hints
        ensures { result.ahead.counts ≡ false }
    {
        Hints {
            given: None,
            ahead: ReadAhead::nothing(alloc),
        }
    }

    /// A caller knows this name. What was read of its message is told no more.
    pub fn give(&mut self, hint: Hint)
        ensures kept { self.new.ahead ≡ self.old.ahead }
    {
        if self.ahead.folder == hint.folder {
            self.ahead.forget(unique_part(hint.name.as_slice()));
        }
        self.given = Some(hint);
    }

    /// What an errand is told that looks in a place for a message. Refused only when out of memory, and then nothing has changed.
    pub fn tell(
        &mut self,
        alloc: Global,
        folder: u32,
        place: Place,
        unique: &[u8],
        purpose: &Purpose,
    ) -> Result<Told, AllocError>
        ensures told { IfOk result (MayTell self.old.ahead purpose.now place unique.now) }
        ensures kept { self.new.ahead ≡ self.old.ahead }
    {
        match self.tell_given(folder, place, unique, purpose) {
            Told::Nothing if self.ahead.folder == folder => {
                self.ahead.tell(alloc, place, unique, purpose)
            }
            told => Ok(told),
        }
    }

    // What is told of the name that was given, if the errand acts on it.
    fn tell_given(&mut self, folder: u32, place: Place, unique: &[u8], purpose: &Purpose) -> Told
        ensures told { MayTell self.old.ahead purpose.now place unique.now result }
        ensures ahead { self.new.ahead ≡ self.old.ahead }
    {
        let Some(hint) = &self.given else {
            return Told::Nothing;
        };
        let (at, name) = (hint.place, hint.name.as_slice());
        if hint.folder != folder || !is_named(name, unique) || !acts_on(purpose, name) {
            return Told::Nothing;
        }
        if at == place {
            return match self.given.take() {
                Some(hint) => Told::Name(hint.name),
                None => Told::Nothing,
            };
        }
        if at == Place::Cur && looks_on(purpose, place) {
            Told::Elsewhere
        } else {
            Told::Nothing
        }
    }
}
