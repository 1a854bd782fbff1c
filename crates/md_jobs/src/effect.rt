//! Effects: the steps at which calls take effect on the mailbox.
ghost use Rattle.std.specs.Prelude.{◌≡◌, IfOk};

use crate::answer::Answer;
use crate::call::JobId;
use md_dirs::{Bytes, Place};
use std::alloc::{AllocError, Global};

/// What an effect changed, by whole file names. Sizes are in bytes.
#[derive(Debug, Drop)]
pub enum Change {
    /// A message was added.
    Add {
        folder: u32,
        place: Place,
        name: Bytes,
        size: u64,
    },
    /// A message has another folder, place or name.
    Rename {
        folder: u32,
        place: Place,
        name: Bytes,
        to_folder: u32,
        to_place: Place,
        to_name: Bytes,
    },
    /// A message was removed.
    Remove {
        folder: u32,
        place: Place,
        name: Bytes,
    },
    /// The flags were those that the call wanted.
    Same,
}

/// A step at which a call took effect: the job, the call's answer, and the change.
#[derive(Debug, Drop)]
pub struct Effect {
    pub job: JobId,
    pub answer: Answer,
    pub change: Change,
}

impl Change {
    /// A copy.
    pub fn again(&self, alloc: Global) -> Result<Change, AllocError>
        ensures { IfOk result (λ change. change ≡ self.now) }
    {
        Ok(match self {
            Change::Add {
                folder,
                place,
                name,
                size,
            } => Change::Add {
                folder: *folder,
                place: *place,
                name: name.again(alloc)?,
                size: *size,
            },
            Change::Rename {
                folder,
                place,
                name,
                to_folder,
                to_place,
                to_name,
            } => Change::Rename {
                folder: *folder,
                place: *place,
                name: name.again(alloc)?,
                to_folder: *to_folder,
                to_place: *to_place,
                to_name: to_name.again(alloc)?,
            },
            Change::Remove {
                folder,
                place,
                name,
            } => Change::Remove {
                folder: *folder,
                place: *place,
                name: name.again(alloc)?,
            },
            Change::Same => Change::Same,
        })
    }
}

impl Effect {
    /// A copy.
    pub fn again(&self, alloc: Global) -> Result<Effect, AllocError>
        ensures { IfOk result (λ effect. effect ≡ self.now) }
    {
        Ok(Effect {
            job: self.job,
            answer: self.answer,
            change: self.change.again(alloc)?,
        })
    }
}
