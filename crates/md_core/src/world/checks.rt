//! What is checked of a call when it is submitted, and in which order.
ghost use Rattle.std.specs.Prelude.{◌≡◌, true, false, None, Some, MatchResult, if◌then◌else◌};
ghost use Rattle.md_jobs.specs.declared.call.Call.TheVariants.{Deliver, Expunge, Move, Copy, Clean};
ghost use Rattle.md_jobs.specs.declared.error.CoreError.TheVariants.{NameUsed, NoMemory};
ghost use Rattle.md_core.specs.Submitting.{early_refusal, late_refusal, submit_refusal, no_folder, too_many, is_used as is_used_by, bad_tries};

use crate::world::World;
use crate::world::reading::holds_name;
use md_dirs::Dirs;
use md_jobs::{Call, CoreError};
use md_name::is_unique_name;

/// The most bytes of a body, 16 MiB.
const MOST_BYTES: usize = 16_777_216;

/// The most jobs of a world.
const MOST_JOBS: usize = 10_000;

/// The most tries of a call.
const MOST_TRIES: u64 = 16;

// Refuses so what meets a check.
fn check(is_met: bool, error: CoreError) -> Result<(), CoreError>
    ensures { MatchResult result (λ _. is_met ≡ false) (λ e. (is_met ≡ true) × (e ≡ error)) }
{
    if is_met {
        return Err(error);
    }
    Ok(())
}

fn is_bad_tries(tries: u64) -> bool
    ensures { result ≡ bad_tries tries }
{
    tries == 0 || tries > MOST_TRIES
}

impl<D: Dirs> World<D> {
    /// The checks of a call but that of the name that it makes, which comes last. It is refused by the first that it meets.
    pub(crate) fn check_call(&self, call: &Call) -> Result<(), CoreError>
        ensures { MatchResult result (λ _. early_refusal self.now call.now ≡ None) (λ e. early_refusal self.now call.now ≡ Some e) }
    {
        match call {
            Call::Deliver {
                folder,
                unique,
                body,
                chunk,
            } => self.check_delivery(*folder, unique.as_slice(), body.as_slice(), *chunk),
            Call::Seen {
                folder,
                unique,
                tries,
                ..
            }
            | Call::Flag {
                folder,
                unique,
                tries,
                ..
            }
            | Call::Expunge {
                folder,
                unique,
                tries,
            } => self.check_look_up(*folder, unique.as_slice(), *tries),
            Call::Move {
                folder,
                unique,
                to,
                tries,
            } => self.check_move(*folder, unique.as_slice(), *to, *tries),
            Call::Copy {
                folder,
                unique,
                to,
                fresh,
                tries,
            } => self.check_copy(*folder, unique.as_slice(), *to, fresh.as_slice(), *tries),
            Call::Clean { folder } => self.check_clean(*folder),
        }
    }

    fn check_delivery(
        &self,
        folder: u32,
        unique: &[u8],
        body: &[u8],
        chunk: u64,
    ) -> Result<(), CoreError>
        ensures { MatchResult result (λ _. early_refusal self.now (Deliver folder unique.now body.now chunk) ≡ None)
            (λ e. early_refusal self.now (Deliver folder unique.now body.now chunk) ≡ Some e) }
    {
        check(self.lacks(folder), CoreError::NoFolder)?;
        check(!is_unique_name(unique), CoreError::BadUnique)?;
        check(chunk == 0, CoreError::BadChunk)?;
        check(body.len() > MOST_BYTES, CoreError::BodyTooLong)?;
        check(self.is_full(), CoreError::TooManyJobs)
    }

    fn check_move(&self, folder: u32, unique: &[u8], to: u32, tries: u64) -> Result<(), CoreError>
        ensures { MatchResult result (λ _. submit_refusal self.now (Move folder unique.now to tries) ≡ None)
            (λ e. submit_refusal self.now (Move folder unique.now to tries) ≡ Some e) }
    {
        check(self.lacks(folder) || self.lacks(to), CoreError::NoFolder)?;
        check(to == folder, CoreError::SameFolder)?;
        check(!is_unique_name(unique), CoreError::BadUnique)?;
        check(is_bad_tries(tries), CoreError::BadTries)?;
        check(self.is_full(), CoreError::TooManyJobs)
    }

    fn check_copy(
        &self,
        folder: u32,
        unique: &[u8],
        to: u32,
        fresh: &[u8],
        tries: u64,
    ) -> Result<(), CoreError>
        ensures { MatchResult result (λ _. early_refusal self.now (Copy folder unique.now to fresh.now tries) ≡ None)
            (λ e. early_refusal self.now (Copy folder unique.now to fresh.now tries) ≡ Some e) }
    {
        check(self.lacks(folder) || self.lacks(to), CoreError::NoFolder)?;
        check(
            !is_unique_name(unique) || !is_unique_name(fresh),
            CoreError::BadUnique,
        )?;
        check(is_bad_tries(tries), CoreError::BadTries)?;
        check(self.is_full(), CoreError::TooManyJobs)
    }

    // The checks of a call that looks for one message and acts on it, as those of an expunge.
    fn check_look_up(&self, folder: u32, unique: &[u8], tries: u64) -> Result<(), CoreError>
        ensures { MatchResult result (λ _. early_refusal self.now (Expunge folder unique.now tries) ≡ None)
            (λ e. early_refusal self.now (Expunge folder unique.now tries) ≡ Some e) }
    {
        check(self.lacks(folder), CoreError::NoFolder)?;
        check(!is_unique_name(unique), CoreError::BadUnique)?;
        check(is_bad_tries(tries), CoreError::BadTries)?;
        check(self.is_full(), CoreError::TooManyJobs)
    }

    fn check_clean(&self, folder: u32) -> Result<(), CoreError>
        ensures { MatchResult result (λ _. submit_refusal self.now (Clean folder) ≡ None) (λ e. submit_refusal self.now (Clean folder) ≡ Some e) }
    {
        check(self.lacks(folder), CoreError::NoFolder)?;
        check(self.is_full(), CoreError::TooManyJobs)
    }

    // Whether a folder isn't there.
    fn lacks(&self, folder: u32) -> bool
        ensures { result ≡ no_folder self.now.image.folders folder }
    {
        folder >= self.dirs.folders()
    }

    // Whether no more job may come.
    fn is_full(&self) -> bool
        ensures { result ≡ too_many self.now }
    {
        self.jobs.len() >= MOST_JOBS
    }

    /// Why a call is not taken that has passed these checks: the name that it makes is used, or else memory is wanting.
    pub(crate) fn late_refusal(&self, call: &Call) -> CoreError
        ensures { result ≡ late_refusal self.now call.now }
    {
        match call {
            Call::Deliver { unique, .. } => self.refusal_by(unique.as_slice()),
            Call::Copy { fresh, .. } => self.refusal_by(fresh.as_slice()),
            _ => CoreError::NoMemory,
        }
    }

    // Why a call is not taken that makes a name.
    fn refusal_by(&self, name: &[u8]) -> CoreError
        ensures { result ≡ (if is_used_by self.now name.now then NameUsed else NoMemory) }
    {
        if self.is_used(name) {
            CoreError::NameUsed
        } else {
            CoreError::NoMemory
        }
    }

    // Whether a name is used up.
    fn is_used(&self, name: &[u8]) -> bool
        ensures { result ≡ is_used_by self.now name.now }
    {
        self.used.since.contains(name) || holds_name(&self.dirs, &self.used, name)
    }
}
