//! Why the words of a command line ask for nothing.
ghost use Rattle.std.specs.Prelude.{◌≡◌};
ghost use Rattle.md_command.specs.declared.mistake.Mistake.TheVariants.{NoMemory};

use crate::trouble::Trouble;
use std::alloc::{AllocError, AllocFailed};

/// Why words ask for nothing.
#[derive(Drop)]
pub enum Mistake<'a> {
    /// This word is not one that the command takes.
    Wrong { word: &'a str, trouble: Trouble },
    /// There is a word too many behind those of a run.
    Unexpected,
    NoMemory,
}

impl<'a> From<AllocError> for Mistake<'a> {
    ghost from_gives = { λ _ result. result ≡ NoMemory };

    fn from(_error: AllocError) -> Mistake<'a> {
        Mistake::NoMemory
    }
}

impl<'a, T: Drop> From<AllocFailed<T>> for Mistake<'a> {
    ghost from_gives = { λ _ result. result ≡ NoMemory };

    fn from(_error: AllocFailed<T>) -> Mistake<'a> {
        Mistake::NoMemory
    }
}
