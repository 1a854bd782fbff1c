//! Why a run ended without its text.
ghost use Rattle.std.specs.Prelude.{◌≡◌, ◌≤◌, length};
ghost use Rattle.md_script.specs.Kinds.{at_no_line};
ghost use Rattle.md_script.specs.declared.error.PlayKind.TheVariants.{NoMemory};
ghost use Rattle.md_runs.specs.declared.fault.RunFault.TheVariants as fault;
ghost use Rattle.md_runs.specs.Faults.{core_fault, list_fault, open_fault, refused_line, refusal_text};

use md_core::CoreError;
use md_script::{PlayError, PlayKind};
use md_store::{ListError, OpenError, StoreError};
use std::alloc::AllocError;
use std::fmt::{self, Display, Formatter};

/// Why a run ended without its text.
#[derive(Clone, Copy, Debug, PartialEq, Eq)]
pub enum RunFault {
    /// As a script that is played.
    Play(PlayError),
    /// A thread's pass was refused its reader.
    NoReader,
    /// What is published could not be entered, or the world that the threads left is not what they were to leave. That never comes, but the
    /// type of a lock can't say so.
    Closed,
}

impl RunFault {
    /// The line that was refused, counted from 1, or 0 where no line was.
    pub fn line(self) -> u64
        ensures { result ≡ refused_line self }
    {
        match self {
            RunFault::Play(error) => error.line,
            _ => 0,
        }
    }

    /// What the refusal says of its cause, in at most 16 bytes.
    pub fn text(self) -> &'static str
        ensures text { result.now ≡ refusal_text self }
        ensures short { length result.now ≤ 16 }
    {
        match self {
            RunFault::Play(error) => error.kind.text(),
            RunFault::NoReader => "no reader",
            RunFault::Closed => "closed",
        }
    }
}

impl Display for RunFault {
    fn fmt<W: fmt::Write>(&self, f: &mut Formatter<W>) -> fmt::Result {
        write!(f, "line {}: {}", self.line(), self.text())
    }
}

impl std::error::Error for RunFault {}

impl From<PlayError> for RunFault {
    ghost from_gives = { λ error result. result ≡ fault.Play error };

    fn from(error: PlayError) -> RunFault {
        RunFault::Play(error)
    }
}

impl From<PlayKind> for RunFault {
    ghost from_gives = { λ kind result. result ≡ fault.Play (at_no_line kind) };

    fn from(kind: PlayKind) -> RunFault {
        RunFault::Play(PlayError::from(kind))
    }
}

impl From<AllocError> for RunFault {
    ghost from_gives = { λ _ result. result ≡ fault.Play (at_no_line NoMemory) };

    fn from(_refused: AllocError) -> RunFault {
        RunFault::from(PlayKind::NoMemory)
    }
}

impl From<OpenError> for RunFault {
    ghost from_gives = { λ error result. result ≡ open_fault error };

    // There are 1 to 16 passes, so that `BadPasses` is not met.
    fn from(error: OpenError) -> RunFault {
        match error {
            OpenError::NoReader | OpenError::BadPasses => RunFault::NoReader,
            OpenError::NoMemory => RunFault::from(PlayKind::NoMemory),
        }
    }
}

impl From<CoreError> for RunFault {
    ghost from_gives = { λ error result. result ≡ core_fault error };

    // A job that is there, and that no other thread steps, is refused a step only when out of memory.
    fn from(error: CoreError) -> RunFault {
        match error {
            CoreError::NoMemory => RunFault::from(PlayKind::NoMemory),
            _ => RunFault::Closed,
        }
    }
}

impl From<StoreError> for RunFault {
    ghost from_gives = { λ _ result. result ≡ fault.Play (at_no_line NoMemory) };

    fn from(StoreError::NoMemory: StoreError) -> RunFault {
        RunFault::from(PlayKind::NoMemory)
    }
}

impl From<ListError> for RunFault {
    ghost from_gives = { λ error result. result ≡ list_fault error };

    // The folders that a script names are there, so that `NoFolder` is not met.
    fn from(error: ListError) -> RunFault {
        match error {
            ListError::Closed | ListError::NoFolder => RunFault::Closed,
            ListError::NoMemory => RunFault::from(PlayKind::NoMemory),
        }
    }
}
