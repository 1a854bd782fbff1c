//! Why a script, or one of its lines, is refused.
ghost use Rattle.std.specs.Prelude.{◌≡◌, ◌≤◌, length};
ghost use Rattle.md_script.specs.declared.error.PlayKind.TheVariants.{NoMemory};
ghost use Rattle.md_script.specs.Kinds.{core_kind, name_kind, at_no_line};
ghost use Rattle.md_script.specs.Refusals.{core_text, name_text, kind_text};

use md_core::{CoreError, SubmitRefused};
use md_head::HeadError;
use md_name::NameError;
use std::alloc::{AllocError, AllocFailed};
use std::fmt::{self, Display, Formatter};
use thiserror::Error;

/// Why a script, or one of its lines, is refused. A line is refused for what it says alone: at a line, out of memory is no refusal of
/// it, and the faults of a reader and a writer and the limits on a script don't occur.
#[derive(Clone, Copy, Debug, PartialEq, Eq)]
pub enum PlayKind {
    /// The first word is no command, or a word is missing, empty or one too many.
    BadCommand,
    /// A word that should be a number is none, or is over 2^64 - 1.
    BadNumber,
    /// A backslash begins no escape.
    BadEscape,
    /// A word that should be `tmp`, `new` or `cur` is none of these.
    BadPlace,
    /// A folder can't be made under this name.
    BadFolder,
    /// No folder was named so.
    UnknownFolder,
    /// The store was loaded, so it can't be added to.
    TooLate,
    /// No first reading of the folder is kept.
    NoFirst,
    /// Two files of the image have one path.
    SamePath,
    /// The store refuses the line; out of memory is never among these.
    Core(CoreError),
    /// A word that should be flags is none, or no unique name is made of the words; out of memory is never among these.
    Name(NameError),
    /// The reader failed.
    ReadFault,
    /// The writer failed.
    WriteFault,
    /// The script has more than 67,108,864 bytes.
    TooLong,
    /// After 1,048,576 reads the script had not ended.
    TooManyReads,
    /// A growth was refused, in whatever crate.
    NoMemory,
    /// The command is none of those that this run takes.
    NotInThisRun,
}

impl PlayKind {
    /// What a refusal says of its cause, in at most 16 bytes.
    pub fn text(self) -> &'static str
        ensures text { result.now ≡ kind_text self }
        ensures short { length result.now ≤ 16 }
    {
        match self {
            PlayKind::BadCommand => "bad command",
            PlayKind::BadNumber => "bad number",
            PlayKind::BadEscape => "bad escape",
            PlayKind::BadPlace => "bad place",
            PlayKind::BadFolder => "bad folder",
            PlayKind::UnknownFolder => "unknown folder",
            PlayKind::TooLate => "too late",
            PlayKind::NoFirst => "no first reading",
            PlayKind::SamePath => "same path twice",
            PlayKind::Core(error) => core_text(error),
            PlayKind::Name(error) => name_text(error),
            PlayKind::ReadFault => "read fault",
            PlayKind::WriteFault => "write fault",
            PlayKind::TooLong => "script too long",
            PlayKind::TooManyReads => "too many reads",
            PlayKind::NoMemory => "no memory",
            PlayKind::NotInThisRun => "not in this run",
        }
    }
}

/// What the store's error says: a derived `Display` has no contract, so its texts are here too, and a test compares them.
fn core_text(error: CoreError) -> &'static str
    ensures text { result.now ≡ core_text error }
    ensures short { length result.now ≤ 16 }
{
    match error {
        CoreError::BadName => "bad name",
        CoreError::LongUnique => "long unique",
        CoreError::DuplicateUnique => "duplicate unique",
        CoreError::NameUsed => "name used",
        CoreError::NoFolder => "no folder",
        CoreError::SameFolder => "same folder",
        CoreError::BadUnique => "bad unique",
        CoreError::BadTries => "bad tries",
        CoreError::BadChunk => "bad chunk",
        CoreError::TooManyJobs => "too many jobs",
        CoreError::BodyTooLong => "body too long",
        CoreError::NoJob => "no job",
        CoreError::Answered => "answered",
        CoreError::NoMemory => "no memory",
    }
}

/// What a name's error says.
fn name_text(error: NameError) -> &'static str
    ensures text { result.now ≡ name_text error }
    ensures short { length result.now ≤ 16 }
{
    match error {
        NameError::BadHost => "bad host",
        NameError::BadMicro => "bad micro",
        NameError::NoMemory => "no memory",
        NameError::BadFlag => "bad flag",
    }
}

impl Display for PlayKind {
    fn fmt<W: fmt::Write>(&self, f: &mut Formatter<W>) -> fmt::Result {
        f.write_str(self.text())
    }
}

impl std::error::Error for PlayKind {}

/// Why a script was not run to its end, with the number of the line that was refused, counted from 1, or 0 where no line was.
#[derive(Clone, Copy, Debug, PartialEq, Eq, Error)]
#[error("line {line}: {kind}")]
pub struct PlayError {
    pub line: u64,
    pub kind: PlayKind,
}

impl From<AllocError> for PlayKind {
    ghost from_gives = { λ _ kind. kind ≡ NoMemory };

    fn from(_refused: AllocError) -> PlayKind {
        PlayKind::NoMemory
    }
}

impl<T: Drop> From<AllocFailed<T>> for PlayKind {
    ghost from_gives = { λ _ kind. kind ≡ NoMemory };

    fn from(_refused: AllocFailed<T>) -> PlayKind {
        PlayKind::NoMemory
    }
}

impl From<HeadError> for PlayKind {
    ghost from_gives = { λ _ kind. kind ≡ NoMemory };

    fn from(_refused: HeadError) -> PlayKind {
        PlayKind::NoMemory
    }
}

impl From<NameError> for PlayKind {
    ghost from_gives = { λ error kind. kind ≡ name_kind error };

    fn from(error: NameError) -> PlayKind {
        match error {
            NameError::NoMemory => PlayKind::NoMemory,
            refusal => PlayKind::Name(refusal),
        }
    }
}

impl From<CoreError> for PlayKind {
    ghost from_gives = { λ error kind. kind ≡ core_kind error };

    fn from(error: CoreError) -> PlayKind {
        match error {
            CoreError::NoMemory => PlayKind::NoMemory,
            refusal => PlayKind::Core(refusal),
        }
    }
}

impl From<SubmitRefused> for PlayKind {
    ghost from_gives = { λ refused kind. kind ≡ core_kind refused.error };

    fn from(refused: SubmitRefused) -> PlayKind {
        PlayKind::from(refused.error)
    }
}

impl From<PlayKind> for PlayError {
    ghost from_gives = { λ kind error. error ≡ at_no_line kind };

    fn from(kind: PlayKind) -> PlayError {
        PlayError { line: 0, kind }
    }
}

impl From<AllocError> for PlayError {
    ghost from_gives = { λ _ error. error ≡ at_no_line NoMemory };

    fn from(_refused: AllocError) -> PlayError {
        PlayError::from(PlayKind::NoMemory)
    }
}
