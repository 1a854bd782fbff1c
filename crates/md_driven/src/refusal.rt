//! Why a call is refused, and the number and the text of each refusal.
ghost use Rattle.std.specs.Prelude.{◌≡◌, ◌≢◌, ◌≤◌, ◌<◌, ◌⊎◌, length, IfSome, IfNone};
ghost use Rattle.md_driven.specs.Numbers.{refusal_number, kind_number, core_number, name_number, fault_number, refusal_text, status_number, IsTextOf};
ghost use Rattle.md_script.specs.declared.error.PlayKind.TheVariants.{NoMemory};
ghost use Rattle.md_driven.specs.declared.refusal.Refusal.{Refusal};
ghost use Rattle.md_driven.specs.declared.refusal.Refusal.TheVariants.{Kind};

use md_core::CoreError;
use md_log::LineFault;
use md_name::NameError;
use md_script::PlayKind;
use std::alloc::{AllocError, AllocFailed};

/// Why a call is refused.
#[derive(Clone, Copy, Debug, PartialEq, Eq)]
pub enum Refusal {
    /// A pointer is null. The layer of C tests for it, since no reference is.
    Null,
    /// A length of more bytes than memory has. The layer of C tests for it, since no slice has such a length.
    Length,
    /// The caller's buffer has too little room.
    Room,
    /// A number of a call's kind that is not 1 to 7.
    BadKind,
    /// A number of a place that is over 2.
    NoPlace,
    /// Records that end amid one.
    BadRecord,
    /// No message of that unique name, or no name at that position.
    NotThere,
    /// A name that is no message's.
    NoMessageName,
    /// A job has no answer yet.
    Unanswered,
    /// The handle is closed.
    Closed,
    /// No call of the job waits for a reply.
    NotAsked,
    /// A call of the job waits for its reply.
    Asked,
    /// A number of a reply that is not 1 to 4.
    BadReply,
    /// What the store, a name or a line of a script is refused for.
    Kind(PlayKind),
    /// What a line of a judge's log is refused for.
    Log(LineFault),
}

/// Out of memory.
pub const NO_MEMORY: Refusal = Refusal::Kind(PlayKind::NoMemory);

impl Refusal {
    /// The number of a refusal, which is no other's, but that out of memory has one, wherever it was met.
    pub fn number(self) -> u32
        ensures { result ≡ refusal_number self }
    {
        match self {
            Refusal::Null => 1,
            Refusal::Length => 2,
            Refusal::Room => 3,
            Refusal::BadKind => 5,
            Refusal::NoPlace => 6,
            Refusal::BadRecord => 7,
            Refusal::NotThere => 8,
            Refusal::NoMessageName => 9,
            Refusal::Unanswered => 10,
            Refusal::Closed => 11,
            Refusal::NotAsked => 12,
            Refusal::Asked => 13,
            Refusal::BadReply => 14,
            Refusal::Kind(kind) => kind_number(kind),
            Refusal::Log(fault) => fault_number(fault),
        }
    }

    // What a refusal says, in at most 32 bytes.
    fn text(self) -> &'static str
        ensures text { result.now ≡ refusal_text self }
        ensures short { length result.now ≤ 32 }
    {
        match self {
            Refusal::Null => "null pointer",
            Refusal::Length => "bad length",
            Refusal::Room => "too little room",
            Refusal::BadKind => "bad kind",
            Refusal::NoPlace => "no place",
            Refusal::BadRecord => "bad record",
            Refusal::NotThere => "not there",
            Refusal::NoMessageName => "no message's name",
            Refusal::Unanswered => "unanswered",
            Refusal::Closed => "closed",
            Refusal::NotAsked => "not asked",
            Refusal::Asked => "asked before",
            Refusal::BadReply => "bad reply",
            Refusal::Kind(kind) => kind.text(),
            Refusal::Log(fault) => fault.text(),
        }
    }
}

/// The number of what a call came to: 0 where it is done.
pub fn status(outcome: Result<(), Refusal>) -> u32
    ensures { result ≡ status_number outcome }
{
    match outcome {
        Ok(()) => 0,
        Err(refusal) => refusal.number(),
    }
}

fn kind_number(kind: PlayKind) -> u32
    ensures { result ≡ kind_number kind }
{
    match kind {
        PlayKind::NoMemory => 4,
        PlayKind::Core(error) => core_number(error),
        PlayKind::Name(error) => name_number(error),
        PlayKind::BadCommand => 50,
        PlayKind::BadNumber => 51,
        PlayKind::BadEscape => 52,
        PlayKind::BadPlace => 53,
        PlayKind::BadFolder => 54,
        PlayKind::UnknownFolder => 55,
        PlayKind::TooLate => 56,
        PlayKind::NoFirst => 57,
        PlayKind::SamePath => 58,
        PlayKind::NotInThisRun => 59,
        PlayKind::ReadFault => 60,
        PlayKind::WriteFault => 61,
        PlayKind::TooLong => 62,
        PlayKind::TooManyReads => 63,
    }
}

// In the order of `CoreError`, from 20.
fn core_number(error: CoreError) -> u32
    ensures { result ≡ core_number error }
{
    match error {
        CoreError::NoMemory => 4,
        other => 20 + other as u32,
    }
}

fn name_number(error: NameError) -> u32
    ensures { result ≡ name_number error }
{
    match error {
        NameError::NoMemory => 4,
        NameError::BadHost => 40,
        NameError::BadMicro => 41,
        NameError::BadFlag => 42,
    }
}

// In the order of `LineFault`, from 70.
fn fault_number(fault: LineFault) -> u32
    ensures { result ≡ fault_number fault }
{
    match fault {
        LineFault::NoMemory => 4,
        other => 70 + other as u32,
    }
}

/// What the refusal of a number says, and nothing where no refusal has it.
pub fn text_of(number: u32) -> &'static str
    ensures text { IsTextOf number result.now }
    ensures short { length result.now ≤ 32 }
{
    match refusal_of(number) {
        Some(refusal) => refusal.text(),
        None => "",
    }
}

// The refusal of a number, or none.
fn refusal_of(number: u32) -> Option<Refusal>
    ensures some { IfSome result (λ refusal. refusal_number refusal ≡ number) }
    ensures none { IfNone result ((r : Refusal) → refusal_number r ≢ number) }
{
    match number {
        1 => Some(Refusal::Null),
        2 => Some(Refusal::Length),
        3 => Some(Refusal::Room),
        4 => Some(NO_MEMORY),
        5 => Some(Refusal::BadKind),
        6 => Some(Refusal::NoPlace),
        7 => Some(Refusal::BadRecord),
        8 => Some(Refusal::NotThere),
        9 => Some(Refusal::NoMessageName),
        10 => Some(Refusal::Unanswered),
        11 => Some(Refusal::Closed),
        12 => Some(Refusal::NotAsked),
        13 => Some(Refusal::Asked),
        14 => Some(Refusal::BadReply),
        20..=32 => core_of(number),
        40 => Some(Refusal::Kind(PlayKind::Name(NameError::BadHost))),
        41 => Some(Refusal::Kind(PlayKind::Name(NameError::BadMicro))),
        42 => Some(Refusal::Kind(PlayKind::Name(NameError::BadFlag))),
        70..=86 => fault_of(number),
        _ => kind_of(number),
    }
}

fn core_of(number: u32) -> Option<Refusal>
    ensures some { IfSome result (λ refusal. refusal_number refusal ≡ number) }
    ensures none { IfNone result ((number < 20) ⊎ (32 < number)) }
{
    Some(Refusal::Kind(PlayKind::Core(match number {
        20 => CoreError::BadName,
        21 => CoreError::LongUnique,
        22 => CoreError::DuplicateUnique,
        23 => CoreError::NameUsed,
        24 => CoreError::NoFolder,
        25 => CoreError::SameFolder,
        26 => CoreError::BadUnique,
        27 => CoreError::BadTries,
        28 => CoreError::BadChunk,
        29 => CoreError::TooManyJobs,
        30 => CoreError::BodyTooLong,
        31 => CoreError::NoJob,
        32 => CoreError::Answered,
        _ => return None,
    })))
}

fn kind_of(number: u32) -> Option<Refusal>
    ensures some { IfSome result (λ refusal. refusal_number refusal ≡ number) }
    ensures none { IfNone result ((number < 50) ⊎ (63 < number)) }
{
    Some(Refusal::Kind(match number {
        50 => PlayKind::BadCommand,
        51 => PlayKind::BadNumber,
        52 => PlayKind::BadEscape,
        53 => PlayKind::BadPlace,
        54 => PlayKind::BadFolder,
        55 => PlayKind::UnknownFolder,
        56 => PlayKind::TooLate,
        57 => PlayKind::NoFirst,
        58 => PlayKind::SamePath,
        59 => PlayKind::NotInThisRun,
        60 => PlayKind::ReadFault,
        61 => PlayKind::WriteFault,
        62 => PlayKind::TooLong,
        63 => PlayKind::TooManyReads,
        _ => return None,
    }))
}

fn fault_of(number: u32) -> Option<Refusal>
    ensures some { IfSome result (λ refusal. refusal_number refusal ≡ number) }
    ensures none { IfNone result ((number < 70) ⊎ (86 < number)) }
{
    Some(Refusal::Log(match number {
        70 => LineFault::NoLog,
        71 => LineFault::BadLine,
        72 => LineFault::BadNumber,
        73 => LineFault::BadEscape,
        74 => LineFault::BadPlace,
        75 => LineFault::BadName,
        76 => LineFault::BadReply,
        77 => LineFault::BadClause,
        78 => LineFault::BadFlags,
        79 => LineFault::UnknownFolder,
        80 => LineFault::SameFolder,
        81 => LineFault::TooManyFolders,
        82 => LineFault::SamePath,
        83 => LineFault::NoSuchPath,
        84 => LineFault::TooLate,
        85 => LineFault::NoOrder,
        86 => LineFault::TooManyOrders,
        _ => return None,
    }))
}

impl From<AllocError> for Refusal {
    ghost from_gives = { λ _ refusal. refusal ≡ Kind NoMemory };

    fn from(_refused: AllocError) -> Refusal {
        NO_MEMORY
    }
}

impl<T: Drop> From<AllocFailed<T>> for Refusal {
    ghost from_gives = { λ _ refusal. refusal ≡ Kind NoMemory };

    fn from(_refused: AllocFailed<T>) -> Refusal {
        NO_MEMORY
    }
}
