//! Why a log is not judged.
ghost use Rattle.std.specs.Prelude.{◌≡◌};
ghost use Rattle.md_log.specs.declared.error.LineFault.TheVariants.{NoMemory};
ghost use Rattle.md_log.specs.Texts.{fault_text};

use std::alloc::{AllocError, AllocFailed};

/// Why a line is no line of a log.
#[derive(Clone, Copy, Debug, PartialEq, Eq)]
pub enum LineFault {
    /// The first line is not the head of a log.
    NoLog,
    /// A word is missing, empty, one too many, or names nothing that can stand there.
    BadLine,
    /// A word that should be a number is none, or has more than 19 digits.
    BadNumber,
    /// A backslash begins no escape.
    BadEscape,
    /// A word that should be `tmp`, `new` or `cur` is none of these.
    BadPlace,
    /// No folder, file or message can have this name.
    BadName,
    /// The call gives no such reply.
    BadReply,
    /// No clause has this name, or it is the one that is always judged.
    BadClause,
    /// Flags are other bytes than letters.
    BadFlags,
    /// No line before names the folder.
    UnknownFolder,
    /// A line before names the folder.
    SameFolder,
    /// There are 1,000 folders already.
    TooManyFolders,
    /// A line before puts a file at the path.
    SamePath,
    /// No line before puts a file at the path.
    NoSuchPath,
    /// A line of what there is at the beginning comes after a step.
    TooLate,
    /// In no order of lines that overlap do directories give the replies: the line is the first that has no place.
    NoOrder,
    /// So many orders of lines that overlap were tried that no more are.
    TooManyOrders,
    /// A growth was refused.
    NoMemory,
}

impl LineFault {
    /// What is said of the line.
    pub fn text(self) -> &'static str
        ensures { result.now ≡ fault_text self }
    {
        match self {
            LineFault::NoLog => "no log",
            LineFault::BadLine => "bad line",
            LineFault::BadNumber => "bad number",
            LineFault::BadEscape => "bad escape",
            LineFault::BadPlace => "bad place",
            LineFault::BadName => "bad name",
            LineFault::BadReply => "bad reply",
            LineFault::BadClause => "bad clause",
            LineFault::BadFlags => "bad flags",
            LineFault::UnknownFolder => "unknown folder",
            LineFault::SameFolder => "same folder",
            LineFault::TooManyFolders => "too many folders",
            LineFault::SamePath => "same path",
            LineFault::NoSuchPath => "no such path",
            LineFault::TooLate => "too late",
            LineFault::NoOrder => "no order",
            LineFault::TooManyOrders => "too many orders",
            LineFault::NoMemory => "no memory",
        }
    }
}

/// The first wrong line of a log, counted from 1, or the line at which memory was refused.
#[derive(Clone, Copy, Debug, PartialEq, Eq)]
pub struct LogFault {
    pub line: u64,
    pub fault: LineFault,
}

impl From<AllocError> for LineFault {
    ghost from_gives = { λ _ fault. fault ≡ NoMemory };

    fn from(_refused: AllocError) -> LineFault {
        LineFault::NoMemory
    }
}

impl<T: Drop> From<AllocFailed<T>> for LineFault {
    ghost from_gives = { λ _ fault. fault ≡ NoMemory };

    fn from(_refused: AllocFailed<T>) -> LineFault {
        LineFault::NoMemory
    }
}
