//! Why nothing was judged, or printed.
ghost use Rattle.std.specs.Prelude.{◌≡◌, IfOk, string_bytes};
ghost use Rattle.md_findings.specs.Faults.{line_of, no_memory, said, text_of};

use crate::blame::{Blame, blamed_word};
use md_judge::{LineFault, LogFault};
use std::alloc::{AllocError, Global};

/// Why a log was not judged.
#[derive(Clone, Copy)]
pub(crate) enum Fault {
    /// A line is wrong, or memory was refused at it; line 0 is before or after the log.
    Log(LogFault),
    /// A line is wrong by this word.
    Word(LogFault, Blame),
    /// Reading failed within this line.
    Read(u64),
    /// Writing failed.
    Write,
}

impl Fault {
    pub(crate) fn no_memory(line: u64) -> Self
        ensures { result ≡ no_memory line }
    {
        let fault = LineFault::NoMemory;
        Fault::Log(LogFault { line, fault })
    }

    /// The same, with the word by which the line is wrong, if it is one's.
    pub(crate) fn blamed(self, alloc: Global, line: &[u8]) -> Self {
        match self {
            Fault::Log(fault) => match blamed_word(alloc, fault.fault, line) {
                Some(blame) => Fault::Word(fault, blame),
                None => self,
            },
            other => other,
        }
    }

    /// The line that is to blame, or 0.
    pub(crate) fn line(self) -> u64
        ensures { result ≡ line_of self }
    {
        match self {
            Fault::Log(fault) | Fault::Word(fault, _) => fault.line,
            Fault::Read(line) => line,
            Fault::Write => 0,
        }
    }

    /// What is said of it, with the word.
    pub(crate) fn said(self, alloc: Global) -> Result<String, AllocError>
        ensures { IfOk result (λ text. string_bytes text ≡ said self) }
    {
        let mut said = String::from_str(alloc, self.text())?;
        if let Fault::Word(_, blame) = self {
            said.push_str(": ")?;
            blame.push_to(&mut said)?;
        }
        Ok(said)
    }

    /// What is said of it.
    pub(crate) fn text(self) -> &'static str
        ensures { result.now ≡ text_of self }
    {
        match self {
            Fault::Log(fault) | Fault::Word(fault, _) => fault.fault.text(),
            Fault::Read(_) => "read fault",
            Fault::Write => "write fault",
        }
    }
}

// What is found is gathered after the log, and memory for it is of none of its lines.
impl From<AllocError> for Fault {
    fn from(_refused: AllocError) -> Fault {
        Fault::no_memory(0)
    }
}

impl From<LogFault> for Fault {
    fn from(fault: LogFault) -> Fault {
        Fault::Log(fault)
    }
}
