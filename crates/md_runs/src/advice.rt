//! What words are answered with that the options of a program don't take.
ghost use Rattle.std.specs.Prelude.{IfOk};
ghost use Rattle.md_runs.specs.Advising.{IsAdvice};
ghost use Rattle.md_runs.specs.Complaints.{IsComplaint};

use crate::complaining::complaint;
use clap::Error;
use clap::error::ErrorKind;
use std::alloc::{AllocError, Global};

/// What such words are answered with.
#[derive(Drop)]
pub enum Advice {
    /// Help or the version was asked for; this is its text.
    Shown(String),
    /// The words are wrong; this line says why.
    Refused(Vec<u8>),
}

/// What the options of a program say of words, or the help that these ask for.
pub fn explained(alloc: Global, program: &str, error: &Error) -> Result<Advice, AllocError>
    ensures { IfOk result (IsAdvice program.now) }
{
    match error.kind() {
        ErrorKind::OutOfMemory => Err(AllocError),
        ErrorKind::DisplayHelp | ErrorKind::DisplayVersion => {
            Ok(Advice::Shown(format!(in alloc; "{error}")?))
        }
        _ => Ok(Advice::Refused(complaint_of(alloc, program, error)?)),
    }
}

// The line of an error's text, and the subcommand that was meant, if one is like it.
fn complaint_of(alloc: Global, program: &str, error: &Error) -> Result<Vec<u8>, AllocError>
    ensures { IfOk result (λ line. IsComplaint program.now line.items) }
{
    let text = format!(in alloc; "{error}")?;
    complaint(alloc, program, &reason(alloc, &text)?, similar(&text))
}

// What an error says in its first line, and in the next where the first ends with a colon.
fn reason(alloc: Global, text: &str) -> Result<String, AllocError> {
    let mut lines = text.lines();
    let first = lines.next().unwrap_or("the words are wrong");
    let first = first.strip_prefix("error: ").unwrap_or(first);
    match lines.next() {
        Some(next) if first.ends_with(":") => format!(in alloc; "{first} {}", next.trim()),
        _ => String::from_str(alloc, first),
    }
}

// The line of an error that names a subcommand like the one that was given, or nothing.
fn similar(text: &str) -> &str {
    text.lines()
        .find(|line| line.starts_with("  tip: ") && line.contains("similar subcommand"))
        .unwrap_or("")
}
