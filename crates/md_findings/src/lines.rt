//! A log that is read line by line.
ghost use Rattle.std.specs.Prelude.{◌≡◌};
ghost use Rattle.std.specs.IoError.{error_kind};
ghost use Rattle.md_findings.specs.Faults.{unread};

use crate::fault::Fault;
use md_command::{Line, Lines};
use md_head::cut_line;
use md_judge::Session as Judge;
use std::alloc::Global;
use std::io::{Error, ErrorKind, Read};

/// Hands each line of a log to its judge. The longest line is held in memory, and no other.
pub(crate) fn judge_lines<L: Read + Drop>(
    alloc: Global,
    judge: &mut Judge,
    log: L,
) -> Result<(), Fault> {
    let Ok(mut lines) = Lines::new(alloc, log) else {
        return Err(Fault::no_memory(0));
    };
    let mut line = Vec::new(alloc);
    for number in 1..u64::MAX {
        match lines.next(&mut line, usize::MAX) {
            Ok(Line::End) => break,
            Ok(_) => judge_line(alloc, judge, line.as_slice())?,
            Err(error) => return Err(unread(number, &error)),
        }
    }
    judge.end()?;
    Ok(())
}

// A line with its end. Where it is refused, its wrong word is looked for.
fn judge_line(alloc: Global, judge: &mut Judge, line: &[u8]) -> Result<(), Fault> {
    let Some((text, _)) = cut_line(line) else {
        return Ok(());
    };
    match judge.line(text) {
        Ok(()) => Ok(()),
        Err(fault) => Err(Fault::from(fault).blamed(alloc, text)),
    }
}

fn unread(number: u64, error: &Error) -> Fault
    ensures { result ≡ unread number (error_kind error.now) }
{
    match error.kind() {
        ErrorKind::OutOfMemory => Fault::no_memory(number),
        _ => Fault::Read(number),
    }
}
