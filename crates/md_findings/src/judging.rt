//! A log of directory calls, judged.
use crate::fault::Fault;
use crate::lines::judge_lines;
use crate::page::Page;
use crate::shown::Shown;
use crate::summary::Tally;
use crate::words::{Judging, Rules};
use md_command::{Failure, Host, Session, Status, Trouble, open_to_read};
use md_judge::Session as Judge;
use std::alloc::{AllocError, Global};
use std::io::Read;

/// Judges the log of a file or of standard input line by line, and prints its findings once it is over, so that nothing is printed of a log
/// that is refused.
pub fn judged<R: Host>(session: &Session<'_, R>, how: &Judging<'_>) -> Status {
    match how.file {
        None => judged_log(session, how, session.host.reader()),
        Some(path) => match open_to_read(session, path) {
            Ok(file) => judged_log(session, how, file),
            Err(error) => session.tell(
                path.as_bytes(),
                &Failure::of(session.alloc, Trouble::NoLog, &error),
            ),
        },
    }
}

// A wrong log, or a fault of reading, writing or memory, is told with the number of its line, or 0 where it is of none. Where memory for
// the wrong word is wanting, the fault is told without it.
fn judged_log<R: Host, L: Read + Drop>(
    session: &Session<'_, R>,
    how: &Judging<'_>,
    log: L,
) -> Status {
    match try_judge(session, how, log) {
        Ok(status) => status,
        Err(fault) => {
            match fault.said(session.alloc) {
                Ok(said) => session.refuse(fault.line(), &said),
                Err(_) => session.refuse(fault.line(), fault.text()),
            }
            Status::Unjudged
        }
    }
}

fn try_judge<R: Host, L: Read + Drop>(
    session: &Session<'_, R>,
    how: &Judging<'_>,
    log: L,
) -> Result<Status, Fault> {
    let mut judge = judge_by(session.alloc, &how.rules)?;
    judge_lines(session.alloc, &mut judge, log)?;
    show(session, &judge, how)
}

// On the heap, so that it is let go by one call.
fn judge_by(alloc: Global, rules: &Rules<'_>) -> Result<Box<Judge>, AllocError> {
    let Rules::Law(strictness) = rules else {
        return Ok(Box::new(alloc, Judge::new(alloc))?);
    };
    let mut judge = Box::new(alloc, Judge::of_law(alloc))?;
    for clause in &strictness.allowed {
        judge.allow(*clause);
    }
    Ok(judge)
}

// Prints the findings that are asked for.
fn show<R: Host>(
    session: &Session<'_, R>,
    judge: &Judge,
    how: &Judging<'_>,
) -> Result<Status, Fault> {
    let mut page = Page::new(
        session.alloc,
        how.form,
        expected(session.alloc, &how.rules)?,
    );
    let mut status = Status::Done;
    for (at, finding) in judge.findings().iter().copied().enumerate() {
        let (actor, call) = judge.words(at);
        let grade = judge.grade(at);
        if how.rules.ask_for(finding.clause, grade, actor) {
            let shown = Shown {
                line: finding.line,
                actor,
                call,
                clause: finding.clause.name(),
                grade,
                why: finding.clause.why(),
                before: finding.before,
            };
            page.put(session, &shown)?;
            status = Status::Refused;
        }
    }
    page.end(session)?;
    Ok(status)
}

// The clauses that there may be findings of, in their order.
fn expected(alloc: Global, rules: &Rules<'_>) -> Result<Tally, AllocError> {
    let mut tally = Tally::new(alloc);
    for clause in rules.clauses() {
        tally.expect(clause.name(), clause.why())?;
    }
    Ok(tally)
}
