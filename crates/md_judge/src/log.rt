//! A log, read in one pass.
ghost use Rattle.std.specs.Prelude.{ℕ, ◌≡◌, ◌↔◌, [], Ok, IfOk, OnOk};
ghost use Rattle.md_head.specs.Header.{lines_of};
ghost use Rattle.md_log.specs.declared.clause.Clause.{Clause};
ghost use Rattle.md_judge.specs.Logs.{Log, log_of};
ghost use Rattle.md_judge.specs.Verdict.{AreInOrder, HasNoTicks, IsAmong, IsFinding};
ghost use Rattle.md_judge.specs.Orders.{AreFoundInOrder};
ghost use Rattle.md_judge.specs.Taken.{IsWithoutTicks, Answers, AnswersAny, HasTaken, HasEnded, beside_law, by_law};

use crate::session::Session;
use md_head::cut_line;
use md_log::{Clause, LineFault, LogFault};
use std::alloc::{AllocError, Global};

/// A line, counted from 1, and a clause that its step breaks; and the earlier line that it goes back to, where there is one.
#[derive(Clone, Copy, Debug, PartialEq, Eq)]
pub struct Finding {
    pub line: u64,
    pub clause: Clause,
    pub before: Option<u64>,
}

/// The findings of a log by the law, in the order of its lines, and at one line in the order of the law; or its first wrong line, or the line at
/// which memory was refused. It takes one pass, in n log n, but for two kinds of line. An answer that names flags looks once for each spelling
/// of them in the log, mostly one or two. The last part of a reading, or of a listing, looks at each name of its directory: N names and M
/// readings that are open at once cost N times M.
pub fn judge_log(alloc: Global, log: &[u8]) -> Result<Vec<Finding>, LogFault>
    ensures found { IfOk result (λ found. (l : Log) → log_of log.now ≡ Ok l → HasNoTicks l
        → (number : ℕ) (c : Clause) → IsAmong found.items number c ↔ IsFinding (by_law l) number c) }
    ensures ordered { IfOk result (λ found. AreInOrder found.items) }
    ensures answers { IsWithoutTicks (lines_of log.now) → Answers result (log_of log.now) }
    ensures placed { IfOk result (λ found. (l : Log) → log_of log.now ≡ Ok l → AreFoundInOrder (by_law l) found.items) }
    ensures answers_any { AnswersAny result (log_of log.now) }
{
    let Ok(mut session) = new_session(alloc) else {
        return Err(LogFault {
            line: 0,
            fault: LineFault::NoMemory,
        });
    };
    judge(&mut session, log)
}

// A session on the heap is let go by one call. On the stack each of its tables is, which takes a proof of ten minutes.
fn new_session(alloc: Global) -> Result<Box<Session>, AllocError>
    ensures { IfOk result (λ session. HasTaken beside_law [] session.value) }
{
    Ok(Box::new(alloc, Session::of_law(alloc))?)
}

/// Has a new session take a log in to its end, and gives what it found.
fn judge(session: &mut Session, log: &[u8]) -> Result<Vec<Finding>, LogFault>
    requires is_new { HasTaken beside_law [] session.old }
    ensures found { IfOk result (λ found. (l : Log) → log_of log.now ≡ Ok l → HasNoTicks l
        → (number : ℕ) (c : Clause) → IsAmong found.items number c ↔ IsFinding (by_law l) number c) }
    ensures ordered { IfOk result (λ found. AreInOrder found.items) }
    ensures answers { IsWithoutTicks (lines_of log.now) → Answers result (log_of log.now) }
    ensures placed { IfOk result (λ found. (l : Log) → log_of log.now ≡ Ok l → AreFoundInOrder (by_law l) found.items) }
    ensures answers_any { AnswersAny result (log_of log.now) }
{
    match read_whole(session, log) {
        Ok(()) => Ok(session.take_findings()),
        Err(fault) => Err(fault),
    }
}

/// Has a new session take a log in to its end.
fn read_whole(session: &mut Session, log: &[u8]) -> Result<(), LogFault>
    requires is_new { HasTaken beside_law [] session.old }
    ensures taken { (l : Log) → log_of log.now ≡ Ok l → HasNoTicks l → OnOk result (HasTaken beside_law (lines_of log.now) session.new) }
    ensures ended { OnOk result (HasEnded beside_law (lines_of log.now) session.new) }
    ensures answers { IsWithoutTicks (lines_of log.now) → Answers result (log_of log.now) }
    ensures answers_any { AnswersAny result (log_of log.now) }
{
    let mut left = log;
    while let Some((text, others)) = cut_line(left) {
        session.line(text)?;
        left = others;
    }
    session.end()
}
