//! The subcommands on logs of directory calls, and their help.

use crate::options::{switch, valued, with_other};
use clap::{Arg, ArgAction, Command};
use std::alloc::{AllocError, Global};

const AFTER_LOG: &str = "Status:
  0   the script ran to its end
  1   a line failed, or reading, writing or memory failed (line 0); `line N: TEXT` on standard error says which

Examples:
  deolmutt log < script
  deolmutt log --states < script | less

docs/JUDGE.md says what the log has of a script.";

const AFTER_JUDGE: &str =
    "A finding has its line, actor, call, clause and grade, why, and the earlier line that it goes back to. Its grade is lost (mail
or a flag is gone, or a kill or a crash can take it), misled (somebody saw or was told what was not so), owed (other
programs rely on the contrary) or custom (a convention).

Status:
  0   there are no findings
  1   there are findings
  2   the log is wrong, or reading, writing or memory failed; `line N: TEXT` on standard error says which, and for a wrong
      word its number and what it should be
  66  no such file

Examples:
  deolmutt judge log
  deolmutt judge --json < log
  deolmutt judge --summary log
  deolmutt judge --least misled log
  deolmutt judge --allow NotFlushed --allow Mixed log
  deolmutt judge --relies deliver --by mydeliver log

docs/JUDGE.md has the log's language and the law.";

// The options of judging by the law alone.
const LAW_ALONE: &[&str] = &["allow", "least"];

/// The log of a script.
pub(crate) fn log<'a>(alloc: Global) -> Result<Command<'a>, AllocError> {
    Command::new(alloc, "log")
        .about("Plays the script on standard input, and prints the log of its directory calls")
        .after_help(AFTER_LOG)
        .arg(switch(
            alloc,
            "states",
            "Adds comments that show each name of each directory after each step",
        ))
}

/// The judging of a log.
pub(crate) fn judge<'a>(alloc: Global) -> Result<Command<'a>, AllocError> {
    let command = Command::new(alloc, "judge")
        .about("Prints which steps of a log of directory calls break the law of a maildir")
        .after_help(AFTER_JUDGE);
    let command = with_forms(alloc, command)?;
    let command = with_law(alloc, command)?;
    let command = with_owed(alloc, command)?;
    command.arg(
        Arg::new(alloc, "FILE")
            .help("The log; - or none is standard input")
            .action(ArgAction::Set),
    )
}

// How findings are printed.
fn with_forms<'a>(alloc: Global, command: Command<'a>) -> Result<Command<'a>, AllocError> {
    let command = command.arg(switch(alloc, "lines", "Prints LINE CLAUSE for each finding"))?;
    let json = switch(alloc, "json", "Prints an object of JSON for each finding");
    let command = with_other(command, json, &["lines"])?;
    let summary = switch(
        alloc,
        "summary",
        "Prints how often each clause is broken and at which line first, and the sum",
    );
    with_other(command, summary, &["lines", "json"])
}

// Which findings by the law are shown.
fn with_law<'a>(alloc: Global, command: Command<'a>) -> Result<Command<'a>, AllocError> {
    let allow = valued(
        alloc,
        "allow",
        "CLAUSE",
        "Leaves this clause out, as a line `allow CLAUSE` of the log; may be repeated",
    );
    command.arg(allow.action(ArgAction::Append))?.arg(valued(
        alloc,
        "least",
        "GRADE",
        "Leaves out findings of a lower grade: lost, misled, owed or custom",
    ))
}

// Judging by what programs owe each other.
fn with_owed<'a>(alloc: Global, command: Command<'a>) -> Result<Command<'a>, AllocError> {
    let owed = switch(
        alloc,
        "owed",
        "Judges by what each program owes the others, in place of the law (docs/LAW.md)",
    );
    let command = with_other(command, owed, LAW_ALONE)?;
    let relies = valued(
        alloc,
        "relies",
        "CALL",
        "Judges by what this call of deolmutt relies on: deliver, seen, flag, move, copy, expunge or clean",
    );
    let command = with_other(command, relies, LAW_ALONE)?;
    let by = valued(
        alloc,
        "by",
        "ACTOR",
        "Leaves the steps of this actor out, with --owed or --relies; may be repeated",
    );
    with_other(command, by.action(ArgAction::Append), LAW_ALONE)
}
