//! The subcommands of the program, its help, and what words are answered with that name no run.
ghost use Rattle.std.specs.Prelude.{IfOk, codes};
ghost use Rattle.md_runs.specs.Advising.{IsAdvice};

use clap::{Arg, ArgAction, Command, value_parser};
use md_runs::{Advice, MOST_THREADS, MOST_WORKERS, complaint, explained};
use std::alloc::{AllocError, Global};

const PROGRAM: &str = "maildir_cli";

const ABOUT: &str =
    "Plays scripts over a Maildir store in memory, and prints what each directory call of its jobs did; \
runs its jobs by threads, or prints the header summaries of its messages. What it prints is proved to be the transcript of the script, \
the report of an interleaving of its jobs, or its index.";

const AFTER: &str =
    "The script is read whole from standard input: at most 67,108,864 bytes, in at most 1,048,576 reads.

Status:
  0  the script ran to its end, or help was asked for
  1  a line was refused, or reading, writing or memory failed (line 0);
     `line N: TEXT` on standard error says which
  2  the words of the command line are wrong

Example:
  printf 'folder i\\njob deliver i u 4 hello\\\\n\\nfinish 1 1000\\nlist i\\n' | maildir_cli play

docs/SCRIPT.md has the language, and `man -l docs/maildir_cli.1` the manual.";

/// What words that name no run are answered with.
pub(crate) fn advice<'a>(alloc: Global, words: &'a [&'a str]) -> Result<Advice, AllocError>
    ensures { IfOk result (IsAdvice (codes "maildir_cli")) }
{
    match options(alloc)?.try_get_matches_from(words) {
        // The options allow a `--` after a number too.
        Ok(_) => Ok(Advice::Refused(complaint(alloc, PROGRAM, "a word is unexpected", "")?)),
        Err(error) => explained(alloc, PROGRAM, &error),
    }
}

// The command line: a subcommand, and for two of them a number.
fn options<'a>(alloc: Global) -> Result<Command<'a>, AllocError> {
    let play = Command::new(alloc, "play").about("Plays the script on standard input");
    let threads = Command::new(alloc, "threads").about(
        "Runs the script's jobs by N threads, 1 to 16, and prints their answers and the folders",
    );
    let index = Command::new(alloc, "index").about(
        "Prints the header summaries of the script's files that are messages, made by N workers, 1 to 64",
    );
    Command::new(alloc, PROGRAM)
        .version("0.1.0")
        .about(ABOUT)
        .after_help(AFTER)
        .no_binary_name(true)
        .subcommand_required(true)
        .bin_name(PROGRAM)?
        .subcommand(play)?
        .subcommand(threads.arg(count(alloc, "How many threads, 1 to 16", MOST_THREADS as i64))?)?
        .subcommand(index.arg(count(alloc, "How many workers, 1 to 64", MOST_WORKERS as i64))?)
}

// The number that a subcommand wants.
fn count<'a>(alloc: Global, help: &'a str, most: i64) -> Arg<'a> {
    Arg::new(alloc, "N")
        .help(help)
        .required(true)
        .action(ArgAction::Set)
        .value_parser(value_parser!(u64).range(1..=most))
}
