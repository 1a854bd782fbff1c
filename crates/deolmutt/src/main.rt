//! `deolmutt` delivers, lists, reads and changes the mail of maildirs by the jobs of `md_jobs`, beside any other programs that keep to the
//! maildir format; it plays, indexes and runs scripts over a store in memory, as `maildir_cli`; and it judges logs of directory calls, and
//! makes them of scripts.
//!
//! What it does for its words, and the statuses that it ends with, is in `entry`. Here its words are read.
#![tactic(auto)]

mod entry;
mod options;
mod order;
mod scripts;

use entry::program;
use md_command::{Session, Status};
use std::io::ErrorKind;
use std::process::ExitCode;
use std::{env, io};

fn main(rt: HostRuntime) -> ExitCode {
    let args = match read_args(&rt) {
        Ok(args) => args,
        Err(error) => return refuse(&rt, error.kind()),
    };
    let words = args.iter().map(|arg| arg.as_str());
    let words = match words.collect::<Vec<&str>>(rt.alloc()) {
        Ok(words) => words,
        Err(_) => return refuse(&rt, ErrorKind::OutOfMemory),
    };
    let session = Session {
        host: &rt,
        alloc: rt.alloc(),
        pid: u64::from(std::process::id(rt.process())),
        errors: rt.stderr(),
    };
    ExitCode::from(program(&session, &words).number())
}

// The words after the program's name.
fn read_args(rt: &HostRuntime) -> io::Result<Vec<String>> {
    Ok(env::args(rt)?.skip(1).collect::<Vec<String>>(rt.alloc())?)
}

fn refuse(rt: &HostRuntime, kind: ErrorKind) -> ExitCode {
    let (why, status) = match kind {
        ErrorKind::OutOfMemory => ("deolmutt: out of memory", Status::TryAgain),
        _ => (
            "deolmutt: a word is not UTF-8; try 'deolmutt --help'",
            Status::Usage,
        ),
    };
    let _ = eprintln!(rt; "{why}");
    ExitCode::from(status.number())
}
