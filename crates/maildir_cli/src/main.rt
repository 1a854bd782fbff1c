//! `maildir_cli play` runs the script on standard input and prints its transcript on standard output. `maildir_cli index N` prints the
//! header summary of each message of the folders and files that the script names, made by N workers. `maildir_cli threads N` runs the
//! script's jobs by N threads, and prints their answers and the folders.
//!
//! What it does for its words, over any streams, and the statuses that it ends with, is `entry::program`. Here its words are read, and its
//! streams opened.
#![tactic(auto)]

mod entry;
mod options;
mod refusal;

use entry::program;
use md_dirs::HashSeed;
use md_script::{Reader, Writer};
use std::alloc::AllocGlobal;
use std::io::ErrorKind;
use std::process::ExitCode;
use std::{env, io};

/// The status where memory was refused.
const NO_MEMORY: u8 = 1;

/// The status of refused words.
const BAD_WORDS: u8 = 2;

fn main(rt: HostRuntime) -> ExitCode {
    let args = match read_args(&rt) {
        Ok(args) => args,
        Err(error) => return refuse(&rt, error),
    };
    let words = args.iter().map(|arg| arg.as_str());
    let words = match words.collect::<Vec<&str>>(rt.alloc()) {
        Ok(words) => words,
        Err(error) => return refuse(&rt, io::Error::from(error)),
    };
    let mut source = Reader::new(rt.reader());
    let mut sink = Writer::new(io::writer(&rt));
    let mut errors = Writer::new(rt.stderr());
    let seed = HashSeed::drawn(&rt).unwrap_or(HashSeed::fixed());
    let status = program(
        &rt,
        rt.alloc(),
        seed,
        &words,
        &mut source,
        &mut sink,
        &mut errors,
    );
    ExitCode::from(status)
}

// The words after the program's name.
fn read_args(rt: &HostRuntime) -> io::Result<Vec<String>> {
    Ok(env::args(rt)?.skip(1).collect::<Vec<String>>(rt.alloc())?)
}

fn refuse(rt: &HostRuntime, error: io::Error) -> ExitCode {
    let (why, status) = match error.kind() {
        ErrorKind::OutOfMemory => ("line 0: no memory", NO_MEMORY),
        _ => (
            "maildir_cli: a word is not UTF-8; try 'maildir_cli --help'",
            BAD_WORDS,
        ),
    };
    let _ = eprintln!(rt; "{why}");
    ExitCode::from(status)
}
