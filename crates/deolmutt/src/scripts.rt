//! Runs of the script on standard input, and its log.
ghost use Rattle.std.specs.Prelude.{ℕ, List};
ghost use Rattle.md_runs.specs.Runs.{WordsName};

use md_command::{Host, Session, Status};
use md_dirs::HashSeed;
use md_runs::{Run, RunFault, perform};
use md_script::{Reader, Writer};
use md_trace::trace;
use std::io;
use std::random::RandomSource;
use std::sync::Wait;
use std::thread::Threads;

/// Makes a run, which prints on standard output. Where it is refused, a line on standard error says which line of the script it was, and
/// why.
pub(crate) fn scripted<R: Host + Threads + Wait + Sync + RandomSource>(
    session: &Session<'_, R>,
    run: Run,
) -> Status
    requires { (words : List (List ℕ)) × WordsName words run }
{
    let (host, alloc) = (session.host, session.alloc);
    let mut source = Reader::new(host.reader());
    let mut sink = Writer::new(io::writer(host));
    match perform(host, alloc, seed(host), run, &mut source, &mut sink) {
        Ok(()) => Status::Done,
        Err(fault) => refused(session, fault),
    }
}

/// Plays the script for the log of its directory calls, which is printed on standard output, with the names of each directory or without.
/// Where it is refused, that is told as of a run.
pub(crate) fn logged<R: Host + RandomSource>(
    session: &Session<'_, R>,
    with_states: bool,
) -> Status {
    let (host, alloc) = (session.host, session.alloc);
    let mut source = Reader::new(host.reader());
    let mut sink = Writer::new(io::writer(host));
    match trace(alloc, seed(host), &mut source, &mut sink, with_states) {
        Ok(()) => Status::Done,
        Err(error) => refused(session, RunFault::from(error)),
    }
}

// By what names are hashed.
fn seed<R: RandomSource>(host: &R) -> HashSeed {
    HashSeed::drawn(host).unwrap_or(HashSeed::fixed())
}

fn refused<R: Host>(session: &Session<'_, R>, fault: RunFault) -> Status {
    session.refuse(fault.line(), fault.text());
    Status::Refused
}
