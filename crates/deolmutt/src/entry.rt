//! What the program does for the words of its command line.
use crate::options::{PROGRAM, options};
use crate::order::{Order, Work, read_order};
use crate::scripts::{logged, scripted};
use clap::{ArgMatches, Error};
use md_command::{Failure, Host, Mistake, Session, Status, Trouble, print};
use md_findings::judged;
use md_maildirs::{acted, checked, cleaned, delivered, listed, make, read};
use md_runs::{Advice, complaint, explained, run_named};
use std::random::RandomSource;
use std::sync::Wait;
use std::thread::Threads;

/// Does what the words after the program's name ask for, and gives the status that it ends with. Words that name a run of a script are
/// never refused.
pub(crate) fn program<R: Host + Threads + Wait + Sync + RandomSource>(
    session: &Session<'_, R>,
    words: &[&str],
) -> Status {
    match run_named(words) {
        Some(run) => scripted(session, run),
        None => without_run(session, words),
    }
}

// What is done for words that name no run.
fn without_run<R: Host + RandomSource>(session: &Session<'_, R>, words: &[&str]) -> Status {
    let Ok(options) = options(session.alloc) else {
        return no_memory(session);
    };
    match options.try_get_matches_from(words) {
        Ok(matches) => with_options(session, &matches),
        Err(error) => unparsed(session, &error),
    }
}

// What is done for words that the options have read.
fn with_options<R: Host + RandomSource>(
    session: &Session<'_, R>,
    matches: &ArgMatches<'_>,
) -> Status {
    match read_order(session.alloc, matches) {
        Ok(order) => perform(session, order),
        Err(mistake) => mistaken(session, mistake),
    }
}

fn unparsed<R: Host>(session: &Session<'_, R>, error: &Error) -> Status {
    match explained(session.alloc, PROGRAM, error) {
        Ok(advice) => advised(session, &advice),
        Err(_) => no_memory(session),
    }
}

// The options allow a `--` behind the words of a run.
fn mistaken<R: Host>(session: &Session<'_, R>, mistake: Mistake<'_>) -> Status {
    match mistake {
        Mistake::Wrong { word, trouble } => session.tell(word.as_bytes(), &Failure::from(trouble)),
        Mistake::Unexpected => {
            match complaint(session.alloc, PROGRAM, "a word is unexpected", "") {
                Ok(line) => advised(session, &Advice::Refused(line)),
                Err(_) => no_memory(session),
            }
        }
        Mistake::NoMemory => no_memory(session),
    }
}

fn advised<R: Host>(session: &Session<'_, R>, advice: &Advice) -> Status {
    match advice {
        Advice::Shown(text) => match print(session, text.as_bytes()) {
            Ok(()) => Status::Done,
            Err(failure) => session.tell(b"standard output", &failure),
        },
        Advice::Refused(line) => {
            session.say(line.as_slice());
            Status::Usage
        }
    }
}

fn no_memory<R: Host>(session: &Session<'_, R>) -> Status {
    session.tell(b"words", &Failure::from(Trouble::NoMemory))
}

// Does what is asked for.
fn perform<R: Host + RandomSource>(session: &Session<'_, R>, order: Order<'_>) -> Status {
    match order {
        Order::Mail { maildir, work } => match perform_work(session, maildir, work) {
            Ok(status) => status,
            Err(failure) => session.tell(maildir.as_bytes(), &failure),
        },
        Order::Judge(how) => judged(session, &how),
        Order::Log { with_states } => logged(session, with_states),
    }
}

fn perform_work<R: Host>(
    session: &Session<'_, R>,
    maildir: &str,
    work: Work<'_>,
) -> Result<Status, Failure> {
    match work {
        Work::Make => make(session, maildir),
        Work::Deliver(how) => delivered(session, maildir, &how),
        Work::List(shape) => listed(session, maildir, shape),
        Work::Read { key } => read(session, maildir, key),
        Work::Act { act, to, keys } => acted(session, maildir, act, to, keys.as_slice()),
        Work::Clean => cleaned(session, maildir),
        Work::Check => checked(session, maildir),
    }
}
