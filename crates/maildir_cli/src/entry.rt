//! The program: what it does for the words of its command line.
ghost use Rattle.std.specs.Prelude.{map};
ghost use Rattle.maildir_cli.specs.Program.{Ends, Reported, WritesText};

use crate::options::advice;
use crate::refusal::refusal_line;
use md_dirs::HashSeed;
use md_runs::{Advice, RunFault, perform, run_named};
use md_script::{PlayKind, Sink, Source, write_whole};
use std::alloc::Global;
use std::sync::Wait;
use std::thread::Threads;

/// The status of a run that came to its end, and of help.
const DONE: u8 = 0;

/// The status of a refused run.
const REFUSED: u8 = 1;

/// The status of refused words.
const BAD_WORDS: u8 = 2;

/// Does what the words after the program's name ask for, and gives the status that it ends with. Names are hashed by the seed.
///
/// `play`, `threads N` and `index N` run the script that the source gives and print on the sink: the status is 0, or 1 where the run is
/// refused, and then one line `line N: TEXT` goes to the errors. Help and the version go to the sink. Wrong words are answered with one
/// line or two to the errors and the status 2. Memory that is refused before a run is one more refusal, of the line 0.
pub fn program<R: Threads + Wait + Sync, S: Source, T: Sink, E: Sink>(
    rt: &R,
    alloc: Global,
    seed: HashSeed,
    words: &[&str],
    source: &mut S,
    sink: &mut T,
    errors: &mut E,
) -> u8
    ensures { Ends (map (λ word. word.now) words.now)
        (record { input = S.state source.old; output = T.state sink.old; errors = E.state errors.old })
        (record { input = S.state source.new; output = T.state sink.new; errors = E.state errors.new })
        result }
{
    if let Some(run) = run_named(words) {
        return report(errors, perform(rt, alloc, seed, run, source, sink));
    }
    match advice(alloc, words) {
        Ok(Advice::Shown(text)) => report(errors, show(sink, &text)),
        Ok(Advice::Refused(line)) => {
            let _told = errors.put(&line);
            BAD_WORDS
        }
        Err(_) => report(errors, Err(RunFault::from(PlayKind::NoMemory))),
    }
}

/// Prints a text.
fn show<T: Sink>(sink: &mut T, text: &str) -> Result<(), RunFault>
    ensures { WritesText (T.state sink.old) (T.state sink.new) text.now result }
{
    Ok(write_whole(sink, text.as_bytes())?)
}

/// The status of an answer, once the errors were told of its refusal.
fn report<E: Sink>(errors: &mut E, answer: Result<(), RunFault>) -> u8
    ensures { Reported (E.state errors.old) (E.state errors.new) answer result }
{
    match answer {
        Ok(()) => DONE,
        Err(fault) => {
            let _told = errors.put(refusal_line(fault).as_slice());
            REFUSED
        }
    }
}
