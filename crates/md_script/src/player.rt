//! A script, played.
ghost use Rattle.std.specs.Prelude.{◌≡◌, ◌+◌, ◌≤◌, IfOk, MatchResult};
ghost use Rattle.md_script.specs.Sessions.{transcript, new_session};
ghost use Rattle.md_script.specs.Printed.{Prints};
ghost use Rattle.md_script.specs.Play.{Plays, Writes, IsPlayed};
ghost use Rattle.md_script.specs.Reading.{Unread, most_reads};

use crate::error::{PlayError, PlayKind};
use crate::incoming::run_source;
use crate::observer::{Observer, Unobserved};
use crate::run::{Printed, run};
use crate::sink::{Put, Sink};
use crate::source::Source;
use crate::storage::Storage;
use crate::store::StoreSession;
use md_dirs::{HashSeed, IndexDirs};
use std::alloc::{AllocError, Global};
use std::mem::forget;

/// Plays a script: reads it to its end, in at most 1,048,576 reads, runs its lines over a store while it reads, up to the first that is
/// refused, and then writes what they printed. Of the script it keeps only the line that hasn't ended, and what jobs hold.
///
/// A refused line's error has its number and comes after what the lines before it print was written. The other errors
/// have the line 0: `ReadFault`, `TooLong`, `TooManyReads` and `NoMemory`, after which nothing was written, and
/// `WriteFault`, after which nothing is known of what was.
pub fn play<S: Source, T: Sink>(
    alloc: Global,
    source: &mut S,
    sink: &mut T,
) -> Result<(), PlayError>
    ensures play { Plays (S.state source.old) (S.state source.new) (T.state sink.old) (T.state sink.new) result }
    ensures reads { (S.state source.new).reads ≤ (S.state source.old).reads + most_reads }
{
    let mut session = StoreSession::new(alloc, HashSeed::fixed(), Unobserved);
    play_in(&mut session, alloc, source, sink)
}

/// The same, with the same refusals, where names are hashed by a seed, as the last thing that a process does: its store is left as it is,
/// and not given back name by name and body by body, since the system takes all memory of a process at its end. That is a tenth of the work
/// of some scripts.
pub fn play_last<S: Source, T: Sink>(
    alloc: Global,
    seed: HashSeed,
    source: &mut S,
    sink: &mut T,
) -> Result<(), PlayError>
    ensures play { Plays (S.state source.old) (S.state source.new) (T.state sink.old) (T.state sink.new) result }
    ensures reads { (S.state source.new).reads ≤ (S.state source.old).reads + most_reads }
{
    let mut session = StoreSession::new(alloc, seed, Unobserved);
    let played = play_in(&mut session, alloc, source, sink);
    forget(session);
    played
}

fn play_in<S: Source, T: Sink>(
    session: &mut StoreSession<IndexDirs, Unobserved>,
    alloc: Global,
    source: &mut S,
    sink: &mut T,
) -> Result<(), PlayError>
    requires { session.old ≡ new_session }
    ensures play { Plays (S.state source.old) (S.state source.new) (T.state sink.old) (T.state sink.new) result }
    ensures reads { (S.state source.new).reads ≤ (S.state source.old).reads + most_reads }
{
    let printed = run_source(alloc, source, session)?.printed;
    write_whole(sink, &printed.text)?;
    match printed.refusal {
        None => Ok(()),
        Some(refused) => Err(refused),
    }
}

/// Reads a script to its end and runs its lines as `play` does, while an observer is shown what they do to the store. It gives what `play`
/// writes, the refusal, and the observer; it is refused as `play` is for no line. The store is left as it is, as the last thing that a process
/// does with it.
pub fn observe<D: Storage, O: Observer<D>, S: Source>(
    alloc: Global,
    seed: HashSeed,
    source: &mut S,
    observer: O,
) -> Result<(Printed, O), PlayKind>
    ensures observed { MatchResult result (λ seen. IsPlayed (S.state source.old) (S.state source.new) seen.0) (Unread (S.state source.old) (S.state source.new)) }
    ensures reads { (S.state source.new).reads ≤ (S.state source.old).reads + most_reads }
{
    let mut session = StoreSession::<D, O>::new(alloc, seed, observer);
    let printed = run_source(alloc, source, &mut session)?.printed;
    Ok((printed, session.into_observer()))
}

/// The transcript of a script: what its lines print over a new store up to the first that is refused, and that line's refusal. The only
/// error is out of memory.
pub fn transcript(alloc: Global, script: &[u8]) -> Result<Printed, AllocError>
    ensures { IfOk result (Prints (transcript script.now)) }
{
    transcript_over::<IndexDirs>(alloc, HashSeed::fixed(), script)
}

/// The transcript of a script whose store is on such directories, which hash names by the seed where they hash any. It is the same over
/// all.
pub fn transcript_over<D: Storage>(
    alloc: Global,
    seed: HashSeed,
    script: &[u8],
) -> Result<Printed, AllocError>
    ensures { IfOk result (Prints (transcript script.now)) }
{
    let mut session = StoreSession::<D, Unobserved>::new(alloc, seed, Unobserved);
    run(alloc, &mut session, script)
}

/// Writes a text whole. Refused `WriteFault`, after which nothing is known of what was written, or `NoMemory`, after which nothing was.
pub fn write_whole<T: Sink>(sink: &mut T, text: &[u8]) -> Result<(), PlayKind>
    ensures { Writes (T.state sink.old) (T.state sink.new) text.now result }
{
    match sink.put(text) {
        Put::Done => Ok(()),
        Put::Failed => Err(PlayKind::WriteFault),
        Put::NoMemory => Err(PlayKind::NoMemory),
    }
}
