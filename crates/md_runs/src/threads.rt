//! The jobs of a script, run by threads.

ghost use Rattle.std.specs.Prelude.{◌+◌, ◌≤◌, ℕ, true, List, MatchResult};
ghost use Rattle.md_script.specs.Reading.{most_reads};
ghost use Rattle.md_script.specs.ReadSetups.{SetsUp};
ghost use Rattle.md_runs.specs.Threading.{Reports, IsUnreported, RunsThreads};

mod listings;
mod report;
mod setting_up;
mod share;
mod sharing;

use crate::fault::RunFault;
use md_dirs::HashSeed;
use md_script::{ReadSetup, Sink, Source, read_image, write_whole};
use report::ended;
use setting_up::{Made, set_up};
use sharing::share;
use std::alloc::Global;
use std::mem::forget;
use std::sync::Wait;
use std::thread::Threads;

/// Reads a script to its end and takes in what its lines set up while it reads, of which it keeps only the line that hasn't ended; opens
/// the store of its folders and files, submits its jobs, and runs them by so many threads, 1 to 16. Job J is the thread's with the number
/// J - 1 modulo their count; a thread takes its jobs in order and steps each at moment 0 until it is answered. Then `J answer A` is written
/// for each job in order, and for each folder `folder NAME` and its listing.
///
/// Nothing is written where a line is refused, `not in this run` where it has another command than `folder`, `file` and `job`; nor where
/// the store can't be opened or a job not be submitted, which has the number of the last line; nor where `NoReader` or `Closed` is
/// answered, or at the refusals of line 0: `ReadFault`, `TooLong`, `TooManyReads` and `NoMemory`. After `WriteFault`, at line 0 too,
/// nothing is known of what was written.
///
/// It is the last thing that a process does: the memory of the store isn't given back. Names are hashed by a seed.
pub(crate) fn run_threads<R: Threads + Wait + Sync, S: Source, T: Sink>(
    rt: &R,
    alloc: Global,
    seed: HashSeed,
    threads: usize,
    source: &mut S,
    sink: &mut T,
) -> Result<(), RunFault>
    requires { (1 ≤ threads) × (threads ≤ 16) }
    ensures threads { RunsThreads (S.state source.old) (S.state source.new) (T.state sink.old) (T.state sink.new) result }
    ensures reads { (S.state source.new).reads ≤ (S.state source.old).reads + most_reads }
{
    let read = read_image(alloc, source, true)?;
    let text = threads_text(rt, alloc, seed, threads, read)?;
    Ok(write_whole(sink, &text)?)
}

/// What the threads print of a script that was read.
///
/// The type of the store's lock keeps the jobs and the files that the store was opened with. So the world that it leaves is known to be
/// theirs.
fn threads_text<R: Threads + Wait + Sync>(
    rt: &R,
    alloc: Global,
    seed: HashSeed,
    threads: usize,
    read: ReadSetup,
) -> Result<Vec<u8>, RunFault>
    ensures { (script : List ℕ) → SetsUp true script read → MatchResult result (λ text. Reports script text.items) (IsUnreported script) }
{
    let made = set_up(alloc, seed, read)?;
    let Made { names, world } = made;
    let jobs = world.jobs();
    let shared = share(rt, alloc, threads, &names, world)?;
    let text = ended(alloc, &shared.world, &shared.folders, jobs);
    // The process ends soon, and the system takes its memory at once.
    forget(shared);
    Ok(text?)
}
