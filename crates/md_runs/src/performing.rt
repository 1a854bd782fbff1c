//! The run that words name, made.
ghost use Rattle.std.specs.Prelude.{◌+◌, ◌≤◌, ℕ, List};
ghost use Rattle.md_script.specs.Reading.{most_reads};
ghost use Rattle.md_runs.specs.Performing.{Performs};
ghost use Rattle.md_runs.specs.Runs.{WordsName};

use crate::fault::RunFault;
use crate::indexing::run_index;
use crate::threads::run_threads;
use crate::words::Run;
use md_dirs::HashSeed;
use md_script::{Sink, Source, play_last};
use std::alloc::Global;
use std::sync::Wait;
use std::thread::Threads;

/// Makes a run of the script that the source gives, in at most 1,048,576 reads. It is the last thing that a process does: the memory of the
/// store isn't given back.
pub fn perform<R: Threads + Wait + Sync, S: Source, T: Sink>(
    rt: &R,
    alloc: Global,
    seed: HashSeed,
    run: Run,
    source: &mut S,
    sink: &mut T,
) -> Result<(), RunFault>
    requires { (words : List (List ℕ)) × WordsName words run }
    ensures performs { Performs run (S.state source.old) (S.state source.new) (T.state sink.old) (T.state sink.new) result }
    ensures reads { (S.state source.new).reads ≤ (S.state source.old).reads + most_reads }
{
    match run {
        Run::Play => Ok(play_last(alloc, seed, source, sink)?),
        Run::Threads(count) => run_threads(rt, alloc, seed, count as usize, source, sink),
        Run::Index(count) => Ok(run_index(rt, alloc, seed, count as usize, source, sink)?),
    }
}
