//! The world: directories, the jobs on them, and the log of their steps.
use crate::jobs::job::Job;
use log::Log;
use md_dirs::Dirs;
use md_jobs::Snapshot;
use md_used::Used;
use std::alloc::Global;
use std::marker::Model;

pub(crate) mod arranging;
pub(crate) mod call;
pub(crate) mod checks;
pub(crate) mod load;
pub(crate) mod log;
pub(crate) mod looking;
pub(crate) mod looks;
pub(crate) mod reading;
pub(crate) mod run;
pub(crate) mod settle;
pub(crate) mod step;
pub(crate) mod submit;

/// Directories, the jobs on them, and the log of their steps.
///
/// Contracts see it as its run: the directories and the clock at the beginning, the calls that were submitted, and the events since, each
/// with a mark where its directory call faulted.
#[derive(Drop)]
pub struct World<D: Dirs> {
    alloc: Global,
    image: Snapshot<D>,
    dirs: D,
    // The clock at the beginning, in seconds.
    began: u64,
    // The clock now, in seconds.
    clock: u64,
    jobs: Vec<Job>,
    // What tells, with a look at the directories, which names are used up.
    used: Used,
    log: Log,
}

impl<D: Dirs> Model for World<D> {
    ghost use Rattle.md_core.specs.Runs.{Run};
    ghost use Rattle.md_core.specs.Worlds.{IsWorld, run_of, machine_by};
    ghost use Rattle.std.specs.Coded.{codes};
    ghost use Rattle.md_dirs.specs.State.{state_code};
    ghost use Rattle.md_name.specs.contracts.flags.Flags as flags;

    ghost Value = { Run };

    ghost coded = { Prim.hlevel (codes, state_code, flags.the_row.coded) };

    ghost view = { λ w.
        run_of (D.device w.image.value) w.began w.jobs.items w.log.events.items
        w.log.marks.items };

    ghost invariant = { λ w.
        let first = D.device w.image.value in
        let now = D.device w.dirs in
        let run = run_of first w.began w.jobs.items w.log.events.items w.log.marks.items in
        IsWorld run (machine_by now w.clock w.jobs.items w.log.effects.items) now w.used w.log.events.items w.log.marks.items };
}

impl<D: Dirs> World<D> {
    ghost use Rattle.std.specs.Prelude.{◌≡◌};
    ghost use Rattle.md_core.specs.Stepping.{IsRun};
    ghost use Rattle.md_core.specs.Runs.{dirs_of, failures_of, calls_made_of};
    ghost use Rattle.md_core.specs.Trace.{IsTrace};
    ghost use Rattle.md_core.specs.Tracing.{trace_of, IsShown};
    ghost use Rattle.md_core.specs.Interleaving.{Interleaves};
    ghost use Rattle.md_core.specs.Sparing.{CleanersSpare};

    /// The interleaving theorem and the cleaner's theorem, of the trace of any world: whatever calls were submitted, and whatever order
    /// their steps came in.
    pub fn interleaves(&self)
        ensures run { IsRun self.now }
        ensures trace { IsTrace (trace_of self.now) }
        ensures shown { IsShown self.now }
        ensures theorem { Interleaves (trace_of self.now) }
        ensures cleaners { CleanersSpare (trace_of self.now) }
    {
        let _kept = &self.clock;
    }

    /// The directories of a world. They are in the state of its run. They have failed as often as before it began and once for each of its
    /// marks, and as many calls of them were made as before it began and one for each of its events.
    pub fn dirs(&self) -> &D
        ensures state { (D.device result.now).state ≡ dirs_of self.now }
        ensures failures { (D.device result.now).failures ≡ failures_of self.now }
        ensures calls { (D.device result.now).calls ≡ calls_made_of self.now }
    {
        &self.dirs
    }

    /// The directories of a world that is no longer wanted, which are as `dirs` says.
    pub fn into_dirs(self) -> D
        ensures state { (D.device result).state ≡ dirs_of self }
        ensures failures { (D.device result).failures ≡ failures_of self }
        ensures calls { (D.device result).calls ≡ calls_made_of self }
    {
        self.dirs
    }
}
