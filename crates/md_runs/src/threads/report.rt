//! What is written of a store whose threads have ended.

ghost use Rattle.std.specs.Prelude.{◌≡◌, ◌++◌, length, IfOk, IfErr, OnOk};
ghost use Rattle.std.specs.List.{list_all};
ghost use Rattle.md_core.specs.Runs.{Run, jobs_of};
ghost use Rattle.md_store.specs.Locks.{IsFresh};
ghost use Rattle.md_store.specs.Ongoing.{IsSince};
ghost use Rattle.md_runs.specs.Threading.{answers_text, is_at_zero, AllAnswered, Interleaving, IsStop};

use crate::fault::RunFault;
use md_core::{Event, World};
use md_dirs::{Dirs, IndexDirs};
use md_script::push_answer_line;
use std::alloc::Global;

/// What is written of a store whose threads have ended, in which so many jobs began: the lines of their answers, and those of the folders.
/// Its run is then an interleaving of these: each has its answer, each step was at moment 0, no other call was submitted, and these
/// directories never fail.
pub(super) fn ended(
    alloc: Global,
    world: &World<IndexDirs>,
    folders: &[u8],
    jobs: u64,
) -> Result<Vec<u8>, RunFault>
    ensures run { OnOk result ((begun : Run) → IsFresh begun → IsSince begun world.now → jobs ≡ length begun.calls → Interleaving begun world.now) }
    ensures text { IfOk result (λ text. text.items ≡ answers_text (jobs_of world.now) (length world.now.calls) ++ folders.now) }
    ensures stop { IfErr result IsStop }
{
    // That is a run, and that its directories never fail.
    world.interleaves();
    let _dirs = world.dirs();
    if world.jobs() != jobs || !are_at_zero(world.log()) {
        return Err(RunFault::Closed);
    }
    let mut text = Vec::new(alloc);
    push_answers(&mut text, world)?;
    text.extend_from_slice(folders)?;
    Ok(text)
}

/// Whether all steps were at moment 0, and no job had a moment of its own.
fn are_at_zero(steps: &[Event]) -> bool
    ensures { result ≡ list_all is_at_zero steps.now }
{
    steps
        .iter()
        .all(|event| event.now == 0 && event.own.is_none())
}

/// Appends the answers of all jobs. Each job has its answer.
fn push_answers<D: Dirs>(text: &mut Vec<u8>, world: &World<D>) -> Result<(), RunFault>
    ensures answered { OnOk result (AllAnswered world.now) }
    ensures text { OnOk result (text.new.items ≡ text.old.items ++ answers_text (jobs_of world.now) (length world.now.calls)) }
    ensures stop { IfErr result IsStop }
{
    for before in 0..world.jobs() {
        let job = before + 1;
        let Some(answer) = world.answer(job) else {
            return Err(RunFault::Closed);
        };
        push_answer_line(text, job, answer)?;
    }
    Ok(())
}
