//! The store that threads begin with.

ghost use Rattle.std.specs.Prelude.{◌≡◌, ◌≢◌, ◌⊎◌, ℕ, true, List, Ok, Err, IfOk, MatchResult};
ghost use Rattle.md_store.specs.Locks.{IsFresh};
ghost use Rattle.md_script.specs.declared.error.PlayKind.TheVariants.{NoMemory};
ghost use Rattle.md_text.specs.Folders.{names_of};
ghost use Rattle.md_script.specs.Kinds.{at_no_line};
ghost use Rattle.md_script.specs.ReadSetups.{SetsUp};
ghost use Rattle.md_runs.specs.Begun.{submitted_all, begun_over, begun_of, IsBegun};

use md_core::{Call, World};
use md_dirs::{Dirs, HashSeed, ImageFile, IndexDirs};
use md_script::{PlayError, PlayKind, ReadSetup, load, refused};
use std::alloc::Global;

/// The names of a script's folders, and a store over its files with its jobs, of which none was stepped.
#[derive(Drop)]
pub(super) struct Made {
    pub names: Vec<Vec<u8>>,
    pub world: World<IndexDirs>,
}

/// What a script that was read sets up. Its store hashes names by a seed.
pub(super) fn set_up(alloc: Global, seed: HashSeed, read: ReadSetup) -> Result<Made, PlayError>
    ensures made { (script : List ℕ) → SetsUp true script read
        → MatchResult result (IsBegun script) (λ e. (e ≡ at_no_line NoMemory) ⊎ (begun_of script ≡ Err e)) }
    ensures fresh { IfOk result (λ made. IsFresh made.world) }
{
    let setup = read.setup;
    let (files, calls) = (setup.files, setup.calls);
    match world_of(alloc, seed, &setup.folders, files, calls) {
        Ok(world) => Ok(Made {
            names: setup.folders,
            world,
        }),
        Err(kind) => Err(refused(read.lines, kind)),
    }
}

// The store over folders and files, with jobs.
#[tactic(auto, unfolding(crate::specs::Begun::begun_over), using(crate::proofs::Submitting::opened_fresh))]
fn world_of(
    alloc: Global,
    seed: HashSeed,
    names: &[Vec<u8>],
    files: Vec<ImageFile>,
    calls: Vec<Call>,
) -> Result<World<IndexDirs>, PlayKind>
    ensures begun { MatchResult result
        (λ world. begun_over (names_of names.now) files.items calls.items ≡ Ok world)
        (λ kind. kind ≢ NoMemory → begun_over (names_of names.now) files.items calls.items ≡ Err kind) }
    ensures fresh { IfOk result (λ world. IsFresh world) }
{
    let mut world = load(alloc, seed, names, files)?;
    submit_all(&mut world, calls)?;
    Ok(world)
}

// Submits calls in their order, up to the first that is refused.
fn submit_all<D: Dirs>(world: &mut World<D>, calls: Vec<Call>) -> Result<(), PlayKind>
    ensures all { MatchResult result
        (λ _. submitted_all world.old calls.items ≡ Ok world.new)
        (λ kind. kind ≢ NoMemory → submitted_all world.old calls.items ≡ Err kind) }
    ensures events { world.new.events ≡ world.old.events }
{
    for call in calls {
        world.submit(call)?;
    }
    Ok(())
}
