//! Worlds at their beginning.
ghost use Rattle.std.specs.Prelude.{◌≡◌, ◌⊎◌, None, Some, IfOk, IfErr, OnOk};
ghost use Rattle.md_used.specs.Loading.{load_refusal};
ghost use Rattle.md_core.specs.Runs.{new_run};
ghost use Rattle.md_core.specs.Interleaving.{Interleaves};
ghost use Rattle.md_core.specs.Tracing.{trace_of};

use crate::world::World;
use crate::world::log::Log;
use crate::world::looking::look;
use crate::world::looking::quick::quick_look;
use md_dirs::Dirs;
use md_jobs::{CoreError, Snapshot};
use md_used::Used;
use std::alloc::Global;

/// Directories that were not loaded, and why.
#[derive(Drop)]
pub struct LoadRefused<D> {
    pub error: CoreError,
    pub dirs: D,
}

impl<D: Dirs> World<D> {
    /// A world over directories. Its clock begins at the greatest stamp of their files, in seconds, or at 0.
    ///
    /// Every name is looked at, as they lie. The refusal is the first fault by folder, then tmp, new and cur, then name: `BadName`, `LongUnique`
    /// and `DuplicateUnique`, in this order at one name. `NoMemory` may come in place of any of these. The directories come back. Names are put
    /// in order only if one has a fault.
    pub fn load(alloc: Global, dirs: D) -> Result<World<D>, LoadRefused<D>>
        ensures ok { IfOk result (λ w. w ≡ new_run (D.device dirs)) }
        ensures accepted { OnOk result (load_refusal (D.device dirs).state ≡ None) }
        ensures theorem { IfOk result (λ w. Interleaves (trace_of w)) }
        ensures refused { IfErr result (λ r. (r.error ≡ CoreError.NoMemory) ⊎ (load_refusal (D.device dirs).state ≡ Some r.error)) }
        ensures err { IfErr result (λ r. r.dirs ≡ dirs) }
    {
        let _sound = dirs.folders();
        let seed = dirs.hash_seed();
        if let Some(clock) = quick_look(alloc, &dirs) {
            return Ok(World {
                alloc,
                image: Snapshot::of(&dirs),
                dirs,
                began: clock,
                clock,
                jobs: Vec::new(alloc),
                used: Used::beginning(alloc, seed, None),
                log: Log::new(alloc),
            });
        }
        match look(alloc, &dirs) {
            Ok(looked) => Ok(World {
                alloc,
                image: Snapshot::of(&dirs),
                dirs,
                began: looked.clock,
                clock: looked.clock,
                jobs: Vec::new(alloc),
                used: Used::beginning(alloc, seed, Some(looked.used)),
                log: Log::new(alloc),
            }),
            Err(error) => Err(LoadRefused { error, dirs }),
        }
    }
}
