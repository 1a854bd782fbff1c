//! The store that threads share, and what they leave.

ghost use Rattle.std.specs.Prelude.{◌≡◌, ◌<◌, ◌≤◌, IfOk, IfErr};
ghost use Rattle.md_core.specs.Mailbox.{mailbox_of};
ghost use Rattle.md_core.specs.Runs.{dirs_of};
ghost use Rattle.md_store.specs.Locks.{IsFresh};
ghost use Rattle.md_store.specs.Ongoing.{IsSince};
ghost use Rattle.md_view.specs.Named.{named_of};
ghost use Rattle.md_text.specs.Folders.{names_of};
ghost use Rattle.md_runs.specs.Threading.{folders_text, IsStop};

use crate::fault::RunFault;
use crate::threads::listings::list_and_close;
use crate::threads::share::Share;
use md_core::World;
use md_dirs::IndexDirs;
use md_store::{Naming, Pass, Prepared, Store, prepare};
use std::alloc::{AllocError, Global};
use std::marker::Brand;
use std::sync::Wait;
use std::thread;
use std::thread::Threads;

/// The lines of the folders, and the world that threads leave.
#[derive(Drop)]
pub(super) struct Shared {
    pub folders: Vec<u8>,
    pub world: World<IndexDirs>,
}

/// Runs the jobs of a store by so many threads, 1 to 64. Then it lists the folders with the pass of the first thread.
pub(super) fn share<R: Threads + Wait + Sync>(
    rt: &R,
    alloc: Global,
    threads: usize,
    names: &[Vec<u8>],
    world: World<IndexDirs>,
) -> Result<Shared, RunFault>
    requires { IsFresh world }
    ensures since { IfOk result (λ s. IsSince world s.world) }
    ensures folders { IfOk result (λ s. s.folders.items ≡ folders_text (mailbox_of (dirs_of s.world)) 0 (names_of names.now)) }
    ensures stop { IfErr result IsStop }
{
    let jobs = world.jobs();
    match prepare(world, threads) {
        Ok(prepared) => share_opened::<Brand, R>(rt, alloc, prepared, names, jobs),
        Err(refused) => Err(RunFault::from(refused.error)),
    }
}

fn share_opened<J: Naming + Send + Sync, R: Threads + Wait + Sync>(
    rt: &R,
    alloc: Global,
    prepared: Prepared<IndexDirs>,
    names: &[Vec<u8>],
    jobs: u64,
) -> Result<Shared, RunFault>
    requires begun { prepared.run ≡ J.begun }
    requires named { (named_of prepared.run.image ≡ J.opening) × (prepared.book ≡ J.book) }
    ensures since { IfOk result (λ s. IsSince prepared.run s.world) }
    ensures folders { IfOk result (λ s. s.folders.items ≡ folders_text (mailbox_of (dirs_of s.world)) 0 (names_of names.now)) }
    ensures stop { IfErr result IsStop }
{
    let (store, passes) = match prepared.open::<J, R>(rt, alloc) {
        Ok(opened) => opened,
        Err(refused) => return Err(RunFault::from(refused.error)),
    };
    match run_jobs(rt, alloc, &store, passes, jobs) {
        Ok(pass) => list_and_close(rt, alloc, store, pass, names),
        Err(fault) => {
            drop(store.close(rt));
            Err(fault)
        }
    }
}

/// Runs the jobs, a thread for each pass, and gives the pass of the first thread.
fn run_jobs<J: Naming + Send + Sync, R: Threads + Wait + Sync>(
    rt: &R,
    alloc: Global,
    store: &Store<IndexDirs, J>,
    passes: Vec<Pass<J>>,
    jobs: u64,
) -> Result<Pass<J>, RunFault>
    ensures { IfErr result IsStop }
{
    let threads = passes.len() as u64;
    let shares = shares(alloc, passes)?;
    let run = |share: Share<J>| share.run(rt, store, jobs, threads);
    let mut ended = thread::map_vec(rt, shares, &run)?.into_iter();
    let Some(first) = ended.next() else {
        return Err(RunFault::NoReader);
    };
    for other in ended {
        drop(other?);
    }
    Ok(first?)
}

/// Passes with the numbers of their threads.
fn shares<J: Naming>(alloc: Global, passes: Vec<Pass<J>>) -> Result<Vec<Share<J>>, AllocError> {
    let numbered = passes.into_iter().enumerate();
    numbered
        .map(|(number, pass)| Share {
            number: number as u64,
            pass,
        })
        .collect(alloc)
}
