//! The lines of the folders, listed with a pass.

ghost use Rattle.std.specs.Prelude.{◌≡◌, ◌++◌, length, IfOk, IfErr, OnOk};
ghost use mathlib.Core.List.{IsPrefix};
ghost use Rattle.md_core.specs.Mailbox.{mailbox_of};
ghost use Rattle.md_core.specs.Runs.{Run, dirs_of};
ghost use Rattle.md_store.specs.Listing.{ShowsLast};
ghost use Rattle.md_store.specs.Ongoing.{IsSince};
ghost use Rattle.md_text.specs.Folders.{names_of};
ghost use Rattle.md_runs.specs.Threading.{folder_text, folders_text, IsStop};

use crate::fault::RunFault;
use crate::threads::sharing::Shared;
use md_dirs::IndexDirs;
use md_script::push_entries;
use md_store::{Naming, Pass, Store};
use std::alloc::Global;
use std::sync::Wait;

/// Lists the folders with a pass and closes the store: the lines of the folders, and the world, which shows them. It would be refused `Closed`,
/// too, where the pass doesn't hold all effects of the world, which never comes once the threads have ended.
pub(super) fn list_and_close<J: Naming, R: Wait>(
    rt: &R,
    alloc: Global,
    store: Store<IndexDirs, J>,
    mut pass: Pass<J>,
    names: &[Vec<u8>],
) -> Result<Shared, RunFault>
    ensures since { IfOk result (λ s. IsSince J.begun s.world) }
    ensures folders { IfOk result (λ s. s.folders.items ≡ folders_text (mailbox_of (dirs_of s.world)) 0 (names_of names.now)) }
    ensures stop { IfErr result IsStop }
{
    let listed = list_all(rt, alloc, &store, &mut pass, names);
    let (world, is_all) = store.close_with(rt, &pass);
    let folders = listed?;
    if !is_all {
        return Err(RunFault::Closed);
    }
    Ok(Shared { folders, world })
}

/// Publishes what memory refused before, and lists the folders. It would be refused `Closed`, too, where the pass was told of an effect while it
/// listed, which never comes once the threads have ended.
fn list_all<J: Naming, R: Wait>(
    rt: &R,
    alloc: Global,
    store: &Store<IndexDirs, J>,
    pass: &mut Pass<J>,
    names: &[Vec<u8>],
) -> Result<Vec<u8>, RunFault>
    ensures last { IfOk result (λ text. (r : Run) → ShowsLast J.opening pass.new.history r
        → text.items ≡ folders_text (mailbox_of (dirs_of r)) 0 (names_of names.now)) }
    ensures stop { IfErr result IsStop }
{
    store.catch_up(rt, pass)?;
    let held = pass.len();
    let mut text = Vec::new(alloc);
    push_listings(alloc, &mut text, store, pass, names)?;
    if pass.len() != held {
        return Err(RunFault::Closed);
    }
    Ok(text)
}

/// Appends the name of each folder, and its listing.
#[tactic(auto, unfolding(crate::specs::Threading::folders_text))]
fn push_listings<J: Naming>(
    alloc: Global,
    text: &mut Vec<u8>,
    store: &Store<IndexDirs, J>,
    pass: &mut Pass<J>,
    names: &[Vec<u8>],
) -> Result<(), RunFault>
    ensures held { IsPrefix pass.old.history pass.new.history }
    ensures last { OnOk result (length pass.new.history ≡ length pass.old.history → (r : Run) → ShowsLast J.opening pass.new.history r
        → text.new.items ≡ text.old.items ++ folders_text (mailbox_of (dirs_of r)) 0 (names_of names.now)) }
    ensures stop { IfErr result IsStop }
{
    let mut folder = 0u32;
    let mut left = names;
    while let [name, others @ ..] = left {
        push_listing(alloc, text, store, pass, folder, name)?;
        // A script has at most 64 folders.
        let Some(next) = folder.checked_add(1) else {
            return Err(RunFault::Closed);
        };
        folder = next;
        left = others;
    }
    Ok(())
}

/// Appends the name of a folder, and its listing.
fn push_listing<J: Naming>(
    alloc: Global,
    text: &mut Vec<u8>,
    store: &Store<IndexDirs, J>,
    pass: &mut Pass<J>,
    folder: u32,
    name: &[u8],
) -> Result<(), RunFault>
    ensures held { IsPrefix pass.old.history pass.new.history }
    ensures last { OnOk result (length pass.new.history ≡ length pass.old.history → (r : Run) → ShowsLast J.opening pass.new.history r
        → text.new.items ≡ text.old.items ++ folder_text (mailbox_of (dirs_of r)) folder name.now) }
    ensures stop { IfErr result IsStop }
{
    text.extend_from_slice(b"folder ")?;
    text.extend_from_slice(name)?;
    text.extend_from_slice(b"\n")?;
    let entries = store.list(alloc, pass, folder)?;
    Ok(push_entries(text, &entries)?)
}
