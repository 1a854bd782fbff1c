//! Summaries that several workers make.
ghost use Rattle.std.specs.Prelude.{◌≡◌, ◌++◌, IfOk, OnOk, flat_map, map};
ghost use Rattle.md_core.specs.Mailbox.{mailbox_of};
ghost use Rattle.md_core.specs.Runs.{dirs_of};
ghost use Rattle.md_index.specs.Index.{indexed_of};
ghost use Rattle.md_script.specs.Indexing.{folder_text};
ghost use Rattle.md_runs.specs.Indexes.{indexed_in, made_text};

use md_core::World;
use md_dirs::Dirs;
use md_index::{Indexed, Message, OpenGate, index};
use md_script::{bytes_of, list_folder, push_indexed};
use md_view::EntryRef;
use std::alloc::{AllocError, Global};
use std::sync::Wait;
use std::thread::Threads;

/// Appends the index of a folder of this number and name, whose summaries so many workers make side by side. Where it is refused, memory
/// was, and some of it may have been appended.
#[tactic(auto, using(crate::proofs::MadeTexts::made_texts))]
pub(super) fn push_folder<R: Threads + Wait + Sync, D: Dirs>(
    rt: &R,
    alloc: Global,
    workers: usize,
    world: &World<D>,
    folder: u32,
    name: &[u8],
    out: &mut Vec<u8>,
) -> Result<(), AllocError>
    ensures { OnOk result (out.new.items ≡ out.old.items ++ folder_text (mailbox_of (dirs_of world.now)) folder name.now) }
{
    let Ok(entries) = list_folder(alloc, world, folder) else {
        return Err(AllocError);
    };
    let messages = messages(alloc, world, &entries)?;
    let Ok(all) = index(rt, alloc, &messages, workers, &OpenGate) else {
        return Err(AllocError);
    };
    push_all(out, name, &all)
}

// Appends messages of a folder of this name.
fn push_all(out: &mut Vec<u8>, name: &[u8], all: &[Indexed]) -> Result<(), AllocError>
    ensures { OnOk result (out.new.items ≡ out.old.items ++ flat_map (made_text name.now) all.now) }
{
    for made in all {
        push_indexed(out, name, made.unique.as_slice(), &made.summary)?;
    }
    Ok(())
}

// The messages of a listing, lent: their bytes are the world's.
fn messages<'a, D: Dirs>(
    alloc: Global,
    world: &'a World<D>,
    entries: &[EntryRef<'a>],
) -> Result<Vec<Message<'a>>, AllocError>
    ensures { IfOk result (λ all. map indexed_of all.items ≡ map (indexed_in (mailbox_of (dirs_of world.now))) entries.now) }
{
    let mut all = Vec::new(alloc);
    all.reserve(entries.len())?;
    for entry in entries {
        let unique = entry.unique();
        let bytes = bytes_of(world, unique);
        all.push(Message { unique, bytes })?;
    }
    Ok(all)
}
