//! Summaries that are made one after another.
ghost use Rattle.std.specs.Prelude.{◌≡◌, ◌++◌, OnOk};
ghost use Rattle.std.specs.List.{flat_map};
ghost use Rattle.md_core.specs.Mailbox.{mailbox_of};
ghost use Rattle.md_core.specs.Runs.{dirs_of};
ghost use Rattle.md_script.specs.Indexing.{folder_text, message_text};

use crate::indexing::folder::{bytes_of, list_folder, push_indexed};
use md_core::World;
use md_dirs::Dirs;
use md_head::{HeadError, summary};
use md_view::EntryRef;
use std::alloc::{AllocError, Global};

/// Appends the index of the folder of this number under this name. No summary is kept: each is appended as soon as it is made. Where it is
/// refused, memory was, and some of it may have been appended.
pub(super) fn push_folder<D: Dirs>(
    alloc: Global,
    world: &World<D>,
    folder: u32,
    name: &[u8],
    out: &mut Vec<u8>,
) -> Result<(), AllocError>
    ensures { OnOk result (out.new.items ≡ out.old.items ++ folder_text (mailbox_of (dirs_of world.now)) folder name.now) }
{
    let Ok(entries) = list_folder(alloc, world, folder) else {
        return Err(AllocError);
    };
    push_messages(alloc, world, name, &entries, out)
}

// Appends messages of a folder of this name.
fn push_messages<D: Dirs>(
    alloc: Global,
    world: &World<D>,
    name: &[u8],
    entries: &[EntryRef<'_>],
    out: &mut Vec<u8>,
) -> Result<(), AllocError>
    ensures { OnOk result (out.new.items ≡ out.old.items ++ flat_map (message_text (mailbox_of (dirs_of world.now)) name.now) entries.now) }
{
    for entry in entries {
        let unique = entry.unique();
        let made = summary(alloc, bytes_of(world, unique)).map_err(
            |HeadError::NoMemory| AllocError,
        )?;
        push_indexed(out, name, unique, &made)?;
    }
    Ok(())
}
