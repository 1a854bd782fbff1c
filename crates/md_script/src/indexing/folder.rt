//! The messages of a folder, and the lines of one.
ghost use Rattle.std.specs.Prelude.{◌≡◌, ◌<◌, ◌++◌, IfOk, IfErr, OnOk};
ghost use mathlib.Core.List.{IsPrefix};
ghost use Rattle.md_core.specs.Mailbox.{mailbox_of};
ghost use Rattle.md_core.specs.Runs.{dirs_of};
ghost use Rattle.md_listing.specs.Readings.{reading_refusal};
ghost use Rattle.md_script.specs.Indexing.{bytes_in, indexed_text, listing_in};

use crate::summary::push_summary;
use md_core::World;
use md_dirs::Dirs;
use md_head::Summary;
use md_view::{EntryRef, ViewError, list_lent};
use std::alloc::{AllocError, Global};

/// The listing of a folder now, each entry lent by the world. It is refused as `md_view::list_lent` is.
pub fn list_folder<'a, D: Dirs>(
    alloc: Global,
    world: &'a World<D>,
    folder: u32,
) -> Result<Vec<EntryRef<'a>>, ViewError>
    ensures entries { IfOk result (λ all. all.items ≡ listing_in (mailbox_of (dirs_of world.now)) folder) }
    ensures folder { IfOk result (λ _. folder < (dirs_of world.now).folders) }
    ensures refusal { IfErr result (λ error. error ≡ reading_refusal (dirs_of world.now) folder) }
{
    world.interleaves();
    Ok(list_lent(alloc, world, folder)?.into_vec(alloc)?)
}

/// The bytes of the message of a unique name, and none where it isn't there.
pub fn bytes_of<'a, D: Dirs>(world: &'a World<D>, unique: &[u8]) -> &'a [u8]
    ensures { result.now ≡ bytes_in (mailbox_of (dirs_of world.now)) unique.now }
{
    world.read(unique).unwrap_or(b"")
}

/// Appends the lines of a message: `FOLDER UNIQUE`, the lines of its summary (RFC 5322), and `end`. Where it is refused, memory was, and
/// some of them may have been appended.
#[tactic(auto, using(md_text::proofs::Growing::grown, md_text::proofs::Growing::grown_if, md_text::proofs::Growing::grown_on))]
pub fn push_indexed(
    out: &mut Vec<u8>,
    name: &[u8],
    unique: &[u8],
    summary: &Summary,
) -> Result<(), AllocError>
    ensures text { OnOk result (out.new.items ≡ out.old.items ++ indexed_text name.now unique.now summary.now) }
    ensures kept { IsPrefix out.old.items out.new.items }
{
    out.extend_from_slice(name)?;
    out.push(b' ')?;
    out.extend_from_slice(unique)?;
    out.push(b'\n')?;
    push_summary(out, summary)
}
