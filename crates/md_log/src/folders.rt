//! The folders that a log names.
ghost use Rattle.std.specs.Prelude.{◌≡◌, OnErr};
ghost use Rattle.md_log.specs.Words.{Gives};
ghost use Rattle.md_log.specs.Folders.{with_folder};

use crate::error::LineFault;
use md_text::Folders;

/// The most folders that a log may name.
const MOST_FOLDERS: u32 = 1_000;

/// Adds a folder after the others: one of another name than theirs, and not one too many. Where it is refused, nothing has changed.
#[tactic(auto, unfolding(crate::specs::Folders::with_folder))]
pub fn name_folder(folders: &mut Folders, name: &[u8]) -> Result<(), LineFault>
    ensures folders { Gives (λ _. folders.new) result (with_folder folders.old name.now) }
    ensures unchanged { OnErr result (folders.new ≡ folders.old) }
{
    if folders.place(name).is_some() {
        return Err(LineFault::SameFolder);
    }
    if folders.count() >= MOST_FOLDERS {
        return Err(LineFault::TooManyFolders);
    }
    Ok(folders.add(name)?)
}
