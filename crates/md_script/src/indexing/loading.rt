//! The store that a script sets up, and the line that it is refused at.
ghost use Rattle.std.specs.Prelude.{◌≡◌, ◌≢◌, ◌⊎◌, length};
ghost use Rattle.md_text.specs.Folders.{names_of};
ghost use Rattle.md_script.specs.Kinds.{at_no_line};
ghost use Rattle.md_script.specs.Sessions.{run_over};
ghost use Rattle.md_script.specs.Words.{Gives};
ghost use Rattle.md_script.specs.declared.error.PlayKind.TheVariants.{NoMemory};

use crate::error::{PlayError, PlayKind};
use crate::store::open_store;
use md_core::World;
use md_dirs::{HashSeed, ImageFile, IndexDirs};
use std::alloc::Global;

/// The store over folders, as many as there are names, and files, whose names are hashed by a seed. Refused as `open_store` is.
pub fn load(
    alloc: Global,
    seed: HashSeed,
    names: &[Vec<u8>],
    files: Vec<ImageFile>,
) -> Result<World<IndexDirs>, PlayKind>
    ensures { Gives (λ world. world) result (run_over (length (names_of names.now)) files.items) }
{
    // No memory holds so many folders.
    let Ok(count) = u32::try_from(names.len()) else {
        return Err(PlayKind::NoMemory);
    };
    open_store(alloc, seed, count, files)
}

/// What no single line is to blame for is refused at the script's last line, which has the number of its lines, and out of memory at none.
pub fn refused(lines: u64, kind: PlayKind) -> PlayError
    ensures { ((kind ≡ NoMemory) × (result ≡ at_no_line NoMemory)) ⊎ ((kind ≢ NoMemory) × (result ≡ record { line = lines; kind = kind })) }
{
    match kind {
        PlayKind::NoMemory => PlayError::from(PlayKind::NoMemory),
        kind => PlayError { line: lines, kind },
    }
}
