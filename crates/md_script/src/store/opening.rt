//! A store at its beginning.
ghost use Rattle.std.specs.Prelude.{◌≡◌, IfOk};
ghost use Rattle.md_script.specs.Words.{Gives};
ghost use Rattle.md_script.specs.Sessions.{image_of, run_over};

use crate::error::PlayKind;
use crate::storage::Storage;
use md_core::World;
use md_dirs::{DirError, HashSeed, ImageFile};
use std::alloc::Global;

/// A store over folders and files. Refused `SamePath` where two files have one path, or where the folder of one isn't there, which no
/// script can name; else `Core` of `BadName`, `LongUnique` or `DuplicateUnique`. `NoMemory` may come in place of any of these. Where its
/// directories hash names, they do so by the seed.
#[tactic(auto, unfolding(crate::specs::Sessions::run_over))]
pub fn open_store<D: Storage>(
    alloc: Global,
    seed: HashSeed,
    folders: u32,
    files: Vec<ImageFile>,
) -> Result<World<D>, PlayKind>
    ensures { Gives (λ world. world) result (run_over folders files.items) }
{
    let dirs = directories::<D>(alloc, seed, folders, files)?;
    match World::load(alloc, dirs) {
        Ok(world) => Ok(world),
        Err(refused) => Err(PlayKind::from(refused.error)),
    }
}

/// The directories that the files are. A script names no folder that isn't there, so that the only refusal is that two have one path.
#[tactic(auto, unfolding(crate::specs::Sessions::image_of))]
fn directories<D: Storage>(
    alloc: Global,
    seed: HashSeed,
    folders: u32,
    files: Vec<ImageFile>,
) -> Result<D, PlayKind>
    ensures image { Gives (λ dirs. (D.device dirs).state) result (image_of folders files.items) }
    ensures fresh { IfOk result (λ dirs. (D.device dirs).calls ≡ 0) }
{
    match D::holding(alloc, seed, folders, files) {
        Ok(dirs) => Ok(dirs),
        Err(DirError::NoMemory) => Err(PlayKind::NoMemory),
        Err(_) => Err(PlayKind::SamePath),
    }
}
