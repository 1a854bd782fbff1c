//! Directories that a script is played over.
ghost use Rattle.std.specs.Prelude.{◌≡◌, ◌+◌, ◌⊎◌, None, Some, IfOk, IfErr, refl};
ghost use Rattle.md_dirs.specs.Calls.{fresh};
ghost use Rattle.md_dirs.specs.Image.{image_state, image_refusal};
ghost use Rattle.md_dirs.specs.declared.calls.DirError.TheVariants.{NoMemory};

use md_dirs::{DirError, Dirs, HashSeed, Hook, Hooked, ImageFile, IndexDirs, PlainDirs};
use std::alloc::Global;

/// Directories that can begin with files, and that never fail.
pub trait Storage: Dirs + Drop {
    /// The directories that files are, made in their order: `NotFound` or `Exists` at the first that can't be made. `NoMemory` may come
    /// in place of either. Where they hash names, they do so by the seed.
    fn holding(
        alloc: Global,
        seed: HashSeed,
        folders: u32,
        files: Vec<ImageFile>,
    ) -> Result<Self, DirError>
        ensures accepted { IfOk result (λ _. image_refusal folders files.items ≡ None) }
        ensures made { IfOk result (λ dirs. Self.device dirs ≡ fresh (image_state folders files.items)) }
        ensures refused { IfErr result (λ e. (e ≡ NoMemory) ⊎ (image_refusal folders files.items ≡ Some e)) };

    // A law: no call of theirs was a fault.
    ghost never_fails: { (dirs : Self) → (Self.device dirs).failures ≡ 0 };
}

/// A hook of directories that a script is played over: it stops no call.
pub trait Watch: Hook + Drop {
    /// The hook before the first call.
    fn begun(alloc: Global) -> Self;

    // A law: no call was stopped.
    ghost never_stops: { (watch : Self) → Self.stopped watch ≡ 0 };
}

impl<D: Storage, W: Watch> Storage for Hooked<D, W> {
    ghost never_fails = { λ h i. D.never_fails h.dirs i + W.never_stops h.hook i };

    fn holding(
        alloc: Global,
        seed: HashSeed,
        folders: u32,
        files: Vec<ImageFile>,
    ) -> Result<Self, DirError> {
        let dirs = D::holding(alloc, seed, folders, files)?;
        Ok(Hooked::over(dirs, W::begun(alloc)))
    }
}

impl Storage for IndexDirs {
    ghost never_fails = { λ _. refl };

    fn holding(
        alloc: Global,
        seed: HashSeed,
        folders: u32,
        files: Vec<ImageFile>,
    ) -> Result<Self, DirError> {
        IndexDirs::from_image_with_seed(alloc, seed, folders, files)
    }
}

impl Storage for PlainDirs {
    ghost never_fails = { λ _. refl };

    // They hash no name.
    fn holding(
        alloc: Global,
        _seed: HashSeed,
        folders: u32,
        files: Vec<ImageFile>,
    ) -> Result<Self, DirError> {
        PlainDirs::from_image(alloc, folders, files)
    }
}
