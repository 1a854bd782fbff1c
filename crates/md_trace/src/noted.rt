//! Directories that note what the last call of them was made of.
ghost use Rattle.std.specs.Prelude.{true, refl};
ghost use Rattle.std.specs.Result.{result_ok};
ghost use Rattle.md_trace.specs.Notes.{IsNoted};

use md_dirs::{Called, Hook, Hooked, Path, Place};
use md_script::Watch;
use std::alloc::{AllocError, Global};

/// What a directory call was made of.
#[derive(Drop)]
pub(crate) enum Noted {
    One(Path),
    Two { old: Path, new: Path },
    /// A listing. A look for one message, or for old files, is a listing of which some rows are kept.
    Directory { folder: u32, place: Place },
}

/// A hook that lets each call through, with the paths of the last.
#[derive(Drop)]
pub(crate) struct Notes {
    alloc: Global,
    /// None before the first call, and where memory was refused to the note of the last, which is made all the same. A listing has no path
    /// to copy, and is always noted.
    pub(crate) noted: Option<Noted>,
}

/// Directories that note what the last call of them was made of.
pub(crate) type NotedDirs<D> = Hooked<D, Notes>;

impl Hook for Notes {
    ghost stopped = { λ _. 0 };

    ghost admits = { λ _ _. true };

    ghost leaves = { λ _ called new. IsNoted called new.noted };

    fn is_let_through(&mut self, called: Called<'_>) -> bool {
        self.noted = note_of(self.alloc, called).ok();
        true
    }
}

// The note of a call.
fn note_of(alloc: Global, called: Called<'_>) -> Result<Noted, AllocError>
    ensures { IsNoted called.entry (result_ok result) }
{
    Ok(match called {
        Called::One(path) => Noted::One(path.again(alloc)?),
        Called::Link { old, new } | Called::Rename { old, new } => Noted::Two {
            old: old.again(alloc)?,
            new: new.again(alloc)?,
        },
        Called::Listing { folder, place } => Noted::Directory { folder, place },
    })
}

impl Watch for Notes {
    ghost never_stops = { λ _. refl };

    fn begun(alloc: Global) -> Self {
        Notes { alloc, noted: None }
    }
}
