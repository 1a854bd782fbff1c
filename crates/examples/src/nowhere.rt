//! Directories of one's own, which wrap no others: those of no folder. A call on them finds nothing.
ghost use Rattle.std.specs.Prelude.{◌≡◌, ◌+◌};
ghost use Rattle.md_dirs.specs.declared.calls.DirError.TheVariants.{NotFound};

use crate::deliver::delivery;
use anyhow::{Result, bail};
use md_core::{CoreError, World};
use md_dirs::{Count, DirError, Dirs, Path, Place, Row, RowRef};
use std::alloc::Global;

/// No folder, and so no file. In memory it is nothing: the count of calls is for contracts alone.
#[derive(Drop)]
pub struct Nowhere {
    calls: Count,
}

impl Nowhere {
    /// No folder, of which nothing was asked yet.
    pub fn new() -> Nowhere
        ensures { result.calls.value ≡ 0 }
    {
        Nowhere {
            calls: Count::zero(),
        }
    }

    // Counts a call, and says that what it is about isn't there.
    fn refuse(&mut self) -> DirError
        ensures why { result ≡ NotFound }
        ensures counted { self.new.calls.value ≡ self.old.calls.value + 1 }
    {
        self.calls.raise();
        DirError::NotFound
    }
}

impl Dirs for Nowhere {
    ghost use Rattle.md_dirs.specs.State.{bare};

    // What contracts see: no folder, no failure, and the calls so far.
    ghost device = { λ d. record { state = bare 0; failures = 0; calls = d.calls.value } };

    fn create(&mut self, _path: &Path, _now: u64) -> Result<(), DirError> {
        Err(self.refuse())
    }

    #[tactic(auto, using(crate::proofs::NoFolder::no_name))]
    fn append(&mut self, _path: &Path, _bytes: &[u8], _now: u64) -> Result<(), DirError> {
        Err(self.refuse())
    }

    fn link(&mut self, _old: &Path, _new: &Path) -> Result<(), DirError> {
        Err(self.refuse())
    }

    fn rename(&mut self, _old: &Path, _new: &Path) -> Result<(), DirError> {
        Err(self.refuse())
    }

    #[tactic(auto, using(crate::proofs::NoFolder::no_name))]
    fn unlink(&mut self, _path: &Path) -> Result<(), DirError> {
        Err(self.refuse())
    }

    fn list(&mut self, _folder: u32, _place: Place) -> Result<Vec<Row>, DirError> {
        Err(self.refuse())
    }

    #[tactic(auto, using(crate::proofs::NoFolder::is_sound))]
    fn folders(&self) -> u32 {
        0
    }

    #[tactic(auto, using(crate::proofs::NoFolder::no_row))]
    fn row_at(&self, _folder: u32, _place: Place, _at: usize) -> Option<RowRef<'_>> {
        None
    }

    fn read(&self, _folder: u32, _place: Place, _name: &[u8]) -> Option<&[u8]> {
        None
    }
}

/// Delivers to a world over no folder, and says why that is refused.
pub fn deliver_nowhere(alloc: Global) -> Result<CoreError> {
    let mut world = World::load(alloc, Nowhere::new()).map_err(|refused| refused.error)?;
    match world.submit(delivery(alloc, b"u", b"mail")?) {
        Ok(_job) => bail!("there is no folder"),
        Err(refused) => Ok(refused.error),
    }
}
