//! A file that directories begin with.
ghost use Rattle.std.specs.Prelude.{◌≡◌, IfOk};

use crate::paths::Path;
use md_name::Bytes;
use std::alloc::{AllocError, Global};

/// A file that directories begin with: its one name, its bytes, and its stamp in seconds.
#[derive(Debug, Drop)]
pub struct ImageFile {
    pub path: Path,
    pub bytes: Bytes,
    pub stamp: u64,
}

impl ImageFile {
    /// A copy of this file. It is refused only when out of memory.
    pub fn again(&self, alloc: Global) -> Result<ImageFile, AllocError>
        ensures { IfOk result (λ file. file ≡ self.now) }
    {
        Ok(ImageFile {
            path: self.path.again(alloc)?,
            bytes: self.bytes.again(alloc)?,
            stamp: self.stamp,
        })
    }
}
