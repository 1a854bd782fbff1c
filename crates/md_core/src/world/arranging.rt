//! Directories that are made ready to be listed.
ghost use Rattle.std.specs.Prelude.{◌≡◌};

use crate::world::World;
use md_dirs::{Dirs, Place};
use std::alloc::AllocError;

impl<D: Dirs> World<D> {
    /// Makes a folder ready to be listed, so that a listing need not find the order of its names anew. It costs nothing if nothing changed
    /// since, else one sort of the names. It does nothing if the folder is not there, or for hashed directories in which two names share a
    /// unique part: these are sorted at each listing.
    ///
    /// It is refused only when out of memory. A listing then shows the same, later.
    pub fn arrange(&mut self, folder: u32) -> Result<(), AllocError>
        ensures { self.new ≡ self.old }
    {
        self.arrange_directory(folder, Place::New)?;
        self.arrange_directory(folder, Place::Cur)
    }

    /// Makes one directory of a folder ready for looks at its names by their positions, as `arrange` makes a folder ready to be listed.
    pub fn arrange_directory(&mut self, folder: u32, place: Place) -> Result<(), AllocError>
        ensures { self.new ≡ self.old }
    {
        self.dirs.arrange(folder, place)
    }
}
