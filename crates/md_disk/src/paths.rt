//! The paths of maildirs as the system takes them.
ghost use Rattle.std.specs.Prelude.{◌≡◌, map, string_bytes};

use crate::cause::Cause;
use crate::error::CallError;
use md_dirs::Place;
use md_jobs::PathRef;
use std::alloc::{AllocError, Global};
use std::marker::Model;

/// The directories of these maildirs, each by its path. Contracts see a list of paths.
#[derive(Drop)]
pub struct Folders {
    paths: Vec<String>,
}

impl Model for Folders {
    ghost use Rattle.std.specs.Prelude.{List, ℕ, map, string_bytes};

    ghost Value = { List (List ℕ) };

    ghost view = { λ f. map string_bytes f.paths.items };
}

impl Folders {
    /// Maildirs, numbered from 0 in this order.
    pub fn new(paths: Vec<String>) -> Folders
        ensures { result ≡ map string_bytes paths.items }
    {
        Folders { paths }
    }

    /// How many there are, up to the highest number of a folder.
    pub(crate) fn count(&self) -> u32 {
        u32::try_from(self.paths.len()).unwrap_or(u32::MAX)
    }

    /// What the paths lie in.
    pub(crate) fn allocator(&self) -> Global {
        *self.paths.allocator()
    }

    /// The path of a directory.
    pub(crate) fn dir(
        &self,
        alloc: Global,
        folder: u32,
        place: Place,
    ) -> Result<String, CallError> {
        let Some(path) = self.paths.as_slice().get(folder as usize) else {
            return Err(CallError::Refused(Cause::NoSuchFolder));
        };
        Ok(within(alloc, path.as_str(), place_name(place))?)
    }

    /// The path of a name.
    pub(crate) fn file(&self, alloc: Global, path: &PathRef<'_>) -> Result<String, CallError> {
        let Ok(name) = std::str::from_utf8(path.name()) else {
            return Err(CallError::Refused(Cause::NotText));
        };
        let mut file = self.dir(alloc, path.folder(), path.place())?;
        file.push('/')?;
        file.push_str(name)?;
        Ok(file)
    }
}

/// The path of a name in a directory.
pub(crate) fn within(alloc: Global, dir: &str, name: &str) -> Result<String, AllocError> {
    let mut path = String::from_str(alloc, dir)?;
    path.push('/')?;
    path.push_str(name)?;
    Ok(path)
}

/// What a directory of a maildir is called.
pub(crate) fn place_name(place: Place) -> &'static str {
    match place {
        Place::Tmp => "tmp",
        Place::New => "new",
        Place::Cur => "cur",
    }
}
