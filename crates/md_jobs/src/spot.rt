//! Where a message is, as an errand keeps it.
ghost use Rattle.std.specs.Prelude.{◌≡◌, [], IfOk, IfSome};
ghost use Rattle.md_dirs.specs.Path.{path_of};
ghost use Rattle.md_jobs.specs.Machines.Purposes.{info_in};

use crate::purpose::info_of;
use crate::request::PathRef;
use md_dirs::{Bytes, FileName, Path, Place};
use md_name::Info;
use std::alloc::{AllocError, Global};
use std::marker::Model;
use std::mem::replace;

/// Where a message is or goes, and the info of its name, where that was read. Contracts see a path.
///
/// An errand keeps it, and an effect takes its name over: so the name lies apart, and moves. The path that a directory call borrows is made of
/// it right before the call.
#[derive(Drop)]
pub struct Spot {
    pub(crate) folder: u32,
    pub(crate) place: Place,
    pub(crate) name: Bytes,
    info: Option<Info>,
}

impl Model for Spot {
    ghost use Rattle.std.specs.Prelude.{◌≡◌, IfSome};
    ghost use Rattle.md_dirs.specs.declared.paths.Path.{Path};
    ghost use Rattle.md_jobs.specs.Machines.Purposes.{info_in};

    ghost Value = { Path };

    ghost view = { λ s. record { folder = s.folder; place = s.place; name = s.name } };

    ghost invariant = { λ s. IfSome s.info (λ info. info ≡ info_in s.name) };
}

impl Spot {
    /// The place of a name whose info was not read.
    pub(crate) fn new(folder: u32, place: Place, name: Bytes) -> Spot
        ensures { result ≡ path_of folder place name }
    {
        Spot {
            folder,
            place,
            name,
            info: None,
        }
    }

    /// A directory alone: no name. It takes no memory.
    pub(crate) fn nameless(alloc: Global, folder: u32, place: Place) -> Spot
        ensures { result ≡ path_of folder place [] }
    {
        Spot::new(folder, place, Bytes::of(Vec::new(alloc)))
    }

    /// The path, of a copy of the name.
    pub(crate) fn path(&self, alloc: Global) -> Result<Path, AllocError>
        ensures { IfOk result (λ path. path ≡ self.now) }
    {
        Ok(Path {
            folder: self.folder,
            place: self.place,
            name: FileName::copied(alloc, self.name.as_slice())?,
        })
    }

    /// The path, lent.
    pub(crate) fn lent(&self) -> PathRef<'_>
        ensures { result ≡ self.now }
    {
        PathRef::new(self.folder, self.place, self.name.as_slice())
    }

    /// The info of the name. It is read where it was not read before.
    pub(crate) fn info(&self) -> Info
        ensures { result ≡ info_in self.now.name }
    {
        match self.info {
            Some(info) => info,
            None => info_of(self.name.as_slice()),
        }
    }

    /// A name was found, and its info, where that was read.
    pub(crate) fn found(&mut self, name: Bytes, info: Option<Info>)
        requires { IfSome info (λ read. read ≡ info_in name) }
        ensures { self.new ≡ record self.old { name = name } }
    {
        self.name = name;
        self.info = info;
    }

    /// The path, moved out: one without a name stays.
    pub(crate) fn take(&mut self, alloc: Global) -> Spot
        ensures path { result ≡ self.old }
        ensures rest { self.new ≡ path_of self.old.folder self.old.place [] }
    {
        let left = Spot::nameless(alloc, self.folder, self.place);
        replace(self, left)
    }
}
