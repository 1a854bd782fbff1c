//! Directories with a hook, which is asked before each call of them.
ghost use Rattle.std.specs.Prelude.{◌≡◌, ◌+◌, ℕ, Bool, true, false, IsErrOf, IfOk, IfErr, OnErr, IsTrue, if◌then◌else◌};
ghost use Rattle.md_dirs.specs.Calls.{Obeys, create, append, link, rename, unlink, list};
ghost use Rattle.md_dirs.specs.Rows.{rows_of, row_named, old_names};
ghost use Rattle.md_dirs.specs.declared.hooked.Called.{Called};
ghost use Rattle.md_dirs.specs.declared.hooked.Called.TheVariants.{One, Link, Rename, Listing};

use crate::calls::{DirError, Dirs};
use crate::hashing::HashSeed;
use crate::paths::{Path, Place};
use crate::rows::{Row, RowRef};
use md_name::{Bytes, FileName};
use std::alloc::{AllocError, Global};
use std::collections::VecDeque;

/// What a call of directories goes to.
#[derive(Clone, Copy)]
pub enum Called<'a> {
    /// A create, an append or an unlink.
    One(&'a Path),
    Link { old: &'a Path, new: &'a Path },
    Rename { old: &'a Path, new: &'a Path },
    /// A listing. A look for one message, or for old files, is a listing of which some rows are kept.
    Listing { folder: u32, place: Place },
}

/// What is asked before each call of directories.
pub trait Hook {
    /// How many calls it stopped.
    ghost stopped: { Self → ℕ };

    /// Whether it lets a call through.
    ghost admits: { Self → Called → Bool };

    /// What a call may leave of it.
    ghost leaves: { Self → Called → Self → Type 0 };

    /// Whether a call that is to be made goes on to the directories; otherwise it answers `Fault`.
    fn is_let_through(&mut self, called: Called<'_>) -> bool
        ensures admits { result ≡ admits self.old called.entry }
        ensures stopped { stopped self.new ≡ if result then stopped self.old else stopped self.old + 1 }
        ensures leaves { leaves self.old called.entry self.new };
}

/// Other directories, with a hook. Each call of which the hook says so is passed on, and so is every look; the others answer `Fault`.
#[derive(Drop)]
pub struct Hooked<D, H> {
    dirs: D,
    hook: H,
}

impl<D: Dirs, H: Hook> Hooked<D, H> {
    /// Directories with a hook.
    pub fn over(dirs: D, hook: H) -> Self
        ensures { result ≡ record { dirs = dirs; hook = hook } }
    {
        Hooked { dirs, hook }
    }

    /// The hook.
    pub fn hook(&self) -> &H
        ensures { result.now ≡ self.now.hook }
    {
        &self.hook
    }

    // Asks the hook of a call.
    fn ask(&mut self, called: Called<'_>) -> Result<(), DirError>
        ensures passed { IfOk result (λ _. IsTrue (H.admits self.old.hook called.entry) × H.stopped self.new.hook ≡ H.stopped self.old.hook) }
        ensures stopped { IfErr result (λ e. (e ≡ DirError.Fault) × (H.admits self.old.hook called.entry ≡ false)
            × H.stopped self.new.hook ≡ H.stopped self.old.hook + 1) }
        ensures leaves { H.leaves self.old.hook called.entry self.new.hook }
        ensures dirs { self.new.dirs ≡ self.old.dirs }
    {
        if self.hook.is_let_through(called) {
            Ok(())
        } else {
            Err(DirError::Fault)
        }
    }
}

impl<D: Dirs, H: Hook> Dirs for Hooked<D, H> {
    ghost use Rattle.md_dirs.specs.Hooks.{and_own, IsTurn};

    ghost device = { λ h. and_own D.device H.stopped h };

    fn create(&mut self, path: &Path, now: u64) -> Result<(), DirError>
        ensures meets { Obeys (create path.now now) (and_own D.device H.stopped self.old) result (and_own D.device H.stopped self.new) }
        ensures turn { IsTurn D.device H.admits H.leaves (One path.entry) (create path.now now) self.old result self.new }
    {
        self.ask(Called::One(path))?;
        self.dirs.create(path, now)
    }

    fn append(&mut self, path: &Path, bytes: &[u8], now: u64) -> Result<(), DirError>
        ensures meets { Obeys (append path.now bytes.now now) (and_own D.device H.stopped self.old) result (and_own D.device H.stopped self.new) }
        ensures turn { IsTurn D.device H.admits H.leaves (One path.entry) (append path.now bytes.now now) self.old result self.new }
    {
        self.ask(Called::One(path))?;
        self.dirs.append(path, bytes, now)
    }

    fn append_body(&mut self, path: &Path, body: &mut Bytes, now: u64) -> Result<(), DirError>
        ensures meets { Obeys (append path.now body.old now) (and_own D.device H.stopped self.old) result (and_own D.device H.stopped self.new) }
        ensures turn { IsTurn D.device H.admits H.leaves (One path.entry) (append path.now body.old now) self.old result self.new }
        ensures body { OnErr result (body.new ≡ body.old) }
    {
        self.ask(Called::One(path))?;
        self.dirs.append_body(path, body, now)
    }

    fn link(&mut self, old: &Path, new: &Path) -> Result<(), DirError>
        ensures meets { Obeys (link old.now new.now) (and_own D.device H.stopped self.old) result (and_own D.device H.stopped self.new) }
        ensures turn { IsTurn D.device H.admits H.leaves (Link old.entry new.entry) (link old.now new.now) self.old result self.new }
    {
        self.ask(Called::Link { old, new })?;
        self.dirs.link(old, new)
    }

    fn rename(&mut self, old: &Path, new: &Path) -> Result<(), DirError>
        ensures meets { Obeys (rename old.now new.now) (and_own D.device H.stopped self.old) result (and_own D.device H.stopped self.new) }
        ensures turn { IsTurn D.device H.admits H.leaves (Rename old.entry new.entry) (rename old.now new.now) self.old result self.new }
    {
        self.ask(Called::Rename { old, new })?;
        self.dirs.rename(old, new)
    }

    fn unlink(&mut self, path: &Path) -> Result<(), DirError>
        ensures meets { Obeys (unlink path.now) (and_own D.device H.stopped self.old) result (and_own D.device H.stopped self.new) }
        ensures turn { IsTurn D.device H.admits H.leaves (One path.entry) (unlink path.now) self.old result self.new }
        ensures no_memory { IsErrOf result DirError.NoMemory → ⊥ }
    {
        self.ask(Called::One(path))?;
        self.dirs.unlink(path)
    }

    fn list(&mut self, folder: u32, place: Place) -> Result<Vec<Row>, DirError>
        ensures meets { Obeys (list folder place) (and_own D.device H.stopped self.old) result (and_own D.device H.stopped self.new) }
        ensures turn { IsTurn D.device H.admits H.leaves (Listing folder place) (list folder place) self.old result self.new }
        ensures rows { IfOk result (λ rows. rows.items ≡ rows_of (D.device self.old.dirs).state folder place) }
    {
        self.ask(Called::Listing { folder, place })?;
        self.dirs.list(folder, place)
    }

    fn find(&mut self, folder: u32, place: Place, unique: &[u8]) -> Result<Option<Row>, DirError>
        ensures meets { Obeys (list folder place) (and_own D.device H.stopped self.old) result (and_own D.device H.stopped self.new) }
        ensures turn { IsTurn D.device H.admits H.leaves (Listing folder place) (list folder place) self.old result self.new }
        ensures row { IfOk result (λ row. row ≡ row_named unique.now (rows_of (D.device self.old.dirs).state folder place)) }
    {
        self.ask(Called::Listing { folder, place })?;
        self.dirs.find(folder, place, unique)
    }

    fn list_old(
        &mut self,
        alloc: Global,
        folder: u32,
        place: Place,
        now: u64,
        seconds: u64,
    ) -> Result<VecDeque<FileName>, DirError>
        ensures meets { Obeys (list folder place) (and_own D.device H.stopped self.old) result (and_own D.device H.stopped self.new) }
        ensures turn { IsTurn D.device H.admits H.leaves (Listing folder place) (list folder place) self.old result self.new }
        ensures names { IfOk result (λ names. names.items ≡ old_names now seconds (rows_of (D.device self.old.dirs).state folder place)) }
    {
        self.ask(Called::Listing { folder, place })?;
        self.dirs.list_old(alloc, folder, place, now, seconds)
    }

    fn folders(&self) -> u32 {
        self.dirs.folders()
    }

    fn hash_seed(&self) -> HashSeed {
        self.dirs.hash_seed()
    }

    fn row_at(&self, folder: u32, place: Place, at: usize) -> Option<RowRef<'_>> {
        self.dirs.row_at(folder, place, at)
    }

    fn rows_from(
        &self,
        alloc: Global,
        folder: u32,
        place: Place,
        from: usize,
    ) -> Result<Vec<RowRef<'_>>, AllocError> {
        self.dirs.rows_from(alloc, folder, place, from)
    }

    fn rows_unordered(
        &self,
        alloc: Global,
        folder: u32,
        place: Place,
    ) -> Result<Vec<RowRef<'_>>, AllocError> {
        self.dirs.rows_unordered(alloc, folder, place)
    }

    // It is no call, so the hook isn't asked.
    fn arrange(&mut self, folder: u32, place: Place) -> Result<(), AllocError>
        ensures device { and_own D.device H.stopped self.new ≡ and_own D.device H.stopped self.old }
        ensures hook { self.new.hook ≡ self.old.hook }
    {
        self.dirs.arrange(folder, place)
    }

    fn count(&self, folder: u32, place: Place) -> usize {
        self.dirs.count(folder, place)
    }

    fn look(&self, folder: u32, place: Place, unique: &[u8]) -> Option<RowRef<'_>> {
        self.dirs.look(folder, place, unique)
    }

    fn holds_each_once(&self, folder: u32, place: Place) -> bool {
        self.dirs.holds_each_once(folder, place)
    }

    fn read(&self, folder: u32, place: Place, name: &[u8]) -> Option<&[u8]> {
        self.dirs.read(folder, place, name)
    }
}
