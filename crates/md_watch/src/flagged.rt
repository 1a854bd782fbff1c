//! When messages showed flags in cur.
ghost use Rattle.std.specs.Prelude.{◌≡◌, ◌+◌, ℕ, List, [], Some, None, nat_lt, IfOk, OnOk};
ghost use Rattle.std.specs.Option.{option_map};
ghost use Rattle.md_kept.specs.Changes.{turn_of};
ghost use Rattle.md_kept.specs.Files.{lent_as};
ghost use Rattle.md_watch.specs.Flagged.{Adds, Changes, Follows, IsOf, Lends, Puts, Turns, count_after, count_after_at, count_by, count_of, is_in, lent_mark, mark_of, showing_of, spell_by, spell_in, spell_of};
ghost use Rattle.md_watch.specs.Spells.{Passes, ended_of, ever_by, since_of};
ghost use Rattle.md_kept.specs.Tables.{Puts as PutsAt};

use crate::spells::Spell;
use indexmap::IndexMap;
use md_dirs::Path;
use md_kept::{Change, Named, Table, Taken, is_cur};
use md_name::{Flags, split};
use std::alloc::{AllocError, Global};

/// By how many names in cur a message shows a set of flags, and when it did.
#[derive(Drop)]
struct Showing {
    names: usize,
    spell: Spell,
}

impl Showing {
    fn new(alloc: Global) -> Self
        ensures names { result.names ≡ 0 }
        ensures since { since_of (Some result.spell) ≡ 0 }
        ensures ended { ended_of (Some result.spell) ≡ [] }
    {
        Showing {
            names: 0,
            spell: Spell::new(alloc),
        }
    }

    fn is(&self) -> bool
        ensures { result ≡ nat_lt 0 self.now.names }
    {
        self.names > 0
    }

    /// At the beginning one more name shows them.
    fn add(&mut self) -> Result<(), AllocError>
        ensures names { OnOk result (self.new.names ≡ self.old.names + 1) }
        ensures same { self.new.spell ≡ self.old.spell }
    {
        self.names = count_after(true, self.names)?;
        Ok(())
    }

    /// In the step of a number a name comes to show them, or no longer does.
    fn turn(&mut self, comes: bool, now: usize) -> Result<(), AllocError>
        ensures names { OnOk result (self.new.names ≡ count_after comes self.old.names 1) }
        ensures spell { OnOk result
            (Passes (nat_lt 0 self.old.names) (nat_lt 0 self.new.names) now (Some self.old.spell) (Some self.new.spell)) }
    {
        let was = self.is();
        self.names = count_after(comes, self.names)?;
        let is = self.is();
        self.spell.pass(was, is, now)
    }
}

/// One more, or one less.
fn count_after(comes: bool, count: usize) -> Result<usize, AllocError>
    ensures { IfOk result (λ after. after ≡ count_after comes count 1) }
{
    if comes {
        count.checked_add(1).ok_or(AllocError)
    } else {
        Ok(count.saturating_sub(1))
    }
}

/// What is kept of the messages that show one set of flags, by their folders and unique names.
#[derive(Drop)]
struct Shown {
    alloc: Global,
    all: Table<Showing>,
}

impl Shown {
    fn new(alloc: Global) -> Self
        ensures { (folder : ℕ) (unique : List ℕ) → showing_of (Some result) folder unique ≡ None }
    {
        Shown {
            alloc,
            all: Table::new(alloc),
        }
    }

    fn is(&self, folder: usize, unique: &[u8]) -> bool
        ensures { result ≡ nat_lt 0 (count_of (Some self.now) folder unique.now) }
    {
        self.all
            .get(folder, unique)
            .is_some_and(|showing| showing.is())
    }

    /// Whether the message showed the flags at a moment from one to now.
    fn was(&self, folder: usize, unique: &[u8], first: usize) -> bool
        ensures { result
            ≡ ever_by (nat_lt 0 (count_of (Some self.now) folder unique.now)) (spell_of (Some self.now) folder unique.now) first }
    {
        self.all
            .get(folder, unique)
            .is_some_and(|showing| showing.spell.was_ever(showing.is(), first))
    }

    /// At the beginning one more name shows them.
    fn put(&mut self, folder: usize, unique: &[u8]) -> Result<(), AllocError>
        ensures { OnOk result (Adds folder unique.now (Some self.old) (Some self.new)) }
    {
        let (at, mut showing) = self.take(folder, unique);
        showing.add()?;
        self.all.put_back(at, folder, unique, showing)
    }

    /// In the step of a number a name of the message comes to show them, or no longer does.
    fn turn(
        &mut self,
        folder: usize,
        unique: &[u8],
        comes: bool,
        now: usize,
    ) -> Result<(), AllocError>
        ensures { OnOk result (Changes (count_after_at comes folder unique.now) now (Some self.old) (Some self.new)) }
    {
        let (at, mut showing) = self.take(folder, unique);
        showing.turn(comes, now)?;
        self.all.put_back(at, folder, unique, showing)
    }

    /// Takes out what is kept of a message, to be changed and put back where it lies.
    fn take(&mut self, folder: usize, unique: &[u8]) -> (usize, Showing)
        ensures is { IsOf (showing_of (Some self.old) folder unique.now) result.1 }
        ensures puts { PutsAt folder unique.now None self.old.all self.new.all }
    {
        let Taken { at, value } = self.all.take(folder, unique);
        match value {
            None => (at, Showing::new(self.alloc)),
            Some(showing) => (at, showing),
        }
    }
}

/// By how many names in cur each message shows each set of flags, and when it did.
#[derive(Drop)]
pub(crate) struct Flagged {
    alloc: Global,
    /// By the bits of a set of flags.
    sets: IndexMap<u64, Shown>,
}

impl Flagged {
    pub(crate) fn new(alloc: Global) -> Self
        ensures counts { (word folder : ℕ) (unique : List ℕ) → count_by result word folder unique ≡ 0 }
        ensures spells { (word folder : ℕ) (unique : List ℕ) → spell_by result word folder unique ≡ None }
    {
        Flagged {
            alloc,
            sets: IndexMap::new(alloc),
        }
    }

    /// Whether the message shows the flags in cur of the folder.
    pub(crate) fn is_shown(&self, folder: u32, unique: &[u8], flags: Flags) -> bool
        ensures { result ≡ is_in self.now folder unique.now flags }
    {
        self.sets
            .get(&flags.bits())
            .is_some_and(|shown| shown.is(folder as usize, unique))
    }

    /// Whether it showed them at a moment from one to now.
    pub(crate) fn was_shown(&self, folder: u32, unique: &[u8], flags: Flags, first: usize) -> bool
        ensures { result ≡ ever_by (is_in self.now folder unique.now flags) (spell_in self.now folder unique.now flags) first }
    {
        self.sets
            .get(&flags.bits())
            .is_some_and(|shown| shown.was(folder as usize, unique, first))
    }

    /// At the beginning a path names a file.
    pub(crate) fn put(&mut self, path: &Path) -> Result<(), AllocError>
        ensures { OnOk result (Puts path.now self.old self.new) }
    {
        let Some((unique, word)) = mark_of(path) else {
            return Ok(());
        };
        let mut shown = self.lend(word);
        shown.put(path.folder as usize, unique)?;
        self.sets.insert(word, shown)?;
        Ok(())
    }

    /// A step of a number changes paths. One that turns to another file shows once more what it showed, and then once less.
    pub(crate) fn follow(&mut self, change: &Change<'_>, now: usize) -> Result<(), AllocError>
        ensures { OnOk result (Follows (turn_of change.now) now self.old self.new) }
    {
        self.turn(change.named, true, now)?;
        self.turn(change.taken, false, now)?;
        self.turn(change.turned, false, now)
    }

    /// A path comes, or goes.
    fn turn(&mut self, named: Option<Named<'_>>, comes: bool, now: usize) -> Result<(), AllocError>
        ensures { OnOk result (Turns (lent_as named.entry) comes now self.old self.new) }
    {
        let Some((path, _)) = named else {
            return Ok(());
        };
        let Some((unique, word)) = mark_of(path) else {
            return Ok(());
        };
        let mut shown = self.lend(word);
        shown.turn(path.folder as usize, unique, comes, now)?;
        self.sets.insert(word, shown)?;
        Ok(())
    }

    /// Gives what is kept of a set of flags, to be changed and put back.
    fn lend(&mut self, word: u64) -> Shown
        ensures { Lends word result self.old self.new }
    {
        match self.sets.swap_remove(&word) {
            None => Shown::new(self.alloc),
            Some(shown) => shown,
        }
    }
}

/// What a path of cur shows, where it is a message's with flags: the unique name, and the bits of the flags.
fn mark_of(path: &Path) -> Option<(&[u8], u64)>
    ensures { option_map lent_mark result ≡ mark_of path.now }
{
    if !is_cur(path.place) {
        return None;
    }
    match split(path.name.as_slice()) {
        None => None,
        Some((unique, info)) => match info.flags() {
            None => None,
            Some(flags) => Some((unique, flags.bits())),
        },
    }
}
