//! When things were there.
ghost use Rattle.std.specs.Prelude.{◌≡◌, ℕ, List, [], None, Some, OnOk, nat_le};
ghost use Rattle.std.specs.List.{list_any};
ghost use Rattle.md_watch.specs.LookUps.{last_of};
ghost use Rattle.md_watch.specs.Spells.{Notes, Passes, always_by, ended_of, ever_by, since_of, spell_at, was_through};

use md_kept::{Table, Taken};
use smallvec::SmallVec;
use std::alloc::{AllocError, Global};

/// Since which moment a thing is there, where it is, and the times at which it was there before, each from its first moment to its last.
/// Mostly there was one, which takes no memory of its own.
#[derive(Drop)]
pub(crate) struct Spell {
    since: usize,
    ended: SmallVec<(usize, usize), 1>,
}

impl Spell {
    /// Of what was always there, or never.
    pub(crate) fn new(alloc: Global) -> Self
        ensures since { since_of (Some result) ≡ 0 }
        ensures ended { ended_of (Some result) ≡ [] }
    {
        Spell {
            since: 0,
            ended: SmallVec::new(alloc),
        }
    }

    /// A step of a number: whether the thing was there before it, and whether it is there after it.
    pub(crate) fn pass(&mut self, was: bool, is: bool, now: usize) -> Result<(), AllocError>
        ensures { OnOk result (Passes was is now (Some self.old) (Some self.new)) }
    {
        if is && !was {
            self.since = now.checked_add(1).ok_or(AllocError)?;
        }
        if was && !is {
            self.ended.push((self.since, now))?;
        }
        Ok(())
    }

    /// Whether a thing that is there now, or not, was there at a moment from one to now.
    pub(crate) fn was_ever(&self, is: bool, first: usize) -> bool
        ensures { result ≡ ever_by is (Some self.now) first }
    {
        is || was_since(self.ended.as_slice(), first)
    }
}

/// When things were there, by a number and a name each. Moments are numbered from 0: the step of a number goes from the moment of that
/// number to the next. Of what was always there, or never, nothing is kept; whether a thing is there now, the caller says.
#[derive(Drop)]
pub(crate) struct Spells {
    alloc: Global,
    all: Table<Spell>,
}

impl Spells {
    pub(crate) fn new(alloc: Global) -> Self
        ensures { (number : ℕ) (name : List ℕ) → spell_at result number name ≡ None }
    {
        Spells {
            alloc,
            all: Table::new(alloc),
        }
    }

    /// A step of a number: whether the thing was there before it, and whether it is there after it.
    pub(crate) fn note(
        &mut self,
        number: usize,
        name: &[u8],
        was: bool,
        is: bool,
        now: usize,
    ) -> Result<(), AllocError>
        ensures { OnOk result (Notes number name.now was is now self.old self.new) }
    {
        if was == is {
            return Ok(());
        }
        let Taken { at, value } = self.all.take(number, name);
        let mut spell = match value {
            None => Spell::new(self.alloc),
            Some(spell) => spell,
        };
        spell.pass(was, is, now)?;
        self.all.put_back(at, number, name, spell)
    }

    /// Whether a thing that is there now, or not, was there at each moment from one to another, which is no later than now.
    pub(crate) fn was_always(
        &self,
        number: usize,
        name: &[u8],
        is: bool,
        first: usize,
        last: usize,
    ) -> bool
        ensures { result ≡ always_by is (spell_at self.now number name.now) first last }
    {
        self.all.get(number, name).map_or(is, |spell| {
            is && spell.since <= first || was_through(spell.ended.as_slice(), first, last)
        })
    }

    /// Whether it was there at a moment from one to now.
    pub(crate) fn was_ever(&self, number: usize, name: &[u8], is: bool, first: usize) -> bool
        ensures { result ≡ ever_by is (spell_at self.now number name.now) first }
    {
        self.all
            .get(number, name)
            .map_or(is, |spell| spell.was_ever(is, first))
    }

    /// Since which moment it is there, where it is.
    pub(crate) fn since(&self, number: usize, name: &[u8]) -> usize
        ensures { result ≡ since_of (spell_at self.now number name.now) }
    {
        self.all.get(number, name).map_or(0, |spell| spell.since)
    }

    /// The last moment at which it was there before.
    pub(crate) fn last(&self, number: usize, name: &[u8]) -> Option<usize>
        ensures { result ≡ last_of (ended_of (spell_at self.now number name.now)) }
    {
        let (_, end) = self.all.get(number, name)?.ended.last()?;
        Some(*end)
    }

    /// Since which moment it was there when it was there last before.
    pub(crate) fn last_since(&self, number: usize, name: &[u8]) -> Option<usize> {
        let (since, _) = self.all.get(number, name)?.ended.last()?;
        Some(*since)
    }
}

/// Whether one of some times, each after the other, goes from a moment to another.
fn was_through(times: &[(usize, usize)], first: usize, last: usize) -> bool
    ensures { result ≡ was_through times.now first last }
{
    for at in (0..times.len()).rev() {
        let (begin, end) = times[at];
        if end < last {
            return false;
        }
        if begin <= first {
            return true;
        }
    }
    false
}

/// Whether one of some times ended no earlier than a moment.
fn was_since(times: &[(usize, usize)], first: usize) -> bool
    ensures { result ≡ list_any (λ t. nat_le first t.1) times.now }
{
    times.iter().any(|time| first <= time.1)
}
