//! Listings of folders, which are readings of new and cur.
ghost use Rattle.std.specs.Prelude.{◌≡◌, ◌||◌, ℕ, List, Some, None, true, OnOk, IfOk};
ghost use Rattle.std.specs.List.{list_any};
ghost use Rattle.std.specs.Option.{option_copied};
ghost use Rattle.std.specs.Str.{bytes_eq};
ghost use Rattle.indexmap.specs.IndexSet.{contains};
ghost use Rattle.md_watch.specs.Listings.{Breaks, Completes, Joins, listing_in, place_of, is_completed_by, is_shown, was_always, is_left_out, is_lacked, is_unlisted, always_during};
ghost use Rattle.md_watch.specs.Spells.{spell_at};
ghost use Rattle.md_kept.specs.Tables.{Puts, count_at, value_at};

use crate::presences::Presences;
use crate::readings::{Part, Reading, has};
use crate::spells::Spells;
use indexmap::IndexSet;
use md_dirs::{Bytes, NameKey, Place};
use md_kept::{Paths, Table, Taken};
use md_name::{is_message, unique_part};
use std::alloc::{AllocError, Global};

/// A listing that is not complete.
#[derive(Drop)]
pub(crate) struct Listing {
    /// It has read cur, and not new; else new, and not cur.
    of_cur: bool,
    /// From when to when each of its readings went.
    spans: Vec<(usize, usize)>,
    /// The unique names of the messages that they showed.
    uniques: IndexSet<NameKey<'static>>,
    /// How many breaks its actor had made when it began: with one more it is broken off.
    breaks: usize,
}

/// The listings that are not complete.
#[derive(Drop)]
pub(crate) struct Listings {
    alloc: Global,
    /// By the folder and the actor, with some that were broken off.
    all: Table<Listing>,
    /// How many breaks actors made, which are calls that read nothing. By 0 and the names of actors.
    breaks: Table<usize>,
}

/// What is there of a folder: the names of new and of cur, and when its messages were there.
#[derive(Clone, Copy)]
pub(crate) struct Present<'a> {
    pub(crate) folder: u32,
    pub(crate) new: &'a [NameKey<'static>],
    pub(crate) cur: &'a [NameKey<'static>],
    pub(crate) presences: &'a Presences,
}

impl Listings {
    pub(crate) fn new(alloc: Global) -> Self
        ensures { (folder : ℕ) (actor : List ℕ) → value_at result.all folder actor ≡ None }
    {
        Listings {
            alloc,
            all: Table::new(alloc),
            breaks: Table::new(alloc),
        }
    }

    /// A call of an actor, which reads nothing, breaks its listings off.
    pub(crate) fn break_off(&mut self, actor: &[u8]) -> Result<(), AllocError>
        ensures { OnOk result (Breaks actor.now self.old self.new) }
    {
        self.breaks.raise(0, actor)
    }

    /// An actor completed a reading of a directory at the step of a number. One of tmp is no part of a listing.
    pub(crate) fn complete(
        &mut self,
        actor: &[u8],
        folder: u32,
        place: Place,
        reading: Reading,
        now: usize,
    ) -> Result<(), AllocError>
        ensures { OnOk result (Completes actor.now folder place reading now self.old self.new) }
    {
        match place {
            Place::Tmp => Ok(()),
            Place::New => self.join(actor, folder, false, reading, now),
            Place::Cur => self.join(actor, folder, true, reading, now),
        }
    }

    fn join(
        &mut self,
        actor: &[u8],
        folder: u32,
        of_cur: bool,
        reading: Reading,
        now: usize,
    ) -> Result<(), AllocError>
        ensures { OnOk result (Completes actor.now folder (place_of of_cur) reading now self.old self.new) }
    {
        let folder = folder as usize;
        let listing = match self.take(folder, actor) {
            None => self.begin(actor, of_cur, reading, now)?,
            Some(listing) => {
                if listing.of_cur != of_cur {
                    return Ok(());
                }
                listing.join(reading, now)?
            }
        };
        self.all.put(folder, actor, listing)
    }

    /// It begins with a reading that is complete at a moment.
    fn begin(
        &self,
        actor: &[u8],
        of_cur: bool,
        reading: Reading,
        now: usize,
    ) -> Result<Listing, AllocError>
        ensures joins { IfOk result (λ listing. Joins (place_of of_cur) reading now None (Some listing)) }
        ensures breaks { IfOk result (λ listing. listing.breaks ≡ count_at self.now.breaks 0 actor.now) }
    {
        let mut spans = Vec::new(self.alloc);
        spans.push((reading.begun, now))?;
        Ok(Listing {
            of_cur,
            spans,
            uniques: reading.uniques,
            breaks: self.breaks.count(0, actor),
        })
    }

    /// Takes out the listing of the folder by the actor, where it was not broken off.
    fn take(&mut self, folder: usize, actor: &[u8]) -> Option<Listing>
        ensures taken { result ≡ listing_in self.old folder actor.now }
        ensures puts { Puts folder actor.now None self.old.all self.new.all }
        ensures alloc { self.new.alloc ≡ self.old.alloc }
        ensures breaks { self.new.breaks ≡ self.old.breaks }
    {
        let Taken { value, .. } = self.all.take(folder, actor);
        let listing = value?;
        if listing.breaks != self.breaks.count(0, actor) {
            return None;
        }
        Some(listing)
    }

    /// The listing of the folder by the actor, where it was not broken off.
    fn get<'a>(&'a self, folder: usize, actor: &'a [u8]) -> Option<&'a Listing>
        ensures { option_copied result ≡ listing_in self.now folder actor.now }
    {
        let listing = self.all.get(folder, actor)?;
        if listing.breaks != self.breaks.count(0, actor) {
            return None;
        }
        Some(listing)
    }

    /// Whether a reading of a directory, which an actor completes by the step of a number, completes a listing that lacks a message which
    /// was there all the while. It is asked before the reading is taken in.
    pub(crate) fn is_unlisted(
        &self,
        actor: &[u8],
        place: Place,
        reading: &Reading,
        now: usize,
        present: &Present<'_>,
    ) -> bool
        ensures { result ≡ is_unlisted (listing_in self.now present.now.folder actor.now) place reading.now now present.now }
    {
        match self.get(present.folder as usize, actor) {
            None => false,
            Some(listing) => {
                listing.is_completed_by(place)
                    && (listing.lacks(reading, now, present, present.new)
                        || listing.lacks(reading, now, present, present.cur))
            }
        }
    }

    /// Where such a listing lacks a message, the unique name of that of the first file. It is asked before the reading is taken in.
    pub(crate) fn left_out(
        &self,
        is_unlisted: bool,
        part: &Part<'_>,
        reading: &Reading,
        now: usize,
        present: &Present<'_>,
        paths: &Paths,
    ) -> Result<Option<Bytes>, AllocError> {
        if !is_unlisted {
            return Ok(None);
        }
        let Some(listing) = self.get(part.folder as usize, part.actor) else {
            return Ok(None);
        };
        match listing.first_lacked(reading, now, present, paths) {
            None => Ok(None),
            Some(unique) => Ok(Some(Bytes::copied(self.alloc, unique)?)),
        }
    }
}

impl Listing {
    /// The unique name of the message of the first file that was there all the while, and that neither the reading shows nor those before.
    fn first_lacked<'a>(
        &self,
        reading: &Reading,
        now: usize,
        present: &Present<'_>,
        paths: &'a Paths,
    ) -> Option<&'a [u8]> {
        let mut first = None;
        for place in [Place::New, Place::Cur] {
            let Some(directory) = paths.directory(present.folder, place) else {
                continue;
            };
            for (name, file) in directory.files() {
                let name = name.as_slice();
                let is_before = match first {
                    None => true,
                    Some((least, _)) => *file < least,
                };
                if is_before && self.is_lacked(reading, now, present, name) {
                    first = Some((*file, name));
                }
            }
        }
        let (_, name) = first?;
        Some(unique_part(name))
    }

    /// It goes on with a reading of the same place.
    fn join(mut self, reading: Reading, now: usize) -> Result<Self, AllocError>
        ensures joins { IfOk result (λ listing. Joins (place_of self.of_cur) reading now (Some self) (Some listing)) }
        ensures breaks { IfOk result (λ listing. listing.breaks ≡ self.breaks) }
    {
        self.spans.push((reading.begun, now))?;
        join_names(&mut self.uniques, reading.uniques)?;
        Ok(self)
    }

    /// Whether a reading of the place completes it.
    fn is_completed_by(&self, place: Place) -> bool
        ensures { result ≡ is_completed_by place self.now }
    {
        match place {
            Place::Tmp => false,
            Place::New => self.of_cur,
            Place::Cur => !self.of_cur,
        }
    }

    /// Whether one of these names is of a message that was there all the while, and that neither the reading shows nor those before it.
    fn lacks(
        &self,
        reading: &Reading,
        now: usize,
        present: &Present<'_>,
        names: &[NameKey<'static>],
    ) -> bool
        ensures { result ≡ list_any (is_lacked self.now reading.now now present.now) names.now }
    {
        names.iter().any(|name| self.is_lacked(reading, now, present, name.as_slice()))
    }

    fn is_lacked(&self, reading: &Reading, now: usize, present: &Present<'_>, name: &[u8]) -> bool
        ensures { result ≡ is_lacked self.now reading.now now present.now name.now }
    {
        let unique = unique_part(name);
        is_message(name, unique) && self.is_left_out(reading, now, present, unique)
    }

    /// Most messages are shown, so this is asked first.
    fn is_left_out(
        &self,
        reading: &Reading,
        now: usize,
        present: &Present<'_>,
        unique: &[u8],
    ) -> bool
        ensures { result ≡ is_left_out self.now reading.now now present.now unique.now }
    {
        !self.is_shown(reading, unique) && self.was_always(reading, now, present, unique)
    }

    /// Whether the reading shows the message, or one before it does.
    fn is_shown(&self, reading: &Reading, unique: &[u8]) -> bool
        ensures { result ≡ is_shown self.now reading.now unique.now }
    {
        has(&reading.uniques, unique) || has(&self.uniques, unique)
    }

    /// Whether a message that is there was there at each moment of the reading, and of those before it.
    fn was_always(
        &self,
        reading: &Reading,
        now: usize,
        present: &Present<'_>,
        unique: &[u8],
    ) -> bool
        ensures { result ≡ was_always self.now reading.now now present.now unique.now }
    {
        let folder = present.folder as usize;
        let messages = &present.presences.messages;
        messages.was_always(folder, unique, true, reading.begun, now)
            && was_during(messages, folder, unique, self.spans.as_slice())
    }
}

/// Adds names to others.
fn join_names(
    names: &mut IndexSet<NameKey<'static>>,
    more: IndexSet<NameKey<'static>>,
) -> Result<(), AllocError>
    ensures { OnOk result
        ((name : List ℕ) → contains bytes_eq names.new name ≡ (contains bytes_eq more.entry name || contains bytes_eq names.old name)) }
{
    let mut more = more;
    names.append(&mut more)
}

/// Whether a message that is there was there at each moment of some spans.
fn was_during(messages: &Spells, folder: usize, unique: &[u8], spans: &[(usize, usize)]) -> bool
    ensures { result ≡ always_during true (spell_at messages.now folder unique.now) spans.now }
{
    spans.iter().all(|span| messages.was_always(folder, unique, true, span.0, span.1))
}
