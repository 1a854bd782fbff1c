//! Readings of directories, which may come in parts.
ghost use Rattle.std.specs.Prelude.{◌≡◌, ◌∷◌, [], ℕ, List, None, false, IfOk, OnOk};
ghost use Rattle.std.specs.Option.{option_copied};
ghost use Rattle.std.specs.Str.{bytes_eq};
ghost use Rattle.indexmap.specs.IndexSet.{contains};
ghost use Rattle.md_dirs.specs.Index.{directory_number};
ghost use Rattle.md_law.specs.Readings.{Looker};
ghost use Rattle.md_kept.specs.Tables.{Puts};
ghost use Rattle.md_watch.specs.Readings.{Adds, TakesIn, TakesPart, has_then, is_wrong, lacks, looker_of, message_named, reading_in, shows_other};

use crate::spells::Spells;
use indexmap::IndexSet;
use md_dirs::{Bytes, NameKey, Place};
use md_kept::{Directory, Paths, Table, Taken, number_of};
use md_log::{Names, Reply};
use md_name::{is_message, unique_part};
use std::alloc::{AllocError, Global};

/// A part of a reading: who reads which directory, what it answers, and the names that it shows.
#[derive(Clone, Copy)]
pub(crate) struct Part<'a> {
    pub(crate) actor: &'a [u8],
    pub(crate) folder: u32,
    pub(crate) place: Place,
    pub(crate) reply: Reply,
    pub(crate) shown: &'a Names,
}

/// What a part is found to be: whether it is answered as no directory answers it, and the whole reading, where it completes one.
#[derive(Drop)]
pub(crate) struct Found {
    pub(crate) is_wrong: bool,
    pub(crate) whole: Option<Reading>,
}

/// A reading: since which moment it goes, and the names that its parts showed, with the unique names of those that are messages.
#[derive(Drop)]
pub(crate) struct Reading {
    pub(crate) begun: usize,
    pub(crate) names: IndexSet<NameKey<'static>>,
    pub(crate) uniques: IndexSet<NameKey<'static>>,
}

impl Reading {
    fn new(alloc: Global, begun: usize) -> Self
        ensures begun { result.begun ≡ begun }
        ensures names { (name : List ℕ) → contains bytes_eq result.names name ≡ false }
        ensures uniques { (unique : List ℕ) → contains bytes_eq result.uniques unique ≡ false }
    {
        Reading {
            begun,
            names: no_names(alloc),
            uniques: no_names(alloc),
        }
    }

    /// A part shows names.
    fn add(&mut self, alloc: Global, place: Place, shown: &[Bytes]) -> Result<(), AllocError>
        ensures { OnOk result (Adds place shown.now self.old self.new) }
    {
        for name in shown {
            self.show(alloc, place, name.as_slice())?;
        }
        Ok(())
    }

    fn show(&mut self, alloc: Global, place: Place, name: &[u8]) -> Result<(), AllocError>
        ensures { OnOk result (Adds place (name.now ∷ []) self.old self.new) }
    {
        self.names.insert(NameKey::copied(alloc, name)?)?;
        if let Some(unique) = message_named(place, name) {
            self.uniques.insert(NameKey::copied(alloc, unique)?)?;
        }
        Ok(())
    }
}

/// No names. One function makes both sets of a reading, since it is slow to prove of each that it is empty.
fn no_names(alloc: Global) -> IndexSet<NameKey<'static>>
    ensures { (name : List ℕ) → contains bytes_eq result name ≡ false }
{
    IndexSet::new(alloc)
}

/// Whether a name is among these.
pub(crate) fn has(names: &IndexSet<NameKey<'static>>, name: &[u8]) -> bool
    ensures { result ≡ contains bytes_eq names.now name.now }
{
    let key = NameKey::lent(name);
    names.contains(&key)
}

/// The readings of directories that are not over, by the number of the directory and the actor.
#[derive(Drop)]
pub(crate) struct Readings {
    alloc: Global,
    all: Table<Reading>,
}

impl Readings {
    pub(crate) fn new(alloc: Global) -> Self
        ensures { (d : Looker) → reading_in result d ≡ None }
    {
        Readings {
            alloc,
            all: Table::new(alloc),
        }
    }

    /// An actor's reading of a directory.
    pub(crate) fn reading<'a>(
        &'a self,
        actor: &'a [u8],
        folder: u32,
        place: Place,
    ) -> Option<&'a Reading>
        ensures { option_copied result
            ≡ reading_in self.now (record { actor = actor.now; folder = folder; place = place }) }
    {
        self.all.get(number_of(folder, place), actor)
    }

    /// Goes on with a part, which is the step of a number. It changes no directory, so the names that are there, and when they were, may be
    /// those of before the step or after it.
    pub(crate) fn read(
        &mut self,
        part: &Part<'_>,
        paths: &Paths,
        names: &Spells,
        now: usize,
    ) -> Result<Found, AllocError>
        ensures goes_on { IfOk result (λ found.
            TakesPart now (looker_of part.now) part.now.reply part.now.shown.now self.old self.new found.whole) }
        ensures wrong { IfOk result (λ found. found.is_wrong ≡ is_wrong paths.now names.now (looker_of part.now) now
            (reading_in self.old (looker_of part.now)) part.now.reply part.now.shown.now) }
    {
        let number = number_of(part.folder, part.place);
        let directory = paths.directory(part.folder, part.place);
        let shown = part.shown.as_slice();
        let mut reading = self.resume(part, now);
        match part.reply {
            Reply::More => {
                let is_wrong = shows_other(directory, names, number, reading.begun, shown);
                reading.add(self.alloc, part.place, shown)?;
                self.all.put(number, part.actor, reading)?;
                Ok(Found {
                    is_wrong,
                    whole: None,
                })
            }
            Reply::Ok => {
                let shows_other = shows_other(directory, names, number, reading.begun, shown);
                reading.add(self.alloc, part.place, shown)?;
                Ok(Found {
                    is_wrong: shows_other || lacks(directory, names, number, &reading, now),
                    whole: Some(reading),
                })
            }
            Reply::NotFound => Ok(Found {
                is_wrong: true,
                whole: None,
            }),
            Reply::Exists | Reply::Fault => Ok(Found {
                is_wrong: false,
                whole: None,
            }),
        }
    }

    /// The name by which a part, which was taken in, is found to be answered wrongly: one that it shows and that wasn't there, or the one
    /// of the first file that the whole reading lacks.
    pub(crate) fn wrong_name(
        &self,
        part: &Part<'_>,
        whole: Option<&Reading>,
        paths: &Paths,
        names: &Spells,
        now: usize,
    ) -> Result<Option<Bytes>, AllocError> {
        let number = number_of(part.folder, part.place);
        let directory = paths.directory(part.folder, part.place);
        let Some(reading) = whole.or(self.all.get(number, part.actor)) else {
            return Ok(None);
        };
        let shown = part.shown.as_slice();
        let other = shown.iter().find(|name| !had_name(
            directory,
            names,
            number,
            reading.begun,
            name.as_slice(),
        ));
        if let Some(name) = other {
            return Ok(Some(name.again(self.alloc)?));
        }
        match first_lacked(directory, names, number, reading, now) {
            None => Ok(None),
            Some(name) => Ok(Some(Bytes::copied(self.alloc, name)?)),
        }
    }

    /// Takes out the reading that a part goes on with, or begins one.
    fn resume(&mut self, part: &Part<'_>, now: usize) -> Reading
        ensures resumes { TakesIn now (looker_of part.now) [] (reading_in self.old (looker_of part.now)) result }
        ensures taken { Puts (directory_number part.now.folder part.now.place) part.now.actor.now None self.old.all self.new.all }
    {
        let Taken { value, .. } = self
            .all
            .take(number_of(part.folder, part.place), part.actor);
        match value {
            None => Reading::new(self.alloc, now),
            Some(reading) => reading,
        }
    }
}

/// Whether one of these names was in the directory at no moment since the reading began.
fn shows_other(
    directory: Option<&Directory>,
    names: &Spells,
    number: usize,
    begun: usize,
    shown: &[Bytes],
) -> bool
    ensures { result ≡ shows_other (option_copied directory.entry) names.now number begun shown.now }
{
    shown.iter().any(|name| !had_name(directory, names, number, begun, name.as_slice()))
}

fn had_name(
    directory: Option<&Directory>,
    names: &Spells,
    number: usize,
    begun: usize,
    name: &[u8],
) -> bool
    ensures { result ≡ has_then (option_copied directory.entry) names.now number begun name.now }
{
    let is = directory.is_some_and(|directory| directory.file(name).is_some());
    names.was_ever(number, name, is, begun)
}

/// Whether the directory has a name that it had at each moment since the reading began, and that no part shows.
fn lacks(
    directory: Option<&Directory>,
    names: &Spells,
    number: usize,
    reading: &Reading,
    now: usize,
) -> bool
    ensures { result ≡ lacks (option_copied directory.entry) names.now number reading.now.begun (contains bytes_eq reading.now.names) now }
{
    match directory {
        None => false,
        Some(directory) => directory.names().iter().any(|name| {
            let name = name.as_slice();
            !has(&reading.names, name) && names.was_always(number, name, true, reading.begun, now)
        }),
    }
}

/// Of such names the one of the first file.
fn first_lacked<'a>(
    directory: Option<&'a Directory>,
    names: &Spells,
    number: usize,
    reading: &Reading,
    now: usize,
) -> Option<&'a [u8]> {
    let mut first = None;
    for (name, file) in directory?.files() {
        let is_before = match first {
            None => true,
            Some((least, _)) => *file < least,
        };
        let name = name.as_slice();
        let is_shown = has(&reading.names, name);
        if is_before && !is_shown && names.was_always(number, name, true, reading.begun, now) {
            first = Some((*file, name));
        }
    }
    let (_, name) = first?;
    Some(name)
}

/// The unique name of a message, where a name of a directory is one.
fn message_named(place: Place, name: &[u8]) -> Option<&[u8]>
    ensures { option_copied result ≡ message_named place name.now }
{
    let unique = unique_part(name);
    if place == Place::Tmp || !is_message(name, unique) {
        return None;
    }
    Some(unique)
}
