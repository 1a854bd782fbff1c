//! What is told of directories as they are before the next step, by what is kept.
ghost use Rattle.std.specs.Prelude.{◌≡◌, ℕ, List, is_some};
ghost use Rattle.std.specs.List.{list_any};
ghost use Rattle.std.specs.Option.{option_map};
ghost use Rattle.std.specs.Str.{bytes_eq};
ghost use Rattle.indexmap.specs.IndexSet.{contains};
ghost use Rattle.md_dirs.specs.Index.{directory_number};
ghost use Rattle.md_dirs.specs.Path.{path_of};
ghost use Rattle.md_dirs.specs.State.{file_at};
ghost use Rattle.md_law.specs.History.{History, at};
ghost use Rattle.md_kept.specs.Changes.{file_in};
ghost use Rattle.md_watch.specs.LookUps.{presence_by, file_of};
ghost use Rattle.md_watch.specs.Memory.{steps_of};
ghost use Rattle.md_watch.specs.Readings.{reading_in};
ghost use Rattle.md_watch.specs.Spells.{spell_at};
ghost use Rattle.md_watch.specs.Watches.{Holds};

use super::Watch;
use crate::readings::{Reading, has};
use md_dirs::{NameKey, Place};
use md_kept::number_of;

/// What is so of a path: its file, and since which moment it is there; or the moment at which it was there last, if it ever was. Moments
/// are numbered from 0: the step of a number goes from the moment of that number to the next.
#[derive(Clone, Copy)]
pub enum Presence {
    There { file: usize, since: usize },
    Gone { last: Option<usize> },
}

/// A reading of a directory that is not over.
#[derive(Clone, Copy)]
pub struct OpenReading<'a> {
    reading: &'a Reading,
}

impl OpenReading<'_> {
    /// The moment since which it goes.
    pub fn begun(&self) -> usize
        ensures { result ≡ self.now.reading.now.begun }
    {
        self.reading.begun
    }

    /// Whether a part of it showed a name.
    pub fn shows(&self, name: &[u8]) -> bool
        ensures { result ≡ contains bytes_eq self.now.reading.now.names name.now }
    {
        has(&self.reading.names, name)
    }
}

impl Watch {
    /// How many steps were taken, which is the number of the next one.
    pub fn steps(&self) -> usize
        ensures { (h : History) → Holds h self.now → result ≡ steps_of h }
    {
        self.memory.steps
    }

    /// What is so of the path of a name in a directory.
    pub fn presence(&self, folder: u32, place: Place, name: &[u8]) -> Presence
        ensures kept { result ≡ presence_by (file_in self.now.paths (path_of folder place name.now))
            (spell_at self.now.memory.presences.names (directory_number folder place) name.now) }
        ensures file { (h : History) → Holds h self.now → file_of result ≡ file_at (at h) (path_of folder place name.now) }
    {
        let names = &self.memory.presences.names;
        let number = number_of(folder, place);
        match self.paths.file_named(folder, place, name) {
            Some(file) => Presence::There {
                file,
                since: names.since(number, name),
            },
            None => Presence::Gone {
                last: names.last(number, name),
            },
        }
    }

    /// The names of a directory, in no order.
    pub fn names(&self, folder: u32, place: Place) -> &[NameKey<'static>]
        ensures { (h : History) → Holds h self.now
            → (name : List ℕ) → list_any (bytes_eq name) result.now ≡ is_some (file_at (at h) (path_of folder place name)) }
    {
        self.paths.names(folder, place)
    }

    /// An actor's reading of a directory, if one is not over.
    pub fn reading<'a>(
        &'a self,
        actor: &'a [u8],
        folder: u32,
        place: Place,
    ) -> Option<OpenReading<'a>>
        ensures { option_map (λ r. r.reading.now) result
            ≡ reading_in self.now.memory.readings (record { actor = actor.now; folder = folder; place = place }) }
    {
        let reading = self.memory.readings.reading(actor, folder, place)?;
        Some(OpenReading { reading })
    }
}
