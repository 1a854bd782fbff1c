//! A stretch by numbers: its steps, its paths and its readers, with what was so of each before it.
use super::asked::{ALL, ANSWER, Asked, Deal, Name, Spot};
use indexmap::IndexMap;
use md_dirs::{Bytes, NameKey, Path, Place};
use md_log::{Call, Reply, Step};
use md_watch::{OpenReading, Presence, Watch};
use std::alloc::{AllocError, Global};
use std::collections::BTreeMap;

#[derive(Clone, Copy)]
struct Directory {
    folder: u32,
    place: Place,
}

impl Directory {
    fn number(self) -> usize {
        self.folder as usize * 3 + self.place as usize
    }
}

/// The number of a directory, and a name: one in it, or that of an actor who reads it.
type Key<'a> = (usize, NameKey<'a>);

/// A map of no key.
fn nothing<'a, V>(alloc: Global) -> IndexMap<Key<'a>, V> {
    IndexMap::new(alloc)
}

/// The steps in the order of the log, and what is asked of the watch, once for each path and reader.
#[derive(Drop)]
pub(super) struct Numbers<'a> {
    pub(super) alloc: Global,
    watch: &'a Watch,
    /// The moment of the first place.
    pub(super) begin: usize,
    pub(super) steps: Vec<Asked>,
    paths: IndexMap<Key<'a>, Presence>,
    readers: IndexMap<Key<'a>, Option<OpenReading<'a>>>,
    /// The names that readings show, one reading after another.
    pub(super) shown: Vec<Name>,
    /// The names that were there of each directory that is read to its end.
    there: BTreeMap<usize, Vec<Name>>,
}

impl<'a> Numbers<'a> {
    /// No step.
    pub(super) fn new(alloc: Global, watch: &'a Watch) -> Self {
        Numbers {
            alloc,
            watch,
            begin: watch.steps(),
            steps: Vec::new(alloc),
            paths: nothing(alloc),
            readers: nothing(alloc),
            shown: Vec::new(alloc),
            there: BTreeMap::new(alloc),
        }
    }

    /// The next step of the log.
    pub(super) fn add(&mut self, step: &'a Step) -> Result<(), AllocError> {
        let asked = match &step.call {
            Call::At { deed, path, reply } => {
                let spot = self.spot(path)?;
                Asked::on(Deal::At(*deed), *reply, spot, spot)
            }
            Call::Between {
                naming,
                old,
                new,
                reply,
            } => {
                let old = self.spot(old)?;
                Asked::on(Deal::Between(*naming), *reply, old, self.spot(new)?)
            }
            Call::List {
                folder,
                place,
                reply,
                shown,
            } => {
                let (folder, place) = (*folder, *place);
                let of = Directory { folder, place };
                self.part(step.actor.as_slice(), of, *reply, shown.as_slice())?
            }
            Call::Answer { .. } => ANSWER,
        };
        let ticks = step.ticks.unwrap_or(asked.ticks);
        self.steps.push(Asked { ticks, ..asked })?;
        Ok(())
    }

    fn spot(&mut self, path: &'a Path) -> Result<Spot, AllocError> {
        let of = Directory {
            folder: path.folder,
            place: path.place,
        };
        let name = self.name(of, path.name.as_slice())?;
        let directory = of.number();
        Ok(Spot { directory, name })
    }

    fn name(&mut self, of: Directory, name: &'a [u8]) -> Result<Name, AllocError> {
        let watch = self.watch;
        let entry = self.paths.entry((of.number(), NameKey::lent(name)))?;
        let number = entry.index();
        entry.or_insert_with(|| watch.presence(of.folder, of.place, name));
        Ok(number)
    }

    /// A part of a reading by an actor.
    fn part(
        &mut self,
        actor: &'a [u8],
        of: Directory,
        reply: Reply,
        shown: &'a [Bytes],
    ) -> Result<Asked, AllocError> {
        if reply == Reply::Ok {
            self.read(of)?;
        }
        let reading = self.watch.reading(actor, of.folder, of.place);
        let reader = (of.number(), NameKey::lent(actor));
        let (reader, _) = self.readers.insert_full(reader, reading)?;
        let begin = self.shown.len();
        for name in shown {
            let name = self.name(of, name.as_slice())?;
            self.shown.push(name)?;
        }
        let spot = Spot {
            directory: of.number(),
            name: ALL,
        };
        Ok(Asked {
            reader,
            shown: (begin, self.shown.len()),
            ..Asked::on(Deal::List, reply, spot, spot)
        })
    }

    /// Numbers the names that were in a directory which is read to its end.
    fn read(&mut self, of: Directory) -> Result<(), AllocError> {
        let directory = of.number();
        if self.there.contains_key(&directory) {
            return Ok(());
        }
        let watch = self.watch;
        let mut names = Vec::new(self.alloc);
        for name in watch.names(of.folder, of.place) {
            names.push(self.name(of, name.as_slice())?)?;
        }
        self.there.insert(directory, names)?;
        Ok(())
    }

    /// A step, by its number from 0.
    pub(super) fn step(&self, at: usize) -> &Asked {
        self.steps.get(at).unwrap_or(&ANSWER)
    }

    /// The names that a reading shows.
    pub(super) fn shown(&self, (begin, end): (usize, usize)) -> &[Name] {
        self.shown.get(begin..end).unwrap_or(&[])
    }

    /// The names that were in a directory which is read to its end.
    pub(super) fn there(&self, directory: usize) -> &[Name] {
        match self.there.get(&directory) {
            None => &[],
            Some(names) => names.as_slice(),
        }
    }

    /// What was so of a path.
    pub(super) fn presence(&self, spot: Spot) -> Presence {
        match self.paths.get_index(spot.name) {
            None => Presence::Gone { last: None },
            Some((_, presence)) => *presence,
        }
    }

    /// The reading of a directory that was not over.
    pub(super) fn reading(&self, reader: usize) -> Option<OpenReading<'a>> {
        let (_, reading) = self.readers.get_index(reader)?;
        *reading
    }

    /// Whether a reading showed a name.
    pub(super) fn has_shown(&self, reading: OpenReading<'_>, name: Name) -> bool {
        self.paths
            .get_index(name)
            .is_some_and(|(key, _)| reading.shows(key.1.as_slice()))
    }
}
