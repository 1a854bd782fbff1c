//! Calls that are tried on the directories and taken back: whether directories give their replies here.
//!
//! What a call did stands under its moment, so taking it out undoes the call.
use super::asked::{ALL, Asked, Deal, Misfit, Name, Spot, SpotKey};
use super::numbers::Numbers;
use md_log::{Deed, Naming, Reply};
use md_watch::Presence;
use std::alloc::AllocError;
use std::collections::{BTreeMap, BTreeSet};
use std::iter::once;

/// So many steps or names are looked at in about the time of a try.
pub(super) const LOOKS_A_TRY: usize = 32;

/// A part of a reading: the first moment of the reading, unless it is over, and where the names of the part begin and end.
#[derive(Clone, Copy)]
struct Part {
    first: Option<usize>,
    shown: (usize, usize),
}

/// What tried calls make of the directories and of readings. What was so before them stays as it is.
#[derive(Drop)]
pub(super) struct Trial<'a> {
    numbers: &'a Numbers<'a>,
    /// By a path and a moment.
    tried: BTreeMap<SpotKey, Presence>,
    /// By the number of a reader and a moment.
    parts: BTreeMap<(usize, usize), Part>,
    /// Of a part of a reading, by where its names begin, which of them it didn't fit for last.
    watched: BTreeMap<usize, usize>,
    /// How many tries were made: steps of which it was asked whether they fit, or so many looks.
    pub(super) tries: usize,
    /// How many names were looked at that aren't counted as tries yet.
    looks: usize,
}

impl<'a> Trial<'a> {
    /// Nothing is tried yet.
    pub(super) fn new(numbers: &'a Numbers<'a>) -> Self {
        Trial {
            numbers,
            tried: BTreeMap::new(numbers.alloc),
            parts: BTreeMap::new(numbers.alloc),
            watched: BTreeMap::new(numbers.alloc),
            tries: 0,
            looks: 0,
        }
    }

    /// So many steps or names were looked at.
    pub(super) fn count(&mut self, looks: usize) {
        self.tries = self.tries.saturating_add(looks / LOOKS_A_TRY);
    }

    /// Counts the names that were looked at since the last time.
    pub(super) fn count_names(&mut self) {
        let looks = self.looks;
        self.looks = 0;
        self.count(looks);
    }

    /// What was tried of a path last, and its moment.
    fn last_tried(&self, spot: Spot) -> Option<(usize, Presence)> {
        match self.tried.range(..=spot.key(usize::MAX)).next_back() {
            Some((key, tried)) if *key == spot.key(key.2) => Some((key.2, *tried)),
            _ => None,
        }
    }

    /// What was tried of a path last, or is so of it.
    fn presence(&self, spot: Spot) -> Presence {
        match self.last_tried(spot) {
            Some((_, tried)) => tried,
            None => self.numbers.presence(spot),
        }
    }

    fn is_there(&self, spot: Spot) -> bool {
        matches!(self.presence(spot), Presence::There { .. })
    }

    /// Why directories don't give the reply of a call here, if they don't. Any call may fail.
    pub(super) fn misfit(
        &mut self,
        asked: &Asked,
        now: usize,
    ) -> Result<Option<Misfit>, AllocError> {
        self.tries = self.tries.saturating_add(1);
        let defined = match asked.deal {
            Deal::List => return self.misread(asked, now),
            Deal::Answer => return Ok(None),
            Deal::At(_) | Deal::Between(_) => self.defined(asked),
        };
        if asked.reply == Reply::Fault || asked.reply == defined {
            return Ok(None);
        }
        let is_by_old = defined == Reply::NotFound || asked.reply == Reply::NotFound;
        Ok(Some(Misfit {
            spot: if is_by_old { asked.old } else { asked.new },
            is_of_reading: false,
        }))
    }

    /// What a call on one path or two is defined to reply.
    fn defined(&self, asked: &Asked) -> Reply {
        let is_old_there = self.is_there(asked.old);
        match asked.deal {
            Deal::At(Deed::Create) if is_old_there => Reply::Exists,
            Deal::At(Deed::Create) => Reply::Ok,
            _ if !is_old_there => Reply::NotFound,
            Deal::Between(Naming::Link) if self.is_there(asked.new) => Reply::Exists,
            _ => Reply::Ok,
        }
    }

    /// Why a directory doesn't answer a part of a reading so, if it doesn't: by a name that the part shows or lacks, and should not, or by
    /// `ALL` where the reply is none of a reading.
    fn misread(&mut self, asked: &Asked, now: usize) -> Result<Option<Misfit>, AllocError> {
        let begun = self.first(asked);
        let first = begun.unwrap_or(now);
        let wrong = match asked.reply {
            Reply::Fault => None,
            Reply::Ok | Reply::More => match self.wrongly_shown(asked, first)? {
                None if asked.reply == Reply::Ok => self.lacked(asked, first)?,
                wrong => wrong,
            },
            _ => Some(ALL),
        };
        Ok(wrong.map(|name| Misfit {
            spot: Spot { name, ..asked.old },
            is_of_reading: begun.is_some() || !asked.is_alone,
        }))
    }

    /// A name that is shown, and was not there since the reading began. The one that was found last is looked at first, since it is often
    /// still the one: so a reading that waits for many names costs little.
    fn wrongly_shown(&mut self, asked: &Asked, first: usize) -> Result<Option<Name>, AllocError> {
        let (begin, end) = asked.shown;
        // A part that shows nothing begins where the next one does.
        let last = self.watched.get(&begin).copied().unwrap_or(begin).min(end);
        for at in (last..end).chain(begin..last) {
            let Some(name) = self.numbers.shown.get(at).copied() else {
                break;
            };
            self.looks = self.looks.saturating_add(1);
            if let Presence::Gone { last: gone } = self.presence(Spot { name, ..asked.old })
                && gone < Some(first)
            {
                if at != last {
                    self.watched.insert(begin, at)?;
                }
                return Ok(Some(name));
            }
        }
        Ok(None)
    }

    /// The first name that was there all the while, and that no part of the reading shows.
    fn lacked(&mut self, asked: &Asked, first: usize) -> Result<Option<Name>, AllocError> {
        let shown = self.shown_since(asked, first)?;
        let directory = asked.old.directory;
        for name in self.numbers.there(directory) {
            self.looks = self.looks.saturating_add(1);
            if self.lacks(asked, first, &shown, *name) {
                return Ok(Some(*name));
            }
        }
        let mut looks = self.looks;
        let mut lacked = None;
        for ((there, name, _), _) in self.tried.range((directory, 0, 0)..) {
            if *there != directory {
                break;
            }
            looks = looks.saturating_add(1);
            if self.lacks(asked, first, &shown, *name) {
                lacked = Some(*name);
                break;
            }
        }
        self.looks = looks;
        Ok(lacked)
    }

    /// Whether a name was there all the while, and neither is among these names nor was shown before the stretch.
    fn lacks(&self, asked: &Asked, first: usize, shown: &BTreeSet<Name>, name: Name) -> bool {
        match self.presence(Spot { name, ..asked.old }) {
            Presence::There { since, .. } if since <= first && !shown.contains(&name) => {
                let before = self.numbers.reading(asked.reader);
                !before.is_some_and(|reading| reading.begun() == first
                    && self.numbers.has_shown(reading, name))
            }
            _ => false,
        }
    }

    /// The names that the parts of a reading show in the stretch, of which this one is the last.
    fn shown_since(&self, asked: &Asked, first: usize) -> Result<BTreeSet<Name>, AllocError> {
        let reader = asked.reader;
        let earlier = self
            .parts
            .range((reader, first)..)
            .take_while(|(then, _)| then.0 == reader)
            .map(|(_, part)| part.shown);
        let mut all = BTreeSet::new(self.numbers.alloc);
        for shown in earlier.chain(once(asked.shown)) {
            for name in self.numbers.shown(shown) {
                all.insert(*name)?;
            }
        }
        Ok(all)
    }

    /// The last moment at which what a call doesn't fit for was tried to change, if it was.
    pub(super) fn last_change(&self, asked: &Asked, why: Misfit) -> Option<usize> {
        let change = self.last_tried(why.spot).map(|(moment, _)| moment);
        if !why.is_of_reading {
            return change;
        }
        change.max(self.last_part(asked).map(|(moment, _)| moment))
    }

    /// The part that was tried last of readings by the actor, and its moment.
    fn last_part(&self, asked: &Asked) -> Option<(usize, Part)> {
        let last = (asked.reader, usize::MAX);
        match self.parts.range(..=last).next_back() {
            Some(((reader, moment), part)) if *reader == asked.reader => Some((*moment, *part)),
            _ => None,
        }
    }

    /// The first moment of the reading, where it goes on.
    pub(super) fn first(&self, asked: &Asked) -> Option<usize> {
        match self.last_part(asked) {
            Some((_, part)) => part.first,
            None => Some(self.numbers.reading(asked.reader)?.begun()),
        }
    }

    /// Makes a call that fits.
    pub(super) fn make(&mut self, asked: &Asked, now: usize) -> Result<(), AllocError> {
        if asked.is_change() {
            return self.change(asked, now);
        }
        if asked.is_reading() {
            let first = match asked.reply {
                Reply::More => Some(self.first(asked).unwrap_or(now)),
                _ => None,
            };
            let shown = asked.shown;
            self.parts
                .insert((asked.reader, now), Part { first, shown })?;
        }
        Ok(())
    }

    /// A call makes a path be there or go. A rename is noted of both its paths, even where they name one file and so stay.
    fn change(&mut self, asked: &Asked, now: usize) -> Result<(), AllocError> {
        let gone = Presence::Gone { last: Some(now) };
        let old = self.presence(asked.old);
        let file = match (asked.deal, old) {
            (Deal::At(Deed::Unlink), _) => return self.put(asked.old, now, gone),
            (Deal::Between(_), Presence::There { file, .. }) => file,
            // Files are numbered from 0, and those that are made here from the other end.
            _ => usize::MAX.saturating_sub(now),
        };
        let (there, since) = match self.presence(asked.new) {
            Presence::There { file, since } => (Some(file), since),
            Presence::Gone { .. } => (None, now.saturating_add(1)),
        };
        if let Deal::Between(Naming::Rename) = asked.deal {
            let old = if there == Some(file) { old } else { gone };
            self.put(asked.old, now, old)?;
        }
        self.put(asked.new, now, Presence::There { file, since })
    }

    fn put(&mut self, spot: Spot, now: usize, tried: Presence) -> Result<(), AllocError> {
        self.tried.insert(spot.key(now), tried)?;
        Ok(())
    }

    /// Takes back the call that was made at a moment.
    pub(super) fn undo(&mut self, asked: &Asked, now: usize) {
        self.tried.remove(&asked.old.key(now));
        self.tried.remove(&asked.new.key(now));
        self.parts.remove(&(asked.reader, now));
    }
}
