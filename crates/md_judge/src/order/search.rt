//! The search for an order of steps whose calls overlap.
//!
//! The steps are placed one after another. A step may come next where no step that isn't placed ended before it began. A place is dead if
//! no order of all steps begins with the steps that were placed before it. The search goes back from dead places alone, so it finds an
//! order where there is one. It knows a dead place by four rules:
//!
//! - What the step that ends first waits for can only be done by steps that may come before it: all these are needed (`needed.rt`). If none
//!   of them fits, the place is dead. So is each place before it, back to the last step that changed what they wait for: the steps placed
//!   after that one had nothing to do with it.
//! - If all needed steps that fit were tried, the place is dead: of an order that begins so, the first needed step can be put here.
//! - A step that changes nothing, and fits, can be put here in each order that begins so. If it was tried, the place is dead.
//! - A step that was tried is asleep until one comes that has to do with it: before that it would come to the same (Godefroid,
//!   "Partial-Order Methods for the Verification of Concurrent Systems", section 5; the needed steps are his persistent sets).
mod needed;

use super::left::Left;
use super::numbers::Numbers;
use super::places::{Places, Sight};
use super::trial::{LOOKS_A_TRY, Trial};
use super::{NoOrder, Unplaced};
use indexmap::IndexSet;
use needed::Outlook;
use std::alloc::AllocError;

/// Which steps are tried at a place.
#[derive(Clone, Copy, PartialEq, Eq)]
pub(super) enum Way {
    /// A part of a reading that fits, or else all that may come there, in the order of the log.
    Wide,
    /// A step that changes nothing and fits, or else those that are needed, in the order of the log.
    Narrow,
}

impl Way {
    /// How many tries are made at most: so many, and as many more for each step, and for each 32 names that readings show.
    fn most_tries(self, numbers: &Numbers<'_>) -> usize {
        let (least, a_step) = match self {
            Way::Wide => (10_000usize, 16usize),
            Way::Narrow => (100_000, 128),
        };
        let names = numbers.shown.len() / LOOKS_A_TRY;
        let many = numbers.steps.len().saturating_add(names);
        a_step.saturating_mul(many).saturating_add(least)
    }
}

#[derive(Drop)]
pub(super) struct Search<'a> {
    numbers: &'a Numbers<'a>,
    way: Way,
    trial: Trial<'a>,
    left: Left<'a>,
    places: Places,
    /// The needed steps of a place, in the order in which they were found.
    needed: IndexSet<usize>,
    /// How many steps were placed at most, and the first step that could have come next there.
    deepest: usize,
    stuck: usize,
}

impl<'a> Search<'a> {
    /// A search that has placed no step.
    pub(super) fn new(numbers: &'a Numbers<'a>, way: Way) -> Result<Self, AllocError> {
        Ok(Search {
            numbers,
            way,
            trial: Trial::new(numbers),
            left: Left::new(numbers, way)?,
            places: Places::new(numbers.alloc),
            needed: IndexSet::new(numbers.alloc),
            deepest: 0,
            stuck: 0,
        })
    }

    /// The numbers of the steps in the order that is found.
    pub(super) fn find(&mut self) -> Result<Vec<usize>, NoOrder> {
        let found = self.run();
        let step = self.stuck;
        found.map_err(|why| NoOrder { step, why })
    }

    fn run(&mut self) -> Result<Vec<usize>, Unplaced> {
        let most = self.way.most_tries(self.numbers);
        self.mark_deepest(0);
        for _ in 0..u64::MAX {
            if self.left.coming.all.is_empty() {
                return Ok(self.places.order(self.numbers.alloc)?);
            }
            if self.trial.tries > most {
                break;
            }
            self.go_on()?;
        }
        Err(Unplaced::TooManyOrders)
    }

    /// Notes how far the search came, if it never came further.
    fn mark_deepest(&mut self, placed: usize) {
        if placed >= self.deepest
            && let Some(first) = self.left.coming.all.first()
        {
            self.stuck = *first;
            self.deepest = placed.saturating_add(1);
        }
    }

    /// The moment of the last place.
    fn now(&self) -> usize {
        self.numbers.begin.saturating_add(self.places.placed())
    }

    /// Looks at the last place, tries its next step, or goes back.
    fn go_on(&mut self) -> Result<(), Unplaced> {
        match self.places.last.sight {
            Sight::New => self.begin(),
            Sight::Wanted => self.look(),
            Sight::Dead => self.go_back_one(),
            Sight::Unseen | Sight::Alive => match self.next() {
                Some(at) => self.attempt(at),
                None => self.go_back_one(),
            },
        }
    }

    /// Tries a step that goes first at the last place, if one fits.
    fn begin(&mut self) -> Result<(), Unplaced> {
        match self.find_first()? {
            Some(at) if self.places.asleep().contains(&at) => self.go_back_one(),
            Some(at) => self.attempt(at),
            None => {
                self.places.last.sight = match self.way {
                    Way::Wide => Sight::Unseen,
                    Way::Narrow => Sight::Wanted,
                };
                Ok(())
            }
        }
    }

    /// The first step of the log that may come next, goes first, and fits.
    fn find_first(&mut self) -> Result<Option<usize>, AllocError> {
        let now = self.now();
        let mut found = None;
        for at in self.left.coming.first.iter() {
            if self.trial.misfit(self.numbers.step(*at), now)?.is_none() {
                found = Some(*at);
                break;
            }
        }
        self.trial.count_names();
        Ok(found)
    }

    /// The first step of the log after the one that was tried last which may come next, and isn't asleep.
    fn next(&mut self) -> Option<usize> {
        let from = match self.places.last.tried {
            None => 0,
            Some(at) => at.saturating_add(1),
        };
        let asleep = self.places.asleep();
        let mut passed = 0;
        let mut found = None;
        for at in self.left.coming.all.range(from..) {
            if !asleep.contains(at) {
                found = Some(*at);
                break;
            }
            passed = asleep.len().saturating_add(passed);
        }
        self.trial.count(passed);
        found
    }

    /// Tries a step at the last place. If it fits it is put there, and the next place is opened.
    fn attempt(&mut self, at: usize) -> Result<(), Unplaced> {
        let now = self.now();
        let step = self.numbers.step(at);
        self.places.last.tried = Some(at);
        if self.trial.misfit(step, now)?.is_some() {
            if self.places.last.sight == Sight::Unseen {
                self.places.last.sight = Sight::Wanted;
            }
            return Ok(());
        }
        self.trial.count(self.places.asleep().len());
        self.trial.make(step, now)?;
        self.left.take(at)?;
        let placed = self.places.placed().saturating_add(1);
        self.mark_deepest(placed);
        Ok(self.places.open(self.numbers, step)?)
    }

    /// Looks for the needed steps of the last place, and goes back where it is dead. On the narrow way it tries one of them.
    fn look(&mut self) -> Result<(), Unplaced> {
        match self.outlook()? {
            Outlook::Open(at) if self.way == Way::Narrow => self.attempt(at),
            Outlook::Open(_) => {
                self.places.last.sight = Sight::Alive;
                Ok(())
            }
            Outlook::Tried => self.go_back_one(),
            Outlook::Dead(moment) => self.go_back(moment),
        }
    }

    /// Takes back the step before the last place.
    fn go_back_one(&mut self) -> Result<(), Unplaced> {
        self.go_back(Some(usize::MAX))
    }

    /// Takes back the steps of the last places, back to one of a moment or earlier, which is not tried there again. If it changes nothing,
    /// no other is tried there. There is no order where there is no such step.
    fn go_back(&mut self, moment: Option<usize>) -> Result<(), Unplaced> {
        for _ in 0..self.places.placed() {
            let Some(at) = self.places.close() else {
                break;
            };
            let now = self.now();
            let step = self.numbers.step(at);
            self.trial.undo(step, now);
            self.left.put_back(at)?;
            if Some(now) <= moment {
                self.places.let_sleep(at)?;
                self.places.last.sight = if step.is_idle() {
                    Sight::Dead
                } else {
                    Sight::Wanted
                };
                return Ok(());
            }
        }
        Err(Unplaced::NoOrder)
    }
}
