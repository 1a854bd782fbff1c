//! The steps that aren't placed yet, which of them may come next, and which of these go first or touch a path.
use super::asked::{Asked, Deal, SpotKey};
use super::numbers::Numbers;
use super::search::Way;
use std::alloc::AllocError;
use std::collections::BTreeSet;

/// Steps that may come next.
#[derive(Drop)]
pub(super) struct Coming {
    way: Way,
    /// The steps, in the order of the log.
    pub(super) all: BTreeSet<usize>,
    /// Those that go first where they fit, since they change nothing: on the wide way parts of readings alone, which leave the later
    /// stretches as free as they can.
    pub(super) first: BTreeSet<usize>,
    /// The paths that they name, `ALL` for a reading of a directory, each with the number of a step that names it.
    pub(super) touching: BTreeSet<SpotKey>,
}

impl Coming {
    fn add(&mut self, at: usize, step: &Asked) -> Result<(), AllocError> {
        self.all.insert(at)?;
        if step.is_idle() && (self.way == Way::Narrow || step.is_reading()) {
            self.first.insert(at)?;
        }
        if !matches!(step.deal, Deal::Answer) {
            self.touching.insert(step.old.key(at))?;
            self.touching.insert(step.new.key(at))?;
        }
        Ok(())
    }

    fn remove(&mut self, at: usize, step: &Asked) {
        self.all.remove(&at);
        self.first.remove(&at);
        self.touching.remove(&step.old.key(at));
        self.touching.remove(&step.new.key(at));
    }
}

/// The steps that are left. One may come next where none that is left ended before it began.
#[derive(Drop)]
pub(super) struct Left<'a> {
    numbers: &'a Numbers<'a>,
    by_begin: BTreeSet<(u64, usize)>,
    by_end: BTreeSet<(u64, usize)>,
    /// Those that may come next: they begin up to the tick at which the first of all ends.
    pub(super) coming: Coming,
    first_end: u64,
}

impl<'a> Left<'a> {
    /// All steps are left.
    pub(super) fn new(numbers: &'a Numbers<'a>, way: Way) -> Result<Self, AllocError> {
        let alloc = numbers.alloc;
        let mut left = Left {
            numbers,
            by_begin: BTreeSet::new(alloc),
            by_end: BTreeSet::new(alloc),
            coming: Coming {
                way,
                all: BTreeSet::new(alloc),
                first: BTreeSet::new(alloc),
                touching: BTreeSet::new(alloc),
            },
            first_end: 0,
        };
        for at in 0..numbers.steps.len() {
            left.put_back(at)?;
        }
        Ok(left)
    }

    /// The step that ends first, which must come before all those that don't come yet.
    pub(super) fn must_come(&self) -> Option<usize> {
        let (_, at) = self.by_end.first()?;
        Some(*at)
    }

    pub(super) fn take(&mut self, at: usize) -> Result<(), AllocError> {
        let step = self.numbers.step(at);
        self.by_begin.remove(&(step.ticks.begin, at));
        self.by_end.remove(&(step.ticks.end, at));
        self.coming.remove(at, step);
        self.update_coming()
    }

    pub(super) fn put_back(&mut self, at: usize) -> Result<(), AllocError> {
        let step = self.numbers.step(at);
        self.by_begin.insert((step.ticks.begin, at))?;
        self.by_end.insert((step.ticks.end, at))?;
        if step.ticks.begin <= self.first_end {
            self.coming.add(at, step)?;
        }
        self.update_coming()
    }

    /// Where the first end is later than it was, more may come, and where it is earlier, fewer.
    fn update_coming(&mut self) -> Result<(), AllocError> {
        let Some((end, _)) = self.by_end.first().copied() else {
            return Ok(());
        };
        let (from, to) = (end.min(self.first_end), end.max(self.first_end));
        for (begin, at) in self.by_begin.range((from, usize::MAX)..) {
            if *begin > to {
                break;
            }
            let step = self.numbers.step(*at);
            if *begin <= end {
                self.coming.add(*at, step)?;
            } else {
                self.coming.remove(*at, step);
            }
        }
        self.first_end = end;
        Ok(())
    }
}
