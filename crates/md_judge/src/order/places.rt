//! The places of an order: the step that was tried at each, and the steps that are asleep there.
use super::asked::Asked;
use super::numbers::Numbers;
use std::alloc::{AllocError, Global};

/// What is known of a place.
#[derive(Clone, Copy, PartialEq, Eq)]
pub(super) enum Sight {
    New,
    /// No step was found that doesn't fit, so it may well be alive.
    Unseen,
    /// The needed steps are to be looked for before a step is tried.
    Wanted,
    /// A needed step is to be tried yet.
    Alive,
    Dead,
}

#[derive(Clone, Copy)]
pub(super) struct Position {
    /// The step that was tried last. It is there where there is a place after this one.
    pub(super) tried: Option<usize>,
    pub(super) sight: Sight,
    /// Where those begin that are asleep here.
    asleep: usize,
}

/// The places so far, of which there is always a last.
#[derive(Drop)]
pub(super) struct Places {
    pub(super) last: Position,
    earlier: Vec<Position>,
    /// Of each place, the steps that were tried there, or at an earlier place with the same outcome.
    asleep: Vec<usize>,
}

impl Places {
    /// The first place.
    pub(super) fn new(alloc: Global) -> Self {
        Places {
            last: Position {
                tried: None,
                sight: Sight::New,
                asleep: 0,
            },
            earlier: Vec::new(alloc),
            asleep: Vec::new(alloc),
        }
    }

    /// How many steps are placed: one at each place before the last.
    pub(super) fn placed(&self) -> usize {
        self.earlier.len()
    }

    /// Opens the place after the one at which a step is put. There those stay asleep that have nothing to do with the step.
    pub(super) fn open(&mut self, numbers: &Numbers<'_>, step: &Asked) -> Result<(), AllocError> {
        let many = self.asleep.len();
        for place in self.last.asleep..many {
            if let Some(other) = self.asleep.get(place).copied()
                && numbers.step(other).is_apart(step)
            {
                self.asleep.push(other)?;
            }
        }
        self.earlier.push(self.last)?;
        self.last = Position {
            tried: None,
            sight: Sight::New,
            asleep: many,
        };
        Ok(())
    }

    /// Closes the last place, and says which step was put at the one before it.
    pub(super) fn close(&mut self) -> Option<usize> {
        let before = self.earlier.pop()?;
        self.asleep.truncate(self.last.asleep);
        self.last = before;
        before.tried
    }

    /// The steps that are asleep at the last place.
    pub(super) fn asleep(&self) -> &[usize] {
        self.asleep.get(self.last.asleep..).unwrap_or(&[])
    }

    /// A step falls asleep at the last place.
    pub(super) fn let_sleep(&mut self, at: usize) -> Result<(), AllocError> {
        self.asleep.push(at)?;
        Ok(())
    }

    /// The steps that are placed.
    pub(super) fn order(&self, alloc: Global) -> Result<Vec<usize>, AllocError> {
        self.earlier
            .iter()
            .filter_map(|position| position.tried)
            .collect(alloc)
    }
}
