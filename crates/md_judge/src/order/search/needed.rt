//! The steps of which one must come next, so that the step that ends first can come at all.
//!
//! The step that ends first is needed. Of each needed step that doesn't fit, those are needed that can change what it waits for; of each
//! that fits, those that have to do with it. Only steps that may come before the one that ends first are looked at. So until a needed step
//! comes, none that doesn't fit will fit, and each that fits does the same as now.
use super::Search;
use crate::order::asked::{ALL, Asked, Misfit, Name, Spot};
use std::alloc::AllocError;

/// What can become of a place.
#[derive(Clone, Copy)]
pub(super) enum Outlook {
    /// This needed step fits, and isn't asleep. It is the first such step of the log.
    Open(usize),
    /// Each needed step that fits is asleep.
    Tried,
    /// None fits. This is the last moment at which what they wait for was changed, if it was.
    Dead(Option<usize>),
}

impl Outlook {
    /// One more needed step fits.
    fn with_fit(self, at: usize, asleep: &[usize]) -> Self {
        match self {
            Outlook::Open(first) if first < at => self,
            _ if !asleep.contains(&at) => Outlook::Open(at),
            Outlook::Dead(_) => Outlook::Tried,
            _ => self,
        }
    }

    /// One more doesn't, and what it waits for was changed last at this moment.
    fn with_misfit(self, changed: Option<usize>) -> Self {
        match self {
            Outlook::Dead(last) => Outlook::Dead(last.max(changed)),
            _ => self,
        }
    }
}

/// A needed step, and why it doesn't fit, if it doesn't.
#[derive(Clone, Copy)]
struct Need<'a> {
    step: &'a Asked,
    misfit: Option<Misfit>,
}

impl Need<'_> {
    /// The paths of which it waits for a change, or which it has to do with where it fits. There may be one path twice.
    fn spots(&self) -> [Spot; 2] {
        match self.misfit {
            None => [self.step.old, self.step.new],
            Some(why) => [why.spot, why.spot],
        }
    }

    /// Whether another step may make it fit, or has to do with it where it fits.
    fn needs(&self, other: &Asked) -> bool {
        match self.misfit {
            None => !other.is_apart(self.step),
            Some(why) => {
                other.may_change(why.spot) || (why.is_of_reading && other.is_read_with(self.step))
            }
        }
    }
}

impl Search<'_> {
    /// Looks for the needed steps of the last place. It takes as long as the steps that name a path of one of these, or read its directory.
    pub(super) fn outlook(&mut self) -> Result<Outlook, AllocError> {
        let now = self.now();
        let mut outlook = Outlook::Dead(None);
        self.needed.clear();
        if let Some(must) = self.left.must_come() {
            self.needed.insert(must)?;
        }
        for place in 0..self.numbers.steps.len() {
            let Some(at) = self.needed.get_index(place).copied() else {
                break;
            };
            let step = self.numbers.step(at);
            let misfit = self.trial.misfit(step, now)?;
            outlook = match misfit {
                None => outlook.with_fit(at, self.places.asleep()),
                Some(why) => outlook.with_misfit(self.trial.last_change(step, why)),
            };
            self.reach(Need { step, misfit })?;
        }
        self.trial.count_names();
        Ok(outlook)
    }

    /// The steps that a needed step needs are needed too.
    fn reach(&mut self, need: Need<'_>) -> Result<(), AllocError> {
        let [one, two] = need.spots();
        self.reach_near(need, one)?;
        if one != two {
            self.reach_near(need, two)?;
        }
        Ok(())
    }

    /// Those of them that name a path or read its directory, or any path of the directory where it stands for all.
    fn reach_near(&mut self, need: Need<'_>, spot: Spot) -> Result<(), AllocError> {
        if spot.name == ALL {
            return self.reach_from(need, Spot { name: 0, ..spot }, ALL);
        }
        self.reach_from(need, spot, spot.name)?;
        self.reach_from(need, Spot { name: ALL, ..spot }, ALL)
    }

    /// Those of them that name a path of a directory from this to the last of these names.
    fn reach_from(&mut self, need: Need<'_>, from: Spot, last: Name) -> Result<(), AllocError> {
        let mut looks = 0usize;
        for (directory, name, at) in self.left.coming.touching.range(from.key(0)..) {
            if *directory != from.directory || *name > last {
                break;
            }
            looks = looks.saturating_add(1);
            if need.needs(self.numbers.step(*at)) {
                self.needed.insert(*at)?;
            }
        }
        self.trial.count(looks);
        Ok(())
    }
}
